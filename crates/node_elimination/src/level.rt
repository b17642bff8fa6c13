//! The system of one level, and its solution.

ghost use Rattle.std.specs.Prelude.{◌≡◌, ℕ, ◌+◌, ◌-◌, ◌*◌, ◌<◌, ◌≤◌, Bool, true, false, nat_le, ◌&&◌, ◌||◌, List, [], ◌∷◌, ◌++◌, length, IfOk, OnOk, is_some, if◌then◌else◌};
ghost use Rattle.switch_paths.specs.Graphs.{nodes, level_of, place_at};
ghost use Rattle.bool_pool.specs.Words.{Extends, value_at, IsFormed};
ghost use Rattle.node_elimination.specs.Words.{AreFormulas, Grows, IsSquare, IsWhole, formulas_of, right_at, right, Moves, PutsRight, PutsRights, IsConstant, reached_base, value_of, AddsLink, AddsLinks, AllLeft, IsFresh, IsPlace, link_formulas, AreLinks, root_base, SolvesLinks, system_cost};
ghost use Rattle.group_analysis.specs.Meaning.{switch_count};

use crate::solve::{or_and, solve};
use crate::system::System;
use bool_pool::{Id, Pool};
use std::alloc::Global;
use std::sync::ledger::Ledger;
use switch_paths::Graph;
use ternary::{NoMemory, Steps};

/// What the links of a level are made of.
#[derive(Clone, Copy)]
pub(crate) struct Links<'a> {
    pub(crate) graph: &'a Graph,
    /// The level: weaker switches link nothing.
    pub(crate) level: u8,
    /// For each member: whether it takes what comes to it.
    pub(crate) gates: &'a [Id],
    /// For each place: whether its switch lets through what comes.
    pub(crate) passes: &'a [Id],
    /// For each node that is no member: whether something comes from it.
    pub(crate) sources: &'a [Id],
}

/// Solves the equations of the members that definite paths reach, at the level of the links: one formula for each
/// member.
///
/// The unknowns of `system` are the members, all of them left. At an error it is of no use any more.
pub(crate) fn reach<L: Ledger>(
    alloc: Global,
    pool: &mut Pool,
    system: &mut System,
    links: &Links<'_>,
    falsehood: Id,
    truth: Id,
    steps: &mut Steps<L>,
) -> Result<Vec<Id>, NoMemory>
    requires left { AllLeft system.old }
    requires falsehood { IsConstant false pool.old falsehood }
    requires truth { IsConstant true pool.old truth }
    requires fit { AreLinks links.now system.old.size pool.old }
    ensures extends { Extends pool.old pool.new }
    ensures size { OnOk result (system.new.size ≡ system.old.size) }
    ensures left { OnOk result (system.new.left ≡ system.old.left) }
    ensures count { IfOk result (λ answers. length answers.items ≡ system.old.size) }
    ensures formulas { IfOk result (λ answers. AreFormulas pool.new answers.items) }
    ensures solves { IfOk result (λ answers. SolvesLinks links.now system.old.size
        (λ vars. reached_base links.now.graph.now links.now.level) pool.old pool.new answers.items) }
    ensures grows { IfOk result (λ answers. Grows pool.old
        (link_formulas links.now) pool.new answers.items (steps.new - steps.old)) }
    ensures rises { steps.old ≤ steps.new }
    ensures few { steps.new ≤ steps.old + system_cost system.old.size (switch_count links.now.graph.now) }
{
    system.reset(falsehood);
    put_levels(system, links, falsehood, truth);
    solve_level(alloc, pool, system, links, steps)
}

/// Solves the equations of what drives the members to a rail, at the level of the links, whose gates say which members
/// are clear of stronger definite paths and whose sources are the rail: one formula for each member. `above` has
/// those of the next level.
///
/// The unknowns of `system` are the members, all of them left. At an error it is of no use any more.
pub(crate) fn drive<L: Ledger>(
    alloc: Global,
    pool: &mut Pool,
    system: &mut System,
    links: &Links<'_>,
    falsehood: Id,
    above: &[Id],
    steps: &mut Steps<L>,
) -> Result<Vec<Id>, NoMemory>
    requires left { AllLeft system.old }
    requires falsehood { IsConstant false pool.old falsehood }
    requires fit { AreLinks links.now system.old.size pool.old }
    requires above { system.old.size ≤ length above.now }
    requires formulas { AreFormulas pool.old above.now }
    ensures extends { Extends pool.old pool.new }
    ensures size { OnOk result (system.new.size ≡ system.old.size) }
    ensures left { OnOk result (system.new.left ≡ system.old.left) }
    ensures count { IfOk result (λ answers. length answers.items ≡ system.old.size) }
    ensures formulas { IfOk result (λ answers. AreFormulas pool.new answers.items) }
    ensures solves { IfOk result (λ answers. SolvesLinks links.now system.old.size
        (root_base links.now pool.old above.now) pool.old pool.new answers.items) }
    ensures grows { IfOk result (λ answers. Grows pool.old
        (above.now ++ link_formulas links.now) pool.new answers.items (steps.new - steps.old)) }
    ensures rises { steps.old ≤ steps.new }
    ensures few { steps.new ≤ steps.old
        + (2 * system.old.size + system_cost system.old.size (switch_count links.now.graph.now)) }
{
    system.reset(falsehood);
    put_roots(pool, system, links, above, steps)?;
    solve_level(alloc, pool, system, links, steps)
}

// Puts as each right side whether the member has at least the level of the links.
fn put_levels(system: &mut System, links: &Links<'_>, falsehood: Id, truth: Id)
    requires square { IsSquare system.old }
    requires members { system.old.size ≤ nodes links.now.graph.now }
    ensures rights { (i : ℕ) → i < system.old.size → right_at system.new i
        ≡ (if nat_le links.now.level (level_of links.now.graph.now i) then truth.place else falsehood.place) }
    ensures square { IsSquare system.new }
    ensures edges { system.new.edges ≡ system.old.edges }
    ensures size { system.new.size ≡ system.old.size }
    ensures left { system.new.left ≡ system.old.left }
{
    for i in 0..system.size() {
        let is_strong = links.graph.level(i) >= links.level;
        system.put_right(i, chosen(is_strong, truth, falsehood));
    }
}

// The first formula where the test holds, else the second.
fn chosen(test: bool, first: Id, second: Id) -> Id
    ensures { result.place ≡ (if test then first.place else second.place) }
{
    if test { first } else { second }
}

// Puts as each right side what the member has from the level above or as a root of this level.
fn put_roots<L: Ledger>(
    pool: &mut Pool,
    system: &mut System,
    links: &Links<'_>,
    above: &[Id],
    steps: &mut Steps<L>,
) -> Result<(), NoMemory>
    requires whole { IsWhole pool.old system.old }
    requires fit { AreLinks links.now system.old.size pool.old }
    requires above { system.old.size ≤ length above.now }
    requires formulas { AreFormulas pool.old above.now }
    ensures extends { Extends pool.old pool.new }
    ensures moves { OnOk result (Moves (above.now ++ link_formulas links.now)
        pool.old system.old pool.new system.new (steps.new - steps.old)) }
    ensures puts { OnOk result (PutsRights system.old.size
        (root_base links.now pool.old above.now) pool.old system.old pool.new system.new) }
    ensures rises { steps.old ≤ steps.new }
    ensures few { steps.new ≤ steps.old + 2 * system.old.size }
{
    for i in 0..system.size() {
        put_root(pool, system, links, above, i, steps)?;
    }
    Ok(())
}

// Puts as the right side of a member what it has from the level above or as a root of this level.
fn put_root<L: Ledger>(
    pool: &mut Pool,
    system: &mut System,
    links: &Links<'_>,
    above: &[Id],
    i: usize,
    steps: &mut Steps<L>,
) -> Result<(), NoMemory>
    requires whole { IsWhole pool.old system.old }
    requires fit { AreLinks links.now system.old.size pool.old }
    requires above { system.old.size ≤ length above.now }
    requires formulas { AreFormulas pool.old above.now }
    requires row { i < system.old.size }
    ensures extends { Extends pool.old pool.new }
    ensures moves { OnOk result (Moves (above.now ++ link_formulas links.now)
        pool.old system.old pool.new system.new (steps.new - steps.old)) }
    ensures puts { OnOk result (PutsRight i
        (λ vars. root_base links.now pool.old above.now vars i) pool.old system.old pool.new system.new) }
    ensures rises { steps.old ≤ steps.new }
    ensures few { steps.new ≤ steps.old + 2 }
{
    if links.graph.level(i) != links.level {
        system.put_right(i, above[i]);
        return Ok(());
    }
    let root = or_and(pool, above[i], links.gates[i], links.sources[i], steps)?;
    system.put_right(i, root);
    Ok(())
}

// Solves the system of a level, the right sides of which are the bases, and which has no edge yet.
fn solve_level<L: Ledger>(
    alloc: Global,
    pool: &mut Pool,
    system: &mut System,
    links: &Links<'_>,
    steps: &mut Steps<L>,
) -> Result<Vec<Id>, NoMemory>
    requires whole { IsWhole pool.old system.old }
    requires fresh { IsFresh pool.old system.old }
    requires fit { AreLinks links.now system.old.size pool.old }
    ensures extends { Extends pool.old pool.new }
    ensures size { OnOk result (system.new.size ≡ system.old.size) }
    ensures left { OnOk result (system.new.left ≡ system.old.left) }
    ensures count { IfOk result (λ answers. length answers.items ≡ system.old.size) }
    ensures formulas { IfOk result (λ answers. AreFormulas pool.new answers.items) }
    ensures solves { IfOk result (λ answers. SolvesLinks links.now system.old.size
        (right pool.old system.old) pool.old pool.new answers.items) }
    ensures grows { IfOk result (λ answers. Grows pool.old
        (link_formulas links.now ++ formulas_of system.old) pool.new answers.items (steps.new - steps.old)) }
    ensures rises { steps.old ≤ steps.new }
    ensures few { steps.new ≤ steps.old + system_cost system.old.size (switch_count links.now.graph.now) }
{
    add_links(pool, system, links, steps)?;
    system.count_all(pool);
    solve(pool, system, steps)?;
    Ok(Vec::from_slice(alloc, system.rights())?)
}

// Adds what the switches of the graph link.
fn add_links<L: Ledger>(
    pool: &mut Pool,
    system: &mut System,
    links: &Links<'_>,
    steps: &mut Steps<L>,
) -> Result<(), NoMemory>
    requires whole { IsWhole pool.old system.old }
    requires fit { AreLinks links.now system.old.size pool.old }
    ensures extends { Extends pool.old pool.new }
    ensures moves { OnOk result (Moves (link_formulas links.now)
        pool.old system.old pool.new system.new (steps.new - steps.old)) }
    ensures adds { OnOk result (AddsLinks links.now.graph.now system.old.size (IsPlace links.now.graph.now)
        links.now.level links.now.gates.now links.now.passes.now links.now.sources.now
        pool.old system.old pool.new system.new) }
    ensures rises { steps.old ≤ steps.new }
    ensures few { steps.new ≤ steps.old + 6 * switch_count links.now.graph.now }
{
    for place in 0..links.graph.places() {
        add_place(pool, system, links, place, steps)?;
    }
    Ok(())
}

// Adds what the switch at one place links, if there is one.
fn add_place<L: Ledger>(
    pool: &mut Pool,
    system: &mut System,
    links: &Links<'_>,
    place: usize,
    steps: &mut Steps<L>,
) -> Result<(), NoMemory>
    requires whole { IsWhole pool.old system.old }
    requires fit { AreLinks links.now system.old.size pool.old }
    requires in_range { place < length links.now.graph.now.places }
    ensures extends { Extends pool.old pool.new }
    ensures moves { OnOk result (Moves (link_formulas links.now)
        pool.old system.old pool.new system.new (steps.new - steps.old)) }
    ensures adds { OnOk result (AddsLinks links.now.graph.now system.old.size (λ p. p ≡ place)
        links.now.level links.now.gates.now links.now.passes.now links.now.sources.now
        pool.old system.old pool.new system.new) }
    ensures rises { steps.old ≤ steps.new }
    ensures few { steps.new ≤ steps.old + (if is_some (place_at links.now.graph.now.places place) then 6 else 0) }
{
    match &links.graph.switch_at(place) {
        Some(switch) if switch.level >= links.level => {
            add_link(pool, system, links, place, switch.a, switch.b, steps)?;
            add_link(pool, system, links, place, switch.b, switch.a, steps)
        }
        _ => Ok(()),
    }
}

// Adds what comes over a place from node m to node n.
fn add_link<L: Ledger>(
    pool: &mut Pool,
    system: &mut System,
    links: &Links<'_>,
    place: usize,
    m: usize,
    n: usize,
    steps: &mut Steps<L>,
) -> Result<(), NoMemory>
    requires whole { IsWhole pool.old system.old }
    requires fit { AreLinks links.now system.old.size pool.old }
    requires in_range { place < length links.now.graph.now.places }
    requires from { m < nodes links.now.graph.now }
    requires to { n < nodes links.now.graph.now }
    ensures extends { Extends pool.old pool.new }
    ensures moves { OnOk result (Moves (link_formulas links.now)
        pool.old system.old pool.new system.new (steps.new - steps.old)) }
    ensures adds { OnOk result (AddsLink system.old.size m n
        (λ vars. value_of pool.old links.now.gates.now vars n)
        (λ vars. value_of pool.old links.now.passes.now vars place)
        (λ vars. value_of pool.old links.now.sources.now vars m) pool.old system.old pool.new system.new) }
    ensures rises { steps.old ≤ steps.new }
    ensures few { steps.new ≤ steps.old + 3 }
{
    if n >= system.size() {
        return Ok(());
    }
    let gate = links.gates[n];
    let pass = links.passes[place];
    if m < system.size() {
        let edge = or_and(pool, system.edge(n, m), gate, pass, steps)?;
        system.put_edge(n, m, edge);
    } else {
        let right = or_all(pool, system.right(n), gate, pass, links.sources[m], steps)?;
        system.put_right(n, right);
    }
    Ok(())
}

// The formula "`into`, or all of `first`, `second` and `third`".
fn or_all<L: Ledger>(
    pool: &mut Pool,
    into: Id,
    first: Id,
    second: Id,
    third: Id,
    steps: &mut Steps<L>,
) -> Result<Id, NoMemory>
    requires into { into.place < length pool.old }
    requires first { first.place < length pool.old }
    requires second { second.place < length pool.old }
    requires third { third.place < length pool.old }
    ensures extends { Extends pool.old pool.new }
    ensures formed { IfOk result (λ r. IsFormed pool.old pool.new (steps.new - steps.old)
        (into.place ∷ first.place ∷ second.place ∷ third.place ∷ [])
        (λ vars. value_at pool.old vars into.place
        || (value_at pool.old vars first.place
        && (value_at pool.old vars second.place && value_at pool.old vars third.place))) r.place) }
    ensures rises { steps.old ≤ steps.new }
    ensures few { steps.new ≤ steps.old + 3 }
{
    let both = pool.and(second, third, steps)?;
    or_and(pool, into, first, both, steps)
}
