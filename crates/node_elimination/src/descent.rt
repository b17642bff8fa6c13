//! The levels of a graph, from the strongest one down.

ghost use Rattle.std.specs.Prelude.{◌≡◌, ◌≢◌, ℕ, ◌+◌, ◌-◌, ◌*◌, ◌<◌, ◌≤◌, false, ◌++◌, length, Some, IfOk, OnOk};
ghost use Rattle.switch_paths.specs.Words.{level_of, place_at};
ghost use Rattle.switch_paths.specs.declared.switching.Switch.{Switch};
ghost use Rattle.bool_pool.specs.Gate.{Extends};
ghost use Rattle.strength_order.specs.Levels.{IsLevel};
ghost use Rattle.node_elimination.specs.Words.{AreFormulas, Grows, IsUnused, AllLeft, system_cost, HasMembers, input_formulas, HaveInputs, driven_formulas, level_formulas, HaveDriven, HaveLevels, ReachAt, DriveAt, DriveDown, StepDown, AreNegations, drives_cost, level_cost};
ghost use Rattle.group_analysis.specs.Meaning.{switch_count};

use crate::inputs::{Inputs, add_to};
use crate::level::{Links, drive, reach};
use crate::system::{System, TOO_MANY_UNKNOWNS};
use bool_pool::{Id, Pool};
use std::alloc::Global;
use std::sync::ledger::Ledger;
use strength_order::INPUT_LEVEL;
use switch_paths::{Graph, Switch, graphs_are_wired};
use ternary::{NoMemory, Steps};

/// What drives each member at one level: an unblocked path of at least this strength leads to it from a
/// root that may be 1, or that may be 0.
#[derive(Drop)]
pub(crate) struct Drives {
    pub(crate) one: Vec<Id>,
    pub(crate) zero: Vec<Id>,
}

// The formulas of one level, for each member.
#[derive(Drop)]
struct Levels {
    // a definite path of at least this strength leads to it
    strong: Vec<Id>,
    drives: Drives,
}

/// What drives each member at the least level.
///
/// Which members definite paths reach isn't made at the least level that a node or a switch has, since only a lower
/// level would read it.
pub(crate) fn go_down<L: Ledger>(
    alloc: Global,
    pool: &mut Pool,
    graph: &Graph,
    members: usize,
    inputs: &Inputs,
    steps: &mut Steps<L>,
) -> Result<Drives, NoMemory>
    requires members { HasMembers graph.now members }
    requires few { members < TOO_MANY_UNKNOWNS }
    requires inputs { HaveInputs graph.now pool.old inputs.now }
    ensures extends { Extends pool.old pool.new }
    ensures drives { IfOk result (λ drives. HaveDriven members pool.new drives) }
    ensures shows { IfOk result (λ drives. DriveAt graph.now members inputs.now pool.old 1 pool.new drives) }
    ensures grows { IfOk result (λ drives. Grows pool.old (input_formulas inputs.now)
        pool.new (driven_formulas drives) (steps.new - steps.old)) }
    ensures rises { steps.old ≤ steps.new }
    ensures few { steps.new ≤ steps.old + INPUT_LEVEL * level_cost members (switch_count graph.now) }
{
    graphs_are_wired(graph);
    let lowest = lowest_level(graph);
    let mut system = System::new(alloc, members, inputs.falsehood)?;
    let mut levels = Levels {
        strong: vec![in alloc; inputs.falsehood; members]?,
        drives: Drives {
            one: vec![in alloc; inputs.falsehood; members]?,
            zero: vec![in alloc; inputs.falsehood; members]?,
        },
    };
    for done in 0..INPUT_LEVEL - lowest {
        let level = INPUT_LEVEL - done;
        levels = step_down(
            alloc,
            pool,
            &mut system,
            graph,
            level,
            inputs,
            levels,
            steps,
        )?;
    }
    drive_members(
        alloc,
        pool,
        &mut system,
        graph,
        lowest,
        inputs,
        &levels,
        steps,
    )
}

// The least level that a node or a switch has, or else that of an input node.
fn lowest_level(graph: &Graph) -> u8
    ensures level { IsLevel result }
    ensures unused { (s : ℕ) → 1 ≤ s → s < result → IsUnused graph.now s }
{
    for level in 1..INPUT_LEVEL {
        if is_used(graph, level) {
            return level;
        }
    }
    INPUT_LEVEL
}

// Whether a node or a switch has this level.
fn is_used(graph: &Graph, level: u8) -> bool
    requires { 1 ≤ level }
    ensures { (result ≡ false) → IsUnused graph.now level }
{
    if has_node(graph, level) {
        return true;
    }
    has_switch(graph, level)
}

// Whether a node has this level.
fn has_node(graph: &Graph, level: u8) -> bool
    requires { 1 ≤ level }
    ensures { (result ≡ false) → (n : ℕ) → level_of graph.now n ≢ level }
{
    for node in 0..graph.nodes() {
        if graph.level(node) == level {
            return true;
        }
    }
    false
}

// Whether a switch has this level.
fn has_switch(graph: &Graph, level: u8) -> bool
    ensures { (result ≡ false) → (place : ℕ) (switch : Switch)
        → place_at graph.now.places place ≡ Some switch → switch.level ≢ level }
{
    for place in 0..graph.places() {
        if is_at_level(&graph.switch_at(place), level) {
            return true;
        }
    }
    false
}

// Whether a switch of this level stands there.
fn is_at_level(place: &Option<Switch>, level: u8) -> bool
    ensures { (result ≡ false) → (switch : Switch) → place.now ≡ Some switch → switch.level ≢ level }
{
    match place {
        Some(switch) => switch.level == level,
        None => false,
    }
}

// The formulas of this level: those of the level above, if no node and no switch has the level.
fn step_down<L: Ledger>(
    alloc: Global,
    pool: &mut Pool,
    system: &mut System,
    graph: &Graph,
    level: u8,
    inputs: &Inputs,
    above: Levels,
    steps: &mut Steps<L>,
) -> Result<Levels, NoMemory>
    requires members { HasMembers graph.now system.old.size }
    requires left { AllLeft system.old }
    requires level { IsLevel level }
    requires inputs { HaveInputs graph.now pool.old inputs.now }
    requires above { HaveLevels system.old.size pool.old above }
    ensures extends { Extends pool.old pool.new }
    ensures size { OnOk result (system.new.size ≡ system.old.size) }
    ensures left { OnOk result (system.new.left ≡ system.old.left) }
    ensures levels { IfOk result (λ levels. HaveLevels system.old.size pool.new levels) }
    ensures shows { IfOk result (λ levels. StepDown graph.now system.old.size inputs.now
        pool.old above level pool.new levels) }
    ensures grows { IfOk result (λ levels. Grows pool.old (input_formulas inputs.now ++ level_formulas above)
        pool.new (level_formulas levels) (steps.new - steps.old)) }
    ensures rises { steps.old ≤ steps.new }
    ensures few { steps.new ≤ steps.old + level_cost system.old.size (switch_count graph.now) }
{
    if !is_used(graph, level) {
        return Ok(above);
    }
    next_level(alloc, pool, system, graph, level, inputs, &above, steps)
}

// The formulas of this level, from those of the level above. The unknowns of `system` are the
// members, all of them left; at an error it is of no use any more.
fn next_level<L: Ledger>(
    alloc: Global,
    pool: &mut Pool,
    system: &mut System,
    graph: &Graph,
    level: u8,
    inputs: &Inputs,
    above: &Levels,
    steps: &mut Steps<L>,
) -> Result<Levels, NoMemory>
    requires members { HasMembers graph.now system.old.size }
    requires left { AllLeft system.old }
    requires level { IsLevel level }
    requires inputs { HaveInputs graph.now pool.old inputs.now }
    requires above { HaveLevels system.old.size pool.old above.now }
    ensures extends { Extends pool.old pool.new }
    ensures size { OnOk result (system.new.size ≡ system.old.size) }
    ensures left { OnOk result (system.new.left ≡ system.old.left) }
    ensures levels { IfOk result (λ levels. HaveLevels system.old.size pool.new levels) }
    ensures shows { IfOk result (λ levels. StepDown graph.now system.old.size inputs.now
        pool.old above.now level pool.new levels) }
    ensures grows { IfOk result (λ levels. Grows pool.old (input_formulas inputs.now ++ level_formulas above.now)
        pool.new (level_formulas levels) (steps.new - steps.old)) }
    ensures rises { steps.old ≤ steps.new }
    ensures few { steps.new ≤ steps.old + level_cost system.old.size (switch_count graph.now) }
{
    let drives = drive_members(alloc, pool, system, graph, level, inputs, above, steps)?;
    let strong = reach_members(alloc, pool, system, graph, level, inputs, steps)?;
    Ok(Levels { strong, drives })
}

// What drives each member at this level. At an error the system is of no use any more.
fn drive_members<L: Ledger>(
    alloc: Global,
    pool: &mut Pool,
    system: &mut System,
    graph: &Graph,
    level: u8,
    inputs: &Inputs,
    above: &Levels,
    steps: &mut Steps<L>,
) -> Result<Drives, NoMemory>
    requires members { HasMembers graph.now system.old.size }
    requires left { AllLeft system.old }
    requires level { IsLevel level }
    requires inputs { HaveInputs graph.now pool.old inputs.now }
    requires above { HaveLevels system.old.size pool.old above.now }
    ensures extends { Extends pool.old pool.new }
    ensures size { OnOk result (system.new.size ≡ system.old.size) }
    ensures left { OnOk result (system.new.left ≡ system.old.left) }
    ensures drives { IfOk result (λ drives. HaveDriven system.old.size pool.new drives) }
    ensures shows { IfOk result (λ drives. DriveDown graph.now system.old.size inputs.now
        pool.old above.now level pool.new drives) }
    ensures grows { IfOk result (λ drives. Grows pool.old (input_formulas inputs.now ++ level_formulas above.now)
        pool.new (driven_formulas drives) (steps.new - steps.old)) }
    ensures rises { steps.old ≤ steps.new }
    ensures few { steps.new ≤ steps.old + drives_cost system.old.size (switch_count graph.now) }
{
    graphs_are_wired(graph);
    let clear = negations(alloc, pool, &above.strong, steps)?;
    let to_one = Links {
        graph,
        level,
        gates: &clear,
        passes: &inputs.live,
        sources: &inputs.hi,
    };
    let above_one = &above.drives.one;
    let one = drive(
        alloc,
        pool,
        system,
        &to_one,
        inputs.falsehood,
        above_one,
        steps,
    )?;
    let to_zero = Links {
        graph,
        level,
        gates: &clear,
        passes: &inputs.live,
        sources: &inputs.lo,
    };
    let above_zero = &above.drives.zero;
    let zero = drive(
        alloc,
        pool,
        system,
        &to_zero,
        inputs.falsehood,
        above_zero,
        steps,
    )?;
    Ok(Drives { one, zero })
}

// Which members definite paths reach at this level. At an error the system is of no use any more.
fn reach_members<L: Ledger>(
    alloc: Global,
    pool: &mut Pool,
    system: &mut System,
    graph: &Graph,
    level: u8,
    inputs: &Inputs,
    steps: &mut Steps<L>,
) -> Result<Vec<Id>, NoMemory>
    requires members { HasMembers graph.now system.old.size }
    requires left { AllLeft system.old }
    requires level { IsLevel level }
    requires inputs { HaveInputs graph.now pool.old inputs.now }
    ensures extends { Extends pool.old pool.new }
    ensures size { OnOk result (system.new.size ≡ system.old.size) }
    ensures left { OnOk result (system.new.left ≡ system.old.left) }
    ensures count { IfOk result (λ strong. length strong.items ≡ system.old.size) }
    ensures formulas { IfOk result (λ strong. AreFormulas pool.new strong.items) }
    ensures shows { IfOk result (λ strong. ReachAt graph.now system.old.size inputs.now
        pool.old level pool.new strong.items) }
    ensures grows { IfOk result (λ strong. Grows pool.old (input_formulas inputs.now)
        pool.new strong.items (steps.new - steps.old)) }
    ensures rises { steps.old ≤ steps.new }
    ensures few { steps.new ≤ steps.old + system_cost system.old.size (switch_count graph.now) }
{
    graphs_are_wired(graph);
    let sure = Links {
        graph,
        level,
        gates: &inputs.sure,
        passes: &inputs.closed,
        sources: &inputs.sure,
    };
    let (no, yes) = (inputs.falsehood, inputs.truth);
    reach(alloc, pool, system, &sure, no, yes, steps)
}

// The negation of each formula.
fn negations<L: Ledger>(
    alloc: Global,
    pool: &mut Pool,
    ids: &[Id],
    steps: &mut Steps<L>,
) -> Result<Vec<Id>, NoMemory>
    requires { AreFormulas pool.old ids.now }
    ensures extends { Extends pool.old pool.new }
    ensures negated { IfOk result (λ negations. AreNegations pool.old ids.now (length ids.now)
        pool.new negations.items) }
    ensures grows { IfOk result (λ negations. Grows pool.old ids.now pool.new negations.items (steps.new - steps.old)) }
    ensures rises { steps.old ≤ steps.new }
    ensures few { steps.new ≤ steps.old + length ids.now }
{
    let mut negations = Vec::new(alloc);
    for i in 0..ids.len() {
        let negation = pool.not(ids[i], steps)?;
        add_to(&mut negations, negation)?;
    }
    Ok(negations)
}
