//! The least solution of a system by eliminating one unknown after the other.

ghost use Rattle.std.specs.Prelude.{◌≡◌, ◌≢◌, ℕ, ◌+◌, ◌-◌, ◌*◌, ◌<◌, ◌≤◌, Bool, true, false, ◌&&◌, ◌||◌, [], ◌∷◌, length, IfOk, OnOk};
ghost use Rattle.bool_pool.specs.Words.{Extends, value_at, IsFormed};
ghost use Rattle.node_elimination.specs.Words.{right_past, IsWhole, is_left, left_count, edge, right, Moves, PassesEdge, PassesEdges, PassesRow, PassesRows, PutsRight, with_next, Gathers, Solves};

use crate::system::{System, is_false};
use bool_pool::{Id, Pool};
use std::sync::ledger::Ledger;
use ternary::{NoMemory, Steps};

/// Puts the least solution of the system in the place of its right sides.
///
/// It takes an unknown out, solves what is left, and reads that unknown back. The unknown has the
/// fewest neighbours of all, so that few edges are made. Neither this order nor which formulas stand
/// for false changes the solution.
///
/// At an error the system is of no use any more.
///
/// After Bryant, "Boolean Analysis of MOS Circuits", 1987.
pub(crate) fn solve<L: Ledger>(
    pool: &mut Pool,
    system: &mut System,
    steps: &mut Steps<L>,
) -> Result<(), NoMemory>
    requires { IsWhole pool.old system.old }
    ensures extends { Extends pool.old pool.new }
    ensures moves { OnOk result (Moves [] pool.old system.old pool.new system.new (steps.new - steps.old)) }
    ensures solves { OnOk result (Solves pool.old system.old pool.new system.new) }
    ensures rises { steps.old ≤ steps.new }
    ensures few { steps.new ≤ steps.old + left_count system.old * (system.old.size * (2 * system.old.size + 2)) }
{
    match system.pick() {
        None => Ok(()),
        Some(k) => {
            system.put_left(k, false);
            eliminate(pool, system, k, steps)?;
            system.recount(pool, k);
            solve(pool, system, steps)?;
            gather(pool, system, k, steps)?;
            system.put_left(k, true);
            Ok(())
        }
    }
}

// Lays the edges of all that is left past k, which isn't left any more.
fn eliminate<L: Ledger>(
    pool: &mut Pool,
    system: &mut System,
    k: usize,
    steps: &mut Steps<L>,
) -> Result<(), NoMemory>
    requires whole { IsWhole pool.old system.old }
    requires in_range { k < system.old.size }
    requires gone { is_left system.old k ≡ false }
    ensures extends { Extends pool.old pool.new }
    ensures moves { OnOk result (Moves [] pool.old system.old pool.new system.new (steps.new - steps.old)) }
    ensures passes { OnOk result (PassesRows k system.old.size pool.old system.old pool.new system.new) }
    ensures rises { steps.old ≤ steps.new }
    ensures few { steps.new ≤ steps.old + system.old.size * (2 * system.old.size) }
{
    for i in 0..system.size() {
        pass_row(pool, system, k, i, steps)?;
    }
    Ok(())
}

// Lays row i past k, and hands on the right side of k to it.
fn pass_row<L: Ledger>(
    pool: &mut Pool,
    system: &mut System,
    k: usize,
    i: usize,
    steps: &mut Steps<L>,
) -> Result<(), NoMemory>
    requires whole { IsWhole pool.old system.old }
    requires in_range { k < system.old.size }
    requires row { i < system.old.size }
    requires gone { is_left system.old k ≡ false }
    ensures extends { Extends pool.old pool.new }
    ensures moves { OnOk result (Moves [] pool.old system.old pool.new system.new (steps.new - steps.old)) }
    ensures passes { OnOk result (PassesRow k i pool.old system.old pool.new system.new) }
    ensures rises { steps.old ≤ steps.new }
    ensures few { steps.new ≤ steps.old + 2 * system.old.size }
{
    if !system.is_left(i) || is_false(pool, system.edge(i, k)) {
        return Ok(());
    }
    pass_edges(pool, system, k, i, steps)?;
    pass_right(pool, system, k, i, steps)
}

// Lays the edges of row i past k.
fn pass_edges<L: Ledger>(
    pool: &mut Pool,
    system: &mut System,
    k: usize,
    i: usize,
    steps: &mut Steps<L>,
) -> Result<(), NoMemory>
    requires whole { IsWhole pool.old system.old }
    requires in_range { k < system.old.size }
    requires row { i < system.old.size }
    requires gone { is_left system.old k ≡ false }
    requires other { i ≢ k }
    ensures extends { Extends pool.old pool.new }
    ensures moves { OnOk result (Moves [] pool.old system.old pool.new system.new (steps.new - steps.old)) }
    ensures passes { OnOk result (PassesEdges k i system.old.size pool.old system.old pool.new system.new) }
    ensures rises { steps.old ≤ steps.new }
    ensures few { steps.new + 2 ≤ steps.old + 2 * system.old.size }
{
    for j in 0..system.size() {
        pass_edge(pool, system, k, i, j, steps)?;
    }
    Ok(())
}

// Lays the edge from i to j past k.
fn pass_edge<L: Ledger>(
    pool: &mut Pool,
    system: &mut System,
    k: usize,
    i: usize,
    j: usize,
    steps: &mut Steps<L>,
) -> Result<(), NoMemory>
    requires whole { IsWhole pool.old system.old }
    requires in_range { k < system.old.size }
    requires row { i < system.old.size }
    requires column { j < system.old.size }
    ensures extends { Extends pool.old pool.new }
    ensures moves { OnOk result (Moves [] pool.old system.old pool.new system.new (steps.new - steps.old)) }
    ensures passes { OnOk result (PassesEdge k i j pool.old system.old pool.new system.new) }
    ensures rises { steps.old ≤ steps.new }
    ensures few { steps.new ≤ steps.old + 2 }
    ensures idle { is_left system.old j ≡ false → steps.new ≡ steps.old }
{
    if !system.is_left(j) || is_false(pool, system.edge(k, j)) {
        return Ok(());
    }
    let to_k = system.edge(i, k);
    let from_k = system.edge(k, j);
    let edge = or_and(pool, system.edge(i, j), to_k, from_k, steps)?;
    system.put_edge(i, j, edge);
    Ok(())
}

// Adds to the right side of i what comes by its edge to k.
fn pass_right<L: Ledger>(
    pool: &mut Pool,
    system: &mut System,
    k: usize,
    i: usize,
    steps: &mut Steps<L>,
) -> Result<(), NoMemory>
    requires whole { IsWhole pool.old system.old }
    requires in_range { k < system.old.size }
    requires row { i < system.old.size }
    ensures extends { Extends pool.old pool.new }
    ensures moves { OnOk result (Moves [] pool.old system.old pool.new system.new (steps.new - steps.old)) }
    ensures passes { OnOk result (PutsRight i
        (λ vars. right_past (edge pool.old system.old vars) (right pool.old system.old vars) k i)
        pool.old system.old pool.new system.new) }
    ensures rises { steps.old ≤ steps.new }
    ensures few { steps.new ≤ steps.old + 2 }
{
    let to_k = system.edge(i, k);
    let of_k = system.right(k);
    let right = or_and(pool, system.right(i), to_k, of_k, steps)?;
    system.put_right(i, right);
    Ok(())
}

// Reads k back, once the right sides of all that is left are their values.
fn gather<L: Ledger>(
    pool: &mut Pool,
    system: &mut System,
    k: usize,
    steps: &mut Steps<L>,
) -> Result<(), NoMemory>
    requires whole { IsWhole pool.old system.old }
    requires in_range { k < system.old.size }
    requires gone { is_left system.old k ≡ false }
    ensures extends { Extends pool.old pool.new }
    ensures moves { OnOk result (Moves [] pool.old system.old pool.new system.new (steps.new - steps.old)) }
    ensures gathers { OnOk result (Gathers k system.old.size pool.old system.old pool.new system.new) }
    ensures rises { steps.old ≤ steps.new }
    ensures few { steps.new ≤ steps.old + 2 * system.old.size }
{
    for j in 0..system.size() {
        gather_one(pool, system, k, j, steps)?;
    }
    Ok(())
}

// Adds to the right side of k what comes by its edge to j, if j is left.
fn gather_one<L: Ledger>(
    pool: &mut Pool,
    system: &mut System,
    k: usize,
    j: usize,
    steps: &mut Steps<L>,
) -> Result<(), NoMemory>
    requires whole { IsWhole pool.old system.old }
    requires in_range { k < system.old.size }
    requires column { j < system.old.size }
    ensures extends { Extends pool.old pool.new }
    ensures moves { OnOk result (Moves [] pool.old system.old pool.new system.new (steps.new - steps.old)) }
    ensures gathers { OnOk result (PutsRight k
        (λ vars. with_next pool.old system.old vars k j) pool.old system.old pool.new system.new) }
    ensures rises { steps.old ≤ steps.new }
    ensures few { steps.new ≤ steps.old + 2 }
{
    if !system.is_left(j) || is_false(pool, system.edge(k, j)) {
        return Ok(());
    }
    pass_right(pool, system, j, k, steps)
}

/// The formula "`into`, or both `first` and `second`".
pub(crate) fn or_and<L: Ledger>(
    pool: &mut Pool,
    into: Id,
    first: Id,
    second: Id,
    steps: &mut Steps<L>,
) -> Result<Id, NoMemory>
    requires into { into.place < length pool.old }
    requires first { first.place < length pool.old }
    requires second { second.place < length pool.old }
    ensures extends { Extends pool.old pool.new }
    ensures formed { IfOk result (λ r. IsFormed pool.old pool.new (steps.new - steps.old)
        (into.place ∷ first.place ∷ second.place ∷ [])
        (λ vars. value_at pool.old vars into.place
        || (value_at pool.old vars first.place && value_at pool.old vars second.place)) r.place) }
    ensures rises { steps.old ≤ steps.new }
    ensures few { steps.new ≤ steps.old + 2 }
{
    let both = pool.and(first, second, steps)?;
    pool.or(into, both, steps)
}
