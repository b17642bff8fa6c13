//! A pass goes on from node to node until nothing more comes.
ghost use Rattle.std.specs.Prelude.{◌≡◌, ℕ, ◌+◌, ◌<◌, ◌≤◌, length, slice_index};
ghost use Rattle.switch_paths.specs.Graphs.{nodes};
ghost use Rattle.vicinity.specs.Words.{IsIn, IsWay, AreWays, IsSpreadOf, IsSpreadFrom, IsSweep, GoesOn, Raises, IsSpreadOver, cost_at, owed};

use crate::arms::{arm_at, listed};
use crate::node_set::NodeSet;
use crate::pass::Sweep;
use crate::sources::is_crossed;
use std::sync::ledger::Ledger;
use ternary::Steps;

/// Looks from the nodes that are left, and from each whose entry rises, until none is left.
pub(crate) fn spread<L: Ledger>(
    by: &Sweep<'_>,
    table: &mut [u8],
    left: &mut NodeSet,
    steps: &mut Steps<L>,
)
    requires sweep { IsSweep by.now }
    requires goes_on { GoesOn by.now left.old.inside table.old }
    requires rest { (node : ℕ) → IsIn by.now.awake.now.inside node → ¬ IsIn left.old.inside node →
        IsSpreadFrom by.now.pass by.now.graph.now by.now.state.now by.now.awake.now.inside by.now.floor.now table.old node }
    ensures count { length table.new ≡ length table.old }
    ensures grows { (node : ℕ) → slice_index table.old node ≤ slice_index table.new node }
    ensures ways { AreWays by.now.pass by.now.graph.now by.now.state.now by.now.awake.now.inside table.new }
    ensures spread { (node : ℕ) → IsIn by.now.awake.now.inside node →
        IsSpreadFrom by.now.pass by.now.graph.now by.now.state.now by.now.awake.now.inside by.now.floor.now table.new node }
    ensures left { length left.new.inside ≡ length left.old.inside }
    ensures none { (node : ℕ) → ¬ IsIn left.new.inside node }
    ensures steps { steps.new ≤ steps.old + owed by.now.lists.now by.now.awake.now.inside table.old left.old.inside }
{
    while let Some(node) = left.pop() {
        spread_from(by, node, table, left, steps);
    }
}

// Looks from a node: what comes over the places at it raises entries.
fn spread_from<L: Ledger>(
    by: &Sweep<'_>,
    node: usize,
    table: &mut [u8],
    left: &mut NodeSet,
    steps: &mut Steps<L>,
)
    requires sweep { IsSweep by.now }
    requires goes_on { GoesOn by.now left.old.inside table.old }
    requires inside { IsIn by.now.awake.now.inside node }
    requires in_range { node < nodes by.now.graph.now }
    ensures raises { Raises by.now.pass by.now.graph.now by.now.state.now by.now.awake.now.inside
        left.old.inside left.new.inside table.old table.new }
    ensures spread { IsSpreadOf by.now.pass by.now.graph.now by.now.state.now by.now.awake.now.inside by.now.floor.now table.new node
        (slice_index table.old node) }
    ensures owed { owed by.now.lists.now by.now.awake.now.inside table.new left.new.inside
        ≤ owed by.now.lists.now by.now.awake.now.inside table.old left.old.inside }
    ensures steps { steps.new ≡ steps.old + cost_at by.now.lists.now node }
{
    steps.tick();
    let strength = table[node];
    for place in listed(by.lists, node) {
        steps.tick();
        spread_over(by, *place, node, strength, table, left);
    }
}

// What comes over a place of a strength at the node raises the entry at its other end.
fn spread_over(
    by: &Sweep<'_>,
    place: usize,
    node: usize,
    strength: u8,
    table: &mut [u8],
    left: &mut NodeSet,
)
    requires sweep { IsSweep by.now }
    requires goes_on { GoesOn by.now left.old.inside table.old }
    requires way { 0 < strength → IsWay by.now.pass by.now.graph.now by.now.state.now node strength }
    ensures raises { Raises by.now.pass by.now.graph.now by.now.state.now by.now.awake.now.inside
        left.old.inside left.new.inside table.old table.new }
    ensures over { IsSpreadOver by.now.pass by.now.graph.now by.now.state.now by.now.awake.now.inside by.now.floor.now table.new
        node strength place }
    ensures owed { owed by.now.lists.now by.now.awake.now.inside table.new left.new.inside
        ≤ owed by.now.lists.now by.now.awake.now.inside table.old left.old.inside }
{
    let Some(arm) = arm_at(by.graph, by.state, place, node) else {
        return;
    };
    if !is_crossed(by.pass, arm) || !by.awake.contains(arm.other) {
        return;
    }
    let strength = strength.min(arm.level);
    if strength < by.floor[arm.other] || strength <= table[arm.other] {
        return;
    }
    table[arm.other] = strength;
    left.insert(arm.other);
}
