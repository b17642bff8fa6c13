//! A pass over the nodes that are awake: each starts with what is its own and what comes from input nodes, and the pass
//! goes on from there.
ghost use Rattle.std.specs.Prelude.{◌≡◌, ℕ, ◌+◌, ◌*◌, ◌<◌, ◌≤◌, length};
ghost use Rattle.switch_paths.specs.Graphs.{nodes};
ghost use Rattle.vicinity.specs.Words.{IsIn, AreEntries, IsSweep, Starts, cost_at, size_of};

use crate::node_set::NodeSet;
use crate::pass::Sweep;
use crate::sources::source_at;
use crate::spread::spread;
use std::sync::ledger::Ledger;
use ternary::Steps;

/// Fills the table of a pass. It takes no memory; `left` is empty before and after.
///
/// After the relaxation in Bryant, "A Switch-Level Model and Simulator for MOS Digital Systems", 1984.
pub(crate) fn run_pass<L: Ledger>(
    by: &Sweep<'_>,
    table: &mut [u8],
    left: &mut NodeSet,
    steps: &mut Steps<L>,
)
    requires sweep { IsSweep by.now }
    requires left { length left.old.inside ≡ nodes by.now.graph.now }
    requires table { length table.old ≡ nodes by.now.graph.now }
    requires empty { (node : ℕ) → ¬ IsIn left.old.inside node }
    ensures entries { AreEntries by.now.pass by.now.graph.now by.now.state.now by.now.awake.now.inside by.now.floor.now table.new }
    ensures count { length table.new ≡ length table.old }
    ensures left { length left.new.inside ≡ length left.old.inside }
    ensures none { (node : ℕ) → ¬ IsIn left.new.inside node }
    ensures steps { steps.new ≤ steps.old + 18 * size_of by.now.lists.now by.now.awake.now.inside }
{
    let count = by.awake.len();
    for place in 0..count {
        let node = by.awake.at(place);
        start_at(by, node, table, left, steps);
    }
    spread(by, table, left, steps);
}

// A node starts with what is its own and what comes from input nodes, and is left to look from if that is something.
fn start_at<L: Ledger>(
    by: &Sweep<'_>,
    node: usize,
    table: &mut [u8],
    left: &mut NodeSet,
    steps: &mut Steps<L>,
)
    requires sweep { IsSweep by.now }
    requires left { length left.old.inside ≡ nodes by.now.graph.now }
    requires table { length table.old ≡ nodes by.now.graph.now }
    requires inside { IsIn by.now.awake.now.inside node }
    requires in_range { node < nodes by.now.graph.now }
    ensures starts { Starts by.now.pass by.now.graph.now by.now.state.now by.now.floor.now node
        left.old.inside left.new.inside table.old table.new }
    ensures steps { steps.new ≡ steps.old + cost_at by.now.lists.now node }
{
    let floor = by.floor[node];
    let strength = source_at(by.pass, by.graph, by.lists, by.state, node, floor, steps);
    table[node] = strength;
    if strength > 0 {
        left.insert(node);
    }
}
