//! The flood from the touched nodes to all nodes that are near them.
ghost use Rattle.std.specs.Prelude.{◌≡◌, ℕ, ◌+◌, ◌<◌, ◌≤◌, length, All, Contains, IsTrue, ◌↔◌};
ghost use Rattle.switch_paths.specs.Graphs.{nodes, IsStorage};
ghost use Rattle.vicinity.specs.Words.{IsIn, ListsLive, LeadsTo, IsAwake, size_of, Wakes};

use crate::arms::{arm_at, listed};
use crate::live_list::LiveList;
use crate::node_set::NodeSet;
use std::sync::ledger::Ledger;
use strength_order::INPUT_LEVEL;
use switch_paths::Graph;
use ternary::{Steps, Tern};

/// Finds the nodes that are awake: those that a touched node is near.
pub(crate) fn flood<L: Ledger>(
    graph: &Graph,
    lists: &[LiveList],
    state: &[Tern],
    touched: &[usize],
    awake: &mut NodeSet,
    steps: &mut Steps<L>,
)
    requires counted { length state.now ≡ nodes graph.now }
    requires lists { ListsLive graph.now state.now lists.now }
    requires touched { All (λ node. node < nodes graph.now) touched.now }
    requires nodes { length awake.old.inside ≡ nodes graph.now }
    requires empty { (node : ℕ) → ¬ IsIn awake.old.inside node }
    ensures awake { (node : ℕ) → IsIn awake.new.inside node → IsAwake graph.now state.now touched.now node }
    ensures all { (node : ℕ) → IsAwake graph.now state.now touched.now node → IsIn awake.new.inside node }
    ensures count { length awake.new.inside ≡ length awake.old.inside }
    ensures steps { steps.new ≤ steps.old + size_of lists.now awake.new.inside }
{
    for node in touched {
        wake(graph, *node, awake);
    }
    let mut count = 0;
    while count < awake.len() {
        let node = awake.at(count);
        steps.tick();
        look_along(graph, state, node, listed(lists, node), awake, steps);
        count += 1;
    }
}

// The storage nodes next to this node come to the set, by these places.
pub(crate) fn look_along<L: Ledger>(
    graph: &Graph,
    state: &[Tern],
    node: usize,
    places: &[usize],
    awake: &mut NodeSet,
    steps: &mut Steps<L>,
)
    requires counted { length state.now ≡ nodes graph.now }
    requires nodes { length awake.old.inside ≡ nodes graph.now }
    ensures wakes { Wakes graph.now (λ other. (place : ℕ) × Contains places.now place × LeadsTo graph.now state.now place node other) awake.old awake.new }
    ensures steps { steps.new ≡ steps.old + length places.now }
{
    for place in places {
        steps.tick();
        look(graph, state, node, *place, awake);
    }
}

// The storage node to which this place leads comes to the set.
pub(crate) fn look(graph: &Graph, state: &[Tern], node: usize, place: usize, awake: &mut NodeSet)
    requires counted { length state.now ≡ nodes graph.now }
    requires nodes { length awake.old.inside ≡ nodes graph.now }
    ensures { Wakes graph.now (LeadsTo graph.now state.now place node) awake.old awake.new }
{
    if let Some(arm) = arm_at(graph, state, place, node) {
        wake(graph, arm.other, awake);
    }
}

// The node comes to the set, if it is a storage node.
pub(crate) fn wake(graph: &Graph, node: usize, awake: &mut NodeSet)
    requires inside { node < nodes graph.now }
    requires nodes { length awake.old.inside ≡ nodes graph.now }
    ensures { Wakes graph.now (λ one. one ≡ node) awake.old awake.new }
{
    if is_storage(graph, node) {
        awake.insert(node);
    }
}

/// Whether a node is a storage node.
pub(crate) fn is_storage(graph: &Graph, node: usize) -> bool
    requires { node < nodes graph.now }
    ensures { IsTrue result ↔ IsStorage graph.now node }
{
    graph.level(node) < INPUT_LEVEL
}
