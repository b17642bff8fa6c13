//! Changes are written, and what they stir is touched.
ghost use Rattle.std.specs.Prelude.{◌≡◌, ℕ, ◌<◌, length, Contains, slice_set};
ghost use Rattle.switch_paths.specs.Graphs.{nodes};
ghost use Rattle.part_words.specs.declared.change.Change.{Change};
ghost use Rattle.machine_parts.specs.Words.{IsTaken};
ghost use Rattle.vicinity.specs.Words.{Wakes, AreListsOf, TurnsAt, Touches};

use crate::flood::wake;
use crate::live_lists::LiveLists;
use crate::node_set::NodeSet;
use part_words::Change;
use switch_paths::{Graph, switch_state};
use ternary::Tern;

/// Writes changes into the state, and touches the storage nodes at which a switch changes by them.
pub(crate) fn take_all(
    graph: &Graph,
    lists: &mut LiveLists,
    changes: &[Change],
    state: &mut [Tern],
    touched: &mut NodeSet,
)
    requires counted { length state.old ≡ nodes graph.now }
    requires lists { AreListsOf graph.now state.old lists.old }
    requires nodes { length touched.old.inside ≡ nodes graph.now }
    requires inside { (change : Change) → Contains changes.now change → change.node < nodes graph.now }
    requires agreed { (one two : Change) → Contains changes.now one → Contains changes.now two → one.node ≡ two.node → one.value ≡ two.value }
    ensures lists { AreListsOf graph.now state.new lists.new }
    ensures taken { IsTaken changes.now state.old state.new }
    ensures touches { Touches graph.now state.old state.new touched.old.inside touched.new.inside }
{
    for change in changes {
        take_state(graph, lists, change.node, change.value, state, touched);
    }
}

/// Gives a node this state, and touches the storage nodes at which a switch changes by it. Its switches turn in the
/// lists of their ends; if it is the gate of none, the state is all that changes.
pub fn take_state(
    graph: &Graph,
    lists: &mut LiveLists,
    node: usize,
    value: Tern,
    state: &mut [Tern],
    touched: &mut NodeSet,
)
    requires counted { length state.old ≡ nodes graph.now }
    requires lists { AreListsOf graph.now state.old lists.old }
    requires nodes { length touched.old.inside ≡ nodes graph.now }
    requires inside { node < nodes graph.now }
    ensures lists { AreListsOf graph.now state.new lists.new }
    ensures state { state.new ≡ slice_set state.old node value }
    ensures touches { Touches graph.now state.old state.new touched.old.inside touched.new.inside }
{
    if !lists.may_gate(node) {
        state[node] = value;
        return;
    }
    let was = state[node];
    lists.turn(graph, state, node, value);
    state[node] = value;
    touch_along(graph, lists.gated(node), was, value, touched);
}

// Touches the ends of the switches at these places that change with their gates.
fn touch_along(graph: &Graph, places: &[usize], was: Tern, now: Tern, touched: &mut NodeSet)
    requires nodes { length touched.old.inside ≡ nodes graph.now }
    ensures { Wakes graph.now (λ node. (place : ℕ) × Contains places.now place × TurnsAt graph.now was now place node) touched.old touched.new }
{
    for place in places {
        touch_at(graph, *place, was, now, touched);
    }
}

// Touches the ends of the switch at a place, if it changes with its gate.
fn touch_at(graph: &Graph, place: usize, was: Tern, now: Tern, touched: &mut NodeSet)
    requires nodes { length touched.old.inside ≡ nodes graph.now }
    ensures { Wakes graph.now (TurnsAt graph.now was now place) touched.old touched.new }
{
    let Some(switch) = graph.switch_there(place) else {
        return;
    };
    if switch_state(switch.kind, was) == switch_state(switch.kind, now) {
        return;
    }
    wake(graph, switch.a, touched);
    wake(graph, switch.b, touched);
}
