//! Where a phase begins: nodes are placed in both runs.
ghost use Rattle.std.specs.Prelude.{◌≡◌, ℕ, ◌<◌, ◌≤◌, length, slice_set, Contains};
ghost use Rattle.std.specs.Bool.{OnTrue};
ghost use Rattle.switch_paths.specs.declared.TheConstants.{RAILS};
ghost use Rattle.beside_run.specs.Words.{state_at, AreAgreed, IsIn, FitsBeside};
ghost use Rattle.part_words.specs.declared.change.Change.{Change};
ghost use Rattle.beside_run.specs.Running.{LagsAt, PlacesChange, PlacesChanges, PlacesSome};

use beside_phases::place_both;
use part_words::Change;
use switch_paths::{Graph, RAILS};
use ternary::Tern;
use unit_step::Machine;
use vicinity::NodeSet;

/// Places the nodes of the changes with which the good run's phase begins: in the good run as they say, and under the fault at the
/// states that are meant.
pub(crate) fn place_changes(
    machine: &mut Machine,
    good_graph: &Graph,
    graph: &Graph,
    changes: &[Change],
    state: &[Tern],
    good: &mut [Tern],
    apart: &mut NodeSet,
)
    requires fits { FitsBeside good_graph.now graph.now good.old apart.old.inside machine.old }
    requires inside { (change : Change) → Contains changes.now change → change.node < length good.old }
    requires rails { (change : Change) → Contains changes.now change → change.node < RAILS → state_at good.old change.node ≡ change.value }
    requires agreed { AreAgreed changes.now }
    requires counted { length state.now ≡ length machine.old.state }
    ensures { PlacesChanges good_graph.now graph.now changes.now state.now machine.old machine.new good.old good.new apart.new.inside }
{
    for change in changes {
        place_change(machine, good_graph, graph, change, state, good, apart);
    }
}

// Places the node of a change, if it is no rail: a rail has its state already.
fn place_change(
    machine: &mut Machine,
    good_graph: &Graph,
    graph: &Graph,
    change: &Change,
    state: &[Tern],
    good: &mut [Tern],
    apart: &mut NodeSet,
)
    requires fits { FitsBeside good_graph.now graph.now good.old apart.old.inside machine.old }
    requires inside { change.now.node < length good.old }
    requires rail { change.now.node < RAILS → state_at good.old change.now.node ≡ change.now.value }
    requires counted { length state.now ≡ length machine.old.state }
    ensures { PlacesChange good_graph.now graph.now change.now state.now machine.old machine.new good.old good.new apart.new.inside }
{
    let node = change.node;
    if node < RAILS {
        return;
    }
    let meant = state[node];
    let value = change.value;
    place_both(machine, good_graph, graph, node, value, meant, good, apart);
}

/// Places the nodes that were given states: in the good run they stay, and under the fault they get the states that are meant.
pub(crate) fn place_given(
    machine: &mut Machine,
    good_graph: &Graph,
    graph: &Graph,
    given: &NodeSet,
    state: &[Tern],
    good: &mut [Tern],
    apart: &mut NodeSet,
)
    requires fits { FitsBeside good_graph.now graph.now good.old apart.old.inside machine.old }
    requires inside { length given.now.inside ≡ length machine.old.state }
    requires free { (node : ℕ) → IsIn given.now.inside node → RAILS ≤ node }
    requires counted { length state.now ≡ length machine.old.state }
    requires lags { LagsAt given.now.list state.now machine.old.state }
    ensures places { PlacesSome good_graph.now graph.now machine.old machine.new good.new apart.new.inside }
    ensures good { good.new ≡ good.old }
    ensures state { machine.new.state ≡ state.now }
{
    let count = given.len();
    for place in 0..count {
        let node = given.at(place);
        place_meant(machine, good_graph, graph, node, state, good, apart);
    }
}

// Places a node that was given a state, unless it has that already: in the good run it stays.
fn place_meant(
    machine: &mut Machine,
    good_graph: &Graph,
    graph: &Graph,
    node: usize,
    state: &[Tern],
    good: &mut [Tern],
    apart: &mut NodeSet,
)
    requires fits { FitsBeside good_graph.now graph.now good.old apart.old.inside machine.old }
    requires inside { node < length machine.old.state }
    requires no_rail { RAILS ≤ node }
    requires counted { length state.now ≡ length machine.old.state }
    ensures places { PlacesSome good_graph.now graph.now machine.old machine.new good.new apart.new.inside }
    ensures good { good.new ≡ good.old }
    ensures state { machine.new.state ≡ slice_set machine.old.state node (state_at state.now node) }
{
    let meant = state[node];
    if has_state(machine.state(), node, meant) {
        return;
    }
    let value = good[node];
    place_both(machine, good_graph, graph, node, value, meant, good, apart);
}

// Whether a node has this state.
fn has_state(states: &[Tern], node: usize, value: Tern) -> bool
    requires { node < length states.now }
    ensures { OnTrue result (state_at states.now node ≡ value) }
{
    states[node] == value
}
