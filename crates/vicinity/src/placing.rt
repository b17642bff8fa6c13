//! A node gets a state from outside.
ghost use Rattle.std.specs.Prelude.{◌≡◌, ℕ, ◌<◌, ◌⊎◌, length, slice_set, Contains};
ghost use Rattle.switch_paths.specs.Graphs.{nodes, IsStorage};
ghost use Rattle.vicinity.specs.Words.{LeadsTo, AreListsOf, Wakes, Stirs, PlacesGroup};

use crate::flood::{look, wake};
use crate::live_lists::LiveLists;
use crate::node_set::NodeSet;
use crate::touching::take_state;
use switch_paths::{Graph, graphs_are_wired};
use ternary::Tern;

/// Gives a node this state. The storage nodes next to it are touched, itself too if it is one, and so are the ends of the
/// switches that change with it. It takes no memory.
pub fn place_awake(
    graph: &Graph,
    lists: &mut LiveLists,
    node: usize,
    value: Tern,
    state: &mut [Tern],
    touched: &mut NodeSet,
)
    requires counted { length state.old ≡ nodes graph.now }
    requires lists { AreListsOf graph.now state.old lists.old }
    requires touched { length touched.old.inside ≡ nodes graph.now }
    requires inside { node < nodes graph.now }
    ensures state { state.new ≡ slice_set state.old node value }
    ensures group { PlacesGroup graph.now state.old state.new touched.old.list touched.new.list }
    ensures only { (other : ℕ) → Contains touched.new.list other →
        Contains touched.old.list other ⊎ (IsStorage graph.now other × Stirs graph.now state.old state.new node other) }
    ensures lists { AreListsOf graph.now state.new lists.new }
    ensures count { length touched.new.inside ≡ length touched.old.inside }
{
    graphs_are_wired(graph);
    touched.lists_what_is_in_it();
    wake(graph, node, touched);
    wake_along(graph, state, node, lists.live(node), touched);
    take_state(graph, lists, node, value, state, touched);
    touched.lists_what_is_in_it();
}

// The storage nodes next to this node come to the set, by these places.
fn wake_along(graph: &Graph, state: &[Tern], node: usize, places: &[usize], awake: &mut NodeSet)
    requires counted { length state.now ≡ nodes graph.now }
    requires nodes { length awake.old.inside ≡ nodes graph.now }
    ensures wakes { Wakes graph.now (λ other. (place : ℕ) × Contains places.now place × LeadsTo graph.now state.now place node other) awake.old awake.new }
{
    for place in places {
        look(graph, state, node, *place, awake);
    }
}
