//! A graph with some of its storage nodes alone.
ghost use Rattle.std.specs.Prelude.{◌≡◌, ◌<◌, ◌↔◌, true, length, IfOk, IfSome};
ghost use Rattle.switch_paths.specs.Graphs.{nodes, FitsPlace};
ghost use Rattle.vicinity.specs.NodeSets.{IsIn};
ghost use Rattle.wide_groups.specs.Confined.{IsConfined, ConfinesNode, ConfinesNodes, ConfinesPlace, ConfinesPlaces, HasEndIn};

use std::alloc::Global;
use strength_order::INPUT_LEVEL;
use switch_paths::{Graph, Switch};
use ternary::NoMemory;
use vicinity::NodeSet;

// The graph with these nodes alone as storage nodes: all others are input nodes, and each switch is left out that has
// none of these at an end.
pub(crate) fn confined(alloc: Global, graph: &Graph, members: &NodeSet) -> Result<Graph, NoMemory>
    requires { length members.now.inside ≡ nodes graph.now }
    ensures { IfOk result (IsConfined graph.now members.now.inside) }
{
    let mut held = graph.copy(alloc)?;
    confine_nodes(members, &mut held);
    confine_places(members, &mut held);
    Ok(held)
}

// All nodes but these become input nodes.
fn confine_nodes(members: &NodeSet, graph: &mut Graph)
    requires { length members.now.inside ≡ nodes graph.old }
    ensures { ConfinesNodes members.now.inside graph.old graph.new }
{
    let count = graph.nodes();
    for node in 0..count {
        confine_node(members, node, graph);
    }
}

// A node becomes an input node if it isn't one of these.
fn confine_node(members: &NodeSet, node: usize, graph: &mut Graph)
    requires counted { length members.now.inside ≡ nodes graph.old }
    requires inside { node < nodes graph.old }
    ensures { ConfinesNode members.now.inside node graph.old graph.new }
{
    if !members.contains(node) {
        graph.set_level(node, INPUT_LEVEL);
    }
}

// All places but those of switches with one of these nodes at an end become empty.
fn confine_places(members: &NodeSet, graph: &mut Graph)
    requires { length members.now.inside ≡ nodes graph.old }
    ensures { ConfinesPlaces members.now.inside graph.old graph.new }
{
    let count = graph.places();
    for place in 0..count {
        confine_place(members, place, graph);
    }
}

// A place becomes empty if no switch with one of these nodes at an end is there.
fn confine_place(members: &NodeSet, place: usize, graph: &mut Graph)
    requires counted { length members.now.inside ≡ nodes graph.old }
    requires inside { place < length graph.old.places }
    ensures { ConfinesPlace members.now.inside place graph.old graph.new }
{
    if !has_end_in(graph.switch_at(place), members) {
        graph.put_switch(place, None);
    }
}

// Whether there is a switch with one of these nodes at an end.
fn has_end_in(there: Option<Switch>, members: &NodeSet) -> bool
    requires { FitsPlace (length members.now.inside) there }
    ensures { IfSome there (λ switch. (result ≡ true) ↔ HasEndIn members.now.inside switch) }
{
    match there {
        Some(switch) => members.contains(switch.a) || members.contains(switch.b),
        None => false,
    }
}
