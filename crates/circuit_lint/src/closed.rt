//! The always closed switches at each node.

ghost use Rattle.std.specs.Prelude.{◌≡◌, ◌+◌, ◌<◌, length, IfOk, OnOk};
ghost use Rattle.switch_paths.specs.Graphs.{nodes};
ghost use Rattle.circuit_lint.specs.Closed.{AreClosedTo, AreClosed, HasPut, list_at};

use crate::conducting::is_always_closed;
use std::alloc::{AllocError, Global};
use switch_paths::Graph;

/// The places of the always closed switches at each node of a graph, in ascending order.
pub(crate) fn closed_switches(alloc: Global, graph: &Graph) -> Result<Vec<Vec<usize>>, AllocError>
    ensures { IfOk result (λ lists. AreClosed graph.now lists.items) }
{
    let mut lists = Vec::new(alloc);
    for _ in 0..graph.nodes() {
        lists.push(Vec::new(alloc))?;
    }
    for place in 0..graph.places() {
        list_switch(graph, place, &mut lists)?;
    }
    Ok(lists)
}

// Lists the switch at a place at both its ends, once at each, if it is always closed.
fn list_switch(graph: &Graph, place: usize, lists: &mut Vec<Vec<usize>>) -> Result<(), AllocError>
    requires place { place < length graph.now.places }
    requires before { AreClosedTo graph.now place lists.old.items }
    ensures { OnOk result (AreClosedTo graph.now (place + 1) lists.new.items) }
{
    let Some(switch) = graph.switch_at(place) else {
        return Ok(());
    };
    if !is_always_closed(switch) {
        return Ok(());
    }
    list_at_node(lists, switch.a, place)?;
    if switch.b != switch.a {
        list_at_node(lists, switch.b, place)?;
    }
    Ok(())
}

// Lists a place at a node.
fn list_at_node(lists: &mut Vec<Vec<usize>>, node: usize, place: usize) -> Result<(), AllocError>
    requires { node < length lists.old.items }
    ensures { OnOk result (HasPut node place lists.old.items lists.new.items) }
{
    lists[node].push(place)?;
    Ok(())
}

/// The places that are listed at a node; past the last list there are none.
pub(crate) fn closed_at(lists: &[Vec<usize>], node: usize) -> &[usize]
    ensures { result.now ≡ list_at lists.now node }
{
    match lists.get(node) {
        Some(places) => places.as_slice(),
        None => &[],
    }
}
