//! The flood from a storage node to all that it is linked with.

ghost use Rattle.std.specs.Prelude.{◌≡◌, ℕ, ◌+◌, ◌<◌, ◌≤◌, length, filter, if◌then◌else◌, None, Some, Contains, IfOk, IfSome, OnOk, IsTrue, ◌↔◌};
ghost use Rattle.switch_paths.specs.Graphs.{nodes, IsStorage};
ghost use Rattle.group_meaning.specs.Groups.{AreJoined, IsGroup};
ghost use Rattle.channel_groups.specs.Listing.{AreListed, places_of, is_other, others_at};
ghost use Rattle.channel_groups.specs.Flood.{Sees, IsPaid};

use crate::ends::{Ends, listed};
use crate::group::Group;
use indexmap::IndexSet;
use std::alloc::{AllocError, Global};
use std::sync::ledger::Ledger;
use strength_order::INPUT_LEVEL;
use switch_paths::Graph;
use ternary::Steps;

/// The nodes that were found, and the places of switches with an end at them.
#[derive(Drop)]
struct Flood {
    nodes: IndexSet<usize>,
    places: Vec<usize>,
}

/// The group of a storage node, by the places that are listed at each node and the changed one. It looks
/// from the root, and then from each node that was found.
pub(crate) fn group_at<L: Ledger>(
    alloc: Global,
    graph: &Graph,
    ends: &Ends,
    changed: Option<usize>,
    root: usize,
    steps: &mut Steps<L>,
) -> Result<Group, AllocError>
    requires root { IsStorage graph.now root }
    requires firsts { AreListed (λ switch. switch.a) graph.now changed (places_of ends.now.firsts.items) }
    requires seconds { AreListed (λ switch. switch.b) graph.now changed (places_of ends.now.seconds.items) }
    ensures group { IfOk result (IsGroup graph.now) }
    ensures root { IfOk result (λ group. Contains group.members root) }
    ensures steps { IsPaid graph.now root steps.old steps.new }
{
    let mut flood = Flood {
        nodes: IndexSet::new(alloc),
        places: Vec::new(alloc),
    };
    flood.nodes.insert(root)?;
    let mut count = 0;
    while count < flood.nodes.len() {
        let nodes = flood.nodes.as_slice();
        let node = nodes[count];
        visit(graph, ends, changed, node, &mut flood, steps)?;
        count += 1;
    }
    let group = Group::sorted(alloc, flood.nodes.as_slice(), flood.places.as_slice())?;
    Ok(group)
}

/// Looks at all places at a node.
fn visit<L: Ledger>(
    graph: &Graph,
    ends: &Ends,
    changed: Option<usize>,
    node: usize,
    flood: &mut Flood,
    steps: &mut Steps<L>,
) -> Result<(), AllocError>
    requires firsts { AreListed (λ switch. switch.a) graph.now changed (places_of ends.now.firsts.items) }
    requires seconds { AreListed (λ switch. switch.b) graph.now changed (places_of ends.now.seconds.items) }
    ensures sees { OnOk result (Sees graph.now node (λ place. (n : ℕ) × AreJoined graph.now place node n)
        flood.old.nodes.keys flood.new.nodes.keys flood.old.places.items flood.new.places.items) }
    ensures steps { steps.new ≤ steps.old + 2
        + length (others_at changed (places_of ends.now.firsts.items) node)
        + length (others_at changed (places_of ends.now.seconds.items) node) }
{
    steps.tick();
    look_along(
        graph,
        node,
        listed(&ends.firsts, node),
        changed,
        flood,
        steps,
    )?;
    look_along(
        graph,
        node,
        listed(&ends.seconds, node),
        changed,
        flood,
        steps,
    )?;
    look_at_changed(graph, node, changed, flood, steps)?;
    Ok(())
}

/// Looks at these places but the changed one.
fn look_along<L: Ledger>(
    graph: &Graph,
    node: usize,
    places: &[usize],
    changed: Option<usize>,
    flood: &mut Flood,
    steps: &mut Steps<L>,
) -> Result<(), AllocError>
    ensures sees { OnOk result (Sees graph.now node (λ place. Contains places.now place × ¬ (changed ≡ Some place))
        flood.old.nodes.keys flood.new.nodes.keys flood.old.places.items flood.new.places.items) }
    ensures steps { steps.new ≤ steps.old + length (filter (is_other changed) places.now) }
{
    for &place in places {
        look_at_other(graph, node, place, changed, flood, steps)?;
    }
    Ok(())
}

/// Looks at a place, unless it is the changed one.
fn look_at_other<L: Ledger>(
    graph: &Graph,
    node: usize,
    place: usize,
    changed: Option<usize>,
    flood: &mut Flood,
    steps: &mut Steps<L>,
) -> Result<(), AllocError>
    ensures sees { OnOk result (Sees graph.now node (λ one. (one ≡ place) × ¬ (changed ≡ Some one))
        flood.old.nodes.keys flood.new.nodes.keys flood.old.places.items flood.new.places.items) }
    ensures steps { steps.new ≡ steps.old + (if is_other changed place then 1 else 0) }
{
    if changed == Some(place) {
        return Ok(());
    }
    look(graph, node, place, flood, steps)?;
    Ok(())
}

/// Looks at the changed place, if there is one.
fn look_at_changed<L: Ledger>(
    graph: &Graph,
    node: usize,
    changed: Option<usize>,
    flood: &mut Flood,
    steps: &mut Steps<L>,
) -> Result<(), AllocError>
    ensures sees { OnOk result (Sees graph.now node (λ place. changed ≡ Some place)
        flood.old.nodes.keys flood.new.nodes.keys flood.old.places.items flood.new.places.items) }
    ensures steps { steps.new ≤ steps.old + 1 }
{
    match changed {
        Some(place) => {
            look(graph, node, place, flood, steps)?;
            Ok(())
        }
        None => Ok(()),
    }
}

/// Looks at a place from a node: if its switch has an end there, the place is listed, and the
/// node at the other end is found if it is a storage node.
fn look<L: Ledger>(
    graph: &Graph,
    node: usize,
    place: usize,
    flood: &mut Flood,
    steps: &mut Steps<L>,
) -> Result<(), AllocError>
    ensures sees { OnOk result (Sees graph.now node (λ one. one ≡ place)
        flood.old.nodes.keys flood.new.nodes.keys flood.old.places.items flood.new.places.items) }
    ensures steps { steps.new ≡ steps.old + 1 }
{
    steps.tick();
    let Some(other) = across(graph, node, place) else {
        return Ok(());
    };
    flood.places.push(place)?;
    if is_storage(graph, other) {
        flood.nodes.insert(other)?;
    }
    Ok(())
}

/// The node at the other end of the switch at a place that has an end at this node, if it has one.
fn across(graph: &Graph, node: usize, place: usize) -> Option<usize>
    ensures joined { IfSome result (λ other. AreJoined graph.now place node other) }
    ensures all { (other : ℕ) → AreJoined graph.now place node other → result ≡ Some other }
    ensures inside { IfSome result (λ other. other < nodes graph.now) }
{
    let switch = graph.switch_there(place)?;
    switch.other_end(node)
}

/// Whether a node is a storage node.
pub(crate) fn is_storage(graph: &Graph, node: usize) -> bool
    requires { node < nodes graph.now }
    ensures { IsTrue result ↔ IsStorage graph.now node }
{
    graph.level(node) < INPUT_LEVEL
}
