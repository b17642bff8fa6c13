//! Edits between two graphs.
ghost use Rattle.std.specs.Prelude.{◌≡◌, ◌<◌, ◌≤◌, length, IfSome};
ghost use Rattle.std.specs.Bool.{OnFalse, OnTrue};
ghost use Rattle.switch_paths.specs.Graphs.{nodes, IsWired};
ghost use Rattle.channel_groups.specs.Changes.{undo, with_level, with_place};
ghost use Rattle.machine_laws.specs.Fitting.{Covers};
ghost use Rattle.edits_between.specs.Leading.{with_level_of, with_place_of, with_spot_of, DifferAt, HasParts, IsAsLarge, LedBy, LedIn, last_in};

use crate::differing::{Differences, Spot};
use channel_groups::Change;
use std::sync::ledger::Ledger;
use switch_paths::{Graph, Switch, graphs_are_wired};
use ternary::Steps;
use unit_step::Machine;

/// Leads a machine to another graph by way of a third one, both of as many nodes and places; `count` becomes how many parts it had there. Each of these
/// that is left then, and each part that has code, is that of a group that stands alike in the third graph. `apart` says where the machine's graph differs
/// from that one, before and after: so the way there takes time by what differs alone.
pub fn lead_by<L: Ledger>(
    slot: &mut Option<Machine>,
    graph: &mut Graph,
    way: &Graph,
    target: &Graph,
    apart: &mut Differences,
    count: &mut usize,
    steps: &mut Steps<L>,
) -> bool
    requires covers { IfSome slot.old (Covers graph.old) }
    requires there { IsAsLarge graph.old way.now }
    requires large { IsAsLarge way.now target.now }
    requires apart { DifferAt graph.old way.now apart.old }
    ensures led { OnTrue result (LedBy graph.old way.now target.now count.new slot.old slot.new) }
    ensures graph { OnTrue result (graph.new ≡ target.now) }
    ensures apart { OnTrue result (DifferAt target.now way.now apart.new) }
    ensures last { last_in slot.new ≡ last_in slot.old }
{
    if !lead(slot, graph, way, apart, steps) {
        return false;
    }
    *count = parts_in(slot);
    match apart.find(target, way) {
        Ok(()) => lead(slot, graph, target, apart, steps),
        Err(_) => false,
    }
}

// Leads a machine that covers the graph to another graph of as many nodes and places, from which it differs at these alone, and the graph becomes that
// one: follows an edit for each of these, while there is memory; answers whether there was. Else the machine that is left is one for its states and the
// texts of its last build alone.
fn lead<L: Ledger>(
    slot: &mut Option<Machine>,
    graph: &mut Graph,
    target: &Graph,
    apart: &Differences,
    steps: &mut Steps<L>,
) -> bool
    requires covers { IfSome slot.old (Covers graph.old) }
    requires large { IsAsLarge graph.old target.now }
    requires apart { DifferAt graph.old target.now apart.now }
    ensures led { OnTrue result (LedIn graph.old target.now slot.old slot.new) }
    ensures graph { OnTrue result (graph.new ≡ target.now) }
    ensures last { last_in slot.new ≡ last_in slot.old }
{
    for number in 0..apart.count() {
        graphs_are_wired(graph);
        let change = put(graph, target, apart.spot(number));
        if !follow(slot, graph, &change, steps) {
            return false;
        }
    }
    true
}

// How many parts a machine has, if there is one.
fn parts_in(slot: &Option<Machine>) -> usize
    ensures { HasParts result slot.now }
{
    match slot {
        Some(machine) => machine.parts(),
        None => 0,
    }
}

// Puts what the other graph has at a spot; answers how the graph was before.
fn put(graph: &mut Graph, target: &Graph, spot: Spot) -> Change
    requires { IsAsLarge graph.old target.now }
    ensures before { undo graph.new result ≡ graph.old }
    ensures put { graph.new ≡ with_spot_of target.now graph.old spot }
{
    let nodes = graph.nodes();
    match spot {
        Spot::Place(place) => {
            let place = put_place(graph, target, place);
            Change {
                nodes,
                place,
                level: None,
            }
        }
        Spot::Node(node) => {
            let level = put_level(graph, target, node);
            Change {
                nodes,
                place: None,
                level,
            }
        }
    }
}

// Puts at a place what stands there in the other graph, if there is such a place; answers what stood there.
fn put_place(graph: &mut Graph, target: &Graph, place: usize) -> Option<(usize, Option<Switch>)>
    requires { IsAsLarge graph.old target.now }
    ensures before { with_place result graph.new.places ≡ graph.old.places }
    ensures put { graph.new ≡ with_place_of target.now graph.old place }
{
    if !has_place(graph, place) {
        return None;
    }
    let stood = graph.switch_at(place);
    graph.put_switch(place, target.switch_there(place));
    Some((place, stood))
}

// Whether a graph has such a place.
fn has_place(graph: &Graph, place: usize) -> bool
    ensures inside { OnTrue result (place < length graph.now.places) }
    ensures past { OnFalse result (length graph.now.places ≤ place) }
{
    place < graph.places()
}

// Gives a node its level in the other graph, if there is such a node; answers which one it had.
fn put_level(graph: &mut Graph, target: &Graph, node: usize) -> Option<(usize, u8)>
    requires { IsAsLarge graph.old target.now }
    ensures before { with_level result graph.new.levels ≡ graph.old.levels }
    ensures put { graph.new ≡ with_level_of target.now graph.old node }
{
    if !has_node(graph, node) {
        return None;
    }
    let had = graph.level(node);
    let has = target.level(node);
    graph.set_level(node, has);
    Some((node, had))
}

// Whether a graph has such a node.
fn has_node(graph: &Graph, node: usize) -> bool
    ensures inside { OnTrue result (node < nodes graph.now) }
    ensures past { OnFalse result (nodes graph.now ≤ node) }
{
    node < graph.nodes()
}

// Has the machine follow an edit of the graph, if there is one; answers whether there was memory.
fn follow<L: Ledger>(
    slot: &mut Option<Machine>,
    graph: &Graph,
    change: &Change,
    steps: &mut Steps<L>,
) -> bool
    requires covers { IfSome slot.old (Covers (undo graph.now change.now)) }
    requires wired { IsWired (undo graph.now change.now) }
    requires nodes { nodes graph.now ≡ nodes (undo graph.now change.now) }
    ensures led { OnTrue result (LedIn (undo graph.now change.now) graph.now slot.old slot.new) }
    ensures last { last_in slot.new ≡ last_in slot.old }
{
    graphs_are_wired(graph);
    let Some(machine) = slot.take() else {
        return true;
    };
    match machine.edit(graph, change, steps) {
        Ok(next) => {
            *slot = Some(next);
            true
        }
        Err(refused) => {
            *slot = Some(refused.machine);
            false
        }
    }
}
