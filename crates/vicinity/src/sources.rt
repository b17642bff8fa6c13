//! What a node starts with in a pass: by itself, and from the input nodes next to it.
ghost use Rattle.std.specs.Prelude.{◌≡◌, ◌+◌, ◌<◌, ◌≤◌, min, length, Some};
ghost use Rattle.switch_paths.specs.Graphs.{nodes};
ghost use Rattle.vicinity.specs.Words.{own_strength, HasAbove, IsFloorAt, IsWay, HasSources, ListsLive, cost_at, HasEdge, is_crossed};

use crate::arms::{Arm, arm_at, listed};
use crate::flood::is_storage;
use crate::live_list::LiveList;
use crate::pass::{Pass, own_strength};
use std::sync::ledger::Ledger;
use strength_order::INPUT_LEVEL;
use switch_paths::{Graph, graphs_are_wired};
use ternary::{Steps, Tern};

/// The entry with which a node starts in a pass, whose floor there is this: the greatest strength that is its own or
/// comes from an input node, unless it is below the floor; else 0.
pub(crate) fn source_at<L: Ledger>(
    pass: Pass,
    graph: &Graph,
    lists: &[LiveList],
    state: &[Tern],
    node: usize,
    floor: u8,
    steps: &mut Steps<L>,
) -> u8
    requires counted { length state.now ≡ nodes graph.now }
    requires lists { ListsLive graph.now state.now lists.now }
    requires inside { node < nodes graph.now }
    requires floor { IsFloorAt pass graph.now state.now node floor }
    ensures way { 0 < result → IsWay pass graph.now state.now node result }
    ensures sources { HasSources pass graph.now state.now node floor result }
    ensures steps { steps.new ≡ steps.old + cost_at lists.now node }
{
    graphs_are_wired(graph);
    steps.tick();
    let own = own_strength(pass, state[node], graph.level(node));
    let mut entry = above(floor, own);
    for place in listed(lists, node) {
        steps.tick();
        entry = entry.max(edge_at(pass, graph, state, *place, node, floor));
    }
    entry
}

// What comes to a node from an input node over this place, unless it is below the floor; else 0.
fn edge_at(pass: Pass, graph: &Graph, state: &[Tern], place: usize, node: usize, floor: u8) -> u8
    requires counted { length state.now ≡ nodes graph.now }
    requires inside { node < nodes graph.now }
    requires floor { IsFloorAt pass graph.now state.now node floor }
    ensures way { 0 < result → IsWay pass graph.now state.now node result }
    ensures edge { HasEdge pass graph.now state.now node floor result place }
{
    graphs_are_wired(graph);
    let Some(arm) = arm_at(graph, state, place, node) else {
        return 0;
    };
    if is_storage(graph, arm.other) || !is_crossed(pass, arm) {
        return 0;
    }
    let strength = own_strength(pass, state[arm.other], INPUT_LEVEL).min(arm.level);
    above(floor, strength)
}

/// Whether the pass crosses the switch of an arm.
pub(crate) fn is_crossed(pass: Pass, arm: Arm) -> bool
    ensures { result ≡ is_crossed pass arm.closed }
{
    match pass {
        Pass::Sure => arm.closed,
        _ => true,
    }
}

/// The strength, unless it is below the floor; else 0.
pub(crate) fn above(floor: u8, strength: u8) -> u8
    ensures has { HasAbove floor result strength }
    ensures only { 0 < result → (result ≡ strength) × (floor ≤ strength) }
{
    if floor <= strength { strength } else { 0 }
}
