//! The places at all nodes of a graph, with those in front whose switches aren't open.
ghost use Rattle.std.specs.Prelude.{◌≡◌, ℕ, ◌+◌, ◌<◌, length, slice_set, Contains, Some, IfOk, OnOk};
ghost use Rattle.std.specs.Bool.{OnFalse};
ghost use Rattle.switch_paths.specs.Graphs.{nodes};
ghost use Rattle.machine_parts.specs.Marking.{AreOnce};
ghost use Rattle.vicinity.specs.Words.{places_of, all_at, with_lists, TellGates, AreListsOf, AreListedBelow, AddsEnds, TurnsAtNode, TurnsGate};

use crate::arms::listed;
use crate::live_list::{LiveList, add_at, add_empty, empty_lists};
use crate::spots::{HEADS, Spots, hint_at, note_all, note_exchange};
use crate::turning::conducts;
use std::alloc::{AllocError, Global};
use std::marker::Model;
use switch_paths::{Graph, Switch};
use ternary::Tern;

/// For each node the places of the switches with an end there, and of those with their gate there.
///
/// Those whose switches aren't open stand in front. When a gate changes, each of its switches is swapped with one at
/// the border, in the lists of both its ends. Where a place stands is remembered, so that this takes no search; and
/// it takes no memory. Most nodes are gates of no switch of a large group, and it is known of each by a flag, so that
/// a change of one takes no look at its list.
#[derive(Drop)]
pub struct LiveLists {
    ends: Vec<LiveList>,
    gates: Vec<LiveList>,
    is_gate: Vec<bool>,
    spots: Vec<Spots>,
}

impl Model for LiveLists {
    ghost use Rattle.machine_parts.specs.Marking.{AreOnce};
    ghost use Rattle.vicinity.specs.Lists.{LiveListsData, TellGates};

    ghost Value = { LiveListsData };

    ghost view = { λ lists. record { ends = lists.ends.items; gates = lists.gates.items } };

    ghost invariant = { λ lists. TellGates lists.is_gate.items lists.gates.items };
}

impl LiveLists {
    /// The lists of a graph under a state.
    pub fn of(alloc: Global, graph: &Graph, state: &[Tern]) -> Result<LiveLists, AllocError>
        requires { length state.now ≡ nodes graph.now }
        ensures { IfOk result (AreListsOf graph.now state.now) }
    {
        let mut ends = empty_lists(alloc, graph.nodes())?;
        let mut gates = empty_lists(alloc, graph.nodes())?;
        let mut spots = vec![in alloc; HEADS; graph.places()]?;
        list_all(graph, state, &mut ends, &mut gates)?;
        note_all(graph, &mut spots, &ends);
        let is_gate = gate_flags(alloc, &gates)?;
        Ok(LiveLists {
            ends,
            gates,
            is_gate,
            spots,
        })
    }

    /// So many nodes more have no places.
    pub(crate) fn grow(&mut self, more: usize) -> Result<(), AllocError>
        ensures { OnOk result (self.new ≡ with_lists self.old more) }
    {
        add_empty(&mut self.ends, more)?;
        add_empty(&mut self.gates, more)
    }

    /// The list of each node.
    pub(crate) fn ends(&self) -> &[LiveList]
        ensures { result.now ≡ self.now.ends }
    {
        &self.ends
    }

    /// The places in front at a node, each once: their switches aren't open.
    pub fn live(&self, node: usize) -> &[usize]
        ensures value { result.now ≡ places_of self.now.ends node }
        ensures once { AreOnce result.now }
    {
        listed(&self.ends, node)
    }

    /// The places whose switches have this node as their gate.
    pub fn gated(&self, node: usize) -> &[usize]
        ensures { result.now ≡ places_of self.now.gates node }
    {
        listed(&self.gates, node)
    }

    /// Whether the node may be the gate of a switch: of a node that came later it isn't known.
    pub fn may_gate(&self, node: usize) -> bool
        ensures { OnFalse result (length (places_of self.now.gates node) ≡ 0) }
    {
        if node < self.is_gate.len() {
            return self.is_gate[node];
        }
        true
    }

    /// The switches at a gate turn: it had its state in this one, and is to have another.
    pub fn turn(&mut self, graph: &Graph, state: &[Tern], gate: usize, now: Tern)
        requires counted { length state.now ≡ nodes graph.now }
        requires inside { gate < length state.now }
        requires lists { AreListsOf graph.now state.now self.old }
        ensures { AreListsOf graph.now (slice_set state.now gate now) self.new }
    {
        turn_gate(
            graph,
            &mut self.ends,
            &mut self.spots,
            gate,
            listed(&self.gates, gate),
            state[gate],
            now,
        );
    }
}

// For each node whether it is the gate of a switch.
fn gate_flags(alloc: Global, gates: &[LiveList]) -> Result<Vec<bool>, AllocError>
    ensures { IfOk result (λ flags. TellGates flags.items gates.now) }
{
    let mut flags = Vec::new(alloc);
    for node in 0..gates.len() {
        flags.push(has_some(gates, node))?;
    }
    Ok(flags)
}

// Whether a place is in front at a node.
fn has_some(lists: &[LiveList], node: usize) -> bool
    ensures { OnFalse result (length (places_of lists.now node) ≡ 0) }
{
    if listed(lists, node).is_empty() {
        return false;
    }
    true
}

// Lists all places of a graph, none of which is listed yet.
fn list_all(
    graph: &Graph,
    state: &[Tern],
    ends: &mut [LiveList],
    gates: &mut [LiveList],
) -> Result<(), AllocError>
    requires counted { length state.now ≡ nodes graph.now }
    requires none { AreListedBelow graph.now state.now 0 ends.old gates.old }
    ensures all { OnOk result (AreListedBelow graph.now state.now (length graph.now.places) ends.new gates.new) }
{
    for place in 0..graph.places() {
        list_place(graph, state, place, ends, gates)?;
    }
    Ok(())
}

// Lists the place that comes after those that are listed.
fn list_place(
    graph: &Graph,
    state: &[Tern],
    place: usize,
    ends: &mut [LiveList],
    gates: &mut [LiveList],
) -> Result<(), AllocError>
    requires counted { length state.now ≡ nodes graph.now }
    requires below { AreListedBelow graph.now state.now place ends.old gates.old }
    ensures more { OnOk result (AreListedBelow graph.now state.now (place + 1) ends.new gates.new) }
{
    let Some(switch) = graph.switch_there(place) else {
        return Ok(());
    };
    let live = conducts(switch.kind, state[switch.gate]);
    list_ends(switch, place, live, ends)?;
    add_at(gates, switch.gate, place, true)
}

// Lists a place at both ends of its switch.
fn list_ends(
    switch: Switch,
    place: usize,
    live: bool,
    ends: &mut [LiveList],
) -> Result<(), AllocError>
    requires a { switch.a < length ends.old }
    requires b { switch.b < length ends.old }
    requires new { (node : ℕ) → ¬ Contains (all_at ends.old node) place }
    ensures { OnOk result (AddsEnds live place switch ends.old ends.new) }
{
    add_at(ends, switch.a, place, live)?;
    if switch.b == switch.a {
        return Ok(());
    }
    add_at(ends, switch.b, place, live)
}

// The switches at these places turn that have this node as their gate, which went from the one state to the other.
fn turn_gate(
    graph: &Graph,
    ends: &mut [LiveList],
    spots: &mut [Spots],
    gate: usize,
    places: &[usize],
    was: Tern,
    now: Tern,
)
    requires { length ends.old ≡ nodes graph.now }
    ensures { TurnsGate graph.now gate was now (Contains places.now) ends.old ends.new }
{
    for place in places {
        turn_one(graph, ends, spots, gate, *place, was, now);
    }
}

// The switch at a place turns, if this node is its gate and it does so between these two states.
fn turn_one(
    graph: &Graph,
    ends: &mut [LiveList],
    spots: &mut [Spots],
    gate: usize,
    place: usize,
    was: Tern,
    now: Tern,
)
    requires { length ends.old ≡ nodes graph.now }
    ensures { TurnsGate graph.now gate was now (λ q. q ≡ place) ends.old ends.new }
{
    let Some(switch) = graph.switch_there(place) else {
        return;
    };
    if switch.gate != gate {
        return;
    }
    let live = conducts(switch.kind, now);
    if live == conducts(switch.kind, was) {
        return;
    }
    turn_at_node(graph, ends, spots, switch.a, place, live);
    turn_at_node(graph, ends, spots, switch.b, place, live);
}

// At one node a place comes to the front or leaves it.
fn turn_at_node(
    graph: &Graph,
    ends: &mut [LiveList],
    spots: &mut [Spots],
    node: usize,
    place: usize,
    live: bool,
)
    requires { node < length ends.old }
    ensures { TurnsAtNode live place node ends.old ends.new }
{
    let hint = hint_at(graph, spots, place, node);
    let spot = ends[node].turn(hint, place, live);
    note_turn(graph, spots, &ends[node], node, spot, live);
}

// Notes where the place stands that turned, and the one with which it was swapped: one of them at the border.
fn note_turn(
    graph: &Graph,
    spots: &mut [Spots],
    list: &LiveList,
    node: usize,
    spot: Option<usize>,
    live: bool,
) {
    let Some(first) = spot else {
        return;
    };
    let border = list.live().len();
    let second = if live {
        border.saturating_sub(1)
    } else {
        border
    };
    note_exchange(graph, spots, list.all(), node, first, second);
}
