//! The line of a node, and those of the transistors at it.

ghost use Rattle.std.specs.Prelude.{◌≡◌, ◌+◌, ◌<◌, ◌≤◌, ◌^◌, length, option_map, IfSome};
ghost use Rattle.switch_paths.specs.Words.{nodes, place_at, Fits};
ghost use Rattle.told_lines.specs.Lines.{IsShort, line_seen};
ghost use Rattle.node_looks.specs.Looks as spec;

use netlist::{Circuit, RAILS};
use printed_lines::{NodeSort, SwitchTold};
use strength_order::INPUT_LEVEL;
use switch_paths::{Switch, switch_state};
use ternary::Tern;
use told_lines::Line;

/// The terminal of a transistor that is at a node.
#[derive(Clone, Copy)]
pub(crate) enum Terminal {
    /// One of its ends, or both.
    End,
    /// Its gate.
    Gate,
}

/// The line of a node.
pub(crate) fn node_line<'a>(circuit: &'a Circuit, state: &[Tern], node: usize) -> Line<'a>
    requires inside { node < nodes circuit.now.graph }
    requires states { length state.now ≡ nodes circuit.now.graph }
    ensures line { line_seen result ≡ spec.node_line circuit.now state.now node }
    ensures short { IsShort (line_seen result) }
{
    Line::Looked {
        name: circuit.name_of(node),
        state: state[node],
        sort: sort_of(circuit, node),
    }
}

/// The line of what stands at a place, if it is a transistor with this terminal at a node.
pub(crate) fn line_at<'a>(
    circuit: &'a Circuit,
    state: &[Tern],
    terminal: Terminal,
    node: usize,
    place: usize,
) -> Option<Line<'a>>
    requires states { length state.now ≡ nodes circuit.now.graph }
    requires inside { place < length circuit.now.graph.places }
    requires small { place + 1 < 2 ^ 64 }
    ensures line { option_map line_seen result
        ≡ spec.line_at terminal circuit.now state.now node (place + 1, place_at circuit.now.graph.places place) }
    ensures short { IfSome result (λ line. IsShort (line_seen line)) }
{
    let switch = circuit.graph().switch_at(place)?;
    match terminal {
        Terminal::End => {
            let other = other_end(switch, node)?;
            Some(at_end(circuit, state, place, switch, other))
        }
        Terminal::Gate if switch.gate == node => Some(at_gate(circuit, state, place, switch)),
        Terminal::Gate => None,
    }
}

// The node at the other end of a transistor with an end at this one.
fn other_end(switch: Switch, node: usize) -> Option<usize>
    ensures { result ≡ spec.other_end node switch }
{
    if switch.a == node {
        Some(switch.b)
    } else if switch.b == node {
        Some(switch.a)
    } else {
        None
    }
}

// The line of the transistor at a place with this other end.
fn at_end<'a>(
    circuit: &'a Circuit,
    state: &[Tern],
    place: usize,
    switch: Switch,
    other: usize,
) -> Line<'a>
    requires states { length state.now ≡ nodes circuit.now.graph }
    requires small { place + 1 < 2 ^ 64 }
    requires fits { Fits (nodes circuit.now.graph) switch }
    requires inside { other < nodes circuit.now.graph }
    ensures line { line_seen result ≡ spec.at_end circuit.now state.now (place + 1) switch other }
    ensures short { IsShort (line_seen result) }
{
    Line::AtEnd {
        switch: switch_told(state, place, switch),
        gate: circuit.name_of(switch.gate),
        gate_state: state[switch.gate],
        end: circuit.name_of(other),
        end_state: state[other],
    }
}

// The line of the transistor at a place with its ends.
fn at_gate<'a>(circuit: &'a Circuit, state: &[Tern], place: usize, switch: Switch) -> Line<'a>
    requires states { length state.now ≡ nodes circuit.now.graph }
    requires small { place + 1 < 2 ^ 64 }
    requires fits { Fits (nodes circuit.now.graph) switch }
    ensures line { line_seen result ≡ spec.at_gate circuit.now state.now (place + 1) switch }
    ensures short { IsShort (line_seen result) }
{
    Line::AtGate {
        switch: switch_told(state, place, switch),
        source: circuit.name_of(switch.a),
        source_state: state[switch.a],
        drain: circuit.name_of(switch.b),
        drain_state: state[switch.b],
    }
}

// What a node is.
fn sort_of(circuit: &Circuit, node: usize) -> NodeSort
    requires { node < nodes circuit.now.graph }
    ensures { result ≡ spec.sort_of circuit.now node }
{
    if node < RAILS {
        return NodeSort::Rail;
    }
    match circuit.graph().level(node) {
        INPUT_LEVEL => NodeSort::Input,
        level => NodeSort::Size(u64::from(level)),
    }
}

// What is told of the transistor at a place.
fn switch_told(state: &[Tern], place: usize, switch: Switch) -> SwitchTold
    requires small { place + 1 < 2 ^ 64 }
    requires gate { switch.gate < length state.now }
    requires level { 9 ≤ switch.level }
    ensures { result ≡ spec.switch_told state.now (place + 1) switch }
{
    SwitchTold {
        number: place as u64 + 1,
        kind: switch.kind,
        strength: u64::from(switch.level) - 8,
        state: switch_state(switch.kind, state[switch.gate]),
    }
}
