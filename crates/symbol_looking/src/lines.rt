//! The line of a node that is looked at, and those of the transistors at it, of all columns together.
ghost use Rattle.std.specs.Prelude.{◌≡◌, ◌+◌, ◌<◌, ◌≤◌, ◌^◌, length, option_map};
ghost use Rattle.switch_paths.specs.Words.{nodes, place_at, Fits};
ghost use Rattle.node_looks.specs.Looks as plain;
ghost use Rattle.symbol_told.specs.Lines.{switch_seen, told_seen};
ghost use Rattle.symbol_looking.specs.Letters.{letter_on, nodes_on};
ghost use Rattle.symbol_looking.specs.Names as spec;

use crate::letters::letter;
use netlist::{Circuit, RAILS};
use printed_lines::NodeSort;
use strength_order::INPUT_LEVEL;
use switch_paths::{Switch, SwitchKind, SwitchState, switch_state};
use symbol_stage::SymbolStage;
use symbol_told::{SwitchShown, ToldLine};
use ternary::Tern;

/// The terminal of a transistor that is at a node.
#[derive(Clone, Copy)]
pub(crate) enum Terminal {
    /// One of its ends, or both.
    End,
    /// Its gate.
    Gate,
}

/// The line of a node.
pub(crate) fn node_line<'a>(circuit: &'a Circuit, stage: &SymbolStage, node: usize) -> ToldLine<'a>
    requires inside { node < nodes circuit.now.graph }
    requires states { nodes circuit.now.graph ≤ nodes_on stage.now }
    ensures { told_seen result ≡ spec.node_told circuit.now (letter_on stage.now) node }
{
    ToldLine::Looked {
        name: circuit.name_of(node),
        state: letter(stage, node),
        sort: sort_of(circuit, node),
    }
}

/// The line of what stands at a place, if it is a transistor with this terminal at a node.
pub(crate) fn line_at<'a>(
    circuit: &'a Circuit,
    stage: &SymbolStage,
    terminal: Terminal,
    node: usize,
    place: usize,
) -> Option<ToldLine<'a>>
    requires states { nodes circuit.now.graph ≤ nodes_on stage.now }
    requires inside { place < length circuit.now.graph.places }
    requires small { place + 1 < 2 ^ 64 }
    ensures { option_map told_seen result
        ≡ spec.told_at terminal circuit.now (letter_on stage.now) node (place + 1, place_at circuit.now.graph.places place) }
{
    let switch = circuit.graph().switch_at(place)?;
    match terminal {
        Terminal::End => {
            let other = other_end(switch, node)?;
            Some(at_end(circuit, stage, place, switch, other))
        }
        Terminal::Gate if switch.gate == node => Some(at_gate(circuit, stage, place, switch)),
        Terminal::Gate => None,
    }
}

// The node at the other end of a transistor with an end at this one.
fn other_end(switch: Switch, node: usize) -> Option<usize>
    ensures { result ≡ plain.other_end node switch }
{
    if switch.a == node {
        Some(switch.b)
    } else if switch.b == node {
        Some(switch.a)
    } else {
        None
    }
}

// The line of the transistor at a place with this other end.
fn at_end<'a>(
    circuit: &'a Circuit,
    stage: &SymbolStage,
    place: usize,
    switch: Switch,
    other: usize,
) -> ToldLine<'a>
    requires states { nodes circuit.now.graph ≤ nodes_on stage.now }
    requires small { place + 1 < 2 ^ 64 }
    requires fits { Fits (nodes circuit.now.graph) switch }
    requires inside { other < nodes circuit.now.graph }
    ensures { told_seen result ≡ spec.end_told circuit.now (letter_on stage.now) (place + 1) switch other }
{
    ToldLine::AtEnd {
        switch: switch_shown(stage, place, switch),
        gate: circuit.name_of(switch.gate),
        gate_state: letter(stage, switch.gate),
        end: circuit.name_of(other),
        end_state: letter(stage, other),
    }
}

// The line of the transistor at a place with its ends.
fn at_gate<'a>(
    circuit: &'a Circuit,
    stage: &SymbolStage,
    place: usize,
    switch: Switch,
) -> ToldLine<'a>
    requires states { nodes circuit.now.graph ≤ nodes_on stage.now }
    requires small { place + 1 < 2 ^ 64 }
    requires fits { Fits (nodes circuit.now.graph) switch }
    ensures { told_seen result ≡ spec.gate_told circuit.now (letter_on stage.now) (place + 1) switch }
{
    ToldLine::AtGate {
        switch: switch_shown(stage, place, switch),
        source: circuit.name_of(switch.a),
        source_state: letter(stage, switch.a),
        drain: circuit.name_of(switch.b),
        drain_state: letter(stage, switch.b),
    }
}

// What a node is.
fn sort_of(circuit: &Circuit, node: usize) -> NodeSort
    requires { node < nodes circuit.now.graph }
    ensures { result ≡ plain.sort_of circuit.now node }
{
    if node < RAILS {
        return NodeSort::Rail;
    }
    match circuit.graph().level(node) {
        INPUT_LEVEL => NodeSort::Input,
        level => NodeSort::Size(u64::from(level)),
    }
}

// What is told of the transistor at a place.
fn switch_shown(stage: &SymbolStage, place: usize, switch: Switch) -> SwitchShown
    requires small { place + 1 < 2 ^ 64 }
    requires gate { switch.gate < nodes_on stage.now }
    requires level { 9 ≤ switch.level }
    ensures { switch_seen result ≡ spec.switch_told (letter_on stage.now) (place + 1) switch }
{
    SwitchShown {
        number: place as u64 + 1,
        kind: switch.kind,
        strength: u64::from(switch.level) - 8,
        state: switch_of_letter(letter(stage, switch.gate), switch.kind),
    }
}

// What a switch does whose gate has this letter, if that is one thing in all columns.
fn switch_of_letter(gate: Option<Tern>, kind: SwitchKind) -> Option<SwitchState>
    ensures { result ≡ spec.switch_of_letter gate kind }
{
    match (gate, kind) {
        (Some(state), _) => Some(switch_state(kind, state)),
        (None, SwitchKind::Always) => Some(SwitchState::Closed),
        (None, _) => None,
    }
}
