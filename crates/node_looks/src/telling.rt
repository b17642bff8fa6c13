//! The lines of a node are told: its own, and those of the transistors at it.

ghost use Rattle.std.specs.Prelude.{◌≡◌, ◌<◌, ◌≤◌, ◌++◌, [], ◌∷◌, length, option_map, IfSome};
ghost use Rattle.std.specs.List.{cons_option};
ghost use Rattle.ports.specs.Ports.{faults_after, refusals_after};
ghost use Rattle.switch_paths.specs.Words.{nodes};
ghost use Rattle.told_lines.specs.Lines.{AreInRoom, IsShort, line_seen, room_of};
ghost use Rattle.told_lines.specs.Hearing.{Hears, of_column};
ghost use Rattle.node_looks.specs.Looks as spec;

use crate::lines::{Terminal, line_at, node_line};
use netlist::Circuit;
use ports::PortFault;
use ternary::Tern;
use told_lines::{Line, Lines};

/// Tells the lines of a node, by the states of all nodes. It reads the circuit twice, once for the transistors with
/// an end at the node and once for those that it is the gate of, and takes no memory.
pub fn tell_node<L: Lines>(
    circuit: &Circuit,
    state: &[Tern],
    node: usize,
    out: &mut L,
) -> Result<(), PortFault>
    requires states { length state.now ≡ nodes circuit.now.graph }
    requires inside { node < nodes circuit.now.graph }
    requires room { AreInRoom (L.room out.old) (spec.node_lines circuit.now state.now node) }
    ensures room { L.room out.new ≡ L.room out.old }
    ensures sent { Hears L.hear L.part (L.heard out.old) (L.heard out.new) (of_column 0 (spec.node_lines circuit.now state.now node)) result }
    ensures faults { L.faults out.new ≡ faults_after (L.faults out.old) result }
    ensures refusals { L.refusals out.new ≡ refusals_after (L.refusals out.old) result }
{
    tell_one(node_line(circuit, state, node), out)?;
    tell_switches(circuit, state, node, out)
}

// Tells the lines of the transistors at a node: of those with an end at it, and then of those that it is the gate of.
fn tell_switches<L: Lines>(
    circuit: &Circuit,
    state: &[Tern],
    node: usize,
    out: &mut L,
) -> Result<(), PortFault>
    requires states { length state.now ≡ nodes circuit.now.graph }
    requires room { AreInRoom (L.room out.old) (spec.end_lines circuit.now state.now node ++ spec.gate_lines circuit.now state.now node) }
    ensures room { L.room out.new ≡ L.room out.old }
    ensures sent { Hears L.hear L.part (L.heard out.old) (L.heard out.new)
        (of_column 0 (spec.end_lines circuit.now state.now node ++ spec.gate_lines circuit.now state.now node)) result }
    ensures faults { L.faults out.new ≡ faults_after (L.faults out.old) result }
    ensures refusals { L.refusals out.new ≡ refusals_after (L.refusals out.old) result }
{
    tell_at(circuit, state, Terminal::End, node, out)?;
    tell_at(circuit, state, Terminal::Gate, node, out)
}

// Tells the lines of the transistors with this terminal at a node, by their numbers.
fn tell_at<L: Lines>(
    circuit: &Circuit,
    state: &[Tern],
    terminal: Terminal,
    node: usize,
    out: &mut L,
) -> Result<(), PortFault>
    requires states { length state.now ≡ nodes circuit.now.graph }
    requires room { AreInRoom (L.room out.old) (spec.lines_at terminal circuit.now state.now node) }
    ensures room { L.room out.new ≡ L.room out.old }
    ensures sent { Hears L.hear L.part (L.heard out.old) (L.heard out.new) (of_column 0 (spec.lines_at terminal circuit.now state.now node)) result }
    ensures faults { L.faults out.new ≡ faults_after (L.faults out.old) result }
    ensures refusals { L.refusals out.new ≡ refusals_after (L.refusals out.old) result }
{
    for place in 0..count_of(circuit) {
        tell_some(line_at(circuit, state, terminal, node, place), out)?;
    }
    Ok(())
}

// How many places a circuit has.
fn count_of(circuit: &Circuit) -> usize
    ensures { result ≡ length circuit.now.graph.places }
{
    circuit.graph().places()
}

// Tells a line, if there is one.
fn tell_some<L: Lines>(line: Option<Line>, out: &mut L) -> Result<(), PortFault>
    requires room { AreInRoom (L.room out.old) (cons_option (option_map line_seen line) []) }
    requires short { IfSome line (λ line. IsShort (line_seen line)) }
    ensures room { L.room out.new ≡ L.room out.old }
    ensures sent { Hears L.hear L.part (L.heard out.old) (L.heard out.new) (of_column 0 (cons_option (option_map line_seen line.entry) [])) result }
    ensures faults { L.faults out.new ≡ faults_after (L.faults out.old) result }
    ensures refusals { L.refusals out.new ≡ refusals_after (L.refusals out.old) result }
{
    match line {
        Some(line) => tell_one(line, out),
        None => Ok(()),
    }
}

// Tells a line.
fn tell_one<L: Lines>(line: Line, out: &mut L) -> Result<(), PortFault>
    requires room { room_of (line_seen line) ≤ L.room out.old }
    requires short { IsShort (line_seen line) }
    ensures room { L.room out.new ≡ L.room out.old }
    ensures sent { Hears L.hear L.part (L.heard out.old) (L.heard out.new) (of_column 0 (line_seen line.entry ∷ [])) result }
    ensures faults { L.faults out.new ≡ faults_after (L.faults out.old) result }
    ensures refusals { L.refusals out.new ≡ refusals_after (L.refusals out.old) result }
{
    out.tell(0, line)
}
