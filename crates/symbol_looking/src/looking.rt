//! Nodes that are looked at.
ghost use Rattle.std.specs.Prelude.{◌≡◌, ◌<◌, ◌≤◌, [], None, flat_map, is_some, length, option_map, true, All};
ghost use Rattle.std.specs.List.{cons_option};
ghost use Rattle.symbol_looking.specs.Words.{faults_after, RefusedOnce, node_of, Hears, column_of, told_by, faults_applied};
ghost use Rattle.symbol_looking.specs.Words.{AreMerged, told_seen, columns_on, states_in};
ghost use Rattle.switch_paths.specs.Graphs.{nodes};
ghost use Rattle.script_lang.specs.declared.command.Tell.TheVariants as asked;
ghost use Rattle.session_meaning.specs.Refusals as refusal;
ghost use Rattle.symbol_looking.specs.Letters.{letter_on, nodes_on};
ghost use Rattle.symbol_looking.specs.Names.{all_looked, all_told_at, looked_at, looked_told};
ghost use Rattle.symbol_looking.specs.Tellings.{RefusedTelling, TellsInAll, tellings};

use crate::lines::{Terminal, line_at, node_line};
use crate::telling::{applied, tell_line};
use cosmos_session::{Session, node_in_use, node_refusal};
use netlist::Circuit;
use ports::PortFault;
use script_lang::Name;
use session_meaning::{ApplyFault, Refusal};
use symbol_stage::SymbolStage;
use symbol_told::{SymbolLines, ToldLine};

/// `look`: tells the lines of the node of each of these names, with the letters that nodes have in all columns, and what the
/// switches do in all of them.
///
/// It changes nothing, and takes no memory of its own.
#[tactic(auto, using(crate::proofs::HeardLemmas::refused_told))]
pub fn look<L: SymbolLines>(
    session: &Session<SymbolStage>,
    names: &[Name],
    out: &mut L,
) -> Result<(), ApplyFault>
    ensures tells { TellsInAll L.hear L.part
        (refusal.refusal_of_tell session.now.core.circuit session.now.core.vectors (asked.Look names.now))
        (tellings (all_looked session.now names.now)) (L.heard out.old) (L.heard out.new) result }
    ensures merged { AreMerged (columns_on session.now.stage) (λ column. told_by (column_of states_in session.now column) (asked.Look names.now))
        (all_looked session.now names.now) }
    ensures faults { L.faults out.new ≡ faults_applied (L.faults out.old) result }
    ensures refusals { RefusedTelling (L.refusals out.old) (L.refusals out.new) result }
{
    match look_refusal(session, names) {
        Some(found) => Err(ApplyFault::Refused(found)),
        None => applied(look_all(session, names, out)),
    }
}

// Why the nodes of these names can't be looked at.
fn look_refusal(session: &Session<SymbolStage>, names: &[Name]) -> Option<Refusal>
    ensures { result ≡ refusal.refusal_of_tell session.now.core.circuit session.now.core.vectors (asked.Look names.now) }
{
    node_refusal(session.circuit(), names)
}

// Tells the lines of the node of each of these names, which are in use.
fn look_all<L: SymbolLines>(
    session: &Session<SymbolStage>,
    names: &[Name],
    out: &mut L,
) -> Result<(), PortFault>
    requires { refusal.refusal_of_tell session.now.core.circuit session.now.core.vectors (asked.Look names.now) ≡ None }
    ensures heard { Hears L.hear L.part (L.heard out.old) (L.heard out.new) (tellings (all_looked session.now names.now)) result }
    ensures faults { L.faults out.new ≡ faults_after (L.faults out.old) result }
    ensures refusals { RefusedOnce (L.refusals out.old) (L.refusals out.new) result }
{
    look_names(session.circuit(), session.stage(), names, out)
}

// Tells the lines of the node of each of these names, which are in use in a circuit.
fn look_names<L: SymbolLines>(
    circuit: &Circuit,
    stage: &SymbolStage,
    names: &[Name],
    out: &mut L,
) -> Result<(), PortFault>
    requires states { nodes circuit.now.graph ≤ nodes_on stage.now }
    requires known { All (λ name. is_some (node_of circuit.now.names name) ≡ true) names.now }
    ensures heard { Hears L.hear L.part (L.heard out.old) (L.heard out.new) (tellings (flat_map (looked_told circuit.now (letter_on stage.now)) names.now)) result }
    ensures faults { L.faults out.new ≡ faults_after (L.faults out.old) result }
    ensures refusals { RefusedOnce (L.refusals out.old) (L.refusals out.new) result }
{
    for name in names {
        tell_node(circuit, stage, node_in_use(circuit, name.items()), out)?;
    }
    Ok(())
}

// Tells the lines of a node: its own, those of the transistors with an end at it, and those of the ones that it is the gate of.
// It reads the circuit twice, once for each of the two.
fn tell_node<L: SymbolLines>(
    circuit: &Circuit,
    stage: &SymbolStage,
    node: usize,
    out: &mut L,
) -> Result<(), PortFault>
    requires states { nodes circuit.now.graph ≤ nodes_on stage.now }
    requires inside { node < nodes circuit.now.graph }
    ensures heard { Hears L.hear L.part (L.heard out.old) (L.heard out.new) (tellings (looked_at circuit.now (letter_on stage.now) node)) result }
    ensures faults { L.faults out.new ≡ faults_after (L.faults out.old) result }
    ensures refusals { RefusedOnce (L.refusals out.old) (L.refusals out.new) result }
{
    tell_line(node_line(circuit, stage, node), out)?;
    tell_at(circuit, stage, Terminal::End, node, out)?;
    tell_at(circuit, stage, Terminal::Gate, node, out)
}

// Tells the lines of the transistors with this terminal at a node, by their numbers.
fn tell_at<L: SymbolLines>(
    circuit: &Circuit,
    stage: &SymbolStage,
    terminal: Terminal,
    node: usize,
    out: &mut L,
) -> Result<(), PortFault>
    requires states { nodes circuit.now.graph ≤ nodes_on stage.now }
    ensures heard { Hears L.hear L.part (L.heard out.old) (L.heard out.new) (tellings (all_told_at terminal circuit.now (letter_on stage.now) node)) result }
    ensures faults { L.faults out.new ≡ faults_after (L.faults out.old) result }
    ensures refusals { RefusedOnce (L.refusals out.old) (L.refusals out.new) result }
{
    for place in 0..count_of(circuit) {
        tell_some(line_at(circuit, stage, terminal, node, place), out)?;
    }
    Ok(())
}

// How many places a circuit has.
fn count_of(circuit: &Circuit) -> usize
    ensures { result ≡ length circuit.now.graph.places }
{
    circuit.graph().places()
}

// Tells a line, if there is one.
fn tell_some<L: SymbolLines>(line: Option<ToldLine>, out: &mut L) -> Result<(), PortFault>
    ensures heard { Hears L.hear L.part (L.heard out.old) (L.heard out.new) (tellings (cons_option (option_map told_seen line.entry) [])) result }
    ensures faults { L.faults out.new ≡ faults_after (L.faults out.old) result }
    ensures refusals { RefusedOnce (L.refusals out.old) (L.refusals out.new) result }
{
    match line {
        Some(line) => tell_line(line, out),
        None => Ok(()),
    }
}
