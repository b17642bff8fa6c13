//! Nodes that are looked at.

ghost use Rattle.std.specs.Prelude.{◌≡◌, ◌<◌, List, is_some, true, length, flat_map, All, IfErr};
ghost use Rattle.cosmos_session.specs.Words.{GroupTextData, nodes, AreInRoom, looked_lines, node_lines, first_refusal, known_refusal};
ghost use Rattle.cosmos_session.specs.Words.{IsSinkFault, faults_applied, refusals_sent, Sent, ObeysOn};
ghost use Rattle.netlist.specs.Words.{node_of, node_named};
ghost use Rattle.script_lang.specs.declared.command.Command.TheVariants as family;
ghost use Rattle.script_lang.specs.declared.command.Tell.TheVariants as asked;

use crate::session::Session;
use column_stage::PlainStage;
use netlist::Circuit;
use node_looks::{room_to_look, tell_node};
use script_lang::{Name, NameList};
use session_meaning::{ApplyFault, Refusal};
use ternary::Tern;
use told_lines::Lines;

impl<M: PlainStage> Session<M> {
    /// `look`: tells the lines of the node of each of these names.
    pub(crate) fn look<L: Lines>(&mut self, names: &NameList, out: &mut L) -> Result<(), ApplyFault>
        ensures obeys { (texts : List GroupTextData) → ObeysOn L.hear L.part M.did self.old (family.Tell (asked.Look names.now)) self.new
            (L.heard out.old) (L.heard out.new) texts texts (L.refusals out.old) (L.refusals out.new) result }
        ensures faults { L.faults out.new ≡ faults_applied (L.faults out.old) result }
    {
        if let Some(refusal) = node_refusal(&self.circuit, names.items()) {
            return Err(ApplyFault::Refused(refusal));
        }
        let room = room_to_look(&self.circuit)?;
        out.reserve(room)?;
        tell_looked(&self.circuit, self.stage.column(), names.items(), out)
    }
}

/// The first refusal of these names as names of nodes.
pub fn node_refusal(circuit: &Circuit, names: &[Name]) -> Option<Refusal>
    ensures { result ≡ first_refusal (λ name. known_refusal (node_of circuit.now.names name)) names.now }
{
    for name in names {
        if circuit.find(name.items()).is_none() {
            return Some(Refusal::UnknownNode);
        }
    }
    None
}

// Tells the lines of the node of each of these names, which are in use.
fn tell_looked<L: Lines>(
    circuit: &Circuit,
    state: &[Tern],
    names: &[Name],
    out: &mut L,
) -> Result<(), ApplyFault>
    requires states { length state.now ≡ nodes circuit.now.graph }
    requires known { All (λ name. is_some (node_of circuit.now.names name) ≡ true) names.now }
    requires room { AreInRoom (L.room out.old) (flat_map (looked_lines circuit.now state.now) names.now) }
    ensures sent { Sent L.hear L.part (L.heard out.old) (L.heard out.new) (flat_map (looked_lines circuit.now state.now) names.now) result }
    ensures cause { IfErr result IsSinkFault }
    ensures faults { L.faults out.new ≡ faults_applied (L.faults out.old) result }
    ensures refusals { L.refusals out.new ≡ refusals_sent (L.refusals out.old) result }
{
    for name in names {
        tell_look(circuit, state, node_in_use(circuit, name.items()), out)?;
    }
    Ok(())
}

/// The node of a name, which is in use.
pub fn node_in_use(circuit: &Circuit, name: &[u8]) -> usize
    requires { is_some (node_of circuit.now.names name.now) ≡ true }
    ensures value { result ≡ node_named circuit.now name.now }
    ensures within { result < nodes circuit.now.graph }
{
    circuit.find(name).unwrap()
}

// Tells the lines of a node. A fault of the hearer is what ends a command.
fn tell_look<L: Lines>(
    circuit: &Circuit,
    state: &[Tern],
    node: usize,
    out: &mut L,
) -> Result<(), ApplyFault>
    requires states { length state.now ≡ nodes circuit.now.graph }
    requires inside { node < nodes circuit.now.graph }
    requires room { AreInRoom (L.room out.old) (node_lines circuit.now state.now node) }
    ensures room { L.room out.new ≡ L.room out.old }
    ensures sent { Sent L.hear L.part (L.heard out.old) (L.heard out.new) (node_lines circuit.now state.now node) result }
    ensures cause { IfErr result IsSinkFault }
    ensures faults { L.faults out.new ≡ faults_applied (L.faults out.old) result }
    ensures refusals { L.refusals out.new ≡ refusals_sent (L.refusals out.old) result }
{
    match tell_node(circuit, state, node, out) {
        Ok(()) => Ok(()),
        Err(fault) => Err(ApplyFault::of_sink(fault)),
    }
}
