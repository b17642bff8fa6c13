//! What `why` writes: the reasons of a node at the end of a script.

ghost use Rattle.std.specs.Prelude.{◌≡◌, ◌≢◌, ◌<◌, IfOk, IfErr, IfSome};
ghost use Rattle.script_reports.specs.Words.{faults_written, node_of, nodes, AreGroupsOf, ExplainsNode, ExplainsRail, IsCircuit, IsExplained, IsHaltExplained, IsReasoned, IsRefusedOnce, IsTold, IsToldBy, TellsSize};
ghost use Rattle.run_ends.specs.declared.status.Status.TheVariants as status;

use crate::unwritten::{refuse_at, run_unwritten};
use channel_groups::Groups;
use column_stage::PlainStage;
use cosmos_session::Session;
use group_analysis::Analyst;
use netlist::Circuit;
use ports::{Sink, send};
use printed_lines::{FaultCode, FaultPlace};
use run_ends::{End, Stop, refuse};
use script_meaning::Halt;
use settling::Blind;
use std::alloc::Global;
use ternary::NoMemory;
use told_lines::Printer;
use why_path::{group_reason, reason_line};

/// Runs the lines of a script from the start in a circuit, none of which is written, and explains the node
/// of this name in the circuit and the state at their end; or writes the line of the refusal that ended them.
pub fn explain<M: PlainStage, S: Sink + Drop, A: Analyst>(
    alloc: Global,
    circuit: Circuit,
    text: &[u8],
    name: &str,
    out: &mut Printer<S>,
    analyst: &mut A,
) -> Result<End, Stop>
    requires { IsCircuit circuit }
    ensures told { IsToldBy (IsReasoned text.now name.now circuit)
        out.old.page.written out.new.page.written (A.analysed analyst.old) (A.analysed analyst.new) result }
    ensures no_read { IfErr result (λ stop. stop ≢ Stop.Read) }
    ensures write { out.new.faults ≡ faults_written out.old.faults result }
    ensures refused { IsRefusedOnce out.old.refusals out.new.refusals result }
{
    let mut session = Session::<M>::new(alloc, circuit)?;
    let halt = run_unwritten(alloc, &mut session, text, analyst, &mut Blind {})?;
    explain_at(alloc, &session, halt, text, name, out)
}

// Explains the node of this name where the lines of a script ended, or writes the line of the refusal that
// ended them.
fn explain_at<M: PlainStage, S: Sink + Drop>(
    alloc: Global,
    session: &Session<M>,
    halt: Halt,
    text: &[u8],
    name: &str,
    out: &mut Printer<S>,
) -> Result<End, Stop>
    requires { TellsSize session.now.core halt }
    ensures told { IsTold (IsHaltExplained name.now session.now.core halt)
        out.old.page.written out.new.page.written result }
    ensures no_read { IfErr result (λ stop. stop ≢ Stop.Read) }
    ensures write { out.new.faults ≡ faults_written out.old.faults result }
    ensures refused { IsRefusedOnce out.old.refusals out.new.refusals result }
{
    match halt {
        Halt::End => explain_name(alloc, session, name, out),
        _ => refuse_at(alloc, session, halt, text, out),
    }
}

// Explains the node of this name; one that isn't in use is refused.
fn explain_name<M: PlainStage, S: Sink>(
    alloc: Global,
    session: &Session<M>,
    name: &str,
    out: &mut S,
) -> Result<End, Stop>
    ensures told { IsTold (λ answer. IsExplained session.now.core (node_of session.now.core.circuit.names name.now) answer.status answer.text)
        (S.written out.old) (S.written out.new) result }
    ensures no_read { IfErr result (λ stop. stop ≢ Stop.Read) }
    ensures write { S.faults out.new ≡ faults_written (S.faults out.old) result }
    ensures refused { IsRefusedOnce (S.refusals out.old) (S.refusals out.new) result }
{
    match session.circuit().find(name.as_bytes()) {
        Some(node) => write_reasons(alloc, session, node, out),
        None => {
            let code = FaultCode::E1UnknownNode;
            refuse(alloc, FaultPlace::Node, code, &[], End::Usage, out)
        }
    }
}

// Writes the two lines that explain a node.
fn write_reasons<M: PlainStage, S: Sink>(
    alloc: Global,
    session: &Session<M>,
    node: usize,
    out: &mut S,
) -> Result<End, Stop>
    requires { node < nodes session.now.core.circuit.graph }
    ensures told { IsTold (λ answer. (answer.status ≡ status.Done)
        × ExplainsNode session.now.core.circuit session.now.core.state node answer.text)
        (S.written out.old) (S.written out.new) result }
    ensures no_read { IfErr result (λ stop. stop ≢ Stop.Read) }
    ensures write { S.faults out.new ≡ faults_written (S.faults out.old) result }
    ensures refused { IsRefusedOnce (S.refusals out.old) (S.refusals out.new) result }
{
    let text = reasons_text(alloc, session, node)?;
    match send(out, &text) {
        Ok(()) => Ok(End::Done),
        Err(fault) => Err(Stop::of_write(fault)),
    }
}

/// The two lines that explain a node, by the groups that the session's stage has at hand; if it has none, they are
/// found.
pub fn reasons_text<M: PlainStage>(
    alloc: Global,
    session: &Session<M>,
    node: usize,
) -> Result<Vec<u8>, NoMemory>
    requires { node < nodes session.now.core.circuit.graph }
    ensures { IfOk result (λ text. ExplainsNode session.now.core.circuit session.now.core.state node text.items) }
{
    match kept_groups(session) {
        Some(groups) => reasons_among(alloc, session, groups, node),
        None => {
            let groups = groups_at(alloc, session)?;
            reasons_among(alloc, session, &groups, node)
        }
    }
}

// The groups of the present circuit, if the session's stage has them at hand.
fn kept_groups<M: PlainStage>(session: &Session<M>) -> Option<&Groups>
    ensures { IfSome result (λ groups. AreGroupsOf session.now.core.circuit.graph groups.now) }
{
    let graph = session.circuit().graph();
    session.stage().grouping(graph)
}

// The groups of the present circuit.
fn groups_at<M: PlainStage>(alloc: Global, session: &Session<M>) -> Result<Groups, NoMemory>
    ensures { IfOk result (λ groups. AreGroupsOf session.now.core.circuit.graph groups) }
{
    let graph = session.circuit().graph();
    Groups::of(alloc, graph)
}

// The two lines that explain a node: first why it may be 1, then why it may be 0.
fn reasons_among<M: PlainStage>(
    alloc: Global,
    session: &Session<M>,
    groups: &Groups,
    node: usize,
) -> Result<Vec<u8>, NoMemory>
    requires node { node < nodes session.now.core.circuit.graph }
    requires groups { AreGroupsOf session.now.core.circuit.graph groups.now }
    ensures { IfOk result (λ text. ExplainsNode session.now.core.circuit session.now.core.state node text.items) }
{
    let mut text = rail_line(alloc, session, groups, node, true)?;
    let zero = rail_line(alloc, session, groups, node, false)?;
    text.extend_from_slice(&zero)?;
    Ok(text)
}

// The line that explains a rail of a node.
fn rail_line<M: PlainStage>(
    alloc: Global,
    session: &Session<M>,
    groups: &Groups,
    node: usize,
    one: bool,
) -> Result<Vec<u8>, NoMemory>
    requires node { node < nodes session.now.core.circuit.graph }
    requires groups { AreGroupsOf session.now.core.circuit.graph groups.now }
    ensures { IfOk result (λ line. ExplainsRail session.now.core.circuit session.now.core.state node one line.items) }
{
    let circuit = session.circuit();
    let state = session.state();
    let walk = group_reason(alloc, circuit.graph(), state, groups, node, one)?;
    reason_line(alloc, circuit, state, one, walk.as_ref())
}
