//! The lines of refusals, and the notes of their cures.

ghost use Rattle.std.specs.Prelude.{◌≡◌, ◌≢◌, ◌⊎◌, ℕ, Err, IfOk, IfErr};
ghost use Rattle.circuit_texts.specs.Sizes.{TellsRefused};
ghost use Rattle.printed_lines.specs.declared.faults.FaultPlace.TheVariants.{Script};
ghost use Rattle.run_ends.specs.Answers.{IsRefusal, IsRefusalFor, IsTooLarge};
ghost use Rattle.run_ends.specs.Ends.{IsTold, status_of};
ghost use Rattle.run_ends.specs.Stops.{faults_written, IsRefusedOnce};

use crate::notes::{note_cure, note_symbolic_cure};
use crate::stop::{End, Stop};
use circuit_texts::BuildFault;
use netlist::Circuit;
use ports::{NotedFile, Sink, send};
use printed_lines::{FAULT_LINE_ROOM, FaultCode, FaultPlace, LineBuf, fault_line};
use std::alloc::Global;

/// Writes the line of a refusal, and ends the run so. The cure is noted besides, with the word that it is about.
pub fn refuse<S: Sink>(
    alloc: Global,
    place: FaultPlace,
    code: FaultCode,
    word: &[u8],
    end: End,
    out: &mut S,
) -> Result<End, Stop>
    ensures told { IsTold
        (IsRefusal place code (status_of end)) (S.written out.old) (S.written out.new) result }
    ensures same { IfOk result (λ ended. ended ≡ end) }
    ensures no_read { IfErr result (λ stop. stop ≢ Stop.Read) }
    ensures write { S.faults out.new ≡ faults_written (S.faults out.old) result }
    ensures refused { IsRefusedOnce (S.refusals out.old) (S.refusals out.new) result }
{
    refuse_named(alloc, place, code, b"", 0, word, end, out)
}

/// Writes the line of a refusal that tells of a node by its name, and a count, and ends the run so. The cure is noted besides, with
/// this word.
pub fn refuse_named<S: Sink>(
    alloc: Global,
    place: FaultPlace,
    code: FaultCode,
    name: &[u8],
    count: u64,
    word: &[u8],
    end: End,
    out: &mut S,
) -> Result<End, Stop>
    ensures told { IsTold
        (IsRefusalFor place (record { code = code; name = name.now; count = count }) (status_of end))
        (S.written out.old) (S.written out.new) result }
    ensures same { IfOk result (λ ended. ended ≡ end) }
    ensures no_read { IfErr result (λ stop. stop ≢ Stop.Read) }
    ensures write { S.faults out.new ≡ faults_written (S.faults out.old) result }
    ensures refused { IsRefusedOnce (S.refusals out.old) (S.refusals out.new) result }
{
    let ended = write_refusal(alloc, place, code, name, count, end, out);
    if ended.is_ok() {
        note_at(alloc, place, code, word, out);
    }
    ended
}

/// Writes the line of a refusal in a symbolic script, and ends the run so. The cure there is noted besides, with the word that it
/// is about.
pub fn refuse_symbolic<S: Sink>(
    alloc: Global,
    line: u64,
    code: FaultCode,
    word: &[u8],
    end: End,
    out: &mut S,
) -> Result<End, Stop>
    ensures told { IsTold
        (IsRefusal (Script line) code (status_of end)) (S.written out.old) (S.written out.new) result }
    ensures same { IfOk result (λ ended. ended ≡ end) }
    ensures no_read { IfErr result (λ stop. stop ≢ Stop.Read) }
    ensures write { S.faults out.new ≡ faults_written (S.faults out.old) result }
    ensures refused { IsRefusedOnce (S.refusals out.old) (S.refusals out.new) result }
{
    refuse_symbolic_named(alloc, line, code, b"", 0, word, end, out)
}

/// Writes the line of a refusal in a symbolic script that tells of a node by its name, and a count, and ends the run so. The cure
/// there is noted besides, with this word.
pub fn refuse_symbolic_named<S: Sink>(
    alloc: Global,
    line: u64,
    code: FaultCode,
    name: &[u8],
    count: u64,
    word: &[u8],
    end: End,
    out: &mut S,
) -> Result<End, Stop>
    ensures told { IsTold
        (IsRefusalFor (Script line) (record { code = code; name = name.now; count = count }) (status_of end))
        (S.written out.old) (S.written out.new) result }
    ensures same { IfOk result (λ ended. ended ≡ end) }
    ensures no_read { IfErr result (λ stop. stop ≢ Stop.Read) }
    ensures write { S.faults out.new ≡ faults_written (S.faults out.old) result }
    ensures refused { IsRefusedOnce (S.refusals out.old) (S.refusals out.new) result }
{
    let ended = write_refusal(alloc, FaultPlace::Script(line), code, name, count, end, out);
    if ended.is_ok() {
        let file = NotedFile::Script;
        note_symbolic_cure(alloc, file, Some(line), code.text(), word, out);
    }
    ended
}

// Writes the line of a refusal that tells of a node by its name, and a count, and ends the run so.
fn write_refusal<S: Sink>(
    alloc: Global,
    place: FaultPlace,
    code: FaultCode,
    name: &[u8],
    count: u64,
    end: End,
    out: &mut S,
) -> Result<End, Stop>
    ensures told { IsTold
        (IsRefusalFor place (record { code = code; name = name.now; count = count }) (status_of end))
        (S.written out.old) (S.written out.new) result }
    ensures same { IfOk result (λ ended. ended ≡ end) }
    ensures no_read { IfErr result (λ stop. stop ≢ Stop.Read) }
    ensures write { S.faults out.new ≡ faults_written (S.faults out.old) result }
    ensures refused { IsRefusedOnce (S.refusals out.old) (S.refusals out.new) result }
{
    let mut line = LineBuf::new(alloc, FAULT_LINE_ROOM + name.len())?;
    fault_line(&mut line, place, code, name, count);
    match send(out, line.bytes()) {
        Ok(()) => Ok(end),
        Err(fault) => Err(Stop::of_write(fault)),
    }
}

// Notes the cure of a refusal at a place of a file; at a node that is asked for there is no file.
fn note_at<S: Sink>(alloc: Global, place: FaultPlace, code: FaultCode, word: &[u8], out: &mut S)
    ensures bytes { S.written out.new ≡ S.written out.old }
    ensures cause { S.faults out.new ≡ S.faults out.old }
    ensures memory { S.refusals out.new ≡ S.refusals out.old }
{
    let (file, line) = match place {
        FaultPlace::Net(line) => (NotedFile::Circuit, Some(line)),
        FaultPlace::NetWhole => (NotedFile::Circuit, None),
        FaultPlace::Script(line) => (NotedFile::Script, Some(line)),
        FaultPlace::List(line) => (NotedFile::List, Some(line)),
        FaultPlace::Node | FaultPlace::Heard(_) => return,
    };
    note_cure(alloc, file, line, code.text(), word, out);
}

/// Writes the line of the first group of a circuit that is too large under some bound, and ends the run so; lack of
/// memory stops it. The cure is noted besides, with the name of the group.
pub fn refuse_size<S: Sink>(
    alloc: Global,
    place: FaultPlace,
    circuit: &Circuit,
    fault: BuildFault,
    end: End,
    out: &mut S,
) -> Result<End, Stop>
    requires { (fault ≡ BuildFault.NoMemory) ⊎ ((large : ℕ) × TellsRefused large circuit.now.graph fault) }
    ensures told { (large : ℕ) → (fault ≡ BuildFault.NoMemory) ⊎ TellsRefused large circuit.now.graph fault
        → IsTold (IsTooLarge large circuit.now place (status_of end)) (S.written out.old) (S.written out.new) result }
    ensures memory { fault ≡ BuildFault.NoMemory → result ≡ Err Stop.Memory }
    ensures same { IfOk result (λ ended. ended ≡ end) }
    ensures no_read { IfErr result (λ stop. stop ≢ Stop.Read) }
    ensures write { S.faults out.new ≡ faults_written (S.faults out.old) result }
    ensures refused { IsRefusedOnce (S.refusals out.old) (S.refusals out.new) result }
{
    match fault {
        BuildFault::NoMemory => Err(Stop::Memory),
        BuildFault::GroupNodes { node, count } => {
            let name = circuit.name_of(node);
            let code = FaultCode::G1GroupNodes;
            refuse_named(alloc, place, code, name, count, name, end, out)
        }
        BuildFault::GroupSwitches { node, count } => {
            let name = circuit.name_of(node);
            let code = FaultCode::G2GroupSwitches;
            refuse_named(alloc, place, code, name, count, name, end, out)
        }
    }
}
