//! The line of the refusal at which a script ended.

ghost use Rattle.std.specs.Prelude.{◌≡◌, ◌≢◌, ℕ, Some, IfErr};
ghost use Rattle.run_ends.specs.Causes as spec;
ghost use Rattle.script_run.specs.Words.{faults_written, IsCutShort, IsRefusedOnce, TellsCutShort, TellsRefusal, TellsRefused};

use circuit_texts::BuildFault;
use netlist::Circuit;
use node_words::Vectors;
use ports::NotedFile;
use printed_lines::{COLUMN_ROOM, FAULT_LINE_ROOM, FaultCode, FaultPlace};
use refusal_words::script_word;
use run_ends::{End, Stop, cure_text};
use script_meaning::Halt;
use std::alloc::Global;
use told_lines::{Line, Lines};

/// Tells the line of the refusal at which the lines of a script ended in a circuit, and ends the run so.
///
/// The cure is noted besides, with a word of the refused line. For that alone the vectors and the script's text are
/// passed, and how many columns it is for.
pub fn refuse_halt<L: Lines>(
    alloc: Global,
    circuit: &Circuit,
    vectors: &Vectors,
    halt: Halt,
    text: &[u8],
    columns: usize,
    out: &mut L,
) -> Result<End, Stop>
    requires { IsCutShort circuit.now halt }
    ensures told { TellsCutShort L.hear L.part circuit.now halt (L.heard out.old) (L.heard out.new) result }
    ensures no_read { IfErr result (λ stop. stop ≢ Stop.Read) }
    ensures write { L.faults out.new ≡ faults_written (L.faults out.old) result }
    ensures refused { IsRefusedOnce (L.refusals out.old) (L.refusals out.new) result }
{
    match halt {
        Halt::End => unreachable!(),
        Halt::Refused(line, code) => {
            let word = script_word(code, text, line, circuit, vectors, columns);
            refuse_line(alloc, line, code, b"", 0, word, out)
        }
        Halt::TooLarge(line, size) => {
            let (code, name, count) = size_cause(circuit, size);
            refuse_line(alloc, line, code, name, count, name, out)
        }
    }
}

/// Why a line is refused, if this is the first group of the circuit that is too large under some bound: the code, the
/// name of the group's least node, and the count of what it has too many of.
pub fn size_cause(circuit: &Circuit, size: BuildFault) -> (FaultCode, &[u8], u64)
    requires { (large : ℕ) × TellsRefused large circuit.now.graph size }
    ensures { spec.size_cause circuit.now size ≡ Some (record { code = result.0; name = result.1.now; count = result.2 }) }
{
    match size {
        BuildFault::GroupNodes { node, count } => {
            (FaultCode::G1GroupNodes, circuit.name_of(node), count)
        }
        BuildFault::GroupSwitches { node, count } => {
            (FaultCode::G2GroupSwitches, circuit.name_of(node), count)
        }
        BuildFault::NoMemory => unreachable!(),
    }
}

// Tells the line of a refusal that tells of a node by its name, and a count, and notes the cure with this word.
fn refuse_line<L: Lines>(
    alloc: Global,
    line: u64,
    code: FaultCode,
    name: &[u8],
    count: u64,
    word: &[u8],
    out: &mut L,
) -> Result<End, Stop>
    ensures told { TellsRefusal L.hear L.part (L.heard out.old) (L.heard out.new)
        (record { line = line; cause = record { code = code; name = name.now; count = count } }) result }
    ensures no_read { IfErr result (λ stop. stop ≢ Stop.Read) }
    ensures write { L.faults out.new ≡ faults_written (L.faults out.old) result }
    ensures refused { IsRefusedOnce (L.refusals out.old) (L.refusals out.new) result }
{
    out.reserve(COLUMN_ROOM + (FAULT_LINE_ROOM + name.len()))?;
    let place = FaultPlace::Script(line);
    let refused = Line::Refused {
        place,
        code,
        name,
        count,
    };
    match out.tell(0, refused) {
        Ok(()) => {
            note_line(alloc, line, code, word, out);
            Ok(End::ScriptRefused)
        }
        Err(fault) => Err(Stop::of_write(fault)),
    }
}

/// Notes the cure of a refused line of a script, by its number, with this word; for lack of memory it notes nothing.
pub fn note_line<L: Lines>(alloc: Global, line: u64, code: FaultCode, word: &[u8], out: &mut L)
    ensures room { L.room out.new ≡ L.room out.old }
    ensures heard { L.heard out.new ≡ L.heard out.old }
    ensures faults { L.faults out.new ≡ L.faults out.old }
    ensures refusals { L.refusals out.new ≡ L.refusals out.old }
{
    let Ok(text) = cure_text(alloc, Some(line), code.text(), word) else {
        return;
    };
    out.note(NotedFile::Script, &text);
}
