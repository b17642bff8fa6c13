//! The line of the refusal that ends a symbolic script, if one does.

ghost use Rattle.std.specs.Prelude.{◌≡◌, IfOk, OnErr, OnOk};
ghost use Rattle.std.specs.Io.KnownBytes.{append_known};
ghost use Rattle.symbol_run.specs.Words.{WritesPart, faults_written, IsRefusedOnce};
ghost use Rattle.symbol_run.specs.Answers as spec;
ghost use Rattle.symbol_run.specs.Answers.{cause_text, HasEnding};

use netlist::Circuit;
use node_words::Vectors;
use ports::Sink;
use printed_lines::FaultCode;
use refusal_words::symbolic_word;
use run_ends::{End, Stop, refuse_symbolic, refuse_symbolic_named};
use script_meaning::Halt;
use script_run::size_cause;
use std::alloc::Global;
use symbol_lines::NameFault;

/// Writes the line of the refusal that ended a run, or else of that by names.
pub fn refuse_halt<S: Sink>(
    alloc: Global,
    halt: Halt,
    stop: Option<(u64, NameFault)>,
    circuit: &Circuit,
    vectors: &Vectors,
    text: &[u8],
    out: &mut S,
) -> Result<End, Stop>
    requires { HasEnding circuit.now halt }
    ensures ok { OnOk result (S.written out.new ≡ append_known (S.written out.old) (cause_text circuit.now halt stop)) }
    ensures part { OnErr result (WritesPart (S.written out.old) (S.written out.new) (cause_text circuit.now halt stop)) }
    ensures ends { IfOk result (λ ended. ended ≡ End.ScriptRefused) }
    ensures write { S.faults out.new ≡ faults_written (S.faults out.old) result }
    ensures refused { IsRefusedOnce (S.refusals out.old) (S.refusals out.new) result }
{
    match halt {
        Halt::End => refuse_names(alloc, stop, circuit, vectors, text, out),
        Halt::Refused(line, code) => {
            let word = symbolic_word(alloc, code, text, line, circuit, vectors);
            refuse_symbolic(alloc, line, code, word, End::ScriptRefused, out)
        }
        Halt::TooLarge(line, size) => {
            let (code, name, count) = size_cause(circuit, size);
            let end = End::ScriptRefused;
            refuse_symbolic_named(alloc, line, code, name, count, name, end, out)
        }
    }
}

// Writes the line of the refusal by names; nothing, if there is none.
fn refuse_names<S: Sink>(
    alloc: Global,
    stop: Option<(u64, NameFault)>,
    circuit: &Circuit,
    vectors: &Vectors,
    text: &[u8],
    out: &mut S,
) -> Result<End, Stop>
    ensures ok { OnOk result (S.written out.new ≡ append_known (S.written out.old) (cause_text circuit.now Halt.End stop)) }
    ensures part { OnErr result (WritesPart (S.written out.old) (S.written out.new) (cause_text circuit.now Halt.End stop)) }
    ensures ends { IfOk result (λ ended. ended ≡ End.ScriptRefused) }
    ensures write { S.faults out.new ≡ faults_written (S.faults out.old) result }
    ensures refused { IsRefusedOnce (S.refusals out.old) (S.refusals out.new) result }
{
    match stop {
        Some((line, fault)) => {
            let code = name_code(fault);
            let word = symbolic_word(alloc, code, text, line, circuit, vectors);
            refuse_symbolic(alloc, line, code, word, End::ScriptRefused, out)
        }
        None => Ok(End::ScriptRefused),
    }
}

// The code of a refusal by names; lack of memory is none.
fn name_code(fault: NameFault) -> FaultCode
    ensures { result ≡ spec.name_code fault }
{
    match fault {
        NameFault::TooManyVariables => FaultCode::S19TooManyVariables,
        NameFault::NameDefined | NameFault::NoMemory => FaultCode::S18NameDefined,
    }
}

/// Whether a run ended without a refusal.
pub fn is_whole(halt: Halt, stop: Option<(u64, NameFault)>) -> bool
    ensures { result ≡ spec.is_whole halt stop }
{
    match halt {
        Halt::End => stop.is_none(),
        Halt::Refused(..) | Halt::TooLarge(..) => false,
    }
}
