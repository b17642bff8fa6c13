//! The line of a refusal in one of two circuits.

ghost use Rattle.std.specs.Prelude.{◌≡◌, ◌++◌, IfOk, OnErr, OnOk};
ghost use Rattle.std.specs.Io.KnownBytes.{append_known};
ghost use Rattle.ports.specs.Sending.{WritesPart};
ghost use Rattle.run_ends.specs.Stops.{faults_written, IsRefusedOnce};
ghost use Rattle.symbol_run.specs.Answers.{cause_text, HasEnding};

use netlist::Circuit;
use node_words::Vectors;
use ports::{Sink, send};
use run_ends::{End, Stop};
use script_meaning::Halt;
use std::alloc::Global;
use symbol_lines::NameFault;
use symbol_run::refuse_halt;

/// Writes the line of the refusal that ended a run, or else of that by names, behind the words that tell of the circuit.
pub(crate) fn refuse_run<S: Sink>(
    alloc: Global,
    net: &[u8],
    halt: Halt,
    stop: Option<(u64, NameFault)>,
    circuit: &Circuit,
    vectors: &Vectors,
    text: &[u8],
    out: &mut S,
) -> Result<End, Stop>
    requires { HasEnding circuit.now halt }
    ensures ok { OnOk result (S.written out.new ≡ append_known (S.written out.old) (net.now ++ cause_text circuit.now halt stop)) }
    ensures part { OnErr result (WritesPart (S.written out.old) (S.written out.new) (net.now ++ cause_text circuit.now halt stop)) }
    ensures ends { IfOk result (λ ended. ended ≡ End.ScriptRefused) }
    ensures write { S.faults out.new ≡ faults_written (S.faults out.old) result }
    ensures refused { IsRefusedOnce (S.refusals out.old) (S.refusals out.new) result }
{
    match send(out, net) {
        Ok(()) => refuse_halt(alloc, halt, stop, circuit, vectors, text, out),
        Err(fault) => Err(Stop::of_write(fault)),
    }
}
