//! The dump of a script's run, over a netlist or a deck.

ghost use Rattle.std.specs.Prelude.{◌≡◌, ◌+◌, [], ◌∷◌, IfOk, IfSome};
ghost use Rattle.cosmos_app.specs.Words.{TakesFiles, IsCircuit, Simulate, over, StartsAtMost, ReadsWhole, IsToldBy, IsUntouched};
ghost use Rattle.cosmos_app.specs.Words.{IsRefusedOnce, faults_read, faults_written, IsDumped};
ghost use Rattle.cosmos_app.specs.Counts.{HasRefused, files_count, sink_count};
ghost use Rattle.cosmos_app.specs.Dumping.{IsDump, IsDumpTo};
ghost use Rattle.cosmos_app.specs.Starts.{RequestStarts};
ghost use Rattle.cosmos_app.specs.Wholes.{ReadsAll, files_of};

use crate::named::{read_named, refuse_circuit};
use crate::top::end_status;
use circuit_files::read_file;
use column_stage::PlainStage;
use dump_run::dump_script;
use group_analysis::Analyst;
use line_words::MOST_FILE_BYTES;
use netlist::Circuit;
use ports::{Files, Sink};
use run_ends::{End, Status, Stop};
use std::alloc::Global;

/// Writes to the sink the dump of the run of the script of this name, in the circuit of the netlist of the other name, or of
/// the deck if that is the name of one. It hands back the sink.
///
/// A netlist or a deck with a refused line has the line of that refusal in the place of the dump, and the script isn't read.
pub fn dump<M: PlainStage, F: Files, S: Sink + Drop, A: Analyst>(
    alloc: Global,
    net: &str,
    script: &str,
    files: &mut F,
    out: S,
    analyst: &mut A,
) -> (S, Status)
    ensures answer { IfSome (F.holds files.old) (λ holds. IsDumpTo net.now script.now holds
        (S.written out) (S.written result.0) (A.analysed analyst.old) (A.analysed analyst.new) result.1) }

    // The files are started in the order of the names, the script only if the netlist or the deck has no refusal. Of each
    // at most the first byte too many is read, and it is read to its end, or to that byte, before any other answer than a
    // fault or lack of memory.
    ensures started { RequestStarts (over net.now (Simulate script.now))
        (F.holds files.old) (F.started files.old) (F.started files.new) }
    ensures taken { TakesFiles (F.taken files.old) (F.taken files.new) (MOST_FILE_BYTES + 1) }
    ensures whole { IfSome (F.holds files.old) (λ holds. ReadsAll (F.taken files.old) (F.taken files.new)
        holds (over net.now (Simulate script.now)) result.1) }

    // A count rises by one at the one call that fails, and nothing is called after it. If a file can't be read nothing was
    // written.
    ensures read { F.faults files.new ≡ files_count (F.faults files.old) result.1 }
    ensures write { S.faults result.0 ≡ sink_count (S.faults out) result.1 }
    ensures refused { HasRefused (S.refusals out) (S.refusals result.0) result.1 }
    ensures untouched { result.1 ≡ Status.ReadFault → S.written result.0 ≡ S.written out }
{
    let (sink, end) = dump_named::<M, _, _, _>(alloc, net, script, files, out, analyst);
    (sink, end_status(end))
}

// Reads the netlist, or the deck if the name is that of one, and dumps the run of the script in its circuit.
#[tactic(auto, using(run_ends::proofs::EndLemmas::read_none, run_ends::proofs::EndLemmas::untouched_none))]
fn dump_named<M: PlainStage, F: Files, S: Sink + Drop, A: Analyst>(
    alloc: Global,
    net: &str,
    script: &str,
    files: &mut F,
    out: S,
    analyst: &mut A,
) -> (S, Result<End, Stop>)
    ensures told { IfSome (F.holds files.old) (λ holds. IsToldBy (IsDump net.now script.now holds)
        (S.written out) (S.written result.0) (A.analysed analyst.old) (A.analysed analyst.new) result.1) }
    ensures started { RequestStarts (over net.now (Simulate script.now))
        (F.holds files.old) (F.started files.old) (F.started files.new) }
    ensures taken { TakesFiles (F.taken files.old) (F.taken files.new) (MOST_FILE_BYTES + 1) }
    ensures whole { IfOk result.1 (λ _. IfSome (F.holds files.old) (λ holds.
        ReadsWhole (F.taken files.old) (F.taken files.new) holds (files_of (over net.now (Simulate script.now)) holds))) }
    ensures read { F.faults files.new ≡ faults_read (F.faults files.old) result.1 }
    ensures write { S.faults result.0 ≡ faults_written (S.faults out) result.1 }
    ensures refused { IsRefusedOnce (S.refusals out) (S.refusals result.0) result.1 }
    ensures untouched { IsUntouched (S.written out) (S.written result.0) result.1 }
{
    let mut refused = Vec::new(alloc);
    match read_named(alloc, files, net, &mut refused) {
        Ok(Ok(circuit)) => dump_file::<M, _, _, _>(alloc, circuit, script, files, out, analyst),
        Ok(Err(refusal)) => {
            let mut sink = out;
            let end = refuse_circuit(alloc, refusal, &refused, &mut sink);
            (sink, end)
        }
        Err(stop) => (out, Err(stop)),
    }
}

// Reads the script, and dumps its run in the circuit.
#[tactic(auto, using(run_ends::proofs::EndLemmas::read_none, run_ends::proofs::EndLemmas::untouched_none))]
fn dump_file<M: PlainStage, F: Files, S: Sink + Drop, A: Analyst>(
    alloc: Global,
    circuit: Circuit,
    script: &str,
    files: &mut F,
    out: S,
    analyst: &mut A,
) -> (S, Result<End, Stop>)
    requires { IsCircuit circuit }
    ensures told { IfSome (F.holds files.old) (λ holds. IsToldBy (IsDumped (holds script.now) circuit)
        (S.written out) (S.written result.0) (A.analysed analyst.old) (A.analysed analyst.new) result.1) }
    ensures started { StartsAtMost (F.started files.old) (F.started files.new) script.now }
    ensures taken { TakesFiles (F.taken files.old) (F.taken files.new) (MOST_FILE_BYTES + 1) }
    ensures whole { IfOk result.1 (λ _. IfSome (F.holds files.old) (λ holds.
        ReadsWhole (F.taken files.old) (F.taken files.new) holds (script.now ∷ []))) }
    ensures read { F.faults files.new ≡ faults_read (F.faults files.old) result.1 }
    ensures write { S.faults result.0 ≡ faults_written (S.faults out) result.1 }
    ensures refused { IsRefusedOnce (S.refusals out) (S.refusals result.0) result.1 }
    ensures untouched { IsUntouched (S.written out) (S.written result.0) result.1 }
{
    match read_file(alloc, files, script) {
        Ok(text) => dump_script::<M, _, _>(alloc, circuit, &text, out, analyst),
        Err(stop) => (out, Err(stop)),
    }
}
