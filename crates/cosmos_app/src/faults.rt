//! Judging the faults of a list that a file holds.

ghost use Rattle.std.specs.Prelude.{◌≡◌, ◌+◌, [], ◌∷◌, IfSome, IfOk};
ghost use Rattle.cosmos_app.specs.Words.{TakesFiles, HasVisibleNames, faults_read, faults_written, IsRefusedOnce, IsToldBy, IsUntouched};
ghost use Rattle.cosmos_app.specs.Words.{AreJudgedFaults, ReadsWhole};
ghost use Rattle.cosmos_app.specs.Starts.{StartsInOrder};

use circuit_files::read_file;
use fault_runs::judge_faults;
use fault_stage::FaultStage;
use group_analysis::Analyst;
use line_words::MOST_FILE_BYTES;
use netlist::Circuit;
use ports::{Files, Sink};
use run_ends::{End, Stop};
use std::alloc::Global;
use told_lines::Printer;

/// Reads the script and then the list of faults, and judges the faults in the circuit, each by a run of the
/// script beside the good one.
pub(crate) fn judge_list<F: Files, S: Sink + Drop, A: Analyst>(
    alloc: Global,
    circuit: Circuit,
    script: &str,
    list: &str,
    files: &mut F,
    out: &mut Printer<S>,
    analyst: &mut A,
) -> Result<End, Stop>
    requires { HasVisibleNames circuit }
    ensures told { IfSome (F.holds files.old) (λ holds. IsToldBy
        (AreJudgedFaults (holds script.now) (holds list.now) circuit)
        out.old.page.written out.new.page.written (A.analysed analyst.old) (A.analysed analyst.new) result) }
    ensures started { StartsInOrder (F.started files.old) (F.started files.new) script.now list.now }
    ensures taken { TakesFiles (F.taken files.old) (F.taken files.new) (MOST_FILE_BYTES + 1) }
    ensures whole { IfOk result (λ _. IfSome (F.holds files.old) (λ holds.
        ReadsWhole (F.taken files.old) (F.taken files.new) holds (list.now ∷ script.now ∷ []))) }
    ensures read { F.faults files.new ≡ faults_read (F.faults files.old) result }
    ensures write { out.new.faults ≡ faults_written out.old.faults result }
    ensures refused { IsRefusedOnce out.old.refusals out.new.refusals result }
    ensures untouched { IsUntouched out.old out.new result }
{
    let text = read_file(alloc, files, script)?;
    let faults = read_file(alloc, files, list)?;
    judge_faults::<FaultStage, _, _>(alloc, circuit, &text, &faults, out, analyst)
}
