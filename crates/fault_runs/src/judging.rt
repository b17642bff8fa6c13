//! Judging the faults of a list.

ghost use Rattle.std.specs.Prelude.{◌≡◌, ◌≢◌, All, IfOk, IfErr, OnOk, OnErr};
ghost use Rattle.std.specs.Io.KnownBytes.{append_known};
ghost use Rattle.fault_runs.specs.Words.{faults_line_of, faults_written, start_of, verdict_line, AreJudgedFaults, HasVisibleNames, IsCircuit, IsFault, IsJudgement, IsRefusedOnce, IsToldBy, TellsJudged, WritesPart};

use crate::bench::FaultBench;
use crate::good::{GoodRun, run_good};
use crate::list::{FaultList, read_list};
use column_stage::PlainStage;
use cosmos_session::Session;
use fault_meaning::VerdictCounts;
use fault_sim::Verdict;
use group_analysis::Analyst;
use netlist::Circuit;
use ports::{Sink, send};
use printed_lines::{
    FAULTS_LINE_ROOM, FaultPlace, LineBuf, VERDICT_LINE_ROOM, detected_line, faults_line,
    possible_line, refused_line, undetected_line,
};
use refusal_words::list_word;
use run_ends::{End, Stop, refuse};
use script_meaning::Halt;
use script_run::refuse_halt;
use std::alloc::Global;
use ternary::NoMemory;
use told_lines::Printer;

/// Judges each fault of a list by the run of a script under it beside the good run, from the start in a
/// circuit, and writes the verdicts' lines, each as soon as it is known, and last the line of the counts.
///
/// The first refused line of the list ends it before any run, and a line of the script that is refused in the
/// good run before any verdict: its line is then the whole text.
pub fn judge_faults<M: PlainStage, S: Sink + Drop, A: Analyst>(
    alloc: Global,
    circuit: Circuit,
    script: &[u8],
    list: &[u8],
    out: &mut Printer<S>,
    analyst: &mut A,
) -> Result<End, Stop>
    requires { HasVisibleNames circuit }
    ensures told { IsToldBy (AreJudgedFaults script.now list.now circuit) out.old.page.written out.new.page.written
        (A.analysed analyst.old) (A.analysed analyst.new) result }
    ensures no_read { IfErr result (λ stop. stop ≢ Stop.Read) }
    ensures write { out.new.faults ≡ faults_written out.old.faults result }
    ensures refused { IsRefusedOnce out.old.refusals out.new.refusals result }
{
    match read_list(alloc, &circuit, list)? {
        Ok(faults) => judge_listed::<M, _, _>(alloc, circuit, script, &faults, out, analyst),
        Err(refusal) => {
            let place = FaultPlace::List(refusal.line);
            let word = list_word(refusal.code, list, refusal.line);
            refuse(alloc, place, refusal.code, word, End::ScriptRefused, out)
        }
    }
}

// Runs the script without a fault, and judges the faults beside that; or writes the line at which it is refused.
fn judge_listed<M: PlainStage, S: Sink + Drop, A: Analyst>(
    alloc: Global,
    circuit: Circuit,
    script: &[u8],
    faults: &FaultList,
    out: &mut Printer<S>,
    analyst: &mut A,
) -> Result<End, Stop>
    requires visible { HasVisibleNames circuit }
    requires faults { All (λ listed. IsFault circuit listed.fault) faults.now }
    ensures told { IsToldBy (IsJudgement circuit script.now faults.now) out.old.page.written out.new.page.written
        (A.analysed analyst.old) (A.analysed analyst.new) result }
    ensures no_read { IfErr result (λ stop. stop ≢ Stop.Read) }
    ensures write { out.new.faults ≡ faults_written out.old.faults result }
    ensures refused { IsRefusedOnce out.old.refusals out.new.refusals result }
{
    let session = first_session::<M>(alloc, &circuit)?;
    judge_from(alloc, &circuit, script, session, faults, out, analyst)
}

// A session at the start in a copy of a circuit.
fn first_session<M: PlainStage>(alloc: Global, circuit: &Circuit) -> Result<Session<M>, NoMemory>
    ensures { IfOk result (λ session. session.core ≡ start_of circuit.now) }
{
    Session::<M>::new(alloc, circuit.copy(alloc)?)
}

// The same, where the good run goes on in a session at the start in the circuit.
fn judge_from<M: PlainStage, S: Sink + Drop, A: Analyst>(
    alloc: Global,
    circuit: &Circuit,
    script: &[u8],
    session: Session<M>,
    faults: &FaultList,
    out: &mut Printer<S>,
    analyst: &mut A,
) -> Result<End, Stop>
    requires start { session.core ≡ start_of circuit.now }
    requires visible { HasVisibleNames circuit.now }
    requires faults { All (λ listed. IsFault circuit.now listed.fault) faults.now }
    ensures told { IsToldBy (IsJudgement circuit.now script.now faults.now) out.old.page.written out.new.page.written
        (A.analysed analyst.old) (A.analysed analyst.new) result }
    ensures no_read { IfErr result (λ stop. stop ≢ Stop.Read) }
    ensures write { out.new.faults ≡ faults_written out.old.faults result }
    ensures refused { IsRefusedOnce out.old.refusals out.new.refusals result }
{
    let mut session = session;
    let (good, halt) = run_good(alloc, &mut session, script, analyst)?;
    match halt {
        Halt::End => judge_beside(alloc, circuit, script, session, &good, faults, out, analyst),
        _ => {
            out.set_numbered(false);
            let vectors = session.vectors();
            refuse_halt(alloc, session.circuit(), vectors, halt, script, 1, out)
        }
    }
}

// Judges the faults beside the good run, by runs that go on from its session.
fn judge_beside<M: PlainStage, S: Sink, A: Analyst>(
    alloc: Global,
    circuit: &Circuit,
    script: &[u8],
    session: Session<M>,
    good: &GoodRun,
    faults: &FaultList,
    out: &mut S,
    analyst: &mut A,
) -> Result<End, Stop>
    requires visible { HasVisibleNames circuit.now }
    requires faults { All (λ listed. IsFault circuit.now listed.fault) faults.now }
    ensures told { IsToldBy (TellsJudged circuit.now script.now good.now session.core.kept faults.now)
        (S.written out.old) (S.written out.new) (A.analysed analyst.old) (A.analysed analyst.new) result }
    ensures no_read { IfErr result (λ stop. stop ≢ Stop.Read) }
    ensures write { S.faults out.new ≡ faults_written (S.faults out.old) result }
    ensures refused { IsRefusedOnce (S.refusals out.old) (S.refusals out.new) result }
{
    // for its contract alone: a circuit keeps itself well formed
    let _graph = circuit.graph();
    let mut bench = FaultBench::new(alloc, circuit, script, session)?;
    judge_each(alloc, &mut bench, good, faults, out, analyst)
}

// Judges the faults one after the other, and writes the line of each verdict, and last that of the counts.
fn judge_each<M: PlainStage, S: Sink, A: Analyst>(
    alloc: Global,
    bench: &mut FaultBench<'_, M>,
    good: &GoodRun,
    faults: &FaultList,
    out: &mut S,
    analyst: &mut A,
) -> Result<End, Stop>
    requires circuit { IsCircuit bench.old.start }
    requires faults { All (λ listed. IsFault bench.old.start listed.fault) faults.now }
    ensures told { IsToldBy (TellsJudged bench.old.start bench.old.script good.now bench.old.kept faults.now)
        (S.written out.old) (S.written out.new) (A.analysed analyst.old) (A.analysed analyst.new) result }
    ensures no_read { IfErr result (λ stop. stop ≢ Stop.Read) }
    ensures write { S.faults out.new ≡ faults_written (S.faults out.old) result }
    ensures refused { IsRefusedOnce (S.refusals out.old) (S.refusals out.new) result }
{
    let mut line = LineBuf::new(alloc, FAULTS_LINE_ROOM)?;
    let mut counts = VerdictCounts::new();
    for listed in faults.items() {
        let verdict = bench.judge(good, listed.fault, analyst)?;
        counts.add(verdict);
        send_verdict(&mut line, good, listed.line, verdict, out)?;
    }
    send_counts(&mut line, faults.items().len() as u64, counts, out)?;
    Ok(End::Done)
}

// Writes the line of a verdict.
fn send_verdict<S: Sink>(
    line: &mut LineBuf,
    good: &GoodRun,
    number: u64,
    verdict: Verdict,
    out: &mut S,
) -> Result<(), Stop>
    ensures ok { OnOk result (S.written out.new
        ≡ append_known (S.written out.old) (verdict_line good.now number verdict)) }
    ensures part { OnErr result (WritesPart (S.written out.old) (S.written out.new) (verdict_line good.now number verdict)) }
    ensures no_read { IfErr result (λ stop. stop ≢ Stop.Read) }
    ensures write { S.faults out.new ≡ faults_written (S.faults out.old) result }
    ensures refused { IsRefusedOnce (S.refusals out.old) (S.refusals out.new) result }
{
    put_verdict(line, good, number, verdict)?;
    match send(out, line.bytes()) {
        Ok(()) => Ok(()),
        Err(fault) => Err(Stop::of_write(fault)),
    }
}

// Puts the line of a verdict in place of what the buffer holds.
fn put_verdict(
    line: &mut LineBuf,
    good: &GoodRun,
    number: u64,
    verdict: Verdict,
) -> Result<(), NoMemory>
    ensures { OnOk result (line.new.bytes ≡ verdict_line good.now number verdict) }
{
    line.clear();
    match verdict {
        Verdict::Detected { row, entry } => {
            let name = good.entry_name(entry);
            line.reserve(VERDICT_LINE_ROOM + name.len())?;
            detected_line(line, number, row, name);
        }
        Verdict::Refused { line: at } => {
            line.reserve(VERDICT_LINE_ROOM)?;
            refused_line(line, number, at);
        }
        Verdict::Possible { row, entry } => {
            let name = good.entry_name(entry);
            line.reserve(VERDICT_LINE_ROOM + name.len())?;
            possible_line(line, number, row, name);
        }
        Verdict::Undetected => {
            line.reserve(VERDICT_LINE_ROOM)?;
            undetected_line(line, number);
        }
    }
    Ok(())
}

// Writes the line that counts the verdicts.
fn send_counts<S: Sink>(
    line: &mut LineBuf,
    faults: u64,
    counts: VerdictCounts,
    out: &mut S,
) -> Result<(), Stop>
    ensures ok { OnOk result (S.written out.new ≡ append_known (S.written out.old)
        (faults_line_of faults counts.detected counts.possible counts.undetected counts.refused)) }
    ensures part { OnErr result (WritesPart (S.written out.old) (S.written out.new)
        (faults_line_of faults counts.detected counts.possible counts.undetected counts.refused)) }
    ensures no_read { IfErr result (λ stop. stop ≢ Stop.Read) }
    ensures write { S.faults out.new ≡ faults_written (S.faults out.old) result }
    ensures refused { IsRefusedOnce (S.refusals out.old) (S.refusals out.new) result }
{
    line.clear();
    line.reserve(FAULTS_LINE_ROOM)?;
    faults_line(
        line,
        faults,
        counts.detected,
        counts.possible,
        counts.undetected,
        counts.refused,
    );
    match send(out, line.bytes()) {
        Ok(()) => Ok(()),
        Err(fault) => Err(Stop::of_write(fault)),
    }
}
