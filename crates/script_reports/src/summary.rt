//! What `large` writes: the summary of a sample's run.

ghost use Rattle.std.specs.Prelude.{◌≡◌, ◌≢◌, [], IfOk, IfErr, count_by, is_some};
ghost use Rattle.switch_paths.specs.Graphs as graphs;
ghost use Rattle.line_words.specs.Files as file;
ghost use Rattle.script_reports.specs.Words.{counted, faults_written, netlist_of, plain_answer, plain_reading, summary_line_of, summary_of, HaltsAt, IsBlank, IsCircuit, IsReady, IsRefusedOnce, IsSampleSummary, IsSummary, IsSummedUp, IsTold, IsToldBy};
ghost use Rattle.command_line.specs.Samples as samples;
ghost use Rattle.run_ends.specs.declared.status.Status.TheVariants as status;

use circuit_reports::{refuse_net, switches};
use column_stage::PlainStage;
use command_line::Sample;
use cosmos_session::Session;
use group_analysis::Analyst;
use net_gen::{GenPart, generate};
use netlist::Circuit;
use ports::{Sink, send};
use printed_lines::{FaultPlace, LineBuf, SUMMARY_LINE_ROOM, Summary, summary_line};
use run_ends::{End, Stop, refuse, refuse_size};
use script_meaning::Halt;
use script_run::{Plain, obey_lines};
use sim_read::{NetRefusal, read_netlist};
use std::alloc::Global;
use table_keys::TableKeys;
use ternary::Unmade;
use told_lines::Sums;

/// Runs the script of a sample in the circuit of its netlist, and writes the line that sums it up.
pub fn sum_up<M: PlainStage, S: Sink, A: Analyst>(
    alloc: Global,
    keys: TableKeys,
    sample: Sample,
    out: &mut S,
    analyst: &mut A,
) -> Result<End, Stop>
    ensures told { IsToldBy (IsSampleSummary (samples.sample_seen sample))
        (S.written out.old) (S.written out.new) (A.analysed analyst.old) (A.analysed analyst.new) result }
    ensures no_read { IfErr result (λ stop. stop ≢ Stop.Read) }
    ensures write { S.faults out.new ≡ faults_written (S.faults out.old) result }
    ensures refused { IsRefusedOnce (S.refusals out.old) (S.refusals out.new) result }
{
    match sample_circuit(alloc, keys, sample)? {
        Ok(circuit) => sum_up_in::<M, _, _>(alloc, circuit, sample, out, analyst),
        Err(refusal) => refuse_net(alloc, refusal, &[], out),
    }
}

// The circuit of a sample's netlist, or its refusal.
fn sample_circuit(
    alloc: Global,
    keys: TableKeys,
    sample: Sample,
) -> Result<Result<Circuit, NetRefusal>, Stop>
    ensures means { IfOk result (λ meaning. netlist_of (samples.text_of GenPart.Net (samples.sample_seen sample)) ≡ meaning) }
    ensures circuit { IfOk result (λ meaning. IfOk meaning IsCircuit) }
    ensures memory { IfErr result (λ stop. stop ≡ Stop.Memory) }
{
    let text = generate(alloc, sample.kind, GenPart::Net, sample.seed, sample.rows)?;
    match read_netlist(alloc, keys, &text) {
        Ok(circuit) => Ok(Ok(circuit)),
        Err(Unmade::Refused(refusal)) => Ok(Err(refusal)),
        Err(Unmade::NoMemory) => Err(Stop::Memory),
    }
}

// Runs the script of a sample in this circuit, and writes the line that sums it up.
fn sum_up_in<M: PlainStage, S: Sink, A: Analyst>(
    alloc: Global,
    circuit: Circuit,
    sample: Sample,
    out: &mut S,
    analyst: &mut A,
) -> Result<End, Stop>
    requires { IsCircuit circuit }
    ensures told { IsToldBy (IsSummary (samples.text_of GenPart.Script (samples.sample_seen sample)) circuit)
        (S.written out.old) (S.written out.new) (A.analysed analyst.old) (A.analysed analyst.new) result }
    ensures no_read { IfErr result (λ stop. stop ≢ Stop.Read) }
    ensures write { S.faults out.new ≡ faults_written (S.faults out.old) result }
    ensures refused { IsRefusedOnce (S.refusals out.old) (S.refusals out.new) result }
{
    let text = generate(
        alloc,
        sample.kind,
        GenPart::Script,
        sample.seed,
        sample.rows,
    )?;
    let summary = summary_at_start(&circuit);
    let mut session = Session::<M>::new(alloc, circuit)?;
    sum_up_lines(alloc, &mut session, &text, summary, out, analyst)
}

// The summary of a run in this circuit before its first line.
fn summary_at_start(circuit: &Circuit) -> Summary
    ensures { result ≡ summary_of (graphs.nodes circuit.now.graph) (count_by is_some circuit.now.graph.places) [] }
{
    let graph = circuit.graph();
    Summary {
        nodes: graph.nodes() as u64,
        switches: switches(graph),
        lines: 0,
        steps: 0,
        marks: 0,
        zeros: 0,
        ones: 0,
        unknown: 0,
    }
}

// Runs the lines of a script, and writes the line that sums them up, or that of the refusal that ends them.
fn sum_up_lines<M: PlainStage, S: Sink, A: Analyst>(
    alloc: Global,
    session: &mut Session<M>,
    text: &[u8],
    summary: Summary,
    out: &mut S,
    analyst: &mut A,
) -> Result<End, Stop>
    requires blank { IsBlank summary }
    requires ready { IsReady session.old.core }
    ensures told { IsToldBy
        (IsSummedUp summary.nodes summary.switches (file.cut_line text.now) session.old.core (file.lines_in text.now))
        (S.written out.old) (S.written out.new) (A.analysed analyst.old) (A.analysed analyst.new) result }
    ensures no_read { IfErr result (λ stop. stop ≢ Stop.Read) }
    ensures write { S.faults out.new ≡ faults_written (S.faults out.old) result }
    ensures refused { IsRefusedOnce (S.refusals out.old) (S.refusals out.new) result }
{
    let mut sums = Sums { summary };
    match count_lines(alloc, session, text, &mut sums, analyst)? {
        Halt::End => write_summary(alloc, sums.summary, out),
        Halt::Refused(line, code) => {
            let place = FaultPlace::Script(line);
            refuse(alloc, place, code, &[], End::ScriptRefused, out)
        }
        Halt::TooLarge(line, fault) => {
            let place = FaultPlace::Script(line);
            refuse_size(
                alloc,
                place,
                session.circuit(),
                fault,
                End::ScriptRefused,
                out,
            )
        }
    }
}

// Obeys the lines of a script, whose waveform lines are counted as they are told.
#[tactic(auto, using(crate::proofs::UnfailingLemmas::memory_alone))]
fn count_lines<M: PlainStage, A: Analyst>(
    alloc: Global,
    session: &mut Session<M>,
    text: &[u8],
    sums: &mut Sums,
    analyst: &mut A,
) -> Result<Halt, Stop>
    requires { IsReady session.old.core }
    ensures halts { IfOk result (HaltsAt counted plain_reading
        (file.cut_line text.now) session.old.core (file.lines_in text.now) session.new.core
        sums.old.summary sums.new.summary (A.analysed analyst.old) (A.analysed analyst.new)) }
    ensures memory { IfErr result (λ stop. stop ≡ Stop.Memory) }
{
    obey_lines(alloc, session, text, &Plain, sums, analyst)
}

// Writes the line of a summary.
fn write_summary<S: Sink>(alloc: Global, summary: Summary, out: &mut S) -> Result<End, Stop>
    ensures told { IsTold (λ answer. answer ≡ plain_answer status.Done (summary_line_of summary)) (S.written out.old) (S.written out.new) result }
    ensures no_read { IfErr result (λ stop. stop ≢ Stop.Read) }
    ensures write { S.faults out.new ≡ faults_written (S.faults out.old) result }
    ensures refused { IsRefusedOnce (S.refusals out.old) (S.refusals out.new) result }
{
    let mut line = LineBuf::new(alloc, SUMMARY_LINE_ROOM)?;
    summary_line(&mut line, summary);
    match send(out, line.bytes()) {
        Ok(()) => Ok(End::Done),
        Err(fault) => Err(Stop::of_write(fault)),
    }
}
