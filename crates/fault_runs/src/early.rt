//! A run under a fault that ends at its first strong difference, where nothing after it is wanted.

ghost use Rattle.std.specs.Prelude.{◌≡◌, Some, IfOk, IfSome};
ghost use Rattle.fault_runs.specs.Lines.{AreRead};
ghost use Rattle.fault_runs.specs.Words.{HasVisibleNames, IsFault, IsReady, IsTraced, JudgesBy, StandsAtStart};
ghost use Rattle.fault_meaning.specs.Early as spec;

use crate::good::{GoodRun, is_ready};
use crate::lines::{ReadLine, run_read};
use crate::running::put_fault;
use column_stage::PlainStage;
use cosmos_session::Session;
use fault_meaning::Bearing;
use fault_sim::{Fault, Verdict, stuck_node};
use group_analysis::Analyst;
use line_words::{cut_line, front, lines};
use netlist::Circuit;
use script_lang::{Command, ScriptFault, Setup, read_command};
use script_meaning::Turn;
use std::alloc::Global;
use ternary::{NoMemory, Tern};
use told_verdicts::Compare;

/// The number of the first line of a script that builds and after which no line edits the circuit or is
/// `keep` or `wide`, if there is one.
///
/// From that line on nothing more is analysed, and what is kept stays.
pub(crate) fn calm_from(alloc: Global, script: &[u8]) -> Result<Option<u64>, NoMemory>
    ensures { IfOk result (λ from. IfSome from (spec.IsCalmFrom script.now)) }
{
    let mut from = None;
    for line in lines(front(script)) {
        let bearing = bearing_of(alloc, line.bytes)?;
        from = from_after(from, line.number, bearing);
    }
    Ok(from)
}

// The number from which on lines are calm, after one more line.
fn from_after(from: Option<u64>, number: u64, bearing: Bearing) -> Option<u64>
    ensures { result ≡ spec.from_after from number bearing }
{
    match (from, bearing) {
        (_, Bearing::Unsettles) => None,
        (None, Bearing::Builds) => Some(number),
        (Some(from), Bearing::Builds) => Some(from),
        (from, Bearing::Stays) => from,
    }
}

// What a line means for what is built. A line that is refused means nothing.
fn bearing_of(alloc: Global, line: &[u8]) -> Result<Bearing, NoMemory>
    ensures { IfOk result (spec.HasBearing line.now) }
{
    match read_command(alloc, line) {
        Ok(Some(command)) => Ok(command_bearing(&command)),
        Ok(None) => Ok(Bearing::Stays),
        Err(ScriptFault::NoMemory) => Err(NoMemory),
        Err(_) => Ok(Bearing::Stays),
    }
}

// What a command means for it.
fn command_bearing(command: &Command) -> Bearing
    ensures { spec.CommandBears command.now result }
{
    match command {
        Command::Edit(_) => Bearing::Unsettles,
        Command::Setup(Setup::Keep(_)) => Bearing::Unsettles,
        Command::Setup(Setup::Widen(_)) => Bearing::Unsettles,
        Command::Setup(Setup::Watch(_)) => Bearing::Stays,
        Command::Setup(Setup::Limit(_)) => Bearing::Stays,
        Command::Setup(Setup::Clock(_)) => Bearing::Stays,
        Command::Setup(Setup::Save(_)) => Bearing::Stays,
        Command::Setup(Setup::Vector(_, _)) => Bearing::Stays,
        Command::Run(_) => Bearing::Builds,
        Command::Give(_) | Command::Tell(_) => Bearing::Stays,
    }
}

/// Runs a script under a fault, in a session that stands at the start, and gives the verdict on its trace beside
/// a good one. The run is compared with the good one as its lines are told, and no row of it is held.
///
/// If no line of the script edits the circuit or is `keep` or `wide` from one on that builds, the run ends at its first
/// strong difference after that: nothing that follows can change the verdict, what was analysed, or what is kept.
pub(crate) fn judge_under<M: PlainStage, A: Analyst>(
    alloc: Global,
    session: &mut Session<M>,
    start: &Circuit,
    script: &[u8],
    read: &[ReadLine],
    calm_from: Option<u64>,
    fault: Fault,
    good: &GoodRun,
    analyst: &mut A,
) -> Result<Verdict, NoMemory>
    requires stands { StandsAtStart start.now session.old.core }
    requires visible { HasVisibleNames start.now }
    requires fault { IsFault start.now fault }
    requires read { AreRead script.now read.now }
    requires calm { IfSome calm_from (spec.IsCalmFrom script.now) }
    ensures { IfOk result (JudgesBy (IsTraced start.now script.now session.old.core.kept (Some fault) session.new.core
        (A.analysed analyst.old) (A.analysed analyst.new)) good.now) }
{
    put_fault(alloc, session, start, fault, analyst)?;
    is_ready(session);
    let stuck = stuck_node(fault);
    judge_lines(
        alloc, session, script, read, calm_from, stuck, good, analyst,
    )
}

// Runs the lines of a script, which were read before, in a session while a node may be stuck, and gives the verdict on what
// they show beside the good run.
//
// From the line with the number on, the run ends at the first strong difference: the verdict is that on the
// whole run then, and nothing after it would be analysed or kept.
fn judge_lines<M: PlainStage, A: Analyst>(
    alloc: Global,
    session: &mut Session<M>,
    script: &[u8],
    read: &[ReadLine],
    calm_from: Option<u64>,
    stuck: Option<(usize, Tern)>,
    good: &GoodRun,
    analyst: &mut A,
) -> Result<Verdict, NoMemory>
    requires ready { IsReady session.old.core }
    requires read { AreRead script.now read.now }
    requires calm { IfSome calm_from (spec.IsCalmFrom script.now) }
    ensures { IfOk result (spec.JudgesLines stuck script.now session.old.core good.now session.new.core
        (A.analysed analyst.old) (A.analysed analyst.new)) }
{
    let cut = cut_line(script);
    let good_rows = good.rows();
    let mut out = Compare::new(good_rows);
    for line in read {
        let Ok(turn) = run_read(alloc, session, cut, line, stuck, &mut out, analyst) else {
            return Err(NoMemory);
        };
        let calm = is_from(calm_from, line.number);
        let found = verdict_after(&out, turn, line.number, calm);
        match found {
            Some(verdict) => return Ok(verdict),
            None => {}
        }
    }
    Ok(out.verdict(None))
}

// The verdict on what was compared so far, where the run ends after a line that came to this turn.
fn verdict_after(out: &Compare<'_>, turn: Turn, number: u64, calm: bool) -> Option<Verdict>
    ensures { spec.TellsAfter out.now turn number calm result }
{
    match turn {
        Turn::Accepted => early_verdict(out, calm),
        Turn::Refused(_) | Turn::TooLarge(_) => Some(out.verdict(Some(number))),
    }
}

// The verdict on it, where all that follows is calm and a row differs strongly.
fn early_verdict(out: &Compare<'_>, calm: bool) -> Option<Verdict>
    ensures { IfSome result (spec.IsEarly out.now calm) }
{
    if calm && out.strong().is_some() {
        Some(out.verdict(None))
    } else {
        None
    }
}

// Whether a number is one from this on.
fn is_from(from: Option<u64>, number: u64) -> bool
    ensures { result ≡ spec.is_from from number }
{
    match from {
        Some(from) => from <= number,
        None => false,
    }
}
