//! Running the lines of a script.

ghost use Rattle.std.specs.Prelude.{◌≡◌, ◌≢◌, ℕ, List, Option, None, Ok, IfErr};
ghost use Rattle.line_words.specs.Files as file;
ghost use Rattle.script_run.specs.Words.{faults_applied, faults_written, plain_reading, status_of, status_told, turn_after, Asks, IsFormed, IsReady, IsRefusedOnce, PassesThrough, Reading, SeesAll, SeesBehind, SeesLine, TakesTurn, TellsHalt, TellsRun};

use crate::codes::{refusal_code, script_code};
use crate::reader::{LineReader, Plain};
use crate::refusal::refuse_halt;
use circuit_texts::BuildFault;
use column_stage::PlainStage;
use cosmos_session::{ApplyFault, Session};
use group_analysis::Analyst;
use line_words::{Line, cut_line, front, lines};
use printed_lines::FaultCode;
use run_ends::{End, Stop};
use script_lang::Command;
use script_meaning::{Halt, Turn};
use settling::{Blind, Onlooker};
use std::alloc::Global;
use told_lines::Lines;

/// Runs the lines of a script, in order, to the end or to the first that is refused, and tells the line
/// of its refusal.
pub fn run_lines<M: PlainStage, L: Lines, A: Analyst>(
    alloc: Global,
    session: &mut Session<M>,
    text: &[u8],
    out: &mut L,
    analyst: &mut A,
) -> Result<End, Stop>
    requires { IsReady session.old.core }
    ensures told { TellsRun L.hear L.part plain_reading
        (file.cut_line text.now) session.old.core (file.lines_in text.now) session.new.core
        (L.heard out.old) (L.heard out.new) (A.analysed analyst.old) (A.analysed analyst.new) result }
    ensures no_read { IfErr result (λ stop. stop ≢ Stop.Read) }
    ensures write { L.faults out.new ≡ faults_written (L.faults out.old) result }
    ensures refused { IsRefusedOnce (L.refusals out.old) (L.refusals out.new) result }
{
    let halt = obey_lines(alloc, session, text, &Plain, out, analyst)?;
    match halt {
        Halt::End => Ok(end_of(session)),
        _ => {
            let vectors = session.vectors();
            refuse_halt(alloc, session.circuit(), vectors, halt, text, 1, out)
        }
    }
}

/// Obeys the lines of a script, in order, to the end or to the first that is refused, and answers which one
/// that is. Each is read by the reader, in the circuit as it is then.
pub fn obey_lines<M: PlainStage, R: LineReader, L: Lines, A: Analyst>(
    alloc: Global,
    session: &mut Session<M>,
    text: &[u8],
    reader: &R,
    out: &mut L,
    analyst: &mut A,
) -> Result<Halt, Stop>
    requires { IsReady session.old.core }
    ensures told { TellsHalt L.hear L.part (R.reading reader.now)
        (file.cut_line text.now) session.old.core (file.lines_in text.now) session.new.core
        (L.heard out.old) (L.heard out.new) (A.analysed analyst.old) (A.analysed analyst.new) result }
    ensures no_read { IfErr result (λ stop. stop ≢ Stop.Read) }
    ensures write { L.faults out.new ≡ faults_written (L.faults out.old) result }
    ensures refused { IsRefusedOnce (L.refusals out.old) (L.refusals out.new) result }
{
    obey_seen(alloc, session, text, reader, out, analyst, &mut Blind {})
}

/// Obeys the lines of a script as `obey_lines` does, under the eyes of an onlooker, who knows the session's state.
///
/// If all lines are obeyed the onlooker was shown the steps and phases of each of them, and the state behind it.
pub fn obey_seen<M: PlainStage, R: LineReader, L: Lines, A: Analyst, O: Onlooker>(
    alloc: Global,
    session: &mut Session<M>,
    text: &[u8],
    reader: &R,
    out: &mut L,
    analyst: &mut A,
    onlooker: &mut O,
) -> Result<Halt, Stop>
    requires ready { IsReady session.old.core }
    requires knows { O.knows onlooker.old session.old.core.state }
    ensures told { TellsHalt L.hear L.part (R.reading reader.now)
        (file.cut_line text.now) session.old.core (file.lines_in text.now) session.new.core
        (L.heard out.old) (L.heard out.new) (A.analysed analyst.old) (A.analysed analyst.new) result }
    ensures no_read { IfErr result (λ stop. stop ≢ Stop.Read) }
    ensures write { L.faults out.new ≡ faults_written (L.faults out.old) result }
    ensures refused { IsRefusedOnce (L.refusals out.old) (L.refusals out.new) result }
    ensures seen { result ≡ Ok Halt.End → SeesAll O.begin O.see O.rest (R.reading reader.now)
        (file.cut_line text.now) session.old.core (file.lines_in text.now) session.new.core (O.seen onlooker.old) (O.seen onlooker.new) }
    ensures knows { result ≡ Ok Halt.End → O.knows onlooker.new session.new.core.state }
{
    let cut = cut_line(text);
    for line in lines(front(text)) {
        match run_seen(alloc, session, cut, line, reader, out, analyst, onlooker)? {
            Turn::Accepted => {}
            Turn::Refused(code) => return Ok(Halt::Refused(line.number, code)),
            Turn::TooLarge(fault) => return Ok(Halt::TooLarge(line.number, fault)),
        }
    }
    Ok(Halt::End)
}

/// How a script ends that was obeyed to its end.
pub fn end_of<M: PlainStage>(session: &Session<M>) -> End
    ensures { status_of result ≡ status_told session.now.core None }
{
    if session.met() {
        End::Done
    } else {
        End::Mismatch
    }
}

/// Runs one line, as the reader reads it; the one that holds the first byte too many of the script is refused.
pub fn run_line<M: PlainStage, R: LineReader, L: Lines, A: Analyst>(
    alloc: Global,
    session: &mut Session<M>,
    cut: Option<u64>,
    line: Line<'_>,
    reader: &R,
    out: &mut L,
    analyst: &mut A,
) -> Result<Turn, Stop>
    ensures turn { TakesTurn L.hear L.part (R.reading reader.now)
        cut (line.entry.number, line.entry.bytes.now) session.old.core session.new.core
        (L.heard out.old) (L.heard out.new) (A.analysed analyst.old) (A.analysed analyst.new) result }
    ensures no_read { IfErr result (λ stop. stop ≢ Stop.Read) }
    ensures write { L.faults out.new ≡ faults_written (L.faults out.old) result }
    ensures refused { IsRefusedOnce (L.refusals out.old) (L.refusals out.new) result }
{
    run_seen(
        alloc,
        session,
        cut,
        line,
        reader,
        out,
        analyst,
        &mut Blind {},
    )
}

// Runs one line, and shows its steps and phases to an onlooker, who knows the session's state, and the state behind it.
fn run_seen<M: PlainStage, R: LineReader, L: Lines, A: Analyst, O: Onlooker>(
    alloc: Global,
    session: &mut Session<M>,
    cut: Option<u64>,
    line: Line<'_>,
    reader: &R,
    out: &mut L,
    analyst: &mut A,
    onlooker: &mut O,
) -> Result<Turn, Stop>
    requires { O.knows onlooker.old session.old.core.state }
    ensures turn { TakesTurn L.hear L.part (R.reading reader.now)
        cut (line.entry.number, line.entry.bytes.now) session.old.core session.new.core
        (L.heard out.old) (L.heard out.new) (A.analysed analyst.old) (A.analysed analyst.new) result }
    ensures no_read { IfErr result (λ stop. stop ≢ Stop.Read) }
    ensures write { L.faults out.new ≡ faults_written (L.faults out.old) result }
    ensures refused { IsRefusedOnce (L.refusals out.old) (L.refusals out.new) result }
    ensures seen { result ≡ Ok Turn.Accepted → SeesLine O.begin O.see O.rest (R.reading reader.now)
        cut session.old.core (line.entry.number, line.entry.bytes.now) session.new.core.state (O.seen onlooker.old) (O.seen onlooker.new) }
    ensures knows { result ≡ Ok Turn.Accepted → O.knows onlooker.new session.new.core.state }
{
    if cut == Some(line.number) {
        return Ok(Turn::Refused(FaultCode::S11TooLong));
    }
    match reader.read(alloc, line.bytes, session.circuit(), session.vectors()) {
        Ok(Some(command)) => obey_command(session, &command, out, analyst, onlooker),
        Ok(None) => {
            session.show_still(onlooker);
            Ok(Turn::Accepted)
        }
        Err(fault) => match script_code(fault) {
            Some(code) => Ok(Turn::Refused(code)),
            None => Err(Stop::Memory),
        },
    }
}

/// Runs a command that is well formed: it comes to what each line comes to that asks for it.
pub fn run_command<M: PlainStage, L: Lines, A: Analyst>(
    session: &mut Session<M>,
    command: &Command,
    out: &mut L,
    analyst: &mut A,
) -> Result<Turn, Stop>
    requires { IsFormed command.now }
    ensures turn { (reading : Reading) (cut : Option ℕ) (line : ℕ × List ℕ) → Asks reading cut session.old.core line command.now →
        TakesTurn L.hear L.part reading cut line session.old.core session.new.core
        (L.heard out.old) (L.heard out.new) (A.analysed analyst.old) (A.analysed analyst.new) result }
    ensures no_read { IfErr result (λ stop. stop ≢ Stop.Read) }
    ensures write { L.faults out.new ≡ faults_written (L.faults out.old) result }
    ensures refused { IsRefusedOnce (L.refusals out.old) (L.refusals out.new) result }
{
    obey_command(session, command, out, analyst, &mut Blind {})
}

// Obeys a line's command, and shows its steps and phases and the state behind it to an onlooker, who knows the session's state.
fn obey_command<M: PlainStage, L: Lines, A: Analyst, O: Onlooker>(
    session: &mut Session<M>,
    command: &Command,
    out: &mut L,
    analyst: &mut A,
    onlooker: &mut O,
) -> Result<Turn, Stop>
    requires formed { IsFormed command.now }
    requires knows { O.knows onlooker.old session.old.core.state }
    ensures turn { (reading : Reading) (cut : Option ℕ) (line : ℕ × List ℕ) → Asks reading cut session.old.core line command.now →
        TakesTurn L.hear L.part reading cut line session.old.core session.new.core
        (L.heard out.old) (L.heard out.new) (A.analysed analyst.old) (A.analysed analyst.new) result }
    ensures no_read { IfErr result (λ stop. stop ≢ Stop.Read) }
    ensures write { L.faults out.new ≡ faults_written (L.faults out.old) result }
    ensures refused { IsRefusedOnce (L.refusals out.old) (L.refusals out.new) result }
    ensures seen { result ≡ Ok Turn.Accepted → SeesBehind O.begin O.see O.rest
        (PassesThrough session.old.core command.now) session.new.core.state (O.seen onlooker.old) (O.seen onlooker.new) }
    ensures knows { result ≡ Ok Turn.Accepted → O.knows onlooker.new session.new.core.state }
{
    match session.apply_seen(command, analyst, out, onlooker) {
        Ok(()) => {
            session.show_behind(command, onlooker)?;
            Ok(Turn::Accepted)
        }
        Err(fault) => turn_of(Err(fault)),
    }
}

/// What becomes of a line whose command ended so.
pub fn turn_of(ended: Result<(), ApplyFault>) -> Result<Turn, Stop>
    ensures turn { result ≡ turn_after ended }
    ensures no_read { IfErr result (λ stop. stop ≢ Stop.Read) }
    ensures write { (faults : ℕ) → faults_written faults result ≡ faults_applied faults ended }
{
    match ended {
        Ok(()) => Ok(Turn::Accepted),
        Err(ApplyFault::Refused(refusal)) => Ok(Turn::Refused(refusal_code(refusal))),
        Err(ApplyFault::GroupNodes { node, count }) => {
            Ok(Turn::TooLarge(BuildFault::GroupNodes { node, count }))
        }
        Err(ApplyFault::GroupSwitches { node, count }) => {
            Ok(Turn::TooLarge(BuildFault::GroupSwitches { node, count }))
        }
        Err(ApplyFault::WriteFault) => Err(Stop::Write),
        Err(ApplyFault::NoMemory) => Err(Stop::Memory),
    }
}
