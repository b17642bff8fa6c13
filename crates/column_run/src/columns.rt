//! Running the lines of a script in columns.

ghost use Rattle.std.specs.Prelude.{◌≡◌, ◌≢◌, true, IfErr};
ghost use Rattle.line_words.specs.Files as file;
ghost use Rattle.session_meaning.specs.Columns.{column_of};
ghost use Rattle.run_ends.specs.Stops.{faults_written, IsRefusedOnce};
ghost use Rattle.column_run.specs.ColumnAnswers.{IsColumnAnswer};
ghost use Rattle.column_run.specs.Turns.{TakesTurn, TellsHalt};
ghost use Rattle.run_ends.specs.Ends.{IsToldBy};

use column_script::read_column_command;
use column_stage::ColumnStage;
use cosmos_session::Session;
use group_analysis::Analyst;
use line_words::{Line, cut_line, front, lines};
use ports::Sink;
use printed_lines::FaultCode;
use run_ends::{End, Stop};
use script_meaning::{Halt, Turn};
use script_run::{refuse_halt, script_code, turn_of};
use std::alloc::Global;
use told_lines::{Lines, Printer};

/// Runs the lines of a script in each column, in order, to the end or to the first that is refused, and writes the
/// line of its refusal. The printer is to number columns.
pub fn run_in_columns<M: ColumnStage, S: Sink + Drop, A: Analyst>(
    alloc: Global,
    session: &mut Session<M>,
    text: &[u8],
    out: &mut Printer<S>,
    analyst: &mut A,
) -> Result<End, Stop>
    requires { out.old.page.numbered ≡ true }
    ensures told { IsToldBy (IsColumnAnswer (M.columns session.old.stage) (file.cut_line text.now) (column_of M.states session.old) (file.lines_in text.now))
        out.old.page.written out.new.page.written (A.analysed analyst.old) (A.analysed analyst.new) result }
    ensures no_read { IfErr result (λ stop. stop ≢ Stop.Read) }
    ensures write { out.new.faults ≡ faults_written out.old.faults result }
    ensures refused { IsRefusedOnce out.old.refusals out.new.refusals result }
{
    let halt = obey_in_columns(alloc, session, text, out, analyst)?;
    match halt {
        Halt::End => Ok(End::Done),
        _ => {
            let count = session.columns() as usize;
            let vectors = session.vectors();
            refuse_halt(alloc, session.circuit(), vectors, halt, text, count, out)
        }
    }
}

// Obeys the lines of a script in each column, in order, to the end or to the first that is refused, and tells which
// one that is.
fn obey_in_columns<M: ColumnStage, L: Lines, A: Analyst>(
    alloc: Global,
    session: &mut Session<M>,
    text: &[u8],
    out: &mut L,
    analyst: &mut A,
) -> Result<Halt, Stop>
    ensures told { TellsHalt L.hear L.part (M.columns session.old.stage) (file.cut_line text.now) (column_of M.states session.old) (file.lines_in text.now)
        (column_of M.states session.new 0) (L.heard out.old) (L.heard out.new) (A.analysed analyst.old) (A.analysed analyst.new) result }
    ensures no_read { IfErr result (λ stop. stop ≢ Stop.Read) }
    ensures write { L.faults out.new ≡ faults_written (L.faults out.old) result }
    ensures refused { IsRefusedOnce (L.refusals out.old) (L.refusals out.new) result }
{
    // a call for the proof alone: a session keeps itself well formed
    let _circuit = session.circuit();
    let cut = cut_line(text);
    for line in lines(front(text)) {
        match run_line(alloc, session, cut, line, out, analyst)? {
            Turn::Accepted => {}
            Turn::Refused(code) => return Ok(Halt::Refused(line.number, code)),
            Turn::TooLarge(fault) => return Ok(Halt::TooLarge(line.number, fault)),
        }
    }
    Ok(Halt::End)
}

// Runs one line in each column; the one that holds the first byte too many of the script is refused.
fn run_line<M: ColumnStage, L: Lines, A: Analyst>(
    alloc: Global,
    session: &mut Session<M>,
    cut: Option<u64>,
    line: Line<'_>,
    out: &mut L,
    analyst: &mut A,
) -> Result<Turn, Stop>
    ensures turn { TakesTurn L.hear L.part (M.columns session.old.stage) cut (line.entry.number, line.entry.bytes.now)
        (column_of M.states session.old) (column_of M.states session.new) (L.heard out.old) (L.heard out.new) (A.analysed analyst.old) (A.analysed analyst.new) result }
    ensures columns { M.columns session.new.stage ≡ M.columns session.old.stage }
    ensures no_read { IfErr result (λ stop. stop ≢ Stop.Read) }
    ensures write { L.faults out.new ≡ faults_written (L.faults out.old) result }
    ensures refused { IsRefusedOnce (L.refusals out.old) (L.refusals out.new) result }
{
    if cut == Some(line.number) {
        return Ok(Turn::Refused(FaultCode::S11TooLong));
    }
    match read_column_command(alloc, line.bytes, session.columns()) {
        Ok(Some(command)) => turn_of(session.apply_columns(&command, analyst, out)),
        Ok(None) => Ok(Turn::Accepted),
        Err(fault) => match script_code(fault) {
            Some(code) => Ok(Turn::Refused(code)),
            None => Err(Stop::Memory),
        },
    }
}
