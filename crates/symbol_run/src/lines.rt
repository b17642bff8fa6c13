//! Obeying the lines of a symbolic script.

ghost use Rattle.std.specs.Prelude.{◌≡◌, IfErr};
ghost use Rattle.line_words.specs.Files as file;
ghost use Rattle.symbol_meaning.specs.Scripts.{before_stop};
ghost use Rattle.symbol_run.specs.Halts as spec;
ghost use Rattle.symbol_run.specs.Halts.{StopsAmong, TellsInAll};
ghost use Rattle.symbol_run.specs.Turns.{faults_stopped, RefusedStopped};

use crate::session::{LineSession, SymbolFault};
use group_analysis::Analyst;
use line_words::{cut_line, front, lines};
use script_meaning::{Halt, Turn};
use symbol_lines::NameFault;
use symbol_told::SymbolLines;

/// Obeys the lines of a script, in order, that stand before the one that is refused by its names, if there is one, to the end or to
/// the first that is refused otherwise, and answers which one that is.
pub fn obey_lines<M: LineSession, L: SymbolLines, A: Analyst>(
    session: &mut M,
    text: &[u8],
    stop: Option<(u64, NameFault)>,
    out: &mut L,
    analyst: &mut A,
) -> Result<Halt, SymbolFault>
    requires { M.serves session.old (file.cut_line text.now) (before_stop stop (file.lines_in text.now)) }
    ensures told { TellsInAll L.hear L.part (M.quiet session.old) (M.valuations session.old) (file.cut_line text.now) (M.sessions session.old)
        (before_stop stop (file.lines_in text.now)) (M.sessions session.new)
        (L.heard out.old) (L.heard out.new) (A.analysed analyst.old) (A.analysed analyst.new) result }
    ensures valuations { M.valuations session.new ≡ M.valuations session.old }
    ensures among { IfErr result (StopsAmong (before_stop stop (file.lines_in text.now))) }
    ensures write { L.faults out.new ≡ faults_stopped (L.faults out.old) result }
    ensures refused { RefusedStopped (L.refusals out.old) (L.refusals out.new) result }
{
    let cut = cut_line(text);
    for line in lines(front(text)) {
        if is_past(line.number, stop) {
            return Ok(Halt::End);
        }
        match session.obey(cut, line, out, analyst)? {
            Turn::Accepted => {}
            Turn::Refused(code) => return Ok(Halt::Refused(line.number, code)),
            Turn::TooLarge(fault) => return Ok(Halt::TooLarge(line.number, fault)),
        }
    }
    Ok(Halt::End)
}

/// Whether the line with this number doesn't stand before the one that is refused by its names.
pub fn is_past(number: u64, stop: Option<(u64, NameFault)>) -> bool
    ensures { result ≡ spec.is_past stop number }
{
    match stop {
        Some((line, _)) => number >= line,
        None => false,
    }
}
