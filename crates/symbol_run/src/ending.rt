//! The end of a symbolic script, and its whole run.

ghost use Rattle.std.specs.Prelude.{◌≡◌, ◌<◌, ℕ, false, None, IfOk, OnErr, OnOk};
ghost use Rattle.std.specs.Io.KnownBytes.{append_known};
ghost use Rattle.line_words.specs.Files as file;
ghost use Rattle.symbol_run.specs.Words.{WritesPart, faults_written, IsRefusedOnce, SessionData, valuations_of, before_stop, read_of};
ghost use Rattle.symbol_run.specs.Words.{stop_of, variables_of};
ghost use Rattle.symbol_run.specs.Answers.{cause_text, ending_of, HasEnding, IsAnsweredBy};
ghost use Rattle.symbol_run.specs.Turns.{faults_stopped, RefusedStopped};

use crate::lines::obey_lines;
use crate::refusing::{is_whole, refuse_halt};
use crate::session::{LineSession, SymbolFault};
use group_analysis::Analyst;
use netlist::Circuit;
use node_words::Vectors;
use ports::Sink;
use run_ends::{End, Stop};
use script_meaning::Halt;
use std::alloc::Global;
use symbol_lines::NameFault;
use symbol_told::SymbolPrinter;

/// Runs the lines of a symbolic script from the start, whose variables, valuations and line that is refused by its names were read
/// before, and writes what they tell, and the line of the refusal that ends it, if one does.
pub fn run_script<M: LineSession, S: Sink + Drop, A: Analyst>(
    alloc: Global,
    session: &mut M,
    text: &[u8],
    stop: Option<(u64, NameFault)>,
    out: &mut SymbolPrinter<S>,
    analyst: &mut A,
) -> Result<End, SymbolFault>
    requires serves { M.serves session.old (file.cut_line text.now) (before_stop stop (file.lines_in text.now)) }
    requires telling { M.quiet session.old ≡ false }
    requires valuations { M.valuations session.old ≡ valuations_of (read_of false (file.cut_line text.now) (file.lines_in text.now)) }
    requires stop { stop ≡ stop_of false (file.cut_line text.now) (file.lines_in text.now) }
    requires variables { out.old.page.variables ≡ variables_of (read_of false (file.cut_line text.now) (file.lines_in text.now)) }
    requires unmissed { out.old.page.missed ≡ false }
    ensures told { (start : SessionData) → ((column : ℕ) → column < (M.valuations session.old).columns → M.sessions session.old column ≡ start) →
        IsAnsweredBy (file.cut_line text.now) start (file.lines_in text.now) out.old.page.written out.new.page.written
        (A.analysed analyst.old) (A.analysed analyst.new) result }
    ensures write { out.new.faults ≡ faults_stopped out.old.faults result }
    ensures refused { RefusedStopped out.old.refusals out.new.refusals result }
{
    let halt = obey_lines(session, text, stop, out, analyst)?;
    let circuit = session.circuit();
    match end_script(alloc, halt, stop, circuit, session.vectors(), text, out) {
        Ok(end) => Ok(end),
        Err(stopped) => Err(SymbolFault::Stopped(stopped)),
    }
}

// Writes the line of the refusal that ended the lines, or else of that by names.
fn end_script<S: Sink + Drop>(
    alloc: Global,
    halt: Halt,
    stop: Option<(u64, NameFault)>,
    circuit: &Circuit,
    vectors: &Vectors,
    text: &[u8],
    out: &mut SymbolPrinter<S>,
) -> Result<End, Stop>
    requires { HasEnding circuit.now halt }
    ensures ok { OnOk result (out.new.page.written ≡ append_known out.old.page.written (cause_text circuit.now halt stop)) }
    ensures part { OnErr result (WritesPart out.old.page.written out.new.page.written (cause_text circuit.now halt stop)) }
    ensures ends { IfOk result (λ ended. ended ≡ ending_of halt stop out.old.page.missed) }
    ensures write { out.new.faults ≡ faults_written out.old.faults result }
    ensures refused { IsRefusedOnce out.old.refusals out.new.refusals result }
{
    if is_whole(halt, stop) {
        return Ok(ending_with(out.missed()));
    }
    refuse_halt(alloc, halt, stop, circuit, vectors, text, out)
}

// How a script ends that was obeyed to its end.
fn ending_with(missed: bool) -> End
    ensures { result ≡ ending_of Halt.End None missed }
{
    if missed { End::Mismatch } else { End::Done }
}
