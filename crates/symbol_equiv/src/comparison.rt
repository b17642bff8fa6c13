//! Two circuits, compared by a script.

ghost use Rattle.std.specs.Prelude.{◌≡◌, List, true};
ghost use Rattle.line_words.specs.Files as file;
ghost use Rattle.group_text.specs.Texts.{GroupTextData};
ghost use Rattle.session_meaning.specs.Sessions.{SessionData};
ghost use Rattle.symbol_meaning.specs.Readings.{Valuations, valuations_of};
ghost use Rattle.symbol_meaning.specs.Scripts.{read_of, stop_of, variables_of};
ghost use Rattle.symbol_comparing.specs.Notes.{shown_in, AreNoted};
ghost use Rattle.symbol_comparing.specs.Told.{AreValuationsOf};
ghost use Rattle.symbol_equiv.specs.Ends.{compared_as, faults_equal, ComparesAs, IsEqualBy, NotesRun, RefusedEqual, StartAlike};

use crate::fault::EqualFault;
use crate::runs::{Ran, run_noted};
use crate::sharing::{SessionStart, SharesMaker};
use group_analysis::Analyst;
use ports::Sink;
use printed_lines::LineBuf;
use run_ends::{End, Stop};
use script_lang::Name;
use std::alloc::Global;
use symbol_comparing::{CompareFault, compare};
use symbol_lines::NameFault;
use symbol_told::Notes;
use ternary::NoMemory;
use truth_makers::Symbols;

/// Runs a script in a first circuit and then in a second one, over one maker of functions of its variables, compares what their
/// waveform lines show, and writes what is told of them. If a line is refused, its refusal alone is written: one in the first run
/// before one in the second.
///
/// The script's variables, its valuations and the line that is refused by its names were read before, as of a quiet script. The
/// sink is given back.
pub fn equiv<M: SharesMaker + Drop, T: SessionStart<M> + Drop, S: Sink + Drop, A: Analyst>(
    alloc: Global,
    symbols: Symbols,
    first: T,
    second: T,
    text: &[u8],
    stop: Option<(u64, NameFault)>,
    variables: &[Name],
    sink: S,
    analyst: &mut A,
) -> (S, Result<End, EqualFault>)
    requires first { T.valuations first ≡ valuations_of (read_of true (file.cut_line text.now) (file.lines_in text.now)) }
    requires second { T.valuations second ≡ valuations_of (read_of true (file.cut_line text.now) (file.lines_in text.now)) }
    requires alike { StartAlike (T.starts first) (T.starts second) }
    requires valued { AreValuationsOf symbols (valuations_of (read_of true (file.cut_line text.now) (file.lines_in text.now))) }
    requires stop { stop ≡ stop_of true (file.cut_line text.now) (file.lines_in text.now) }
    requires variables { variables.now ≡ variables_of (read_of true (file.cut_line text.now) (file.lines_in text.now)) }
    ensures told { IsEqualBy (file.cut_line text.now) (T.starts first) (T.starts second) (file.lines_in text.now)
        (S.written sink) (S.written result.0) (A.analysed analyst.old) (A.analysed analyst.new) result.1 }
    ensures write { S.faults result.0 ≡ faults_equal (S.faults sink) result.1 }
    ensures refused { RefusedEqual (S.refusals sink) (S.refusals result.0) result.1 }
{
    let mut sink = sink;
    let mut none = Notes::new(alloc);
    match run_noted(
        alloc,
        symbols,
        first,
        &mut none,
        b"first net: ",
        text,
        stop,
        &mut sink,
        analyst,
    ) {
        Ok(Ran::Noted(symbols, notes)) => run_second(
            alloc, symbols, notes, second, text, stop, variables, sink, analyst,
        ),
        Ok(Ran::Refused(end)) => (sink, Ok(end)),
        Err(fault) => (sink, Err(fault)),
    }
}

// Runs the script in the second circuit, and compares the runs.
fn run_second<M: SharesMaker + Drop, T: SessionStart<M>, S: Sink + Drop, A: Analyst>(
    alloc: Global,
    symbols: Symbols,
    first: Notes,
    second: T,
    text: &[u8],
    stop: Option<(u64, NameFault)>,
    variables: &[Name],
    sink: S,
    analyst: &mut A,
) -> (S, Result<End, EqualFault>)
    requires second { T.valuations second ≡ valuations_of (read_of true (file.cut_line text.now) (file.lines_in text.now)) }
    requires stop { stop ≡ stop_of true (file.cut_line text.now) (file.lines_in text.now) }
    requires variables { variables.now ≡ variables_of (read_of true (file.cut_line text.now) (file.lines_in text.now)) }
    requires run { (one : SessionData) × (before : List GroupTextData) × StartAlike one (T.starts second) ×
        NotesRun (file.cut_line text.now) one (file.lines_in text.now) symbols first before (A.analysed analyst.old) }
    ensures told { (one : SessionData) (before : List GroupTextData) → StartAlike one (T.starts second) →
        NotesRun (file.cut_line text.now) one (file.lines_in text.now) symbols first before (A.analysed analyst.old) →
        IsEqualBy (file.cut_line text.now) one (T.starts second) (file.lines_in text.now)
        (S.written sink) (S.written result.0) before (A.analysed analyst.new) result.1 }
    ensures write { S.faults result.0 ≡ faults_equal (S.faults sink) result.1 }
    ensures refused { RefusedEqual (S.refusals sink) (S.refusals result.0) result.1 }
{
    let mut sink = sink;
    let mut first = first;
    match run_noted(
        alloc,
        symbols,
        second,
        &mut first,
        b"second net: ",
        text,
        stop,
        &mut sink,
        analyst,
    ) {
        Ok(Ran::Noted(symbols, notes)) => {
            compare_runs(alloc, symbols, variables, &first, &notes, sink)
        }
        Ok(Ran::Refused(end)) => (sink, Ok(end)),
        Err(fault) => (sink, Err(fault)),
    }
}

// Compares both runs, and writes what is told of them.
fn compare_runs<S: Sink + Drop>(
    alloc: Global,
    symbols: Symbols,
    variables: &[Name],
    first: &Notes,
    second: &Notes,
    sink: S,
) -> (S, Result<End, EqualFault>)
    requires { AreNoted symbols first.now second.now }
    ensures told { (v : Valuations) → AreValuationsOf symbols v → ComparesAs v variables.now (shown_in symbols first.now) (shown_in symbols second.now)
        (S.written sink) (S.written result.0) result.1 }
    ensures write { S.faults result.0 ≡ faults_equal (S.faults sink) result.1 }
    ensures refused { RefusedEqual (S.refusals sink) (S.refusals result.0) result.1 }
{
    let mut symbols = symbols;
    match LineBuf::new(alloc, 0) {
        Ok(buffer) => {
            let (sink, ended) = compare(
                alloc,
                &mut symbols,
                variables,
                first,
                second,
                buffer,
                sink,
            );
            (sink, compared(ended))
        }
        Err(NoMemory) => (sink, Err(EqualFault::Stopped(Stop::Memory))),
    }
}

// How both runs end whose comparison ends so.
fn compared(ended: Result<End, CompareFault>) -> Result<End, EqualFault>
    ensures { result ≡ compared_as ended }
{
    match ended {
        Ok(end) => Ok(end),
        Err(fault) => Err(EqualFault::from(fault)),
    }
}
