//! One of the two runs: from the start of a session to the notes of what it shows, or to the line of its refusal.

ghost use Rattle.std.specs.Prelude.{◌≡◌, true};
ghost use Rattle.line_words.specs.Files as file;
ghost use Rattle.symbol_meaning.specs.Readings.{valuations_of};
ghost use Rattle.symbol_meaning.specs.Scripts.{read_of, stop_of};
ghost use Rattle.symbol_comparing.specs.Told.{AreValuationsOf};
ghost use Rattle.symbol_equiv.specs.Ends.{faults_equal, RefusedEqual, RunsAs};
ghost use Rattle.symbol_equiv.specs.Notes.{AreNotes};

use crate::ending::refuse_run;
use crate::fault::EqualFault;
use crate::noting::note_lines;
use crate::sharing::{SessionStart, SharesMaker};
use crate::tidying::leave;
use group_analysis::Analyst;
use ports::Sink;
use run_ends::End;
use std::alloc::Global;
use symbol_lines::NameFault;
use symbol_run::is_whole;
use symbol_told::Notes;
use truth_makers::Symbols;

// What a run comes to.
#[derive(Drop)]
pub(crate) enum Ran {
    // No line is refused: the maker as it is then, and the notes.
    Noted(Symbols, Notes),
    // The line of a refusal was written.
    Refused(End),
}

/// Runs a script from the start, over this maker, and answers the notes of it; or writes the line of the refusal that ends it,
/// behind the words that tell of the circuit. The notes of an earlier run over the maker are kept.
#[tactic(auto, using(crate::proofs::FaultLemmas::run_counts, crate::proofs::FaultLemmas::run_refused, crate::proofs::FaultLemmas::leave_counts, crate::proofs::FaultLemmas::leave_refused, crate::proofs::FaultLemmas::leave_stopped))]
pub(crate) fn run_noted<M: SharesMaker + Drop, T: SessionStart<M>, S: Sink, A: Analyst>(
    alloc: Global,
    symbols: Symbols,
    start: T,
    kept: &mut Notes,
    net: &[u8],
    text: &[u8],
    stop: Option<(u64, NameFault)>,
    out: &mut S,
    analyst: &mut A,
) -> Result<Ran, EqualFault>
    requires valuations { T.valuations start ≡ valuations_of (read_of true (file.cut_line text.now) (file.lines_in text.now)) }
    requires valued { AreValuationsOf symbols (T.valuations start) }
    requires stop { stop ≡ stop_of true (file.cut_line text.now) (file.lines_in text.now) }
    requires kept { AreNotes symbols kept.old }
    ensures told { RunsAs net.now (file.cut_line text.now) (T.starts start) (file.lines_in text.now) symbols kept.old kept.new
        (S.written out.old) (S.written out.new) (A.analysed analyst.old) (A.analysed analyst.new) result }
    ensures write { S.faults out.new ≡ faults_equal (S.faults out.old) result }
    ensures refused { RefusedEqual (S.refusals out.old) (S.refusals out.new) result }
{
    let mut session = start.start(symbols)?;
    let mut notes = Notes::new(alloc);
    let halt = note_lines(alloc, &mut session, text, stop, kept, &mut notes, analyst)?;
    if is_whole(halt, stop) {
        let symbols = leave(alloc, &session, kept, &mut notes)?;
        return Ok(Ran::Noted(symbols, notes));
    }
    let circuit = session.circuit();
    let end = refuse_run(
        alloc,
        net,
        halt,
        stop,
        circuit,
        session.vectors(),
        text,
        out,
    )?;
    Ok(Ran::Refused(end))
}
