//! Obeying the lines of a script, and noting what waveform lines show.

ghost use Rattle.std.specs.Prelude.{◌≡◌, ◌≢◌, ◌∷◌, ◌++◌, ℕ, true, List, Ok, IfErr, IfOk, OnOk};
ghost use Rattle.line_words.specs.Files as file;
ghost use Rattle.symbol_equiv.specs.Clauses.{before_stop, no_notes, AreValuationsOf, StopsAmong, StopsAt};
ghost use Rattle.symbol_equiv.specs.Lines.{TakesTurnNoted};
ghost use Rattle.symbol_equiv.specs.Notes.{AreNotes, StillShow};
ghost use Rattle.symbol_equiv.specs.Runs.{RunsNoted};
ghost use Rattle.symbol_equiv.specs.Sharing.{KeepsFunctions};

use crate::sharing::SharesMaker;
use crate::tidying::tidy;
use crate::words::{watch_all, watched_words};
use group_analysis::Analyst;
use line_words::{Line, cut_line, front, lines};
use run_ends::Stop;
use script_lang::Name;
use script_meaning::{Halt, Turn};
use std::alloc::Global;
use symbol_lines::NameFault;
use symbol_run::{SymbolFault, is_past};
use symbol_told::Notes;
use ternary::NoMemory;

/// Obeys the lines of a quiet script, in order, that stand before the one that is refused by its names, if there is one, to the end
/// or to the first that is refused otherwise, and answers which one that is. Notes are made of what waveform lines show; those of an
/// earlier run over the same maker are kept. Behind a line functions may be let go that nothing needs.
pub(crate) fn note_lines<M: SharesMaker, A: Analyst>(
    alloc: Global,
    session: &mut M,
    text: &[u8],
    stop: Option<(u64, NameFault)>,
    kept: &mut Notes,
    notes: &mut Notes,
    analyst: &mut A,
) -> Result<Halt, SymbolFault>
    requires serves { M.serves session.old (file.cut_line text.now) (before_stop stop (file.lines_in text.now)) }
    requires quiet { M.quiet session.old ≡ true }
    requires valued { AreValuationsOf (M.maker session.old) (M.valuations session.old) }
    requires kept { AreNotes (M.maker session.old) kept.old }
    requires none { notes.old ≡ no_notes }
    ensures told { IfOk result (RunsNoted (M.maker session.new) true (M.valuations session.old) (file.cut_line text.now) (M.sessions session.old)
        (before_stop stop (file.lines_in text.now)) (M.sessions session.new) notes.new (A.analysed analyst.old) (A.analysed analyst.new)) }
    ensures valuations { IfOk result (λ halt. M.valuations session.new ≡ M.valuations session.old) }
    ensures valued { IfOk result (λ halt. AreValuationsOf (M.maker session.new) (M.valuations session.old)) }
    ensures still { IfOk result (λ halt. StillShow (M.maker session.old) (M.maker session.new) kept.old kept.new) }
    ensures among { IfErr result (StopsAmong (before_stop stop (file.lines_in text.now))) }
    ensures unwritten { IfErr result (λ fault. fault ≢ SymbolFault.Stopped Stop.Write) }
{
    let cut = cut_line(text);
    for line in lines(front(text)) {
        if is_past(line.number, stop) {
            return Ok(Halt::End);
        }
        match note_line(alloc, session, cut, line, notes, analyst)? {
            Turn::Accepted => tidy(alloc, session, kept, notes),
            Turn::Refused(code) => return Ok(Halt::Refused(line.number, code)),
            Turn::TooLarge(fault) => return Ok(Halt::TooLarge(line.number, fault)),
        }
    }
    Ok(Halt::End)
}

// Obeys a line, and notes what it shows and what it watches.
fn note_line<M: SharesMaker, A: Analyst>(
    alloc: Global,
    session: &mut M,
    cut: Option<u64>,
    line: Line<'_>,
    notes: &mut Notes,
    analyst: &mut A,
) -> Result<Turn, SymbolFault>
    requires quiet { M.quiet session.old ≡ true }
    requires valued { AreValuationsOf (M.maker session.old) (M.valuations session.old) }
    requires noted { AreNotes (M.maker session.old) notes.old }
    ensures quiet { M.quiet session.new ≡ M.quiet session.old }
    ensures valuations { M.valuations session.new ≡ M.valuations session.old }
    ensures turn { (rest : List (ℕ × List ℕ)) → M.serves session.old cut ((line.entry.number, line.entry.bytes.now) ∷ rest) →
        TakesTurnNoted (M.maker session.old) (M.maker session.new) true (M.valuations session.old) cut (M.sessions session.old)
        (line.entry.number, line.entry.bytes.now) (M.sessions session.new) notes.old notes.new (A.analysed analyst.old) (A.analysed analyst.new) result }
    ensures serves { (rest : List (ℕ × List ℕ)) → M.serves session.old cut ((line.entry.number, line.entry.bytes.now) ∷ rest) →
        result ≡ Ok Turn.Accepted → M.serves session.new cut rest }
    ensures keeps { OnOk result (KeepsFunctions (M.maker session.old) (M.maker session.new)) }
    ensures number { IfErr result (StopsAt line.entry.number) }
    ensures unwritten { IfErr result (λ fault. fault ≢ SymbolFault.Stopped Stop.Write) }
{
    let Ok(words) = watched_words(alloc, session.circuit(), session.vectors(), line.bytes) else {
        return Err(SymbolFault::Stopped(Stop::Memory));
    };
    match session.obey_noted(cut, line, notes, analyst)? {
        Turn::Accepted => note_words(notes, &words),
        Turn::Refused(code) => Ok(Turn::Refused(code)),
        Turn::TooLarge(fault) => Ok(Turn::TooLarge(fault)),
    }
}

// Notes that these words are watched from here on, once their line was accepted.
fn note_words(notes: &mut Notes, words: &[(Name, usize)]) -> Result<Turn, SymbolFault>
    ensures ok { OnOk result (notes.new ≡ record notes.old { words = notes.old.words ++ words.now }) }
    ensures accepted { IfOk result (λ turn. turn ≡ Turn.Accepted) }
    ensures memory { IfErr result (λ fault. fault ≡ SymbolFault.Stopped Stop.Memory) }
{
    match watch_all(notes, words) {
        Ok(()) => Ok(Turn::Accepted),
        Err(NoMemory) => Err(SymbolFault::Stopped(Stop::Memory)),
    }
}
