//! The lines of refusals.

ghost use Rattle.std.specs.Prelude.{◌≡◌, ◌≢◌, IfErr};
ghost use Rattle.circuit_reports.specs.Answers.{IsDeckRefusal, IsNetRefusal, IsUsage};
ghost use Rattle.run_ends.specs.Ends.{IsTold};
ghost use Rattle.run_ends.specs.Stops.{faults_written, IsRefusedOnce};

use crate::codes::net_code;
use ports::{NotedFile, Sink, send};
use printed_lines::FaultPlace;
use refusal_words::{card_word, net_word};
use run_ends::{End, Stop, note_cure, refuse};
use sim_read::NetRefusal;
use spice_cards::{DeckWhat, cause_text, deck_line};
use std::alloc::Global;

/// Writes the line of a netlist's refusal. The cure is noted besides, with a word of the refused line, which is
/// passed for that alone.
pub fn refuse_net<S: Sink>(
    alloc: Global,
    refusal: NetRefusal,
    line: &[u8],
    out: &mut S,
) -> Result<End, Stop>
    ensures told { IsTold (IsNetRefusal refusal) (S.written out.old) (S.written out.new) result }
    ensures no_read { IfErr result (λ stop. stop ≢ Stop.Read) }
    ensures write { S.faults out.new ≡ faults_written (S.faults out.old) result }
    ensures refused { IsRefusedOnce (S.refusals out.old) (S.refusals out.new) result }
{
    let place = FaultPlace::Net(refusal.line);
    let code = net_code(refusal.what);
    refuse(
        alloc,
        place,
        code,
        net_word(code, line),
        End::NetRefused,
        out,
    )
}

/// Writes the line of a deck's refusal, by the number of the refused line and why it is refused. The cure is noted
/// besides, with a word of the refused card, which is passed for that alone.
pub fn refuse_deck<S: Sink>(
    alloc: Global,
    line: u64,
    what: DeckWhat,
    card: &[u8],
    out: &mut S,
) -> Result<End, Stop>
    ensures told { IsTold (IsDeckRefusal line what) (S.written out.old) (S.written out.new) result }
    ensures no_read { IfErr result (λ stop. stop ≢ Stop.Read) }
    ensures write { S.faults out.new ≡ faults_written (S.faults out.old) result }
    ensures refused { IsRefusedOnce (S.refusals out.old) (S.refusals out.new) result }
{
    let text = deck_line(alloc, line, what)?;
    match send(out, &text) {
        Ok(()) => {
            let word = card_word(what, card);
            let cause = cause_text(what);
            note_cure(alloc, NotedFile::Circuit, Some(line), cause, word, out);
            Ok(End::NetRefused)
        }
        Err(fault) => Err(Stop::of_write(fault)),
    }
}

/// Writes the usage line.
pub fn refuse_words<S: Sink>(out: &mut S) -> Result<End, Stop>
    ensures told { IsTold IsUsage (S.written out.old) (S.written out.new) result }
    ensures no_read { IfErr result (λ stop. stop ≢ Stop.Read) }
    ensures write { S.faults out.new ≡ faults_written (S.faults out.old) result }
    ensures refused { IsRefusedOnce (S.refusals out.old) (S.refusals out.new) result }
{
    match send(out, b"bad command line\n") {
        Ok(()) => Ok(End::Usage),
        Err(fault) => Err(Stop::of_write(fault)),
    }
}
