//! Texts that are sent to a sink.

ghost use Rattle.std.specs.Prelude.{◌≡◌, [], ◌++◌, OnErr, OnOk};
ghost use Rattle.std.specs.Io.KnownBytes.{append_known};
ghost use Rattle.symbol_told.specs.Texts.{text_of};
ghost use Rattle.symbol_told.specs.Words.{faults_after, RefusedOnce, WritesPart};

use crate::differences::{DifferenceShown, put_count, put_difference};
use crate::lines::ToldLine;
use crate::putting::put_told;
use ports::{PortFault, Sink, send};
use printed_lines::LineBuf;
use script_lang::Name;
use ternary::NoMemory;

/// A text that is sent: a line of all valuations together, the line of a difference, or the last line of a comparison, by the
/// numbers of waveform lines and of differences.
#[derive(Clone, Copy)]
pub(crate) enum Text<'a> {
    Told(ToldLine<'a>),
    Difference(DifferenceShown<'a>),
    Count(u64, u64),
}

/// Puts a text into a buffer without bytes, by the names of the variables, sends it, and takes it out again.
#[tactic(auto, using(crate::proofs::PrintingLemmas::refused_once, crate::proofs::PrintingLemmas::unsent_once, ports::proofs::SendingLemmas::part_none))]
pub(crate) fn send_text<S: Sink>(
    buffer: &mut LineBuf,
    variables: &[Name],
    text: Text,
    sink: &mut S,
) -> Result<(), PortFault>
    requires { buffer.old.bytes ≡ [] }
    ensures empty { buffer.new.bytes ≡ [] }
    ensures ok { OnOk result (S.written sink.new ≡ append_known (S.written sink.old) (text_of variables.now text.entry)) }
    ensures part { OnErr result (WritesPart (S.written sink.old) (S.written sink.new) (text_of variables.now text.entry)) }
    ensures faults { S.faults sink.new ≡ faults_after (S.faults sink.old) result }
    ensures refusals { RefusedOnce (S.refusals sink.old) (S.refusals sink.new) result }
{
    match put_text(buffer, variables, text) {
        Ok(()) => {
            let sent = send(sink, buffer.bytes());
            buffer.clear();
            sent
        }
        Err(NoMemory) => {
            buffer.clear();
            Err(PortFault::NoMemory)
        }
    }
}

// Puts a text.
fn put_text(out: &mut LineBuf, variables: &[Name], text: Text) -> Result<(), NoMemory>
    ensures { OnOk result (out.new.bytes ≡ out.old.bytes ++ text_of variables.now text.entry) }
{
    match text {
        Text::Told(line) => put_told(out, variables, line),
        Text::Difference(own) => put_difference(out, variables, own),
        Text::Count(waves, differences) => put_count(out, waves, differences),
    }
}
