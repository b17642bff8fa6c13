//! The lines of two circuits that are compared.

ghost use Rattle.std.specs.Prelude.{◌≡◌, [], ◌++◌, codes, decimal, map, OnErr, OnOk};
ghost use Rattle.std.specs.Io.KnownBytes.{append_known};
ghost use Rattle.symbol_told.specs.Words.{letter, faults_after, RefusedOnce, WritesPart, difference_text};
ghost use Rattle.symbol_told.specs.Differences.{counted_text, difference_seen};

use crate::putting::{put, put_number, put_states};
use crate::sending::{Text, send_text};
use crate::valuations::put_where;
use ports::{PortFault, Sink};
use printed_lines::LineBuf;
use script_lang::Name;
use ternary::{NoMemory, Tern};

/// A word whose letters differ under some valuation: the number of the waveform line, the word, the letters in both circuits
/// under the first such valuation, and the valuation.
#[derive(Clone, Copy)]
pub struct DifferenceShown<'a> {
    pub line: u64,
    pub word: &'a [u8],
    pub one: &'a [Tern],
    pub other: &'a [Tern],
    pub truths: &'a [bool],
}

/// Sends the line of a difference, by the names of the variables, by way of a buffer without bytes.
pub fn send_difference<S: Sink>(
    buffer: &mut LineBuf,
    variables: &[Name],
    own: DifferenceShown,
    sink: &mut S,
) -> Result<(), PortFault>
    requires { buffer.old.bytes ≡ [] }
    ensures empty { buffer.new.bytes ≡ [] }
    ensures ok { OnOk result (S.written sink.new ≡ append_known (S.written sink.old) (difference_text variables.now (difference_seen own.entry))) }
    ensures part { OnErr result (WritesPart (S.written sink.old) (S.written sink.new) (difference_text variables.now (difference_seen own.entry))) }
    ensures faults { S.faults sink.new ≡ faults_after (S.faults sink.old) result }
    ensures refusals { RefusedOnce (S.refusals sink.old) (S.refusals sink.new) result }
{
    send_text(buffer, variables, Text::Difference(own), sink)
}

/// Sends the last line, by the numbers of waveform lines and of differences, by way of a buffer without bytes.
pub fn send_count<S: Sink>(
    buffer: &mut LineBuf,
    waves: u64,
    differences: u64,
    sink: &mut S,
) -> Result<(), PortFault>
    requires { buffer.old.bytes ≡ [] }
    ensures empty { buffer.new.bytes ≡ [] }
    ensures ok { OnOk result (S.written sink.new ≡ append_known (S.written sink.old) (counted_text waves differences)) }
    ensures part { OnErr result (WritesPart (S.written sink.old) (S.written sink.new) (counted_text waves differences)) }
    ensures faults { S.faults sink.new ≡ faults_after (S.faults sink.old) result }
    ensures refusals { RefusedOnce (S.refusals sink.old) (S.refusals sink.new) result }
{
    send_text(buffer, &[], Text::Count(waves, differences), sink)
}

/// Puts the line of a difference.
pub(crate) fn put_difference(
    out: &mut LineBuf,
    variables: &[Name],
    own: DifferenceShown,
) -> Result<(), NoMemory>
    ensures { OnOk result (out.new.bytes ≡ out.old.bytes ++ difference_text variables.now (difference_seen own.entry)) }
{
    let DifferenceShown {
        line,
        word,
        one,
        other,
        truths,
    } = own;
    put_letters_of(out, line, word, one, other)?;
    put_where(out, variables, truths)?;
    put(out, b"\n")
}

// Puts that line up to its valuation.
fn put_letters_of(
    out: &mut LineBuf,
    line: u64,
    word: &[u8],
    one: &[Tern],
    other: &[Tern],
) -> Result<(), NoMemory>
    ensures { OnOk result (out.new.bytes ≡ out.old.bytes ++ codes "differ " ++ decimal line ++ codes " " ++ word.now ++ codes " " ++ map letter one.now
        ++ codes " " ++ map letter other.now) }
{
    put(out, b"differ ")?;
    put_number(out, line)?;
    put(out, b" ")?;
    put(out, word)?;
    put(out, b" ")?;
    put_states(out, one)?;
    put(out, b" ")?;
    put_states(out, other)
}

/// Puts the last line.
pub(crate) fn put_count(out: &mut LineBuf, waves: u64, differences: u64) -> Result<(), NoMemory>
    ensures { OnOk result (out.new.bytes ≡ out.old.bytes ++ counted_text waves differences) }
{
    if differences == 0 {
        put_counted(out, b"equal ", waves)
    } else {
        put_counted(out, b"different ", differences)
    }
}

// Puts a word, a number, and LF.
fn put_counted(out: &mut LineBuf, word: &[u8], number: u64) -> Result<(), NoMemory>
    ensures { OnOk result (out.new.bytes ≡ out.old.bytes ++ word.now ++ decimal number ++ codes "\n") }
{
    put(out, word)?;
    put_number(out, number)?;
    put(out, b"\n")
}
