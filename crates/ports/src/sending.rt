//! Sending a whole text to a sink.
ghost use Rattle.std.specs.Prelude.{◌≡◌, ◌+◌, ◌<◌, ◌≤◌, length, slice_range, IfOk, OnOk, OnErr};
ghost use Rattle.std.specs.Io.KnownBytes.{append_known};
ghost use Rattle.ports.specs.Ports.{faults_after, refusals_after, Writes};
ghost use Rattle.ports.specs.Sending.{WritesPart};

use crate::ports::{PortFault, Sink};

/// Writes the whole text, piece by piece.
///
/// On `Ok` the sink grew by the text, if it is told. After a fault it grew by a prefix of the text, and
/// nothing more was written: the one call that failed, or lacked memory, was the last.
pub fn send<S: Sink>(out: &mut S, text: &[u8]) -> Result<(), PortFault>
    ensures ok { OnOk result (S.written out.new ≡ append_known (S.written out.old) text.now) }
    ensures empty { length text.now ≡ 0 → (result ≡ Ok tt) × (out.new ≡ out.old) }
    ensures part { OnErr result (WritesPart (S.written out.old) (S.written out.new) text.now) }
    ensures cause { S.faults out.new ≡ faults_after (S.faults out.old) result }
    ensures memory { S.refusals out.new ≡ refusals_after (S.refusals out.old) result }
{
    let mut at = 0;
    while at < text.len() {
        at += write_next(out, text, at)?;
    }
    Ok(())
}

// Writes the next bytes of a text, from this place on, and answers how many they are.
fn write_next<S: Sink>(out: &mut S, text: &[u8], at: usize) -> Result<usize, PortFault>
    requires { at < length text.now }
    ensures some { IfOk result (λ count. 0 < count) }
    ensures bound { IfOk result (λ count. at + count ≤ length text.now) }
    ensures bytes { Writes (S.written out.old) (S.written out.new) result
        (slice_range text.now at (length text.now)) }
    ensures cause { S.faults out.new ≡ faults_after (S.faults out.old) result }
    ensures memory { S.refusals out.new ≡ refusals_after (S.refusals out.old) result }
{
    out.write(&text[at..])
}
