//! Comments, and the faults that a line of any text may have.

ghost use Rattle.std.specs.Prelude.{◌≡◌, ◌<◌, ◌≤◌, ◌↔◌, length, All, Any, IsTrue, MatchBool, MatchResult, true, false, not, find};
ghost use Rattle.std.specs.List.{list_all};
ghost use Rattle.line_words.specs.Bytes as spec;
ghost use Rattle.line_words.specs.LineFaults as faults;

use crate::bytes::{is_blank, is_line_byte};

/// The most bytes that a line may have, its CR and LF not counted.
pub const LONGEST_LINE: usize = 65_536;

/// What is wrong with a line as such, whatever its words mean.
#[derive(Clone, Copy, Debug, PartialEq, Eq)]
pub enum LineFault {
    /// The line has more than [`LONGEST_LINE`] bytes.
    TooLong,
    /// The line isn't too long and isn't a comment, and has a byte that is none of tab, space and
    /// 0x21 to 0x7e.
    BadByte,
}

/// Whether the line is a comment: its first byte that isn't a space or a tab is `|`.
pub fn is_comment(bytes: &[u8]) -> bool
    ensures test { result ≡ faults.is_comment bytes.now }
    ensures parts { IsTrue result ↔ faults.IsComment bytes.now }
{
    first_solid(bytes).is_some_and(|byte| byte == b'|')
}

// The first byte that isn't a blank.
fn first_solid(bytes: &[u8]) -> Option<u8>
    ensures { result ≡ find (λ byte. not (spec.is_blank byte)) bytes.now }
{
    bytes.iter().copied().find(|&byte| !is_blank(byte))
}

/// Looks for what is wrong with a line as such.
///
/// That it is too long wins over a bad byte. A comment may hold any bytes.
pub fn check_line(bytes: &[u8]) -> Result<(), LineFault>
    ensures fault { MatchResult result
        (λ _. faults.line_fault bytes.now ≡ None)
        (λ fault. faults.line_fault bytes.now ≡ Some fault) }
    ensures too_long { (result ≡ Err LineFault.TooLong) ↔ (LONGEST_LINE < length bytes.now) }
    ensures bad_byte { (result ≡ Err LineFault.BadByte)
        ↔ ((length bytes.now ≤ LONGEST_LINE) × (faults.is_comment bytes.now ≡ false)
        × Any (λ byte. spec.is_line_byte byte ≡ false) bytes.now) }
{
    if bytes.len() > LONGEST_LINE {
        return Err(LineFault::TooLong);
    }
    if is_comment(bytes) {
        return Ok(());
    }
    if is_plain(bytes) {
        Ok(())
    } else {
        Err(LineFault::BadByte)
    }
}

// Whether each byte may stand in a line.
fn is_plain(bytes: &[u8]) -> bool
    ensures test { result ≡ list_all spec.is_line_byte bytes.now }
    ensures cases { MatchBool result
        (All (λ byte. spec.is_line_byte byte ≡ true) bytes.now)
        (Any (λ byte. spec.is_line_byte byte ≡ false) bytes.now) }
{
    bytes.iter().all(|&byte| is_line_byte(byte))
}
