//! What is read of a file, and the line at which a file is too long.

ghost use Rattle.std.specs.Prelude.{◌≡◌, length};
ghost use Rattle.line_words.specs.Lines.{lines_of};
ghost use Rattle.line_words.specs.Files as spec;

use crate::cuts::lines;

/// The most bytes of a file that are accepted.
pub const MOST_FILE_BYTES: usize = 67_108_864;

/// What is read of a file: all of it, or what stands before the first byte too many, and that byte.
pub fn front(text: &[u8]) -> &[u8]
    ensures { result.now ≡ spec.front_of text.now }
{
    if text.len() <= MOST_FILE_BYTES {
        text
    } else {
        &text[..MOST_FILE_BYTES + 1]
    }
}

/// The number of the line that holds the first byte too many, if the text has one.
///
/// A line's CR and LF belong to it.
pub fn cut_line(text: &[u8]) -> Option<u64>
    ensures { result ≡ spec.cut_line text.now }
{
    if text.len() <= MOST_FILE_BYTES {
        None
    } else {
        Some(last_line(front(text)))
    }
}

// How many lines the text has.
fn last_line(text: &[u8]) -> u64
    ensures { result ≡ length (lines_of text.now) }
{
    let mut last = 0;
    for line in lines(text) {
        last = line.number;
    }
    last
}
