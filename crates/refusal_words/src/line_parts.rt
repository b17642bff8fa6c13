//! Lines of a text, words of a line, and what stands before and behind a sign of a word.

ghost use Rattle.std.specs.Prelude.{◌<◌, length, IfSome};

use line_words::{lines, words};

/// The line with this number, and no bytes if the text has no such line.
pub(crate) fn line_at(text: &[u8], number: u64) -> &[u8] {
    for line in lines(text) {
        if line.number == number {
            return line.bytes;
        }
    }
    &[]
}

/// The first word of a line, and no bytes if it has no word.
pub(crate) fn first_word(line: &[u8]) -> &[u8] {
    match words(line).next() {
        Some(word) => word,
        None => &[],
    }
}

/// The word that stands behind so many others, and the first one if the line has no such word.
pub(crate) fn word_behind(line: &[u8], count: usize) -> &[u8] {
    let mut left = count;
    for word in words(line) {
        if left == 0 {
            return word;
        }
        left -= 1;
    }
    first_word(line)
}

/// The last word of a line, and no bytes if it has no word.
pub(crate) fn last_word(line: &[u8]) -> &[u8] {
    let mut last: &[u8] = &[];
    for word in words(line) {
        last = word;
    }
    last
}

/// The bytes after the first of these, if there is one.
pub(crate) fn after_first(bytes: &[u8], sign: u8) -> Option<&[u8]> {
    let at = first_place(bytes, sign)?;
    Some(&bytes[at + 1..])
}

// The place of the first such byte.
fn first_place(bytes: &[u8], sign: u8) -> Option<usize>
    ensures { IfSome result (λ at. at < length bytes.now) }
{
    bytes.iter().position(|&byte| byte == sign)
}

/// What stands before the last `=` of a word, and behind it, if the word has one.
pub(crate) fn cut_at_equals(word: &[u8]) -> Option<(&[u8], &[u8])> {
    let at = last_equals(word)?;
    Some((&word[..at], &word[at + 1..]))
}

// The place of the last `=` of a word.
fn last_equals(word: &[u8]) -> Option<usize>
    ensures { IfSome result (λ at. at < length word.now) }
{
    word.iter().rposition(|&byte| byte == b'=')
}
