//! The iterator over the words of a line.

ghost use Rattle.std.specs.Prelude.{◌≡◌, ◌∷◌, ◌<◌, false, not, length, slice_get, IfSome, position};
ghost use Rattle.std.specs.Iterator.{YieldsFirstRef, item_count};
ghost use Rattle.line_words.specs.Bytes as spec;
ghost use Rattle.line_words.specs.Words.{words_of};

use crate::bytes::is_blank;
use std::marker::Model;

/// The words of a line that are left, made by [`words`](crate::words).
///
/// Contracts see it as the list of those words.
#[derive(Drop)]
pub struct Words<'a> {
    rest: &'a [u8],
}

impl<'a> Model for Words<'a> {
    ghost use Rattle.std.specs.Prelude.{List, ℕ};
    ghost use Rattle.line_words.specs.Words.{words_of};

    ghost Value = { List (List ℕ) };

    ghost view = { λ words. words_of words.rest.now };
}

impl<'a> Words<'a> {
    /// The words of a line.
    pub(crate) fn of_line(line: &'a [u8]) -> Words<'a>
        ensures { result ≡ words_of line.now }
    {
        Words { rest: line }
    }
}

impl<'a> Iterator for Words<'a> {
    type Item = &'a [u8];

    ghost next_gives = { YieldsFirstRef (λ words. words) };

    ghost remaining = { item_count (λ words. words) };

    fn next(&mut self) -> Option<&'a [u8]> {
        let line = skip_blanks(self.rest);
        self.rest = line;
        if line.is_empty() {
            return None;
        }
        let (word, rest) = cut_word(line);
        self.rest = rest;
        Some(word)
    }
}

// The line from its first byte that isn't a blank.
fn skip_blanks(line: &[u8]) -> &[u8]
    ensures same { words_of result.now ≡ words_of line.now }
    ensures first { IfSome (slice_get result.now 0) (λ byte. spec.is_blank byte ≡ false) }
{
    match first_solid(line) {
        Some(at) => &line[at..],
        None => &[],
    }
}

// The place of the first byte that isn't a blank.
fn first_solid(line: &[u8]) -> Option<usize>
    ensures { result ≡ position (λ byte. not (spec.is_blank byte)) line.now }
{
    line.iter().position(|&byte| !is_blank(byte))
}

// The bytes before the first blank, and those after it; all of them and none if there is none.
fn cut_word(line: &[u8]) -> (&[u8], &[u8])
    requires some { 0 < length line.now }
    requires solid { IfSome (slice_get line.now 0) (λ byte. spec.is_blank byte ≡ false) }
    ensures cut { words_of line.now ≡ result.0.now ∷ words_of result.1.now }
{
    match first_blank(line) {
        Some(at) => (&line[..at], &line[at + 1..]),
        None => (line, &[]),
    }
}

// The place of the first blank.
fn first_blank(line: &[u8]) -> Option<usize>
    ensures { result ≡ position spec.is_blank line.now }
{
    line.iter().position(|&byte| is_blank(byte))
}
