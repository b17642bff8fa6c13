//! The iterator over the lines of a text.

ghost use Rattle.std.specs.Prelude.{◌≡◌, ◌∷◌, ◌<◌, length};
ghost use Rattle.std.specs.Iterator.{YieldsFirstBy, item_count};
ghost use Rattle.std.specs.List.{enumerate_from};
ghost use Rattle.line_words.specs.Lines as spec;

use crate::pieces::line_end;
use std::marker::Model;

/// A line of a text, with its number.
#[derive(Clone, Copy, PartialEq, Eq)]
pub struct Line<'a> {
    /// The line's number; the first line of a text has number 1.
    pub number: u64,
    /// The line's bytes, without its LF, and without the CR before that or at the text's end.
    pub bytes: &'a [u8],
}

/// The lines of a text that are left, made by [`lines`](crate::lines).
///
/// Contracts see it as the list of those lines, each with its number.
#[derive(Drop)]
pub struct Lines<'a> {
    rest: &'a [u8],
    // The number of the first line of `rest`.
    number: u64,
}

impl<'a> Model for Lines<'a> {
    ghost use Rattle.std.specs.Prelude.{List, ℕ, ◌+◌, ◌<◌, ◌^◌, length};
    ghost use Rattle.std.specs.List.{enumerate_from};
    ghost use Rattle.line_words.specs.Lines.{lines_of};

    ghost Value = { List (ℕ × List ℕ) };

    ghost view = { λ lines. enumerate_from lines.number (lines_of lines.rest.now) };

    ghost invariant = { λ lines. lines.number + length lines.rest.now < 2 ^ 64 };
}

impl<'a> Lines<'a> {
    /// The lines of a text, numbered from 1.
    pub(crate) fn of_text(text: &'a [u8]) -> Lines<'a>
        ensures { result ≡ enumerate_from 1 (spec.lines_of text.now) }
    {
        Lines {
            rest: text,
            number: 1,
        }
    }

    /// The same lines, to be looked at ahead.
    pub fn ahead(&self) -> Lines<'a>
        ensures { result ≡ self.now }
    {
        Lines {
            rest: self.rest,
            number: self.number,
        }
    }
}

impl<'a> Iterator for Lines<'a> {
    type Item = Line<'a>;

    ghost next_gives = { YieldsFirstBy (λ line. (line.number, line.bytes.now)) (λ lines. lines) };

    ghost remaining = { item_count (λ lines. lines) };

    fn next(&mut self) -> Option<Line<'a>> {
        if self.rest.is_empty() {
            return None;
        }
        let (line, rest) = cut_line(self.rest);
        let number = self.number;
        self.rest = rest;
        self.number += 1;
        Some(Line {
            number,
            bytes: without_return(line),
        })
    }
}

// The bytes before the first LF, and those after it; all of them and none if there is no LF.
fn cut_line(text: &[u8]) -> (&[u8], &[u8])
    requires { 0 < length text.now }
    ensures cut { spec.lines_of text.now
        ≡ spec.without_return result.0.now ∷ spec.lines_of result.1.now }
    ensures shorter { length result.1.now < length text.now }
{
    match line_end(text) {
        Some(at) => (&text[..at], &text[at + 1..]),
        None => (text, &[]),
    }
}

/// The line without its last byte, if that is CR.
pub fn without_return(line: &[u8]) -> &[u8]
    ensures { result.now ≡ spec.without_return line.now }
{
    match line {
        [start @ .., b'\r'] => start,
        _ => line,
    }
}
