//! Ranges in words.
ghost use Rattle.std.specs.Prelude.{◌≡◌, ◌<◌, ◌≤◌, [], length, position, option_map, IfOk, IfSome};
ghost use Rattle.std.specs.List.{position_or_len};
ghost use Rattle.std.specs.Option.{option_and_then, option_copied};
ghost use Rattle.line_words.specs.Decimals.{decimal_of};
ghost use Rattle.node_words.specs.Ranges as spec;

use crate::MOST_NUMBER;
use itoa::Buffer;
use line_words::decimal;
use std::alloc::Global;
use std::marker::Model;
use ternary::NoMemory;

/// A range `{A:B}` in a word, with what stands before it and after it.
#[derive(Drop)]
pub struct Range<'a> {
    before: &'a [u8],
    first: u64,
    last: u64,
    after: &'a [u8],
}

impl<'a> Model for Range<'a> {
    ghost use Rattle.node_words.specs.Ranges.{RangeData, IsSmall};

    ghost Value = { RangeData };

    ghost view = { λ range. record { before = range.before.now; first = range.first; last = range.last; after = range.after.now } };

    ghost invariant = { λ range. IsSmall range.first range.last };
}

impl<'a> Range<'a> {
    // The range with these bytes before it, which had none.
    fn behind(self, before: &'a [u8]) -> Range<'a>
        requires { self.before ≡ [] }
        ensures { result ≡ spec.with_before before.now self.entry }
    {
        Range { before, ..self }
    }

    /// How many numbers the range has.
    pub fn len(&self) -> u64
        ensures { result ≡ spec.count_between self.now.first self.now.last }
    {
        self.first.abs_diff(self.last) + 1
    }

    /// The word with the number at this place of the range in the range's place.
    pub fn word(&self, alloc: Global, place: u64) -> Result<Vec<u8>, NoMemory>
        requires { place < spec.count_between self.now.first self.now.last }
        ensures { IfOk result (λ word. word.items ≡ spec.word_at self.now place) }
    {
        let number = number_at(self.first, self.last, place);
        let mut buffer = Buffer::new();
        let mut word = Vec::from_slice(alloc, self.before)?;
        word.extend_from_slice(buffer.format(number).as_bytes())?;
        word.extend_from_slice(self.after)?;
        Ok(word)
    }
}

// The number at this place of those from one to another.
fn number_at(first: u64, last: u64, place: u64) -> u64
    requires within { place < spec.count_between first last }
    requires small { last ≤ MOST_NUMBER }
    ensures { result ≡ spec.number_at first last place }
{
    if first <= last {
        first + place
    } else {
        first - place
    }
}

/// The first range that begins in a word.
pub fn first_range(word: &[u8]) -> Option<Range<'_>>
    ensures { result ≡ spec.first_range word.now }
{
    for at in 0..word.len() {
        match range_at(&word[at..]) {
            Some(range) => return Some(range.behind(&word[..at])),
            None => {}
        }
    }
    None
}

// The range with which a text begins.
fn range_at(text: &[u8]) -> Option<Range<'_>>
    ensures { result ≡ spec.range_at text.now }
{
    let inside = behind(b'{', text)?;
    let (first, inside) = number_before(b':', inside)?;
    let (last, after) = number_before(b'}', inside)?;
    Some(Range {
        before: &[],
        first,
        last,
        after,
    })
}

// The number with which a text begins, and what stands behind this byte, which has to stand behind
// the number.
fn number_before(stop: u8, text: &[u8]) -> Option<(u64, &[u8])>
    ensures value { option_map (λ found. (found.0, found.1.now)) result
        ≡ spec.number_before stop text.now }
    ensures small { IfSome result (λ found. found.0 ≤ MOST_NUMBER) }
{
    let end = digits(text);
    let number = number(&text[..end])?;
    let after = behind(stop, &text[end..])?;
    Some((number, after))
}

// The number that digits write, if a range may have it.
fn number(digits: &[u8]) -> Option<u64>
    ensures value { result ≡ option_and_then spec.within_range (decimal_of digits.now) }
    ensures small { IfSome result (λ number. number ≤ MOST_NUMBER) }
{
    decimal(digits).filter(|&number| number <= MOST_NUMBER)
}

// How many digits a text begins with.
fn digits(text: &[u8]) -> usize
    ensures value { result ≡ position_or_len spec.is_no_digit text.now }
    ensures within { result ≤ length text.now }
{
    match first_other(text) {
        Some(at) => at,
        None => text.len(),
    }
}

// The place of the first byte that is no digit.
fn first_other(text: &[u8]) -> Option<usize>
    ensures { result ≡ position spec.is_no_digit text.now }
{
    text.iter().position(|byte| !byte.is_ascii_digit())
}

// What stands behind the byte, where the text begins with it.
fn behind(own: u8, text: &[u8]) -> Option<&[u8]>
    ensures { option_copied result ≡ spec.behind own text.now }
{
    match text {
        [byte, rest @ ..] if *byte == own => Some(rest),
        _ => None,
    }
}
