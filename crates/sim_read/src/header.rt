//! The header: a comment on line 1, which may name a format, profile 2 and the thresholds of sizes.

ghost use Rattle.std.specs.Prelude.{◌≡◌, ◌≤◌, ◌==◌, length, map, position, codes, bytes_eq, IfOk, IfSome};
ghost use Rattle.std.specs.Char.{to_ascii_lowercase};
ghost use Rattle.std.specs.Option.{option_copied, option_map};
ghost use Rattle.line_words.specs.Bytes.{bar};
ghost use Rattle.netlist.specs.Names.{spells};
ghost use Rattle.sim_read.specs.Header as spec;

use crate::items::{Items, after_prefix, items_of};
use line_words::{Words, thousandths, words};
use std::alloc::{AllocError, Global};
use ternary::NoMemory;

/// The number of the line that is the header if it is a comment.
pub(crate) const HEADER_LINE: u64 = 1;

/// The most thresholds of sizes, one fewer than there are sizes.
pub(crate) const MOST_THRESHOLDS: usize = 7;

// The word before the format.
const KEY: &[u8] = b"format:";

// The word that says profile 2.
const SECOND: &[u8] = b"profile:2";

/// Whether a header names no format, or one that is known.
pub(crate) fn is_header(line: &[u8]) -> bool
    ensures { result ≡ spec.is_header line.now }
{
    match format_named(comment_words(line)) {
        Some(format) => is_known_format(format),
        None => true,
    }
}

// The words of a comment: those after its first `|`.
fn comment_words(line: &[u8]) -> Words<'_>
    ensures { result ≡ spec.comment_words line.now }
{
    match first_bar(line) {
        Some(at) => words(&line[at + 1..]),
        None => words(&[]),
    }
}

// The place of the first `|`.
fn first_bar(line: &[u8]) -> Option<usize>
    ensures { result ≡ position (λ byte. byte == bar) line.now }
{
    line.iter().position(|&byte| byte == b'|')
}

// The word after the first `format:` that has a word after it.
fn format_named(words: Words<'_>) -> Option<&[u8]>
    ensures { option_copied result ≡ spec.format_of words.entry }
{
    let mut is_next = false;
    for word in words {
        if is_next {
            return Some(word);
        }
        is_next = is_key(word);
    }
    None
}

// Whether the word is `format:`.
fn is_key(word: &[u8]) -> bool
    ensures { result ≡ bytes_eq word.now (codes "format:") }
{
    word == KEY
}

// Whether the word is MIT or SU, in any ASCII case.
fn is_known_format(word: &[u8]) -> bool
    ensures { result ≡ spec.is_known_format word.now }
{
    is_spelled(word, b"mit") || is_spelled(word, b"su")
}

// Whether the name is this word, given in small letters, in any ASCII case.
fn is_spelled(name: &[u8], word: &[u8]) -> bool
    requires { map to_ascii_lowercase word.now ≡ word.now }
    ensures { result ≡ spells name.now word.now }
{
    name.eq_ignore_ascii_case(word)
}

/// Whether a header says profile 2.
pub(crate) fn is_second(line: &[u8]) -> bool
    ensures { result ≡ spec.is_second (spec.comment_words line.now) }
{
    names_second(comment_words(line))
}

// Whether one of the words is `profile:2`.
fn names_second(words: Words<'_>) -> bool
    ensures { result ≡ spec.is_second words.entry }
{
    for word in words {
        if is_profile(word) {
            return true;
        }
    }
    false
}

// Whether the word is `profile:2`.
fn is_profile(word: &[u8]) -> bool
    ensures { result ≡ bytes_eq word.now (codes "profile:2") }
{
    word == SECOND
}

/// The thresholds of a header in profile 2, none if no word names any; `None` where what a word
/// names are none.
pub(crate) fn thresholds_of(alloc: Global, line: &[u8]) -> Result<Option<Vec<u64>>, NoMemory>
    ensures value { IfOk result (λ found.
        option_map (λ numbers. numbers.items) found ≡ spec.thresholds_of (spec.comment_words line.now)) }
    ensures few { IfOk result (λ found. IfSome found (λ numbers. length numbers.items ≤ MOST_THRESHOLDS)) }
{
    match caps_named(comment_words(line)) {
        Some(text) => thresholds_by(alloc, items_of(text)),
        None => Ok(Some(Vec::new(alloc))),
    }
}

// What the first word that begins with `caps:` says after that.
fn caps_named(words: Words<'_>) -> Option<&[u8]>
    ensures { option_copied result ≡ spec.caps_of words.entry }
{
    for word in words {
        if let Some(text) = after_prefix(b"caps:", word) {
            return Some(text);
        }
    }
    None
}

// The thresholds that items write, where they write some.
fn thresholds_by(alloc: Global, items: Items<'_>) -> Result<Option<Vec<u64>>, NoMemory>
    ensures value { IfOk result (λ found.
        option_map (λ numbers. numbers.items) found ≡ spec.thresholds_by items.entry) }
    ensures few { IfOk result (λ found. IfSome found (λ numbers. length numbers.items ≤ MOST_THRESHOLDS)) }
{
    let Some(numbers) = numbers_of(alloc, items)? else {
        return Ok(None);
    };
    if numbers.len() <= MOST_THRESHOLDS && is_rising(&numbers) {
        Ok(Some(numbers))
    } else {
        Ok(None)
    }
}

// The numbers that items write, in thousandths, where each writes one.
fn numbers_of(alloc: Global, items: Items<'_>) -> Result<Option<Vec<u64>>, AllocError>
    ensures { IfOk result (λ found.
        option_map (λ numbers. numbers.items) found ≡ spec.numbers_of items.entry) }
{
    let mut numbers = Vec::new(alloc);
    for item in items {
        match thousandths(item) {
            Some(number) => numbers.push(number)?,
            None => return Ok(None),
        }
    }
    Ok(Some(numbers))
}

// Whether each number is above the one before.
fn is_rising(numbers: &[u64]) -> bool
    ensures { result ≡ spec.is_rising numbers.now }
{
    let mut left = numbers;
    'numbers: while let [first, second, ..] = left {
        if first >= second {
            return false;
        }
        left = &left[1..];
    }
    true
}
