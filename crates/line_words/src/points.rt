//! Numbers with a decimal point, in thousandths.

ghost use Rattle.std.specs.Prelude.{◌≡◌, ◌↔◌, ◌≤◌, ◌-◌, [], ℕ, min, position, IfSome, Some};
ghost use Rattle.line_words.specs.Decimals.{value_of};
ghost use Rattle.line_words.specs.Points as spec;

use crate::decimals::all_digits;

/// The most thousandths that a word is read as: larger numbers are taken as a thousand million.
pub const MOST_THOUSANDTHS: u64 = 1_000_000_000_000;

/// A thousand times the number that a word writes with at most one point, as `60.25` writes 60,250.
///
/// `None` exactly if the word isn't digits with at most one `.` among them, before or behind
/// them, or has no digit. Digits past the third decimal are dropped, and a value past
/// [`MOST_THOUSANDTHS`] is taken as that.
pub fn thousandths(word: &[u8]) -> Option<u64>
    ensures value { result ≡ spec.thousandths_of word.now }
    ensures grammar { (n : ℕ) → (result ≡ Some n) ↔ spec.WritesUpTo word.now n }
    ensures most { IfSome result (λ n. n ≤ MOST_THOUSANDTHS) }
{
    match first_point(word) {
        Some(at) => thousandths_by(&word[..at], &word[at + 1..]),
        None => thousandths_by(word, &[]),
    }
}

// The place of the first point.
fn first_point(word: &[u8]) -> Option<usize>
    ensures { result ≡ position spec.is_point word.now }
{
    word.iter().position(|&byte| byte == b'.')
}

// The thousandths of the number with these digits before and after its point.
fn thousandths_by(whole: &[u8], decimals: &[u8]) -> Option<u64>
    ensures value { result ≡ spec.thousandths_by whole.now decimals.now }
    ensures most { IfSome result (λ n. n ≤ MOST_THOUSANDTHS) }
{
    if !are_number(whole, decimals) {
        return None;
    }
    let value = capped_value(whole) * 1000 + first_decimals(decimals);
    Some(value.min(MOST_THOUSANDTHS))
}

// Whether there are digits alone, and one at least.
fn are_number(whole: &[u8], decimals: &[u8]) -> bool
    ensures { result ≡ spec.are_number whole.now decimals.now }
{
    if whole.is_empty() && decimals.is_empty() {
        return false;
    }
    all_digits(whole) && all_digits(decimals)
}

// The number that digits write, up to the most thousandths.
fn capped_value(digits: &[u8]) -> u64
    ensures { result ≡ min (value_of digits.now) MOST_THOUSANDTHS }
{
    let mut value = 0;
    for digit in digits {
        value = (value * 10 + number_of(*digit)).min(MOST_THOUSANDTHS);
    }
    value
}

// The thousandths that the first three decimals write.
fn first_decimals(decimals: &[u8]) -> u64
    ensures value { result ≡ spec.thousandths_in [] decimals.now }
    ensures small { result ≤ 30000 }
{
    digit_at(decimals, 0) * 100 + digit_at(decimals, 1) * 10 + digit_at(decimals, 2)
}

// The decimal at this place, 0 if there is none.
fn digit_at(decimals: &[u8], place: usize) -> u64
    ensures value { result ≡ spec.digit_at decimals.now place }
    ensures small { result ≤ 207 }
{
    match decimals.get(place) {
        Some(digit) => number_of(*digit),
        None => 0,
    }
}

// The number of an ASCII digit.
fn number_of(digit: u8) -> u64
    ensures value { result ≡ digit - 48 }
    ensures small { result ≤ 207 }
{
    u64::from(digit.saturating_sub(b'0'))
}
