//! Values as they are written.
ghost use Rattle.std.specs.Prelude.{◌≡◌, [], ◌∷◌, ◌++◌, ◌<◌, ◌≤◌, IfOk, OnOk, option_map};
ghost use Rattle.std.specs.Option.{option_copied};
ghost use Rattle.vector_values.specs.Values as spec;

use crate::values::{Letter, VectorValue};
use line_words::decimal;
use std::alloc::{AllocError, Global};
use ternary::{NoMemory, Tern};

/// The value that a text writes, or None exactly if it writes none.
///
/// It is letters, one at least, of states and, where dashes may stand, `-`; or `%h` and hexadecimal
/// digits, one at least, in any case; or `%d` and a decimal up to `u64::MAX`.
pub fn read_value(alloc: Global, text: &[u8], dashes: bool) -> Result<Option<VectorValue>, NoMemory>
    ensures { IfOk result (λ value. value ≡ spec.value_of dashes text.now) }
{
    if let Some(digits) = after_prefix(b"%h", text) {
        return read_hex(alloc, digits);
    }
    if let Some(digits) = after_prefix(b"%d", text) {
        return read_decimal(alloc, digits);
    }
    read_letters(alloc, text, dashes)
}

// What stands behind these bytes, where the text begins with them.
fn after_prefix<'a>(prefix: &[u8], text: &'a [u8]) -> Option<&'a [u8]>
    ensures { option_copied result ≡ spec.after_prefix prefix.now text.now }
{
    text.strip_prefix(prefix)
}

// The value of letters, one at least.
fn read_letters(alloc: Global, text: &[u8], dashes: bool) -> Result<Option<VectorValue>, NoMemory>
    ensures { IfOk result (λ value. value ≡ spec.of_letters dashes text.now) }
{
    if text.is_empty() {
        return Ok(None);
    }
    match letters_of(alloc, text, dashes)? {
        Some(letters) => Ok(Some(VectorValue::of_letters(letters))),
        None => Ok(None),
    }
}

// The letters of bytes, or None if one stands for none.
fn letters_of(alloc: Global, text: &[u8], dashes: bool) -> Result<Option<Vec<Letter>>, NoMemory>
    ensures { IfOk result (λ letters. option_map (λ list. list.items) letters ≡ spec.letters_of dashes text.now) }
{
    let mut letters = Vec::new(alloc);
    for &byte in text {
        match letter_of(byte, dashes) {
            Some(letter) => push(&mut letters, letter)?,
            None => return Ok(None),
        }
    }
    Ok(Some(letters))
}

/// The letter that a byte stands for: that of a state, or `-` if it may stand.
pub fn letter_of(byte: u8, dashes: bool) -> Option<Letter>
    ensures { result ≡ spec.letter_of dashes byte }
{
    if dashes && byte == b'-' {
        return Some(None);
    }
    match Tern::from_letter(byte) {
        Some(state) => Some(Some(state)),
        None => None,
    }
}

// The value of hexadecimal digits, one at least.
fn read_hex(alloc: Global, digits: &[u8]) -> Result<Option<VectorValue>, NoMemory>
    ensures { IfOk result (λ value. value ≡ spec.of_hex digits.now) }
{
    if digits.is_empty() {
        return Ok(None);
    }
    match hex_bits(alloc, digits)? {
        Some(bits) => Ok(Some(VectorValue::of_bits(bits))),
        None => Ok(None),
    }
}

// The bits of hexadecimal digits, or None if a byte is no such digit.
fn hex_bits(alloc: Global, digits: &[u8]) -> Result<Option<Vec<Letter>>, NoMemory>
    ensures { IfOk result (λ bits. option_map (λ list. list.items) bits ≡ spec.hex_bits digits.now) }
{
    let mut bits = Vec::new(alloc);
    for &byte in digits {
        match hex_digit(byte) {
            Some(digit) => push_bits(&mut bits, 4, digit)?,
            None => return Ok(None),
        }
    }
    Ok(Some(bits))
}

// The number of a hexadecimal digit.
fn hex_digit(byte: u8) -> Option<u64>
    ensures { result ≡ spec.hex_digit byte }
{
    if b'0' <= byte && byte <= b'9' {
        Some(u64::from(byte - b'0'))
    } else if b'a' <= byte && byte <= b'f' {
        Some(u64::from(byte - 87))
    } else if b'A' <= byte && byte <= b'F' {
        Some(u64::from(byte - 55))
    } else {
        None
    }
}

// The value of a decimal.
fn read_decimal(alloc: Global, digits: &[u8]) -> Result<Option<VectorValue>, NoMemory>
    ensures { IfOk result (λ value. value ≡ spec.of_decimal digits.now) }
{
    let Some(number) = decimal(digits) else {
        return Ok(None);
    };
    let bits = bits_of(alloc, number)?;
    Ok(Some(VectorValue::of_bits(bits)))
}

// The bits of a number.
fn bits_of(alloc: Global, number: u64) -> Result<Vec<Letter>, NoMemory>
    ensures { IfOk result (λ bits. bits.items ≡ spec.bits_of 64 number) }
{
    let mut bits = Vec::new(alloc);
    push_bits(&mut bits, 64, number)?;
    Ok(bits)
}

// Puts the last so many bits of a number behind the others, the highest first.
fn push_bits(bits: &mut Vec<Letter>, count: u32, number: u64) -> Result<(), NoMemory>
    requires { count ≤ 64 }
    ensures { OnOk result (bits.new.items ≡ bits.old.items ++ spec.bits_of count number) }
{
    let mut left = count;
    while left > 0 {
        left -= 1;
        push(bits, bit_of(number, left))?;
    }
    Ok(())
}

// Puts a letter behind the others.
fn push(letters: &mut Vec<Letter>, letter: Letter) -> Result<(), NoMemory>
    ensures { OnOk result (letters.new.items ≡ letters.old.items ++ letter ∷ []) }
{
    letters.push(letter).map_err(AllocError::from)?;
    Ok(())
}

// The bit of a number that stands for 2 to this power.
fn bit_of(number: u64, power: u32) -> Letter
    requires { power < 64 }
    ensures { result ≡ spec.bit_of number power }
{
    if (number >> power) % 2 == 1 {
        Some(Tern::One)
    } else {
        Some(Tern::Zero)
    }
}
