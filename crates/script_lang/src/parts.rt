//! The parts of a script's words: assignments, letters of clocks, numbers.
ghost use Rattle.std.specs.Prelude.{◌≡◌, IfOk, MatchOption, option_map};
ghost use Rattle.script_lang.specs.Parts.{assignment_of, beats_of, kind_of, parts_of, states_of, ranged_of, HasNoEquals, IsLastEquals};

use crate::MOST_TIMES;
use crate::lists::{Name, StateList};
use crate::value::{self, Value};
use line_words::decimal;
use std::alloc::Global;
use switch_paths::SwitchKind;
use ternary::{NoMemory, Tern};

/// The name and the value of a word `name=value`, or None if the word is no assignment.
pub(crate) fn assignment(
    alloc: Global,
    word: &[u8],
    dashes: bool,
) -> Result<Option<(Name, Value)>, NoMemory>
    ensures { IfOk result (λ found. found ≡ assignment_of dashes word.now) }
{
    let Some((name, text)) = cut_at_last_equals(word) else {
        return Ok(None);
    };
    let Some(value) = value::read(alloc, text, dashes)? else {
        return Ok(None);
    };
    Ok(Some((Name::from_slice(alloc, name)?, value)))
}

/// The name and the states of a word `name=vvv..`, cut at its last `=`, or None if the word is no such
/// one: if a part is empty, or a byte after the `=` is no letter of a state.
pub fn beats(alloc: Global, word: &[u8]) -> Result<Option<(Name, StateList)>, NoMemory>
    ensures { IfOk result (λ found. found ≡ beats_of word.now) }
{
    let Some((name, letters)) = cut_at_last_equals(word) else {
        return Ok(None);
    };
    let Some(states) = states(alloc, letters)? else {
        return Ok(None);
    };
    Ok(Some((Name::from_slice(alloc, name)?, states)))
}

/// The number of a word, from the least one to the most that there may be, or None if it is no such one.
pub(crate) fn number_from(word: &[u8], least: u64) -> Option<u64>
    ensures { result ≡ ranged_of least word.now }
{
    decimal(word).filter(|&number| least <= number && number <= MOST_TIMES)
}

/// The kind of a transistor that a word names.
pub(crate) fn kind_named(word: &[u8]) -> Option<SwitchKind>
    ensures { result ≡ kind_of word.now }
{
    match word {
        b"n" | b"e" => Some(SwitchKind::NChan),
        b"p" => Some(SwitchKind::PChan),
        b"d" => Some(SwitchKind::Always),
        _ => None,
    }
}

// The states of letters, or None if a byte is no letter of a state.
fn states(alloc: Global, letters: &[u8]) -> Result<Option<StateList>, NoMemory>
    ensures { IfOk result (λ states. states ≡ states_of letters.now) }
{
    let mut states = StateList::new(alloc);
    for &letter in letters {
        match Tern::from_letter(letter) {
            Some(state) => states.push(state)?,
            None => return Ok(None),
        }
    }
    Ok(Some(states))
}

/// The name of a word and the letters behind its last `=`, if both have a byte.
pub fn cut_at_last_equals(word: &[u8]) -> Option<(&[u8], &[u8])>
    ensures { option_map (λ parts. (parts.0.now, parts.1.now)) result ≡ parts_of word.now }
{
    let at = last_equals(word)?;
    let (name, letters) = (&word[..at], &word[at + 1..]);
    if name.is_empty() || letters.is_empty() {
        None
    } else {
        Some((name, letters))
    }
}

// The place of the last `=` of a word.
fn last_equals(word: &[u8]) -> Option<usize>
    ensures { MatchOption result (HasNoEquals word.now) (IsLastEquals word.now) }
{
    word.iter().rposition(|&byte| byte == b'=')
}
