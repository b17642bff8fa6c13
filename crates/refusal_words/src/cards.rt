//! The cards of a deck, and the words of refused ones.

use crate::line_parts::{after_first, first_word, word_behind};
use line_words::{Line, decimal, lines, words};
use spice_cards::DeckWhat;
use std::alloc::{AllocError, Global};

// Behind how many words of a transistor's card its model stands.
const BEFORE_MODEL: usize = 5;

/// The word that the refusal of this card is about.
pub fn card_word(what: DeckWhat, card: &[u8]) -> &[u8] {
    match what {
        DeckWhat::Redefined => word_behind(card, 1),
        DeckWhat::NoSubckt | DeckWhat::PortCount | DeckWhat::Recursion | DeckWhat::TooDeep => {
            called_by(card)
        }
        DeckWhat::BadModel => word_behind(card, BEFORE_MODEL),
        DeckWhat::BadStrength => strength_of(card),
        _ => first_word(card),
    }
}

// The subcircuit that a card calls: the last word before the first one behind its name that sets a parameter, or is
// `params:`.
fn called_by(card: &[u8]) -> &[u8] {
    let mut called: &[u8] = &[];
    for word in words(card) {
        if !called.is_empty() && ends_names(word) {
            return called;
        }
        called = word;
    }
    called
}

// Whether the names on a card end at this word.
fn ends_names(word: &[u8]) -> bool {
    matches!(word, b"params:") || word.iter().any(|&byte| byte == b'=')
}

// The first strength that a card sets and that is none.
fn strength_of(card: &[u8]) -> &[u8] {
    for word in words(card) {
        if let Some(text) = word.strip_prefix(b"strength=")
            && !is_strength(text)
        {
            return text;
        }
    }
    first_word(card)
}

// Whether the text is a strength of a card: a decimal from 1 to 4.
fn is_strength(text: &[u8]) -> bool {
    match decimal(text) {
        Some(number) => 1 <= number && number <= 4,
        None => false,
    }
}

/// The card that begins on the line with this number, in small letters, its words separated by blanks.
pub fn card_at(alloc: Global, text: &[u8], number: u64) -> Result<Vec<u8>, AllocError> {
    let mut card = Vec::new(alloc);
    for line in lines(text) {
        match part_of(line, number) {
            CardPart::Words(words) => append_words(&mut card, words)?,
            CardPart::Passed => {}
            CardPart::Behind => return Ok(card),
        }
    }
    Ok(card)
}

// What a line is to a card.
#[derive(Clone, Copy)]
enum CardPart<'a> {
    // A line that has words of it.
    Words(&'a [u8]),
    // A line before it, or a comment or a blank line in it.
    Passed,
    // A line that begins the next one.
    Behind,
}

// What a line is to the card that begins on the line with this number.
fn part_of(line: Line<'_>, number: u64) -> CardPart<'_> {
    if line.number < number {
        return CardPart::Passed;
    }
    if line.number == number {
        return CardPart::Words(line.bytes);
    }
    match first_word(line.bytes) {
        [b'+', ..] => match after_first(line.bytes, b'+') {
            Some(more) => CardPart::Words(more),
            None => CardPart::Passed,
        },
        [] | [b'*' | b'$' | b';', ..] => CardPart::Passed,
        _ => CardPart::Behind,
    }
}

// Appends the words of a line, up to the one that ends it.
fn append_words(card: &mut Vec<u8>, line: &[u8]) -> Result<(), AllocError> {
    for word in words(line) {
        if matches!(word, [b'$' | b';', ..]) {
            return Ok(());
        }
        append_word(card, word)?;
    }
    Ok(())
}

// Appends a word in small letters, and a blank.
fn append_word(card: &mut Vec<u8>, word: &[u8]) -> Result<(), AllocError> {
    for byte in word {
        card.push(byte.to_ascii_lowercase())
            .map_err(AllocError::from)?;
    }
    card.extend_from_slice(b" ")
}
