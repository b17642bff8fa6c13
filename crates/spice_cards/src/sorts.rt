//! What a line is to the cards, and what a card is by its first word.

ghost use Rattle.std.specs.Prelude.{◌≡◌, ◌==◌, not, length, position, take, drop, find, codes, bytes_eq};
ghost use Rattle.std.specs.List.{before_first, list_all};
ghost use Rattle.std.specs.Option.{option_copied};
ghost use Rattle.line_words.specs.Bytes.{is_blank, is_line_byte};
ghost use Rattle.spice_cards.specs.CardLines as spec;
ghost use Rattle.spice_cards.specs.CardSorts as sorts;

use crate::fault::DeckWhat;
use line_words::{LONGEST_LINE, decimal, words};
use switch_paths::SwitchKind;

/// What a line is to the cards, by its first byte that isn't a space or a tab.
#[derive(Clone, Copy)]
pub(crate) enum LineSort {
    /// It is blank, a comment, or begins with a word that ends its line.
    Passed,
    /// It goes on with the last card.
    More,
    /// It begins a card.
    Begins,
}

/// What a card is, by its first word.
#[derive(Clone, Copy)]
pub(crate) enum CardSort {
    /// A transistor: the name begins with `m`.
    Transistor,
    /// A call of a subcircuit: the name begins with `x`.
    Call,
    /// `.subckt`: a subcircuit begins.
    Opening,
    /// `.ends`: a subcircuit ends.
    Closing,
    /// `.model`: the kind of a model.
    Model,
    /// `.global`: names that are global.
    Globals,
    /// A card that is passed.
    Passed,
    /// No card that is read or passed.
    Bad,
}

/// The strength that a transistor's card sets.
#[derive(Clone, Copy, PartialEq, Eq)]
pub enum Strength {
    /// None: that of its kind.
    Usual,
    /// This one, which some profile accepts.
    Is(u8),
    /// One that is no decimal from 1 to 4.
    Bad,
}

/// What a part of a circuit is.
#[derive(Clone, Copy, PartialEq, Eq)]
pub enum PartSort {
    /// A transistor, of this strength.
    Transistor(Strength),
    /// A call of a subcircuit.
    Call,
    /// The beginning of a subcircuit.
    Opening,
}

/// What a line is to the cards.
#[tactic(auto, unfolding(crate::specs::CardLines::line_sort))]
pub(crate) fn line_sort(line: &[u8]) -> LineSort
    ensures { result ≡ spec.line_sort line.now }
{
    match first_solid(line) {
        None | Some(b'*' | b'$' | b';') => LineSort::Passed,
        Some(b'+') => LineSort::More,
        Some(_) => LineSort::Begins,
    }
}

// The first byte that isn't a blank.
fn first_solid(line: &[u8]) -> Option<u8>
    ensures { result ≡ spec.first_solid line.now }
{
    line.iter()
        .copied()
        .find(|&byte| byte != b' ' && byte != b'\t')
}

// Whether the line is a comment: its first byte that isn't a blank is `*`.
fn is_comment(line: &[u8]) -> bool
    ensures { result ≡ spec.is_comment line.now }
{
    first_solid(line).is_some_and(|byte| byte == b'*')
}

/// What is wrong with a line as such. That it is too long wins over a bad byte.
pub(crate) fn line_fault(line: &[u8]) -> Option<DeckWhat>
    ensures { result ≡ spec.line_fault line.now }
{
    if line.len() > LONGEST_LINE {
        Some(DeckWhat::LineTooLong)
    } else if is_comment(line) || is_clean(line) {
        None
    } else {
        Some(DeckWhat::BadByte)
    }
}

// Whether each byte may stand in a line: a blank, or a visible ASCII character.
fn is_clean(line: &[u8]) -> bool
    ensures { result ≡ list_all is_line_byte line.now }
{
    line.iter().all(|&byte| byte == b' ' || byte == b'\t' || (0x21 <= byte && byte <= 0x7e))
}

/// The bytes after a line's first one that isn't a blank.
pub(crate) fn after_sign(line: &[u8]) -> &[u8]
    ensures { result.now ≡ spec.after_sign line.now }
{
    match first_solid_place(line) {
        Some(at) => &line[at + 1..],
        None => &[],
    }
}

// The place of the first byte that isn't a blank.
fn first_solid_place(line: &[u8]) -> Option<usize>
    ensures { result ≡ position (λ byte. not (is_blank byte)) line.now }
{
    line.iter().position(|&byte| byte != b' ' && byte != b'\t')
}

/// The first word of a line, if it has one, else no bytes.
pub(crate) fn first_word(line: &[u8]) -> &[u8]
    ensures { result.now ≡ spec.first_word line.now }
{
    match words(line).next() {
        Some(word) => word,
        None => &[],
    }
}

/// Whether the line begins the card that this word names.
pub(crate) fn begins(word: &[u8], line: &[u8]) -> bool
    ensures { result ≡ spec.begins word.now line.now }
{
    match line_sort(line) {
        LineSort::Begins => first_word(line) == word,
        LineSort::Passed | LineSort::More => false,
    }
}

/// Whether the line ends the deck.
pub(crate) fn is_end(line: &[u8]) -> bool
    ensures { result ≡ spec.is_end line.now }
{
    begins(b".end", line)
}

/// Whether the word ends its line: it begins with `$` or `;`.
pub(crate) fn ends_line(word: &[u8]) -> bool
    ensures { result ≡ spec.ends_line word.now }
{
    matches!(word, [b'$' | b';', ..])
}

/// What a card is, by its first word.
pub(crate) fn card_sort(word: &[u8]) -> CardSort
    ensures { result ≡ sorts.card_sort word.now }
{
    match word {
        [] => CardSort::Bad,
        [b'.', ..] => control_sort(word),
        [letter, ..] => element_sort(*letter),
    }
}

// A card whose first word begins with `.`.
fn control_sort(word: &[u8]) -> CardSort
    ensures { result ≡ sorts.control_sort word.now }
{
    if is_word(word, b".subckt") {
        CardSort::Opening
    } else if is_word(word, b".ends") {
        CardSort::Closing
    } else if is_word(word, b".model") {
        CardSort::Model
    } else if is_word(word, b".global") {
        CardSort::Globals
    } else if is_word(word, b".include") || is_word(word, b".inc") || is_word(word, b".lib") {
        CardSort::Bad
    } else {
        CardSort::Passed
    }
}

// Whether both words are the same.
fn is_word(word: &[u8], named: &[u8]) -> bool
    ensures { result ≡ bytes_eq word.now named.now }
{
    word == named
}

// A card whose first word begins with this letter.
fn element_sort(letter: u8) -> CardSort
    ensures { result ≡ sorts.element_sort letter }
{
    match letter {
        b'm' => CardSort::Transistor,
        b'x' => CardSort::Call,
        b'c' | b'r' | b'l' | b'v' | b'i' | b'd' => CardSort::Passed,
        _ => CardSort::Bad,
    }
}

/// Whether the word has `=`: it sets a parameter.
pub(crate) fn is_setting(word: &[u8]) -> bool
    ensures { result ≡ sorts.is_setting word.now }
{
    word.iter().any(|&byte| byte == b'=')
}

/// Whether the word is `params:`, behind which parameters stand.
pub(crate) fn is_params(word: &[u8]) -> bool
    ensures { result ≡ sorts.is_params word.now }
{
    is_word(word, b"params:")
}

/// The strength of a transistor, after a word of its card.
pub(crate) fn strength_set(before: Strength, word: &[u8]) -> Strength
    ensures { result ≡ sorts.strength_set before (sorts.after_prefix (codes "strength=") word.now) }
{
    match (before, after_prefix(b"strength=", word)) {
        (_, None) => before,
        (Strength::Bad, Some(_)) => Strength::Bad,
        (Strength::Usual | Strength::Is(_), Some(text)) => strength_numbered(decimal(text)),
    }
}

// The strength that this number is.
fn strength_numbered(number: Option<u64>) -> Strength
    ensures { result ≡ sorts.strength_numbered number }
{
    match number {
        Some(k) if 1 <= k && k <= 4 => Strength::Is(k as u8),
        _ => Strength::Bad,
    }
}

// What stands after these bytes, where the word begins with them.
fn after_prefix<'a>(prefix: &[u8], word: &'a [u8]) -> Option<&'a [u8]>
    ensures { option_copied result ≡ sorts.after_prefix prefix.now word.now }
{
    word.strip_prefix(prefix)
}

/// The kind that a `.model` card gives, by its type.
pub(crate) fn kind_of_type(word: &[u8]) -> Option<SwitchKind>
    ensures { result ≡ sorts.kind_of_type word.now }
{
    let name = before_parenthesis(word);
    if is_word(name, b"nmos") {
        Some(SwitchKind::NChan)
    } else if is_word(name, b"pmos") {
        Some(SwitchKind::PChan)
    } else {
        None
    }
}

// The word up to its first `(`.
fn before_parenthesis(word: &[u8]) -> &[u8]
    ensures { result.now ≡ before_first (λ byte. byte == 40) word.now }
{
    match first_parenthesis(word) {
        Some(at) => &word[..at],
        None => word,
    }
}

// The place of the first `(`.
fn first_parenthesis(word: &[u8]) -> Option<usize>
    ensures { result ≡ position (λ byte. byte == 40) word.now }
{
    word.iter().position(|&byte| byte == b'(')
}
