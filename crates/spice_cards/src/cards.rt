//! The readers of a line of a deck, and of each sort of card.

ghost use Rattle.std.specs.Prelude.{◌≡◌, ◌≤◌, ◌∷◌, true, false, List, ℕ, length, take, IfErr, OnOk, Ok, Err, Some, None};
ghost use Rattle.std.specs.List.{before_first};
ghost use Rattle.line_words.specs.Files as files;
ghost use Rattle.spice_cards.specs.CardLines as lines;
ghost use Rattle.spice_cards.specs.CardLines.{card_words, first_word, line_fault, line_sort};
ghost use Rattle.spice_cards.specs.CardSorts as sorts;
ghost use Rattle.spice_cards.specs.Reading as spec;
ghost use Rattle.ternary.specs.Unmade.{IsFault};

use crate::fault::{CardStop, DeckWhat};
use crate::reading::Reading;
use crate::sorts::{
    CardSort, LineSort, PartSort, Strength, begins, card_sort, first_word, is_end, is_params,
    is_setting, kind_of_type, line_fault, line_sort, strength_set,
};
use crate::words::Words;
use line_words::{Line, Lines};
use ternary::Unmade;

/// How many words of a transistor's card count: its name, drain, gate, source, bulk and model.
pub const TRANSISTOR_WORDS: usize = 6;

/// Reads one line; it sees the lines after it.
///
/// The first of these causes wins: the line holds the first byte too many of the text; it is too
/// long; it has a bad byte; it begins no card; its card has too few words; subcircuits don't begin
/// and end in turn; a subcircuit is defined already.
#[tactic(auto, unfolding(crate::specs::Reading::line_meaning))]
pub(crate) fn read_line(
    reading: &mut Reading,
    cut: Option<u64>,
    line: Line<'_>,
    later: &Lines<'_>,
) -> Result<(), CardStop>
    ensures ok { OnOk result
        (spec.line_meaning cut reading.old.so_far (line.entry.number, line.entry.bytes.now) later.now ≡ Ok reading.new.so_far) }
    ensures refused { IfErr result
        (IsFault (spec.line_meaning cut reading.old.so_far (line.entry.number, line.entry.bytes.now) later.now)) }
{
    if is_cut(cut, line.number) {
        return refuse(DeckWhat::TooLong);
    }
    match line_fault(line.bytes) {
        Some(what) => refuse(what),
        None => read_sorted(reading, line, later),
    }
}

/// Whether the line with this number holds the first byte too many of the text.
pub(crate) fn is_cut(cut: Option<u64>, number: u64) -> bool
    ensures { result ≡ files.is_cut cut number }
{
    cut.is_some_and(|line| line == number)
}

// Refuses a card for this cause.
fn refuse(what: DeckWhat) -> Result<(), CardStop>
    ensures { result ≡ Err (Unmade.Refused what) }
{
    Err(Unmade::Refused(what))
}

// Reads a line that has no fault as a line.
fn read_sorted(reading: &mut Reading, line: Line<'_>, later: &Lines<'_>) -> Result<(), CardStop>
    ensures ok { OnOk result
        (spec.sorted_meaning reading.old.so_far (line.entry.number, line.entry.bytes.now) (line_sort line.entry.bytes.now) later.now ≡ Ok reading.new.so_far) }
    ensures refused { IfErr result
        (IsFault (spec.sorted_meaning reading.old.so_far (line.entry.number, line.entry.bytes.now) (line_sort line.entry.bytes.now) later.now)) }
{
    match line_sort(line.bytes) {
        LineSort::Passed => Ok(()),
        LineSort::More => {
            if reading.has_card() {
                Ok(())
            } else {
                refuse(DeckWhat::BadCard)
            }
        }
        LineSort::Begins => {
            reading.note_card();
            read_card(reading, line, later)
        }
    }
}

// Reads the card that a line begins.
fn read_card(reading: &mut Reading, line: Line<'_>, later: &Lines<'_>) -> Result<(), CardStop>
    ensures ok { OnOk result (spec.card_meaning reading.old.so_far line.entry.number (sorts.card_sort (first_word line.entry.bytes.now))
        (card_words line.entry.bytes.now later.now) (lines.is_ended later.now) ≡ Ok reading.new.so_far) }
    ensures refused { IfErr result (IsFault (spec.card_meaning reading.old.so_far line.entry.number (sorts.card_sort (first_word line.entry.bytes.now))
        (card_words line.entry.bytes.now later.now) (lines.is_ended later.now))) }
{
    match card_sort(first_word(line.bytes)) {
        CardSort::Transistor => {
            reading.collect(line.bytes, later.ahead())?;
            read_transistor(reading, line.number)
        }
        CardSort::Call => {
            reading.collect(line.bytes, later.ahead())?;
            read_call(reading, line.number)
        }
        CardSort::Opening => {
            reading.collect_plain(line.bytes, later.ahead())?;
            read_opening(reading, line.number, later)
        }
        CardSort::Closing => reading.end(),
        CardSort::Model => {
            reading.collect(line.bytes, later.ahead())?;
            read_model(reading)
        }
        CardSort::Globals => {
            reading.collect(line.bytes, later.ahead())?;
            Ok(reading.put_globals()?)
        }
        CardSort::Passed => Ok(()),
        CardSort::Bad => refuse(DeckWhat::BadCard),
    }
}

// Reads a transistor, by the words of its card.
fn read_transistor(reading: &mut Reading, number: u64) -> Result<(), CardStop>
    ensures ok { OnOk result
        (spec.transistor_meaning reading.old.so_far number reading.old.pending ≡ Ok reading.new.so_far) }
    ensures refused { IfErr result
        (IsFault (spec.transistor_meaning reading.old.so_far number reading.old.pending)) }
{
    if reading.words().len() < TRANSISTOR_WORDS {
        return refuse(DeckWhat::FewWords);
    }
    let strength = strength_of(reading.words().behind(1));
    reading.keep(number, PartSort::Transistor(strength), TRANSISTOR_WORDS)?;
    Ok(())
}

// The strength that a transistor's card sets, by its words after its name.
fn strength_of(words: Words<'_>) -> Strength
    ensures { result ≡ sorts.strength_of words.entry }
{
    let mut strength = Strength::Usual;
    for word in words {
        strength = strength_set(strength, word);
    }
    strength
}

// Reads a call, by the words of its card.
fn read_call(reading: &mut Reading, number: u64) -> Result<(), CardStop>
    ensures ok { OnOk result
        (spec.call_meaning reading.old.so_far number (sorts.call_words reading.old.pending) ≡ Ok reading.new.so_far) }
    ensures refused { IfErr result
        (IsFault (spec.call_meaning reading.old.so_far number (sorts.call_words reading.old.pending))) }
{
    let count = call_count(reading.words());
    if count < 2 {
        return refuse(DeckWhat::FewWords);
    }
    reading.keep(number, PartSort::Call, count)?;
    Ok(())
}

// How many words of a call count.
fn call_count(mut words: Words<'_>) -> usize
    ensures words { take result words.entry ≡ sorts.call_words words.entry }
    ensures count { length (sorts.call_words words.entry) ≡ result }
    ensures within { result ≤ length words.entry }
{
    match words.next() {
        Some(_) => 1 + count_before(words, true),
        None => 0,
    }
}

// How many words stand before the one at which the names on a card end.
fn count_before(words: Words<'_>, settings: bool) -> usize
    ensures words { take result words.entry ≡ before_first (sorts.ends_names settings) words.entry }
    ensures count { length (before_first (sorts.ends_names settings) words.entry) ≡ result }
    ensures within { result ≤ length words.entry }
{
    for place in 0..words.len() {
        if ends_names(settings, words.at(place)) {
            return place;
        }
    }
    words.len()
}

// Whether the names on a card end at this word.
fn ends_names(settings: bool, word: &[u8]) -> bool
    ensures { result ≡ sorts.ends_names settings word.now }
{
    (settings && is_setting(word)) || is_params(word)
}

// Reads a subcircuit that begins, by the words of its card that set no parameter.
fn read_opening(reading: &mut Reading, number: u64, later: &Lines<'_>) -> Result<(), CardStop>
    ensures ok { OnOk result (spec.opening_meaning reading.old.so_far number
        (before_first sorts.is_params reading.old.pending) (lines.is_ended later.now) ≡ Ok reading.new.so_far) }
    ensures refused { IfErr result (IsFault (spec.opening_meaning reading.old.so_far number
        (before_first sorts.is_params reading.old.pending) (lines.is_ended later.now))) }
{
    let count = count_before(reading.words(), false);
    if count < 2 {
        return refuse(DeckWhat::FewWords);
    }
    if reading.is_inside() || !is_ended(later.ahead()) {
        return refuse(DeckWhat::BadNesting);
    }
    if reading.has_subcircuit(reading.words().front(count).at(1)) {
        return refuse(DeckWhat::Redefined);
    }
    reading.begin(number, count)?;
    Ok(())
}

// Whether a subcircuit that begins before these lines is ended.
fn is_ended(later: Lines<'_>) -> bool
    ensures { result ≡ lines.is_ended later.entry }
{
    for line in later {
        if begins(b".ends", line.bytes) {
            return true;
        }
        if is_end(line.bytes) {
            return false;
        }
    }
    false
}

// Reads a `.model` card, by its words.
fn read_model(reading: &mut Reading) -> Result<(), CardStop>
    ensures ok { OnOk result
        (spec.model_meaning reading.old.so_far reading.old.pending ≡ Ok reading.new.so_far) }
    ensures refused { IfErr result (IsFault (spec.model_meaning reading.old.so_far reading.old.pending)) }
{
    if reading.words().len() < 3 {
        return refuse(DeckWhat::FewWords);
    }
    match kind_of_type(reading.words().at(2)) {
        Some(kind) => reading.put_model(kind)?,
        None => {}
    }
    Ok(())
}
