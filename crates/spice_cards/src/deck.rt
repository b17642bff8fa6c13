//! A deck, and the reader of one.

ghost use Rattle.std.specs.Prelude.{◌≡◌, ◌≢◌, map, is_some, IfOk, IfErr, IfSome, IsNone, Ok, Some, None};
ghost use Rattle.std.specs.Char.{to_ascii_lowercase};
ghost use Rattle.std.specs.List.{enumerate_from};
ghost use Rattle.line_words.specs.Lines.{lines_of};
ghost use Rattle.line_words.specs.Files.{front_of};
ghost use Rattle.spice_cards.specs.Reading as spec;
ghost use Rattle.ternary.specs.Unmade.{IsFault};
ghost use Rattle.spice_cards.specs.Tables.{named};

use crate::cards::{is_cut, read_line};
use crate::fault::{CardStop, DeckFault, DeckRefusal, DeckWhat};
use crate::parts::Parts;
use crate::reading::Reading;
use crate::sorts::is_end;
use crate::words::Words;
use line_words::{LONGEST_LINE, Lines, front, lines};
use std::alloc::Global;
use std::marker::Model;
use switch_paths::SwitchKind;
use table_keys::TableKeys;
use ternary::{NoMemory, Unmade};

/// The cards of a deck.
#[derive(Drop)]
pub struct Deck {
    reading: Reading,
}

impl Model for Deck {
    ghost use Rattle.spice_cards.specs.Decks.{DeckCards};

    ghost Value = { DeckCards };

    ghost view = { λ d. d.reading.so_far.deck };
}

/// A subcircuit of a deck.
#[derive(Drop)]
pub struct Subcircuit<'d> {
    /// The line of its `.subckt`, by which it is told from others.
    pub line: u64,
    /// Its ports.
    pub ports: Words<'d>,
    /// Its parts.
    pub parts: Parts<'d>,
}

impl Deck {
    /// The parts outside subcircuits.
    pub fn outside(&self) -> Parts<'_>
        ensures { result ≡ self.now.outside }
    {
        self.reading.outside()
    }

    /// The subcircuit of this name, if there is one.
    pub fn find(&self, name: &[u8]) -> Option<Subcircuit<'_>>
        ensures found { IfSome result (λ s. named self.now.subcircuits name.now
            ≡ Some (record { line = s.line; ports = s.ports; parts = s.parts })) }
        ensures none { IsNone result → named self.now.subcircuits name.now ≡ None }
    {
        let Some(mut parts) = self.reading.find(name) else {
            return None;
        };
        match parts.next() {
            Some(opening) => Some(Subcircuit {
                line: opening.line,
                ports: opening.words.behind(2),
                parts,
            }),
            None => unreachable!(),
        }
    }

    /// The kind that a `.model` card gives a model, where one does.
    pub fn model(&self, name: &[u8]) -> Option<SwitchKind>
        ensures { result ≡ named self.now.models name.now }
    {
        self.reading.model(name)
    }

    /// Whether a name is global.
    pub fn is_global(&self, name: &[u8]) -> bool
        ensures { result ≡ is_some (named self.now.globals name.now) }
    {
        self.reading.is_global(name)
    }
}

/// What is read of a text, in small letters.
pub fn folded(alloc: Global, text: &[u8]) -> Result<Vec<u8>, NoMemory>
    ensures { IfOk result (λ bytes. bytes.items ≡ map to_ascii_lowercase (front_of text.now)) }
{
    let mut bytes = front(text).to_vec(alloc)?;
    bytes.make_ascii_lowercase();
    Ok(bytes)
}

/// Reads the cards of a deck, by what is read of its text in small letters, as [`folded`] gives it,
/// and by the line that holds the first byte too many of the text. Names are hashed from the keys,
/// which the text's author must not know.
///
/// Refused at the first line that has a refusal; a line's refusals stand in the order of
/// [`DeckWhat`].
#[tactic(auto, unfolding(crate::specs::Reading::titled_meaning))]
pub fn read_cards(
    alloc: Global,
    keys: TableKeys,
    cut: Option<u64>,
    text: &[u8],
) -> Result<Deck, DeckFault>
    ensures ok { IfOk result (λ deck.
        spec.titled_meaning cut (enumerate_from 1 (lines_of text.now)) ≡ Ok deck) }
    ensures refused { IfErr result
        (IsFault (spec.titled_meaning cut (enumerate_from 1 (lines_of text.now)))) }
{
    let mut lines = lines(text);
    let reading = Reading::new(alloc, keys);
    let Some(title) = lines.next() else {
        return Ok(Deck { reading });
    };
    if let Some(refusal) = unread_fault(cut, title.number, title.bytes) {
        return Err(Unmade::Refused(refusal));
    }
    read_lines(reading, cut, lines)
}

// Reads the lines that are left.
fn read_lines(
    mut reading: Reading,
    cut: Option<u64>,
    mut lines: Lines<'_>,
) -> Result<Deck, DeckFault>
    ensures ok { IfOk result (λ deck.
        spec.lines_meaning cut reading.so_far lines.entry ≡ Ok deck) }
    ensures refused { IfErr result
        (IsFault (spec.lines_meaning cut reading.so_far lines.entry)) }
{
    'lines: while let Some(line) = lines.next() {
        match read_line(&mut reading, cut, line, &lines) {
            Ok(()) => {}
            Err(stop) => return Err(fault_at(line.number, stop)),
        }
        if is_end(line.bytes) {
            return unless(tail_fault(cut, lines), Deck { reading });
        }
    }
    Ok(Deck { reading })
}

// The deck, unless a line is refused.
fn unless(refusal: Option<DeckRefusal>, deck: Deck) -> Result<Deck, DeckFault>
    ensures ok { IfOk result (λ made. spec.unless refusal (Ok deck) ≡ Ok made) }
    ensures refused { IfErr result (IsFault (spec.unless refusal (Ok deck))) }
    ensures memory { IfErr result (λ fault. fault ≢ Unmade.NoMemory) }
{
    match refusal {
        Some(refusal) => Err(Unmade::Refused(refusal)),
        None => Ok(deck),
    }
}

// The fault of a card of this line at which the reading stops.
fn fault_at(line: u64, stop: CardStop) -> DeckFault
    ensures { result ≡ spec.fault_at line stop }
{
    match stop {
        Unmade::Refused(what) => Unmade::Refused(DeckRefusal { line, what }),
        Unmade::NoMemory => Unmade::NoMemory,
    }
}

// The fault of a line that isn't read: the title, or one after `.end`.
fn unread_fault(cut: Option<u64>, line: u64, bytes: &[u8]) -> Option<DeckRefusal>
    ensures { result ≡ spec.unread_fault cut (line, bytes.now) }
{
    if is_cut(cut, line) {
        Some(DeckRefusal {
            line,
            what: DeckWhat::TooLong,
        })
    } else if bytes.len() > LONGEST_LINE {
        Some(DeckRefusal {
            line,
            what: DeckWhat::LineTooLong,
        })
    } else {
        None
    }
}

// The fault of the first line after `.end` that has one.
fn tail_fault(cut: Option<u64>, lines: Lines<'_>) -> Option<DeckRefusal>
    ensures { result ≡ spec.tail_fault cut lines.entry }
{
    for line in lines {
        if let Some(refusal) = unread_fault(cut, line.number, line.bytes) {
            return Some(refusal);
        }
    }
    None
}
