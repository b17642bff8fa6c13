//! The reader of a deck.

ghost use Rattle.std.specs.Prelude.{◌≡◌, IfOk, IfErr, Ok};
ghost use Rattle.netlist.specs.Circuits.{HasVisibleNames, IsCircuit};
ghost use Rattle.spice_cards.specs.Reading as cards;
ghost use Rattle.ternary.specs.Unmade.{IsFault};
ghost use Rattle.spice_read.specs.Making as spec;
ghost use Rattle.spice_read.specs.Making.{circuit_of};

use crate::expansion::{MOST_OPEN, expand};
use crate::frame::Frame;
use crate::making::Made;
use line_words::cut_line;
use netlist::Circuit;
use spice_cards::{Deck, DeckFault, folded, read_cards};
use std::alloc::Global;
use table_keys::TableKeys;
use ternary::NoMemory;

/// Reads a deck: the circuit of its expansion, in profile 1, or its first refused card. Names are hashed
/// from the keys, which the text's author must not know.
///
/// The refusals of lines are found first, in the order of the lines; then those of calls and transistors,
/// in the order of the expansion. At a line the causes stand in the order of `DeckWhat`.
pub fn read_deck(alloc: Global, keys: TableKeys, text: &[u8]) -> Result<Circuit, DeckFault>
    ensures ok { IfOk result (λ circuit. circuit_of text.now ≡ Ok circuit) }
    ensures refused { IfErr result (IsFault (circuit_of text.now)) }
    ensures circuit { IfOk result IsCircuit }
    ensures visible { IfOk result HasVisibleNames }
{
    let deck = match cards_of(alloc, keys, text) {
        Ok(deck) => deck,
        Err(fault) => return Err(fault),
    };
    read_parts(alloc, keys, &deck)
}

// The cards of a text. What they were read of is let go: the deck keeps words of its own.
fn cards_of(alloc: Global, keys: TableKeys, text: &[u8]) -> Result<Deck, DeckFault>
    ensures ok { IfOk result (λ deck. cards.cards_of text.now ≡ Ok deck) }
    ensures refused { IfErr result (IsFault (cards.cards_of text.now)) }
{
    let words = folded(alloc, text)?;
    read_cards(alloc, keys, cut_line(text), &words)
}

// The circuit of cards.
fn read_parts(alloc: Global, keys: TableKeys, deck: &Deck) -> Result<Circuit, DeckFault>
    ensures ok { IfOk result (λ circuit. spec.circuit_by (Ok deck.now) ≡ Ok circuit) }
    ensures refused { IfErr result (IsFault (spec.circuit_by (Ok deck.now))) }
{
    let mut made = Made::new(alloc, keys)?;
    let mut frame = Frame::outside(alloc, keys, deck);
    match expand(&mut made, MOST_OPEN, &mut frame, deck.outside()) {
        Ok(()) => Ok(made.into_circuit()),
        Err(fault) => Err(fault),
    }
}
