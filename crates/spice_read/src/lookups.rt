//! The subcircuits that calls open: a long name is looked up once for a card.

ghost use Rattle.std.specs.Prelude.{◌≡◌, All, IfSome, IsNone, Some, None};
ghost use Rattle.spice_cards.specs.Decks.{DeckCards};
ghost use Rattle.spice_cards.specs.Tables.{named};
ghost use Rattle.spice_read.specs.Lookups.{IsFound};

use crate::found::Found;
use indexmap::IndexMap;
use spice_cards::{Deck, Subcircuit};
use std::alloc::Global;
use std::marker::Model;
use table_keys::TableKeys;

// A name of so many bytes takes longer to be hashed than to be compared with that of its card's last
// expansion. Shorter ones are not kept, so that the table is small beside the deck.
const LONG_NAME: usize = 64;

/// A deck, with what was looked up for the cards of its calls. Contracts see it as the deck.
#[derive(Drop)]
pub(crate) struct Lookups<'d> {
    deck: &'d Deck,
    // By the lines of the cards. What is kept for a line counts only for the name that is kept with it.
    cards: IndexMap<u64, Found<'d>, TableKeys>,
}

impl<'d> Model for Lookups<'d> {
    ghost use Rattle.std.specs.Prelude.{All};
    ghost use Rattle.spice_cards.specs.Decks.{DeckCards};
    ghost use Rattle.spice_read.specs.Lookups.{IsFound};

    ghost Value = { DeckCards };

    ghost view = { λ lookups. lookups.deck.now };

    ghost invariant = { λ lookups. All (IsFound lookups.deck.now) lookups.cards.entries };
}

impl<'d> Lookups<'d> {
    /// Nothing was looked up in the deck. Lines are hashed from these keys.
    pub(crate) fn new(alloc: Global, keys: TableKeys, deck: &'d Deck) -> Lookups<'d>
        ensures { result ≡ deck.now }
    {
        Lookups {
            deck,
            cards: IndexMap::with_hasher(alloc, keys),
        }
    }

    /// The deck.
    pub(crate) fn deck(&self) -> &'d Deck
        ensures { result.now ≡ self.now }
    {
        self.deck
    }

    /// The subcircuit that the card on this line calls by this name, if there is one.
    pub(crate) fn find(&mut self, line: u64, name: &'d [u8]) -> Option<Subcircuit<'d>>
        ensures found { IfSome result (λ s. named self.old.subcircuits name.now
            ≡ Some (record { line = s.line; ports = s.ports; parts = s.parts })) }
        ensures none { IsNone result → named self.old.subcircuits name.now ≡ None }
        ensures stays { self.new ≡ self.old }
    {
        if name.len() < LONG_NAME {
            return self.deck.find(name);
        }
        if let Some(subcircuit) = kept(&self.cards, line, name) {
            return Some(subcircuit);
        }
        let subcircuit = self.deck.find(name)?;
        keep(&mut self.cards, line, name, again(&subcircuit));
        Some(subcircuit)
    }
}

// What is kept for the card on this line, if it is of this name.
fn kept<'d>(
    cards: &IndexMap<u64, Found<'d>, TableKeys>,
    line: u64,
    name: &[u8],
) -> Option<Subcircuit<'d>>
    ensures { IfSome result (λ s. (deck : DeckCards) → All (IsFound deck) cards.now.entries → named deck.subcircuits name.now
        ≡ Some (record { line = s.line; ports = s.ports; parts = s.parts })) }
{
    match cards.get(&line) {
        Some(found) if found.name == name => Some(again(&found.subcircuit)),
        _ => None,
    }
}

// Keeps what was found for the card on this line. For lack of memory it is looked up again another time.
fn keep<'d>(
    cards: &mut IndexMap<u64, Found<'d>, TableKeys>,
    line: u64,
    name: &'d [u8],
    subcircuit: Subcircuit<'d>,
)
    ensures { (deck : DeckCards) → All (IsFound deck) cards.old.entries →
        IsFound deck (line, record { name = name.entry; subcircuit = subcircuit.entry }) → All (IsFound deck) cards.new.entries }
{
    match cards.insert(line, Found { name, subcircuit }) {
        Ok(_) => {}
        Err(_) => {}
    }
}

// The same subcircuit.
fn again<'d>(subcircuit: &Subcircuit<'d>) -> Subcircuit<'d>
    ensures line { result.line ≡ subcircuit.now.line }
    ensures ports { result.ports ≡ subcircuit.now.ports }
    ensures parts { result.parts ≡ subcircuit.now.parts }
{
    Subcircuit {
        line: subcircuit.line,
        ports: subcircuit.ports.again(),
        parts: subcircuit.parts.again(),
    }
}
