//! Parts of a deck, to be gone through.

ghost use Rattle.std.specs.Prelude.{◌≡◌, ◌-◌, take, drop};
ghost use Rattle.std.specs.Iterator.{YieldsFirstBy, item_count};
ghost use Rattle.spice_cards.specs.Pools.{parts_at};

use crate::places::PartPlace;
use crate::sorts::PartSort;
use crate::words::Words;
use std::marker::Model;

/// A part: a transistor or a call.
#[derive(Drop)]
pub struct Part<'d> {
    /// The line of its card.
    pub line: u64,
    /// What it is.
    pub sort: PartSort,
    /// The words of its card that count. Those of a transistor are its name, drain, gate, source,
    /// bulk and model; those of a call its name, its nodes and its subcircuit.
    pub words: Words<'d>,
}

/// The parts of a subcircuit, or those outside subcircuits, in order. Contracts see it as their list.
#[derive(Drop)]
pub struct Parts<'d> {
    words: Words<'d>,
    places: &'d [PartPlace],
}

impl<'d> Model for Parts<'d> {
    ghost use Rattle.std.specs.Prelude.{List};
    ghost use Rattle.spice_cards.specs.Decks.{PartCard};
    ghost use Rattle.spice_cards.specs.Pools.{parts_at};

    ghost Value = { List PartCard };

    ghost view = { λ parts. parts_at parts.words parts.places.now };
}

impl<'d> Parts<'d> {
    /// The parts at these places.
    pub(crate) fn new(words: Words<'d>, places: &'d [PartPlace]) -> Parts<'d>
        ensures { result ≡ parts_at words.entry places.now }
    {
        Parts { words, places }
    }

    /// The same parts, to be gone through once more.
    pub fn again(&self) -> Parts<'d>
        ensures { result ≡ self.now }
    {
        Parts::new(self.words.again(), self.places)
    }
}

impl<'d> Iterator for Parts<'d> {
    type Item = Part<'d>;

    ghost next_gives = { YieldsFirstBy (λ part. record { line = part.line; sort = part.sort; words = part.words }) (λ parts. parts) };

    ghost remaining = { item_count (λ parts. parts) };

    fn next(&mut self) -> Option<Part<'d>> {
        let (place, rest) = self.places.split_first()?;
        self.places = rest;
        Some(Part {
            line: u64::from(place.line),
            sort: place.sort,
            words: words_of(&self.words, place),
        })
    }
}

// The words of the part at a place.
fn words_of<'d>(words: &Words<'d>, place: &PartPlace) -> Words<'d>
    ensures { result ≡ take (place.now.end - place.now.first) (drop place.now.first words.now) }
{
    words
        .behind(place.first as usize)
        .front(place.end.saturating_sub(place.first) as usize)
}
