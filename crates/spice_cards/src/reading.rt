//! What was read of a deck so far.

ghost use Rattle.std.specs.Prelude.{◌≡◌, ◌≤◌, ◌<◌, [], ◌∷◌, true, Ok, Some, length, is_some, option_map, filter, take, drop, IfErr, IfSome, OnOk};
ghost use Rattle.spice_cards.specs.CardLines.{card_words, head_of};
ghost use Rattle.spice_cards.specs.CardSorts.{is_plain};
ghost use Rattle.spice_cards.specs.Reading.{closing_meaning, globals_meaning, nothing_read, with_globals, with_model, with_part, word_at};
ghost use Rattle.spice_cards.specs.Readings.{with_words_of};
ghost use Rattle.spice_cards.specs.Readings as spec;
ghost use Rattle.ternary.specs.Unmade.{IsFault};
ghost use Rattle.spice_cards.specs.Tables.{named, with_first};

use crate::fault::{CardStop, DeckWhat};
use crate::parts::Parts;
use crate::places::SubcircuitPlace;
use crate::pool::{Pool, short};
use crate::sorts::PartSort;
use crate::table::Table;
use crate::words::Words;
use line_words::Lines;
use std::alloc::Global;
use std::marker::Model;
use switch_paths::SwitchKind;
use table_keys::TableKeys;
use ternary::{NoMemory, Unmade};

/// What was read of a deck so far, and the words of the card that is being read.
#[derive(Drop)]
pub(crate) struct Reading {
    pool: Pool,
    subcircuits: Table<SubcircuitPlace>,
    models: Table<SwitchKind>,
    globals: Table<()>,
    // Where the `.subckt` of the subcircuit stands that has begun and isn't ended.
    begun: Option<usize>,
    has_card: bool,
}

impl Model for Reading {
    ghost use Rattle.std.specs.Prelude.{length};
    ghost use Rattle.spice_cards.specs.Readings.{IsReading, ReadingData, reading_of};

    ghost Value = { ReadingData };

    ghost view = { λ r. reading_of r.pool r.subcircuits r.models r.globals r.begun r.has_card };

    ghost invariant = { λ r. IsReading (length r.pool.inside) r.subcircuits r.begun };
}

impl Reading {
    /// Nothing was read. Names are hashed from these keys.
    pub(crate) fn new(alloc: Global, keys: TableKeys) -> Reading
        ensures { result ≡ record { so_far = nothing_read; pending = [] } }
    {
        Reading {
            pool: Pool::new(alloc),
            subcircuits: Table::new(alloc, keys),
            models: Table::new(alloc, keys),
            globals: Table::new(alloc, keys),
            begun: None,
            has_card: false,
        }
    }

    /// Reads the words of the card that a line begins.
    pub(crate) fn collect(&mut self, bytes: &[u8], later: Lines<'_>) -> Result<(), NoMemory>
        ensures { OnOk result
            (self.new ≡ with_words_of self.old (card_words bytes.now later.entry)) }
    {
        self.pool.collect(false, bytes, later)
    }

    /// Reads the words of the card that a line begins, but those that set a parameter.
    pub(crate) fn collect_plain(&mut self, bytes: &[u8], later: Lines<'_>) -> Result<(), NoMemory>
        ensures { OnOk result
            (self.new ≡ with_words_of self.old (filter is_plain (card_words bytes.now later.entry))) }
    {
        self.pool.collect(true, bytes, later)
    }

    /// The words of the card that is being read.
    pub(crate) fn words(&self) -> Words<'_>
        ensures { result ≡ self.now.pending }
    {
        self.pool.pending()
    }

    /// Whether there was a card.
    pub(crate) fn has_card(&self) -> bool
        ensures { result ≡ self.now.so_far.has_card }
    {
        self.has_card
    }

    /// There was a card.
    pub(crate) fn note_card(&mut self)
        ensures { self.new.so_far ≡ record self.old.so_far { has_card = true } }
    {
        self.has_card = true;
    }

    /// Whether a subcircuit has begun and isn't ended.
    pub(crate) fn is_inside(&self) -> bool
        ensures { result ≡ is_some self.now.so_far.begun }
    {
        self.begun.is_some()
    }

    /// Whether there is a subcircuit of this name.
    pub(crate) fn has_subcircuit(&self, name: &[u8]) -> bool
        ensures { result ≡ is_some (named self.now.so_far.deck.subcircuits name.now) }
    {
        self.subcircuits.find(name).is_some()
    }

    /// Keeps the first so many words of the card that is being read, as one more part.
    pub(crate) fn keep(&mut self, line: u64, sort: PartSort, count: usize) -> Result<(), NoMemory>
        requires { count ≤ length self.old.pending }
        ensures { OnOk result
            (self.new.so_far ≡ with_part self.old.so_far line sort (take count self.old.pending)) }
    {
        match self.begun {
            Some(_) => self.pool.keep(true, line, sort, count),
            None => self.pool.keep(false, line, sort, count),
        }
    }

    /// Begins a subcircuit, by the first so many words of the card that is being read.
    pub(crate) fn begin(&mut self, line: u64, count: usize) -> Result<(), NoMemory>
        requires named { 2 ≤ count }
        requires within { count ≤ length self.old.pending }
        ensures { OnOk result (self.new.so_far ≡ record self.old.so_far {
          begun = Some (
            head_of (drop 1 (take count self.old.pending)),
            record { line = line; ports = drop 2 (take count self.old.pending); parts = [] },
          );
        }) }
    {
        let opening = self.pool.inside();
        self.pool.keep(true, line, PartSort::Opening, count)?;
        self.begun = Some(opening);
        Ok(())
    }
    /// Ends the subcircuit that has begun. Refused with `BadNesting` exactly if none has.
    pub(crate) fn end(&mut self) -> Result<(), CardStop>
        ensures ok { OnOk result
            (closing_meaning self.old.so_far self.old.so_far.begun ≡ Ok self.new.so_far) }
        ensures refused { IfErr result
            (IsFault (closing_meaning self.old.so_far self.old.so_far.begun)) }
    {
        let Some(opening) = self.begun else {
            return Err(Unmade::Refused(DeckWhat::BadNesting));
        };
        let end = self.pool.inside();
        let place = SubcircuitPlace {
            opening: short(opening as u64)?,
            end: short(end as u64)?,
        };
        let name = name_of(self.pool.inside_parts(opening, end));
        self.subcircuits.put_first(name, place)?;
        self.begun = None;
        Ok(())
    }

    /// Notes the kind of the model that the second word of the card names, unless the model has one.
    pub(crate) fn put_model(&mut self, kind: SwitchKind) -> Result<(), NoMemory>
        ensures { OnOk result
            (self.new.so_far ≡ with_model self.old.so_far (word_at self.old.pending 1) (Some kind)) }
    {
        self.models.put_first(self.pool.pending().at(1), kind)
    }

    /// Notes the words of the card that is being read, but its first, as global names.
    pub(crate) fn put_globals(&mut self) -> Result<(), NoMemory>
        ensures { OnOk result
            (self.new.so_far ≡ globals_meaning self.old.so_far (drop 1 self.old.pending)) }
    {
        put_names(&mut self.globals, self.pool.pending().behind(1))
    }

    /// The parts outside subcircuits.
    pub(crate) fn outside(&self) -> Parts<'_>
        ensures { result ≡ self.now.so_far.deck.outside }
    {
        self.pool.outside_parts()
    }

    /// The parts of the subcircuit of this name, with its `.subckt`.
    pub(crate) fn find(&self, name: &[u8]) -> Option<Parts<'_>>
        ensures value { option_map spec.subcircuit_of result
            ≡ named self.now.so_far.deck.subcircuits name.now }
        ensures opening { IfSome result (λ parts. 0 < length parts) }
    {
        let place = self.subcircuits.find(name)?;
        Some(
            self.pool
                .inside_parts(place.opening as usize, place.end as usize),
        )
    }

    /// The kind of a model.
    pub(crate) fn model(&self, name: &[u8]) -> Option<SwitchKind>
        ensures { result ≡ named self.now.so_far.deck.models name.now }
    {
        self.models.find(name)
    }

    /// Whether a name is global.
    pub(crate) fn is_global(&self, name: &[u8]) -> bool
        ensures { result ≡ is_some (named self.now.so_far.deck.globals name.now) }
    {
        self.globals.find(name).is_some()
    }
}

// Notes names, unless they are noted already.
fn put_names(names: &mut Table<()>, more: Words<'_>) -> Result<(), NoMemory>
    ensures { OnOk result (names.new ≡ with_globals names.old more.entry) }
{
    for name in more {
        names.put_first(name, ())?;
    }
    Ok(())
}

// The name of the subcircuit that begins with the first of the parts.
fn name_of<'d>(mut parts: Parts<'d>) -> &'d [u8]
    ensures { result.now ≡ spec.name_of parts.entry }
{
    match parts.next() {
        Some(opening) => opening.words.at(1),
        None => &[],
    }
}
