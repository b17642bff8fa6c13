//! The words and parts of a deck.

ghost use Rattle.std.specs.Prelude.{◌≡◌, ◌≤◌, ◌-◌, ◌++◌, ◌∷◌, [], length, take, drop, IfOk, OnOk, OnErr};
ghost use Rattle.spice_cards.specs.CardLines.{card_words, continued, kept_words};
ghost use Rattle.spice_cards.specs.Pools as spec;
ghost use Rattle.spice_cards.specs.Pools.{taken, with_kept, with_pending, with_words};

use crate::parts::Parts;
use crate::places::{PartPlace, Span};
use crate::sorts::{LineSort, PartSort, after_sign, ends_line, is_setting, line_sort};
use crate::words::Words;
use line_words::{Lines, words};
use std::alloc::Global;
use std::marker::Model;
use ternary::NoMemory;

/// The words of a deck that count, in one list, and the parts with the places of their words.
///
/// Behind the words of the parts stand those of the card that is being read. The bytes of the words
/// are copied one behind the other; those of a word that was let go stay, since no more come in all
/// than the text has.
#[derive(Drop)]
pub(crate) struct Pool {
    text: Vec<u8>,
    words: Vec<Span>,
    // How many of the words are those of parts.
    kept: usize,
    outside: Vec<PartPlace>,
    inside: Vec<PartPlace>,
}

impl Model for Pool {
    ghost use Rattle.std.specs.Prelude.{length};
    ghost use Rattle.spice_cards.specs.Pools.{PoolData, IsPool, pool_of, words_at};

    ghost Value = { PoolData };

    ghost view = { λ pool. pool_of (words_at pool.text.items pool.words.items) pool.kept pool.outside.items pool.inside.items };

    ghost invariant = { λ pool. IsPool (length pool.text.items) pool.words.items pool.kept pool.outside.items pool.inside.items };
}

impl Pool {
    /// No words.
    pub(crate) fn new(alloc: Global) -> Pool
        ensures { result ≡ record { outside = []; inside = []; pending = [] } }
    {
        Pool {
            text: Vec::new(alloc),
            words: Vec::new(alloc),
            kept: 0,
            outside: Vec::new(alloc),
            inside: Vec::new(alloc),
        }
    }

    /// The words of the card that is being read.
    pub(crate) fn pending(&self) -> Words<'_>
        ensures { result ≡ self.now.pending }
    {
        Words::new(&self.text, &self.words).behind(self.kept)
    }

    /// Begins another card: no word of it was read.
    pub(crate) fn clear(&mut self)
        ensures { self.new ≡ record self.old { pending = [] } }
    {
        self.words.truncate(self.kept);
    }

    /// Adds a word of the card that is being read.
    pub(crate) fn add(&mut self, word: &[u8]) -> Result<(), NoMemory>
        ensures ok { OnOk result
            (self.new ≡ record self.old { pending = self.old.pending ++ word.now ∷ [] }) }
        ensures err { OnErr result (self.new ≡ self.old) }
    {
        let at = self.text.len();
        let span = Span {
            at: short(at as u64)?,
            end: short(at as u64 + word.len() as u64)?,
        };
        self.words.reserve(1)?;
        self.text.extend_from_slice(word)?;
        self.words.push_reserved(span);
        Ok(())
    }

    /// Reads the words of the card that a line begins, with those of the lines that go on with it:
    /// all, or those that are plain.
    pub(crate) fn collect(
        &mut self,
        plain: bool,
        bytes: &[u8],
        later: Lines<'_>,
    ) -> Result<(), NoMemory>
        ensures ok { OnOk result
            (self.new ≡ with_pending self.old (taken plain (card_words bytes.now later.entry))) }
        ensures stays { self.new.inside ≡ self.old.inside }
    {
        self.clear();
        self.add_words(plain, bytes)?;
        self.add_continued(plain, later)
    }

    // Adds the words of a part of a line that count.
    fn add_words(&mut self, plain: bool, bytes: &[u8]) -> Result<(), NoMemory>
        ensures ok { OnOk result (self.new ≡ with_words self.old (taken plain (kept_words bytes.now))) }
        ensures stays { self.new.inside ≡ self.old.inside }
    {
        for word in words(bytes) {
            if ends_line(word) {
                return Ok(());
            }
            if is_taken(plain, word) {
                self.add(word)?;
            }
        }
        Ok(())
    }

    // Adds the words that the lines after a card go on with.
    fn add_continued(&mut self, plain: bool, later: Lines<'_>) -> Result<(), NoMemory>
        ensures ok { OnOk result (self.new ≡ with_words self.old (taken plain (continued later.entry))) }
        ensures stays { self.new.inside ≡ self.old.inside }
    {
        for line in later {
            match line_sort(line.bytes) {
                LineSort::Passed => {}
                LineSort::More => self.add_words(plain, after_sign(line.bytes))?,
                LineSort::Begins => return Ok(()),
            }
        }
        Ok(())
    }

    /// Keeps the first so many words of the card that is being read, as a part inside a subcircuit or
    /// outside subcircuits.
    pub(crate) fn keep(
        &mut self,
        inside: bool,
        line: u64,
        sort: PartSort,
        count: usize,
    ) -> Result<(), NoMemory>
        requires { count ≤ length self.old.pending }
        ensures err { OnErr result (self.new ≡ self.old) }
        ensures ok { OnOk result (self.new ≡ with_kept inside self.old
            (record { line = line; sort = sort; words = take count self.old.pending })) }
    {
        let place = PartPlace {
            line: short(line)?,
            sort,
            first: short(self.kept as u64)?,
            end: short((self.kept + count) as u64)?,
        };
        if inside {
            keep(&mut self.inside, &mut self.words, &mut self.kept, place)
        } else {
            keep(&mut self.outside, &mut self.words, &mut self.kept, place)
        }
    }

    /// How many parts there are inside subcircuits.
    pub(crate) fn inside(&self) -> usize
        ensures { result ≡ length self.now.inside }
    {
        self.inside.len()
    }

    /// The parts outside subcircuits.
    pub(crate) fn outside_parts(&self) -> Parts<'_>
        ensures { result ≡ self.now.outside }
    {
        Parts::new(Words::new(&self.text, &self.words), &self.outside)
    }

    /// Of the parts inside subcircuits those from a place to another one.
    pub(crate) fn inside_parts(&self, first: usize, end: usize) -> Parts<'_>
        requires ordered { first ≤ end }
        requires within { end ≤ length self.now.inside }
        ensures { result ≡ take (end - first) (drop first self.now.inside) }
    {
        Parts::new(
            Words::new(&self.text, &self.words),
            &self.inside[first..end],
        )
    }
}

// Keeps the words up to the end of this part, which comes behind the others.
fn keep(
    parts: &mut Vec<PartPlace>,
    words: &mut Vec<Span>,
    kept: &mut usize,
    place: PartPlace,
) -> Result<(), NoMemory>
    ensures parts { OnOk result (parts.new.items ≡ parts.old.items ++ place ∷ []) }
    ensures words { OnOk result (words.new.items ≡ take place.end words.old.items) }
    ensures kept { OnOk result (kept.new ≡ place.end) }
    ensures err { OnErr result ((parts.new.items ≡ parts.old.items)
        × (words.new.items ≡ words.old.items) × (kept.new ≡ kept.old)) }
{
    parts.reserve(1)?;
    parts.push_reserved(place);
    words.truncate(place.end as usize);
    *kept = place.end as usize;
    Ok(())
}

// Whether the word is taken from a card: all are, or those that are plain.
fn is_taken(plain: bool, word: &[u8]) -> bool
    ensures { result ≡ spec.is_taken plain word.now }
{
    !(plain && is_setting(word))
}

/// A number of 32 bits: no text that is read has more lines, words or bytes.
pub(crate) fn short(number: u64) -> Result<u32, NoMemory>
    ensures { IfOk result (λ same. same ≡ number) }
{
    match u32::try_from(number) {
        Ok(same) => Ok(same),
        Err(_) => Err(NoMemory),
    }
}
