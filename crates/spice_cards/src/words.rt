//! Words of a deck.

ghost use Rattle.std.specs.Prelude.{◌≡◌, length, take, drop};
ghost use Rattle.std.specs.Iterator.{YieldsFirstRef, item_count};
ghost use Rattle.spice_cards.specs.Pools.{word_of, words_at};
ghost use Rattle.spice_cards.specs.Reading.{word_at};

use crate::places::Span;
use std::marker::Model;

/// Words of a deck in a row, in small letters. Contracts see them as the list of their bytes.
#[derive(Drop)]
pub struct Words<'d> {
    // The bytes of all words.
    text: &'d [u8],
    spans: &'d [Span],
}

impl<'d> Model for Words<'d> {
    ghost use Rattle.std.specs.Prelude.{List, ℕ};
    ghost use Rattle.spice_cards.specs.Pools.{words_at};

    ghost Value = { List (List ℕ) };

    ghost view = { λ words. words_at words.text.now words.spans.now };
}

impl<'d> Words<'d> {
    /// The words that stand at these places of a text.
    pub(crate) fn new(text: &'d [u8], spans: &'d [Span]) -> Words<'d>
        ensures { result ≡ words_at text.now spans.now }
    {
        Words { text, spans }
    }

    /// The same words, to be gone through once more.
    pub fn again(&self) -> Words<'d>
        ensures { result ≡ self.now }
    {
        Words::new(self.text, self.spans)
    }

    /// How many words there are.
    pub fn len(&self) -> usize
        ensures { result ≡ length self.now }
    {
        self.spans.len()
    }

    /// The word at a place, if there is one, else no bytes.
    pub fn at(&self, place: usize) -> &'d [u8]
        ensures { result.now ≡ word_at self.now place }
    {
        match self.behind(place).next() {
            Some(word) => word,
            None => &[],
        }
    }

    /// The first so many words; all, if there are no more.
    pub fn front(&self, count: usize) -> Words<'d>
        ensures { result ≡ take count self.now }
    {
        Words::new(self.text, front(self.spans, count))
    }

    /// The words behind the first so many; none, if there are no more.
    pub fn behind(&self, count: usize) -> Words<'d>
        ensures { result ≡ drop count self.now }
    {
        Words::new(self.text, behind(self.spans, count))
    }
}

impl<'d> Iterator for Words<'d> {
    type Item = &'d [u8];

    ghost next_gives = { YieldsFirstRef (λ words. words) };

    ghost remaining = { item_count (λ words. words) };

    fn next(&mut self) -> Option<&'d [u8]> {
        let (span, rest) = self.spans.split_first()?;
        self.spans = rest;
        Some(bytes_at(self.text, span))
    }
}

// The bytes of a word.
fn bytes_at<'d>(text: &'d [u8], span: &Span) -> &'d [u8]
    ensures { result.now ≡ word_of text.now span.now }
{
    let (at, end) = (span.at as usize, span.end as usize);
    if end <= at || text.len() <= at {
        &[]
    } else if text.len() <= end {
        &text[at..]
    } else {
        &text[at..end]
    }
}

// The first so many places.
fn front(spans: &[Span], count: usize) -> &[Span]
    ensures { result.now ≡ take count spans.now }
{
    if spans.len() <= count {
        spans
    } else {
        &spans[..count]
    }
}

// The places behind the first so many.
fn behind(spans: &[Span], count: usize) -> &[Span]
    ensures { result.now ≡ drop count spans.now }
{
    if spans.len() <= count {
        &[]
    } else {
        &spans[count..]
    }
}
