//! Which texts the parts of a machine have, and how many of them are distinct.
ghost use Rattle.std.specs.Prelude.{◌≡◌, ◌+◌, ◌++◌, ◌∷◌, [], ◌^◌, ◌<◌, None, Some, All, IsTrue, count_by, length, map, max, replicate, slice_get, slice_index_or, slice_set, IfOk, IfSome, OnOk, OnErr};
ghost use Rattle.group_text.specs.Words.{GroupTextData, new_texts, is_among, same_text};
ghost use Rattle.group_analysis.specs.Using.{used_texts};
ghost use Rattle.analysis_cache.specs.Words.{texts_of, HoldsKept};
ghost use Rattle.kept_parts.specs.Uses.{IsNumbered, CutsTo, in_use, some_texts, texts_used, count_distinct, first_use, last_use};

use analysis_cache::{Analyst, Kept};
use group_text::GroupText;
use indexmap::IndexSet;
use std::alloc::{AllocError, Global};
use std::marker::Model;
use table_keys::TableKeys;
use ternary::NoMemory;

/// The text of each part, if it has one, and how many distinct texts these are.
///
/// Contracts see the number that each text has from the first time that it was used, and for each part
/// the number of its text. So texts are compared once, when a part gets one.
#[derive(Drop)]
pub struct TextUses {
    known: IndexSet<GroupText, TableKeys>,
    // how many parts have the text with each number
    counts: Vec<usize>,
    numbers: Vec<Option<usize>>,
    // how many counts aren't 0
    distinct: usize,
}

impl Model for TextUses {
    ghost use Rattle.kept_parts.specs.Uses.{AreCounted, UsesData};

    ghost Value = { UsesData };

    ghost view = { λ uses. record { known = uses.known.keys; numbers = uses.numbers.items } };

    ghost invariant = { λ uses. AreCounted uses.known.keys uses.counts.items uses.numbers.items uses.distinct };
}

impl TextUses {
    /// So many parts, none of which has a text. The hashes of texts start from these keys.
    pub fn new(alloc: Global, keys: TableKeys, parts: usize) -> Result<TextUses, AllocError>
        ensures { IfOk result (λ uses. uses ≡ record { known = []; numbers = replicate parts None }) }
    {
        Ok(TextUses {
            known: IndexSet::with_hasher(alloc, keys),
            counts: Vec::new(alloc),
            numbers: vec![in alloc; None; parts]?,
            distinct: 0,
        })
    }

    /// Adds a part that has this text. A text that has no number yet gets the next one.
    pub fn push_text(&mut self, alloc: Global, text: &GroupText) -> Result<(), NoMemory>
        ensures texts { OnOk result (texts_used self.new ≡ texts_used self.old ++ Some text.now ∷ []) }
        ensures known { OnOk result (self.new.known ≡ self.old.known ++ new_texts self.old.known (text.now ∷ [])) }
    {
        let number = self.number(alloc, text)?;
        self.push(number)?;
        Ok(())
    }

    /// The texts that have a number, in the order of their numbers.
    pub fn known(&self) -> &[GroupText]
        ensures { result.now ≡ self.now.known }
    {
        self.known.as_slice()
    }

    /// The number of a part's text, if it has one.
    pub fn number_of(&self, part: usize) -> Option<usize>
        requires { part < length self.now.numbers }
        ensures value { result ≡ slice_index_or self.now.numbers part None }
        ensures known { IfSome result (λ number. number < length self.now.known) }
    {
        self.numbers[part]
    }

    /// The number of a text: it gets the next one, if it has none.
    pub fn number(&mut self, alloc: Global, text: &GroupText) -> Result<usize, NoMemory>
        ensures numbered { IsNumbered self.old self.new }
        ensures texts { texts_used self.new ≡ texts_used self.old }
        ensures known { OnOk result (self.new.known ≡ self.old.known ++ new_texts self.old.known (text.now ∷ [])) }
        ensures number { IfOk result (λ number. slice_get self.new.known number ≡ Some text.now) }
    {
        if let Some(number) = self.known.get_index_of(text) {
            return Ok(number);
        }
        let key = text.copy(alloc)?;
        self.counts.reserve(1)?;
        let Ok((number, _)) = self.known.insert_full(key) else {
            return Err(NoMemory);
        };
        self.counts.push_reserved(0);
        Ok(number)
    }

    /// Adds a part without a text.
    pub fn add(&mut self) -> Result<(), AllocError>
        ensures known { self.new.known ≡ self.old.known }
        ensures ok { OnOk result (self.new.numbers ≡ self.old.numbers ++ None ∷ []) }
        ensures err { OnErr result (self.new ≡ self.old) }
    {
        self.numbers.push(None)?;
        Ok(())
    }

    /// Takes its text from a part, if it has one.
    pub fn free(&mut self, k: usize)
        requires { k < length self.old.numbers }
        ensures known { self.new.known ≡ self.old.known }
        ensures numbers { self.new.numbers ≡ slice_set self.old.numbers k None }
    {
        if let Some(number) = self.numbers[k] {
            self.numbers[k] = None;
            let before = self.counts[number];
            self.counts[number] = before - 1;
            self.distinct = without_use(self.distinct, before);
        }
    }

    // Adds a part that has the text with this number.
    fn push(&mut self, number: usize) -> Result<(), AllocError>
        requires { number < length self.old.known }
        ensures known { self.new.known ≡ self.old.known }
        ensures ok { OnOk result (self.new.numbers ≡ self.old.numbers ++ Some number ∷ []) }
    {
        self.add()?;
        let part = self.numbers.len() - 1;
        self.set(part, number);
        Ok(())
    }

    /// Gives a part that has no text the text with this number.
    pub fn set(&mut self, part: usize, number: usize)
        requires inside { part < length self.old.numbers }
        requires number { number < length self.old.known }
        requires none { slice_index_or self.old.numbers part None ≡ None }
        ensures known { self.new.known ≡ self.old.known }
        ensures numbers { self.new.numbers ≡ slice_set self.old.numbers part (Some number) }
    {
        self.numbers[part] = Some(number);
        let before = self.counts[number];
        self.counts[number] = before + 1;
        self.distinct = with_use(self.distinct, before);
    }

    /// Whether some part has the text with this number.
    pub fn is_used(&self, number: usize) -> bool
        requires { number < length self.now.known }
        ensures { (text : GroupTextData) → slice_get self.now.known number ≡ Some text → result ≡ is_among (some_texts (texts_used self.now)) text }
    {
        self.counts[number] > 0
    }

    /// How many parts have this text.
    pub fn parts_with(&self, text: &GroupText) -> usize
        ensures { result ≡ count_by (same_text text.now) (some_texts (texts_used self.now)) }
    {
        match self.known.get_index_of(text) {
            Some(number) => self.counts[number],
            None => 0,
        }
    }

    /// Cuts what is kept past its bound, if it has one, but no text that some part has: so far as it is kept
    /// now, with these texts in front of it.
    ///
    /// The analyst releases what is cut, and is compacted if that was something; if there is too little memory
    /// for that it stays as large as it is. If nothing is past the bound, nothing is done.
    pub fn cut_past_bound<A: Analyst>(&self, kept: &mut Kept, analyst: &mut A)
        requires { All (λ text. IsTrue (is_among (texts_of kept.old) text)) (in_use self.now) }
        ensures cuts { CutsTo (in_use self.now) kept.old kept.new }
        ensures analysed { A.analysed analyst.new ≡ A.analysed analyst.old }
        ensures holds { HoldsKept kept.old (A.held analyst.old) → HoldsKept kept.new (A.held analyst.new) }
    {
        let Some(bound) = kept.bound() else {
            return;
        };
        let room = room_for(bound, self.distinct);
        if kept.size() <= room {
            return;
        }
        self.use_all(kept);
        kept.cut_to(room, analyst);
    }

    // Moves the texts that some part has to the front, in the order of their numbers.
    fn use_all(&self, kept: &mut Kept)
        requires { All (λ text. IsTrue (is_among (texts_of kept.old) text)) (in_use self.now) }
        ensures texts { texts_of kept.new ≡ used_texts (in_use self.now) (texts_of kept.old) }
        ensures bound { kept.new.bound ≡ kept.old.bound }
    {
        let known = self.known();
        let mut number = known.len();
        while number > 0 {
            number -= 1;
            if self.is_used(number) {
                kept.use_text(&known[number]);
            }
        }
    }

    /// How many distinct texts the parts have.
    pub fn distinct(&self) -> usize
        ensures { result ≡ count_distinct (texts_used self.now) }
    {
        self.distinct
    }
}

// For how many texts there is room: as many as the bound, or as there are present ones, if these are more.
fn room_for(bound: u64, present: usize) -> usize
    ensures { result ≡ max bound present }
{
    (bound as usize).max(present)
}

// How many distinct texts there are with one use less of a text that was used so often.
fn without_use(distinct: usize, before: usize) -> usize
    requires some { 0 < before }
    requires there { before ≡ 1 → 0 < distinct }
    ensures { result + last_use before ≡ distinct }
{
    if before == 1 { distinct - 1 } else { distinct }
}

// How many distinct texts there are with one use more of a text that was used so often.
fn with_use(distinct: usize, before: usize) -> usize
    requires { distinct < 2 ^ 63 }
    ensures { result ≡ distinct + first_use before }
{
    if before == 0 { distinct + 1 } else { distinct }
}
