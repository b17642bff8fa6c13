//! Texts with their codes, in the order of their last use.
ghost use Rattle.std.specs.Prelude.{◌≡◌, ◌-◌, ◌^◌, ◌<◌, [], ◌∷◌, ◌++◌, length, map, take, option_map, slice_get, All, Contains, IsTrue, false, IfOk, OnOk, OnErr, IfSome, is_none, not, is_some};
ghost use Rattle.std.specs.List.{IsDistinct};
ghost use Rattle.std.specs.Map.{keys_of, lookup};
ghost use Rattle.lru.specs.LruCache.{lru_cache};
ghost use Rattle.group_analysis.specs.Words.{MeansText, room_for, to_front, used_texts};
ghost use Rattle.group_text.specs.Words.{first_texts, is_among, same_text};
ghost use Rattle.analysis_cache.specs.Words.{StartsWith, Entry, IsKept, entry_texts};
ghost use Rattle.std.specs.Option.{option_map_or};

use group_text::GroupText;
use lru::LruCache;
use std::alloc::Global;
use std::marker::Model;
use std::rc::Rc;
use straight_code::Code;
use table_keys::TableKeys;
use ternary::NoMemory;

type Codes = LruCache<GroupText, Rc<Code>, TableKeys>;

/// Texts with their codes, the most recently used first.
#[derive(Drop)]
pub(crate) struct Recent {
    alloc: Global,
    keys: TableKeys,
    // made with the first text, since a table takes memory
    codes: Option<Codes>,
}

impl Model for Recent {
    ghost use Rattle.std.specs.Prelude.{List};
    ghost use Rattle.analysis_cache.specs.Keeping.{Entry, IsKept};
    ghost use Rattle.analysis_cache.specs.Table.{entries_in, IsRoomy};

    ghost Value = { List Entry };

    ghost view = { λ recent. entries_in recent.codes };

    ghost invariant = { λ recent. IsKept (entries_in recent.codes) × IsRoomy recent.codes };
}

impl Recent {
    // No text. The hashes of texts start from these keys.
    pub(crate) fn new(alloc: Global, keys: TableKeys) -> Recent
        ensures { result ≡ [] }
    {
        Recent {
            alloc,
            keys,
            codes: None,
        }
    }

    // The keys from which the hashes of texts start.
    pub(crate) fn keys(&self) -> TableKeys {
        self.keys
    }

    // How many texts there are.
    pub(crate) fn size(&self) -> usize
        ensures size { result ≡ length self.now }
        ensures kept { IsKept self.now }
    {
        match &self.codes {
            None => 0,
            Some(codes) => codes.len(),
        }
    }

    // The code of a text, None exactly if it isn't here.
    pub(crate) fn code(&self, text: &GroupText) -> Option<&Rc<Code>>
        ensures code { option_map (λ code. code.now.value) result ≡ lookup (same_text text.now) self.now }
        ensures means { IfSome result (λ code. MeansText text.now code.now.value) }
        ensures none { is_none result ≡ not (is_among (entry_texts self.now) text.now) }
    {
        match &self.codes {
            None => None,
            Some(codes) => codes.peek(text),
        }
    }

    // Puts a text that isn't here, with its code, behind all others.
    pub(crate) fn push(&mut self, text: &GroupText, code: Rc<Code>) -> Result<(), NoMemory>
        requires absent { is_among (entry_texts self.old) text.now ≡ false }
        requires means { MeansText text.now code.value }
        ensures ok { OnOk result (self.new ≡ self.old ++ (text.now, code.value) ∷ []) }
        ensures err { OnErr result (self.new ≡ self.old) }
    {
        let key = text.copy(self.alloc)?;
        if let Some(codes) = &mut self.codes {
            return put_last(codes, key, text, code);
        }
        let mut codes = first_codes(self.alloc, self.keys)?;
        put_last(&mut codes, key, text, code)?;
        self.codes = Some(codes);
        Ok(())
    }

    // Moves a text to the front.
    pub(crate) fn use_text(&mut self, text: &GroupText)
        requires { IsTrue (is_among (entry_texts self.old) text.now) }
        ensures texts { entry_texts self.new ≡ to_front text.now (entry_texts self.old) }
        ensures same { (entry : Entry) → Contains self.new entry → Contains self.old entry }
    {
        let Some(codes) = &mut self.codes else {
            return;
        };
        codes.promote(text);
        texts_are_apart(codes);
    }

    // Moves these texts to the front, in order of first appearance: the last one first.
    pub(crate) fn use_all(&mut self, texts: &[GroupText])
        requires { All (λ text. IsTrue (is_among (entry_texts self.old) text)) texts.now }
        ensures texts { entry_texts self.new ≡ used_texts texts.now (entry_texts self.old) }
        ensures same { (entry : Entry) → Contains self.new entry → Contains self.old entry }
    {
        let mut left = texts.len();
        while left > 0 {
            left -= 1;
            self.use_text(&texts[left]);
        }
    }

    // For how many texts there is room: so many as the bound, or as there are distinct ones among these,
    // which stand in front, if these are more.
    pub(crate) fn room(&self, bound: u64, texts: &[GroupText]) -> usize
        requires { StartsWith (first_texts texts.now) (entry_texts self.now) }
        ensures { result ≡ room_for bound texts.now }
    {
        if texts.len() as u64 <= bound {
            return bound as usize;
        }
        let distinct = match &self.codes {
            None => 0,
            Some(codes) => count_front(codes, texts),
        };
        distinct.max(bound as usize)
    }

    // Takes out the last text.
    pub(crate) fn pop(&mut self) -> Option<GroupText>
        ensures text { result ≡ slice_get (entry_texts self.old) (length self.old - 1) }
        ensures rest { self.new ≡ take (length self.old - 1) self.old }
    {
        let Some(codes) = &mut self.codes else {
            return None;
        };
        let (text, _) = codes.pop_lru()?;
        texts_are_apart(codes);
        Some(text)
    }
}

// How many of these texts are distinct, where they stand in front, in order of first appearance.
//
// Each text is compared with the next one in front: it is that one where it appears first, and one that
// was passed else. So none is hashed.
fn count_front(codes: &Codes, texts: &[GroupText]) -> usize
    requires { StartsWith (first_texts texts.now) (keys_of codes.now.entries) }
    ensures { result ≡ length (first_texts texts.now) }
{
    texts_are_apart(codes);
    let mut count = 0;
    let mut front = codes.iter();
    let mut next = front.next();
    for text in texts {
        if is_of(text, next) {
            count += 1;
            next = front.next();
        }
    }
    count
}

// Whether the text is that of the entry.
fn is_of(text: &GroupText, entry: Option<(&GroupText, &Rc<Code>)>) -> bool
    ensures { result ≡ option_map_or (λ one. same_text text.now one.0.now) entry.entry false }
{
    match entry {
        None => false,
        Some((key, _)) => text == key,
    }
}

// A table with no text.
fn first_codes(alloc: Global, keys: TableKeys) -> Result<Codes, NoMemory>
    ensures { IfOk result (λ codes. codes ≡ lru_cache [] (2 ^ 64 - 1)) }
{
    Ok(Codes::unbounded_with_hasher(alloc, keys)?)
}

// The law of tables: no text stands twice, and there are fewer than would push another out.
fn texts_are_apart(codes: &Codes)
    ensures apart { IsDistinct same_text (keys_of codes.now.entries) }
    ensures fits { length codes.now.entries < 2 ^ 63 }
{
    codes.len();
}

// Puts the copy of a text that isn't in the table, with its code, behind all others.
fn put_last(
    codes: &mut Codes,
    key: GroupText,
    text: &GroupText,
    code: Rc<Code>,
) -> Result<(), NoMemory>
    requires same { key ≡ text.now }
    requires absent { is_among (keys_of codes.old.entries) text.now ≡ false }
    requires roomy { codes.old.cap ≡ 2 ^ 64 - 1 }
    ensures ok { OnOk result (codes.new ≡ lru_cache (codes.old.entries ++ (text.now, code) ∷ []) codes.old.cap) }
    ensures apart { OnOk result (IsDistinct same_text (keys_of codes.new.entries)) }
    ensures err { OnErr result (codes.new ≡ codes.old) }
{
    texts_are_apart(codes);
    codes.put(key, code).map_err(|_| NoMemory)?;
    codes.demote(text);
    texts_are_apart(codes);
    Ok(())
}
