ghost use Rattle.std.specs.Prelude.{◌≡◌, ◌<◌, ◌≤◌, ◌-◌, ℕ, max, length, List, [], option_map, All, None, Some, IsTrue, false, take, drop, IfOk, IfSome, OnOk, OnErr, is_none, not, Contains};
ghost use Rattle.group_analysis.specs.Words.{MeansText, set_of, without_texts, used_texts, within, past, kept_after, cut_after, to_front};
ghost use Rattle.group_text.specs.Words.{first_texts, is_among, GroupTextData};
ghost use Rattle.analysis_cache.specs.Words.{Entry, IsKept, code_in, KeepsAll, KeepsSome, texts_of, AddsText, FillsAll, LacksText, StartsWith, HoldsKept, HoldsNearlyKept};

use crate::recent::Recent;
use group_analysis::Analyst;
use group_text::GroupText;
use std::alloc::Global;
use std::marker::Model;
use std::rc::Rc;
use straight_code::Code;
use table_keys::TableKeys;
use ternary::NoMemory;

/// Analyses that are kept: code under the texts that it means, the most recently used first, and perhaps
/// a bound on their number.
#[derive(Drop)]
pub struct Kept {
    alloc: Global,
    recent: Recent,
    bound: Option<u64>,
}

impl Model for Kept {
    ghost use Rattle.analysis_cache.specs.Keeping.{KeptData};

    ghost Value = { KeptData };

    ghost view = { λ kept. record { entries = kept.recent; bound = kept.bound } };
}

impl Kept {
    /// Nothing is kept, and there is no bound. The table's hashes start from keys that are the same in
    /// every run.
    pub fn new(alloc: Global) -> Kept
        ensures { result ≡ record { entries = []; bound = None } }
    {
        Kept::with_keys(alloc, TableKeys::fixed())
    }

    /// Nothing is kept, and there is no bound. The table's hashes start from these keys: texts of a circuit
    /// that others wrote want keys that were drawn.
    pub fn with_keys(alloc: Global, keys: TableKeys) -> Kept
        ensures { result ≡ record { entries = []; bound = None } }
    {
        Kept {
            alloc,
            recent: Recent::new(alloc, keys),
            bound: None,
        }
    }

    /// The keys from which the hashes of texts start.
    pub fn keys(&self) -> TableKeys {
        self.recent.keys()
    }

    /// How many texts are kept, none of them twice.
    pub fn size(&self) -> usize
        ensures size { result ≡ length self.now.entries }
        ensures kept { IsKept self.now.entries }
    {
        self.recent.size()
    }

    /// The code of a text, None exactly if the text isn't kept. It takes no memory, and isn't a use of
    /// the text.
    pub fn code(&self, text: &GroupText) -> Option<&Rc<Code>>
        ensures code { option_map (λ code. code.now.value) result ≡ code_in self.now text.now }
        ensures means { IfSome result (λ code. MeansText text.now code.now.value) }
        ensures none { is_none result ≡ not (is_among (texts_of self.now) text.now) }
    {
        self.recent.code(text)
    }

    /// The bound on the number of texts, if there is one.
    pub fn bound(&self) -> Option<u64>
        ensures { result ≡ self.now.bound }
    {
        self.bound
    }

    /// Sets the bound on the number of texts, or takes it away. It takes effect at the next build, and
    /// takes no memory.
    pub fn set_bound(&mut self, bound: Option<u64>)
        ensures { self.new ≡ record { entries = self.old.entries; bound = bound } }
    {
        self.bound = bound;
    }

    /// Has the new ones of these present texts analysed, and keeps their codes: afterwards all of the texts
    /// are kept, in front of all others.
    ///
    /// The present texts come first, in order of first appearance, and after them the other kept texts in
    /// their order. If there is a bound, what is past it is cut, but no present text; the analyst
    /// releases what is cut, and is compacted. The answer is how many texts were new. Out of memory a
    /// front of the new texts was analysed and is kept behind what was kept, at most the next one was
    /// analysed without being kept, and nothing was moved or cut.
    pub fn ensure<A: Analyst>(
        &mut self,
        texts: &[GroupText],
        analyst: &mut A,
    ) -> Result<u64, NoMemory>
        ensures ok { IfOk result (λ count. KeepsAll self.old self.new (A.analysed analyst.old) (A.analysed analyst.new)
            (A.held analyst.old) (A.held analyst.new) texts.now count) }
        ensures there { OnOk result (All (λ text. IsTrue (is_among (texts_of self.new) text)) texts.now) }
        ensures err { OnErr result (KeepsSome self.old self.new (A.analysed analyst.old) (A.analysed analyst.new)
            (A.held analyst.old) (A.held analyst.new) texts.now) }
        ensures holds { OnOk result (HoldsKept self.old (A.held analyst.old) → HoldsKept self.new (A.held analyst.new)) }
        ensures nearly { OnErr result (HoldsKept self.old (A.held analyst.old) → HoldsNearlyKept self.new (A.held analyst.new)) }
    {
        let fresh = self.fill(texts, analyst)?;
        self.put_first(texts, analyst);
        Ok(fresh)
    }

    /// Has the new ones of these texts analysed, and keeps their codes behind what is kept: the first half of
    /// `ensure`, which alone can lack memory. Nothing is moved or cut. The answer is how many texts were new.
    pub fn fill<A: Analyst>(
        &mut self,
        texts: &[GroupText],
        analyst: &mut A,
    ) -> Result<u64, NoMemory>
        ensures ok { IfOk result (λ count. FillsAll self.old self.new (A.analysed analyst.old) (A.analysed analyst.new)
            (A.held analyst.old) (A.held analyst.new) texts.now count) }
        ensures there { OnOk result (All (λ text. IsTrue (is_among (texts_of self.new) text)) texts.now) }
        ensures err { OnErr result (KeepsSome self.old self.new (A.analysed analyst.old) (A.analysed analyst.new)
            (A.held analyst.old) (A.held analyst.new) texts.now) }
        ensures holds { OnOk result (HoldsKept self.old (A.held analyst.old) → HoldsKept self.new (A.held analyst.new)) }
        ensures nearly { OnErr result (HoldsKept self.old (A.held analyst.old) → HoldsNearlyKept self.new (A.held analyst.new)) }
    {
        let before = self.size();
        for text in texts {
            if self.code(text).is_none() {
                self.add(text, analyst)?;
            }
        }
        Ok((self.size() - before) as u64)
    }

    /// Moves these texts, which are kept, to the front, in order of first appearance, and cuts what is past the
    /// bound, if there is one, but none of these texts: the second half of `ensure`, which has no refusal.
    ///
    /// The analyst releases what is cut, and is compacted if that was something and there is memory for it.
    pub fn put_first<A: Analyst>(&mut self, texts: &[GroupText], analyst: &mut A)
        requires { All (λ text. IsTrue (is_among (texts_of self.old) text)) texts.now }
        ensures texts { texts_of self.new ≡ kept_after self.old.bound texts.now (texts_of self.old) }
        ensures same { (entry : Entry) → Contains self.new.entries entry → Contains self.old.entries entry }
        ensures bound { self.new.bound ≡ self.old.bound }
        ensures analysed { A.analysed analyst.new ≡ A.analysed analyst.old }
        ensures held { A.held analyst.new ≡ without_texts (A.held analyst.old) (cut_after self.old.bound texts.now (texts_of self.old)) }
        ensures holds { HoldsKept self.old (A.held analyst.old) → HoldsKept self.new (A.held analyst.new) }
    {
        self.use_all(texts);
        self.cut(texts, analyst);
    }

    /// Moves a text, which is kept, to the front. It takes no memory.
    pub fn use_text(&mut self, text: &GroupText)
        requires { IsTrue (is_among (texts_of self.old) text.now) }
        ensures texts { texts_of self.new ≡ to_front text.now (texts_of self.old) }
        ensures set { set_of (texts_of self.new) ≡ set_of (texts_of self.old) }
        ensures same { (entry : Entry) → Contains self.new.entries entry → Contains self.old.entries entry }
        ensures bound { self.new.bound ≡ self.old.bound }
    {
        self.recent.use_text(text);
    }

    // Has a text analysed that isn't kept, and keeps its code behind what is kept.
    fn add<A: Analyst>(&mut self, text: &GroupText, analyst: &mut A) -> Result<(), NoMemory>
        requires { is_among (texts_of self.old) text.now ≡ false }
        ensures ok { OnOk result (AddsText self.old self.new (A.analysed analyst.old) (A.analysed analyst.new)
            (A.held analyst.old) (A.held analyst.new) text.now) }
        ensures err { OnErr result (LacksText self.old self.new (A.analysed analyst.old) (A.analysed analyst.new)
            (A.held analyst.old) (A.held analyst.new) text.now) }
    {
        let code = analyst.analyse(self.alloc, text)?;
        let shared = share(self.alloc, code)?;
        self.recent.push(text, shared)
    }

    // Moves these texts, which are kept, to the front, in order of first appearance.
    fn use_all(&mut self, texts: &[GroupText])
        requires { All (λ text. IsTrue (is_among (texts_of self.old) text)) texts.now }
        ensures texts { texts_of self.new ≡ used_texts texts.now (texts_of self.old) }
        ensures set { set_of (texts_of self.new) ≡ set_of (texts_of self.old) }
        ensures same { (entry : Entry) → Contains self.new.entries entry → Contains self.old.entries entry }
        ensures bound { self.new.bound ≡ self.old.bound }
    {
        self.recent.use_all(texts);
    }

    // Cuts what is past the bound, but none of these texts, which stand in front.
    fn cut<A: Analyst>(&mut self, texts: &[GroupText], analyst: &mut A)
        requires { StartsWith (first_texts texts.now) (texts_of self.old) }
        ensures entries { texts_of self.new ≡ within self.old.bound texts.now (texts_of self.old) }
        ensures same { (entry : Entry) → Contains self.new.entries entry → Contains self.old.entries entry }
        ensures bound { self.new.bound ≡ self.old.bound }
        ensures analysed { A.analysed analyst.new ≡ A.analysed analyst.old }
        ensures held { A.held analyst.new ≡ without_texts (A.held analyst.old) (past self.old.bound texts.now (texts_of self.old)) }
        ensures holds { HoldsKept self.old (A.held analyst.old) → HoldsKept self.new (A.held analyst.new) }
    {
        let Some(bound) = self.bound else {
            return;
        };
        if self.size() as u64 <= bound {
            return;
        }
        let room = self.recent.room(bound, texts);
        self.cut_to(room, analyst);
    }

    /// Cuts all but the first so many texts, whatever the bound is. It takes no memory but for the smaller pool.
    ///
    /// The analyst releases what is cut, and is compacted if that was something.
    pub fn cut_to<A: Analyst>(&mut self, room: usize, analyst: &mut A)
        ensures entries { self.new.entries ≡ take room self.old.entries }
        ensures bound { self.new.bound ≡ self.old.bound }
        ensures analysed { A.analysed analyst.new ≡ A.analysed analyst.old }
        ensures held { A.held analyst.new ≡ without_texts (A.held analyst.old) (drop room (texts_of self.old)) }
        ensures holds { HoldsKept self.old (A.held analyst.old) → HoldsKept self.new (A.held analyst.new) }
    {
        if self.size() <= room {
            return;
        }
        self.release_past(room, analyst);
        // The texts that were cut are gone, whether or not there is memory for a smaller pool.
        let _ = analyst.compact();
    }

    // Cuts all but the first so many texts, the last one first.
    fn release_past<A: Analyst>(&mut self, room: usize, analyst: &mut A)
        requires { room ≤ length self.old.entries }
        ensures entries { self.new.entries ≡ take room self.old.entries }
        ensures bound { self.new.bound ≡ self.old.bound }
        ensures analysed { A.analysed analyst.new ≡ A.analysed analyst.old }
        ensures held { A.held analyst.new ≡ without_texts (A.held analyst.old) (drop room (texts_of self.old)) }
    {
        while self.size() > room {
            if let Some(text) = self.recent.pop() {
                analyst.release(&text);
            }
        }
    }
}

// Code that groups can share.
fn share(alloc: Global, code: Code) -> Result<Rc<Code>, NoMemory>
    ensures { IfOk result (λ shared. shared.value ≡ code) }
{
    Rc::new(alloc, code).map_err(|_| NoMemory)
}
