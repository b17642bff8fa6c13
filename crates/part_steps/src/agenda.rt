//! Which parts are marked, and the list of those that can be evaluated.
ghost use Rattle.std.specs.Prelude.{◌≡◌, ℕ, ◌<◌, ◌↔◌, ◌+◌, ◌++◌, ◌∷◌, true, false, slice_set, slice_index_or, length, map, replicate, vec_capacity, [], All, Contains, IfOk, IfSome, OnOk, OnErr};
ghost use Rattle.std.specs.List.{range_with_len};
ghost use Rattle.std.specs.Bool.{OnTrue};
ghost use Rattle.std.specs.Option.{IfNone};
ghost use Rattle.machine_parts.specs.Marking.{IsMarked, count_marked, MarksAll};

use std::alloc::{AllocError, Global};
use std::marker::Model;

/// A mark for each part. The marked parts stand in a list, but for those that are stale, which wait.
#[derive(Drop)]
pub struct Agenda {
    marks: Vec<bool>,
    waits: Vec<bool>,
    work: Vec<usize>,
    // how many wait, and a list that has all of these
    stale: usize,
    waiters: Vec<usize>,
}

impl Model for Agenda {
    ghost use Rattle.std.specs.Prelude.{vec_capacity};
    ghost use Rattle.machine_parts.specs.Marking.{AgendaData, IsAgenda};

    ghost Value = { AgendaData };

    ghost view = { λ agenda. record { marks = agenda.marks.items; waiting = agenda.waits.items } };

    ghost invariant = { λ agenda. IsAgenda agenda.marks.items agenda.waits.items agenda.work.items agenda.waiters.items agenda.stale (vec_capacity agenda.work) };
}

impl Agenda {
    /// All of so many parts are marked, and none waits.
    pub fn all(alloc: Global, parts: usize) -> Result<Agenda, AllocError>
        ensures marks { IfOk result (λ agenda. agenda.marks ≡ replicate parts true) }
        ensures waiting { IfOk result (λ agenda. agenda.waiting ≡ replicate parts false) }
    {
        let work = numbers_below(alloc, parts)?;
        Ok(Agenda {
            marks: vec![in alloc; true; parts]?,
            waits: vec![in alloc; false; parts]?,
            work,
            stale: 0,
            waiters: Vec::new(alloc),
        })
    }

    /// So many parts that can be evaluated, and behind them so many that are stale and wait. All are marked.
    pub fn with_stale(alloc: Global, ready: usize, stale: usize) -> Result<Agenda, AllocError>
        ensures marks { IfOk result (λ agenda. agenda.marks ≡ replicate (ready + stale) true) }
        ensures waiting { IfOk result (λ agenda. agenda.waiting ≡ replicate ready false ++ replicate stale true) }
    {
        let mut agenda = Agenda::all(alloc, ready)?;
        for _part in 0..stale {
            agenda.wait_more()?;
        }
        Ok(agenda)
    }

    /// How many parts are marked.
    pub fn marked(&self) -> usize
        ensures { result ≡ count_marked self.now.marks }
    {
        self.work.len() + self.stale
    }

    /// Whether this part is marked.
    pub fn is_marked(&self, k: usize) -> bool
        requires { k < length self.now.marks }
        ensures { result ≡ slice_index_or self.now.marks k false }
    {
        self.marks[k]
    }

    /// Whether no part waits.
    pub fn none_waits(&self) -> bool
        ensures { OnTrue result ((k : ℕ) → ¬ IsMarked self.now.waiting k) }
    {
        self.stale == 0
    }

    /// Whether this part waits.
    pub fn does_wait(&self, k: usize) -> bool
        requires { k < length self.now.marks }
        ensures { result ≡ slice_index_or self.now.waiting k false }
    {
        self.waits[k]
    }

    /// All parts that wait are among these, each below the number of parts; some of them may not wait any
    /// more.
    pub fn waiters(&self) -> &[usize]
        ensures all { (k : ℕ) → IsMarked self.now.waiting k → Contains result.now k }
        ensures inside { All (λ k. k < length self.now.marks) result.now }
    {
        &self.waiters
    }

    /// These parts can be evaluated from now on, and those of the others that wait go on waiting. All marks stay.
    pub fn make_ready(&mut self, these: &[usize])
        requires { All (λ k. k < length self.old.marks) these.now }
        ensures marks { self.new.marks ≡ self.old.marks }
        ensures waiting { (k : ℕ) → IsMarked self.new.waiting k ↔ (IsMarked self.old.waiting k × (¬ Contains these.now k)) }
    {
        self.release_all(these);
        keep_waiting(&self.waits, &mut self.waiters);
    }

    // Lets these parts go on without waiting.
    fn release_all(&mut self, these: &[usize])
        requires { All (λ k. k < length self.old.marks) these.now }
        ensures marks { self.new.marks ≡ self.old.marks }
        ensures waiting { (k : ℕ) → IsMarked self.new.waiting k ↔ (IsMarked self.old.waiting k × (¬ Contains these.now k)) }
    {
        for &k in these {
            self.release(k);
        }
    }

    /// Marks a part. Marking twice is one mark.
    pub fn mark(&mut self, k: usize)
        requires { k < length self.old.marks }
        ensures marks { self.new.marks ≡ slice_set self.old.marks k true }
        ensures waiting { self.new.waiting ≡ self.old.waiting }
    {
        if !self.marks[k] {
            self.marks[k] = true;
            self.work.push_reserved(k);
        }
    }

    // Takes a marked part that can be evaluated out of the list, and clears its mark; None if only
    // stale parts are marked.
    pub(crate) fn pop(&mut self) -> Option<usize>
        ensures waiting { self.new.waiting ≡ self.old.waiting }
        ensures marked { IfSome result (λ k. IsMarked self.old.marks k) }
        ensures ready { IfSome result (λ k. ¬ IsMarked self.old.waiting k) }
        ensures cleared { IfSome result (λ k. self.new.marks ≡ slice_set self.old.marks k false) }
        ensures none { IfNone result (self.new.marks ≡ self.old.marks) }
        ensures rest { IfNone result ((k : ℕ) → IsMarked self.old.marks k → IsMarked self.old.waiting k) }
    {
        let k = self.work.pop()?;
        self.marks[k] = false;
        Some(k)
    }

    /// Takes the marks off all parts but those that wait.
    pub fn clear(&mut self)
        ensures marks { (k : ℕ) → IsMarked self.new.marks k ↔ IsMarked self.old.waiting k }
        ensures count { length self.new.marks ≡ length self.old.marks }
        ensures waiting { self.new.waiting ≡ self.old.waiting }
    {
        while let Some(_part) = self.pop() {}
        self.waiting_parts_are_marked();
    }

    /// Lets a part that is stale go on without waiting: it stays marked.
    pub fn release(&mut self, k: usize)
        requires { k < length self.old.marks }
        ensures marks { self.new.marks ≡ self.old.marks }
        ensures waiting { self.new.waiting ≡ slice_set self.old.waiting k false }
    {
        if self.waits[k] {
            self.waits[k] = false;
            self.stale -= 1;
            self.work.push_reserved(k);
        }
    }

    /// What waits is marked.
    pub fn waiting_parts_are_marked(&self)
        ensures { (k : ℕ) → IsMarked self.now.waiting k → IsMarked self.now.marks k }
    {
        let _count = self.work.len();
    }

    /// Adds a stale part, which is marked and waits.
    pub fn wait_more(&mut self) -> Result<(), AllocError>
        ensures ok { OnOk result (self.new ≡ record { marks = self.old.marks ++ true ∷ []; waiting = self.old.waiting ++ true ∷ [] }) }
        ensures err { OnErr result (self.new ≡ self.old) }
        ensures counted { length self.old.waiting ≡ length self.old.marks }
    {
        self.marks.reserve(1)?;
        self.waits.reserve(1)?;
        self.work.reserve(self.marks.len() + 1 - self.work.len())?;
        self.waiters.push(self.marks.len())?;
        self.marks.push_reserved(true);
        self.waits.push_reserved(true);
        self.stale += 1;
        Ok(())
    }
}

// Takes those parts out of a list that don't wait.
fn keep_waiting(waits: &[bool], list: &mut Vec<usize>)
    requires { All (λ k. k < length waits.now) list.old.items }
    ensures all { (k : ℕ) → IsMarked waits.now k → Contains list.old.items k → Contains list.new.items k }
    ensures inside { All (λ k. k < length waits.now) list.new.items }
{
    let mut place = 0;
    while place < list.len() {
        if waits[list[place]] {
            place += 1;
        } else {
            list.swap_remove(place);
        }
    }
}

/// Marks all of these parts.
pub fn mark_all(parts: &[usize], agenda: &mut Agenda)
    requires { (k : ℕ) → Contains parts.now k → k < length agenda.old.marks }
    ensures marks { MarksAll (Contains parts.now) agenda.old.marks agenda.new.marks }
    ensures waiting { agenda.new.waiting ≡ agenda.old.waiting }
{
    for k in parts {
        agenda.mark(*k);
    }
}

/// The numbers of so many parts, in order.
pub fn numbers_below(alloc: Global, count: usize) -> Result<Vec<usize>, AllocError>
    ensures numbers { IfOk result (λ list. list.items ≡ map (λ k. k) (range_with_len 0 count)) }
    ensures room { IfOk result (λ list. vec_capacity list ≡ count) }
{
    let mut list = Vec::with_capacity(alloc, count)?;
    for k in 0..count {
        list.push_reserved(k);
    }
    Ok(list)
}
