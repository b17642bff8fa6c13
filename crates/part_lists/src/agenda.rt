//! Which parts are marked, and the list of these.
ghost use Rattle.std.specs.Prelude.{◌≡◌, ℕ, ◌<◌, [], ◌∷◌, ◌++◌, true, false, slice_set, length, replicate, Contains, IfOk, IfSome, OnOk, OnErr};
ghost use Rattle.std.specs.Option.{IfNone};
ghost use Rattle.machine_parts.specs.Marking.{IsMarked, MarksAll};
ghost use Rattle.part_lists.specs.Growing.{AddsMarked};

use part_steps::numbers_below;
use std::alloc::{AllocError, Global};
use std::marker::Model;

/// A mark for each part; the marked ones stand in a list. Contracts see the marks.
#[derive(Drop)]
pub struct Agenda {
    marks: Vec<bool>,
    work: Vec<usize>,
}

impl Model for Agenda {
    ghost use Rattle.std.specs.Prelude.{Bool, List, vec_capacity};
    ghost use Rattle.machine_parts.specs.Marking.{ListsMarked};

    ghost Value = { List Bool };

    ghost view = { λ agenda. agenda.marks.items };

    ghost invariant = { λ agenda. ListsMarked agenda.marks.items agenda.work.items (vec_capacity agenda.work) };
}

impl Agenda {
    /// All of so many parts are marked.
    pub fn all(alloc: Global, parts: usize) -> Result<Agenda, AllocError>
        ensures { IfOk result (λ agenda. agenda ≡ replicate parts true) }
    {
        let work = numbers_below(alloc, parts)?;
        Ok(Agenda {
            marks: vec![in alloc; true; parts]?,
            work,
        })
    }

    /// Marks a part. Marking twice is one mark.
    pub fn mark(&mut self, k: usize)
        requires { k < length self.old }
        ensures { self.new ≡ slice_set self.old k true }
    {
        if !self.marks[k] {
            self.marks[k] = true;
            self.work.push_reserved(k);
        }
    }

    /// How many parts there are.
    pub fn parts(&self) -> usize
        ensures { result ≡ length self.now }
    {
        self.marks.len()
    }

    /// Adds a part, which is marked. Out of memory the marks stay.
    pub fn add(&mut self) -> Result<(), AllocError>
        ensures ok { OnOk result (self.new ≡ self.old ++ true ∷ []) }
        ensures err { OnErr result (self.new ≡ self.old) }
    {
        self.marks.reserve(1)?;
        let more = (self.marks.len() + 1).saturating_sub(self.work.len());
        self.work.reserve(more)?;
        self.work.push_reserved(self.marks.len());
        self.marks.push_reserved(true);
        Ok(())
    }

    /// Takes a marked part out of the list, and clears its mark; None if none is marked.
    pub fn pop(&mut self) -> Option<usize>
        ensures marked { IfSome result (λ k. IsMarked self.old k) }
        ensures cleared { IfSome result (λ k. self.new ≡ slice_set self.old k false) }
        ensures none { IfNone result (self.new ≡ self.old) }
        ensures rest { IfNone result ((k : ℕ) → ¬ IsMarked self.old k) }
    {
        let k = self.work.pop()?;
        self.marks[k] = false;
        Some(k)
    }
}

/// Marks all of these parts.
pub fn mark_all(parts: &[usize], agenda: &mut Agenda)
    requires { (k : ℕ) → Contains parts.now k → k < length agenda.old }
    ensures { MarksAll (Contains parts.now) agenda.old agenda.new }
{
    for k in parts {
        agenda.mark(*k);
    }
}

/// Adds parts that are marked, up to so many. Out of memory some may be there.
pub fn add_marked(parts: usize, agenda: &mut Agenda) -> Result<(), AllocError>
    ensures { OnOk result (AddsMarked parts agenda.old agenda.new) }
{
    for _part in agenda.parts()..parts {
        agenda.add()?;
    }
    Ok(())
}
