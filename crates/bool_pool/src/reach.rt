ghost use Rattle.std.specs.Prelude.{◌≡◌, ℕ, ◌+◌, ◌^◌, ◌<◌, ◌≤◌, ◌⊎◌, ◌↔◌, [], ◌∷◌, ◌++◌, length, All, Contains, IfOk, IfSome, OnOk};
ghost use Rattle.std.specs.Option.{IfNone};
ghost use Rattle.std.specs.List.Sorted.{IsStrictlyIncreasing};
ghost use Rattle.bool_pool.specs.Gate.{IsOperand};
ghost use Rattle.bool_pool.specs.Reach.{AnyReaches};
ghost use Rattle.bool_pool.specs.Collecting.{IsMarkedFrom, Waits, AreApart, IsTakenOut};

use crate::{Gate, Id, Pool};
use std::alloc::{AllocError, Global};
use std::collections::BTreeSet;

impl Pool {
    /// The places that the formulas at these places reach, in ascending order.
    ///
    /// The cost goes by the gates that are reached, whatever else the pool has. Lack of memory is the
    /// only error.
    pub fn reached_places(
        &self,
        alloc: Global,
        roots: BTreeSet<usize>,
    ) -> Result<Vec<usize>, AllocError>
        requires { All (λ place. place < length self.now) roots.keys }
        ensures ascending { IfOk result (λ places. IsStrictlyIncreasing places.items) }
        ensures each { IfOk result (λ places. (place : ℕ) →
            Contains places.items place ↔ AnyReaches self.now roots.keys place) }
    {
        // The greatest place that waits is taken out first: the operands of its gate stand before it.
        let mut waiting = Waiting {
            older: roots,
            bottom: self.size(),
            marks: Vec::new(alloc),
            found: 0,
        };
        let mut places = Vec::new(alloc);
        while let Some(place) = waiting.take(alloc, places.len())? {
            places.push(place)?;
            waiting.insert_operands(self.gate(Id { place }))?;
        }
        places.reverse();
        Ok(places)
    }
}

// Places that wait. Those right below the one that was taken out last have marks, in a window whose size
// goes by the number of places that were taken out of the window before it. So all windows together
// have at most 48 places for each one that is taken out.
#[derive(Drop)]
struct Waiting {
    // those below the window
    older: BTreeSet<usize>,
    // the first place of the window
    bottom: usize,
    // whether each place of the window waits; the last ones are cut off as places are taken out
    marks: Vec<bool>,
    // how many places had been taken out when the window was made
    found: usize,
}

impl Waiting {
    // Takes out the greatest place that waits; None if none waits. So many were taken out before.
    fn take(&mut self, alloc: Global, found: usize) -> Result<Option<usize>, AllocError>
        requires { AreApart self.old.older.keys self.old.bottom self.old.marks.items }
        ensures apart { OnOk result (AreApart self.new.older.keys self.new.bottom self.new.marks.items) }
        ensures taken { IfOk result (λ taken. IfSome taken (λ place. IsTakenOut
            (Waits self.old.older.keys self.old.bottom self.old.marks.items)
            (Waits self.new.older.keys self.new.bottom self.new.marks.items) place)) }
        ensures room { IfOk result (λ taken. IfSome taken (λ place. place ≡ self.new.bottom + length self.new.marks.items)) }
        ensures none { IfOk result (λ taken. IfNone taken ((k : ℕ)
            → ¬ Waits self.old.older.keys self.old.bottom self.old.marks.items k)) }
    {
        if let Some(place) = take_marked(self.bottom, &mut self.marks) {
            return Ok(Some(place));
        }
        let Some(place) = self.older.pop_last() else {
            return Ok(None);
        };
        self.open_window(alloc, place, found)?;
        Ok(Some(place))
    }

    // Makes a window of places right below this one.
    fn open_window(&mut self, alloc: Global, place: usize, found: usize) -> Result<(), AllocError>
        requires { (k : ℕ) → Contains self.old.older.keys k → k < place }
        ensures apart { OnOk result (AreApart self.new.older.keys self.new.bottom self.new.marks.items) }
        ensures each { OnOk result ((k : ℕ) → Waits self.new.older.keys self.new.bottom self.new.marks.items k
            ↔ Contains self.old.older.keys k) }
        ensures room { OnOk result (place ≡ self.new.bottom + length self.new.marks.items) }
    {
        let size = window_size(place, found.saturating_sub(self.found));
        let bottom = place - size;
        let mut marks = vec![in alloc; false; size]?;
        mark_newer(&mut self.older, bottom, &mut marks);
        self.bottom = bottom;
        self.marks = marks;
        self.found = found;
        Ok(())
    }

    // Inserts the places of a gate's operands.
    fn insert_operands(&mut self, gate: Gate) -> Result<(), AllocError>
        requires apart { AreApart self.old.older.keys self.old.bottom self.old.marks.items }
        requires inside { (k : ℕ) → IsOperand gate k → k < self.old.bottom + length self.old.marks.items }
        ensures apart { OnOk result (AreApart self.new.older.keys self.new.bottom self.new.marks.items) }
        ensures each { OnOk result ((k : ℕ) → Waits self.new.older.keys self.new.bottom self.new.marks.items k
            ↔ (Waits self.old.older.keys self.old.bottom self.old.marks.items k ⊎ IsOperand gate k)) }
    {
        match gate {
            Gate::False | Gate::True | Gate::Var(_) => {}
            Gate::Not(a) => self.insert(a.place)?,
            Gate::And(a, b) | Gate::Or(a, b) => {
                self.insert(a.place)?;
                self.insert(b.place)?;
            }
        }
        Ok(())
    }

    // Inserts a place.
    fn insert(&mut self, place: usize) -> Result<(), AllocError>
        requires apart { AreApart self.old.older.keys self.old.bottom self.old.marks.items }
        requires inside { place < self.old.bottom + length self.old.marks.items }
        ensures apart { OnOk result (AreApart self.new.older.keys self.new.bottom self.new.marks.items) }
        ensures room { OnOk result (self.new.bottom + length self.new.marks.items
            ≡ self.old.bottom + length self.old.marks.items) }
        ensures each { OnOk result ((k : ℕ) → Waits self.new.older.keys self.new.bottom self.new.marks.items k
            ↔ (Waits self.old.older.keys self.old.bottom self.old.marks.items k ⊎ (k ≡ place))) }
    {
        if place < self.bottom {
            self.older.insert(place)?;
        } else {
            self.marks[place - self.bottom] = true;
        }
        Ok(())
    }
}

// How many places before this one the next window has, if so many were taken out of the window before it.
fn window_size(place: usize, taken: usize) -> usize
    ensures { result ≤ place }
{
    let size = taken.saturating_mul(16).saturating_add(32);
    if size < place { size } else { place }
}

// Cuts the marks off down to the last one that is set, with that one, and answers its place.
fn take_marked(bottom: usize, marks: &mut Vec<bool>) -> Option<usize>
    requires { bottom + length marks.old.items < 2 ^ 64 }
    ensures shorter { length marks.new.items ≤ length marks.old.items }
    ensures taken { IfSome result (λ place.
        IsTakenOut (IsMarkedFrom bottom marks.old.items) (IsMarkedFrom bottom marks.new.items) place) }
    ensures room { IfSome result (λ place. place ≡ bottom + length marks.new.items) }
    ensures none { IfNone result ((k : ℕ) → ¬ IsMarkedFrom bottom marks.old.items k) }
{
    while let Some(is_set) = marks.pop() {
        if is_set {
            return Some(bottom + marks.len());
        }
    }
    None
}

// Takes the places from the bottom on out of a set, and marks them.
fn mark_newer(older: &mut BTreeSet<usize>, bottom: usize, marks: &mut Vec<bool>)
    requires { (k : ℕ) → Contains older.old.keys k → k < bottom + length marks.old.items }
    ensures below { (k : ℕ) → Contains older.new.keys k → k < bottom }
    ensures count { length marks.new.items ≡ length marks.old.items }
    ensures each { (k : ℕ) → Waits older.new.keys bottom marks.new.items k
        ↔ Waits older.old.keys bottom marks.old.items k }
{
    while let Some(place) = pop_newer(older, bottom) {
        marks[place - bottom] = true;
    }
}

// Takes the last place out of a set, unless it is below the bottom.
fn pop_newer(places: &mut BTreeSet<usize>, bottom: usize) -> Option<usize>
    ensures from { IfSome result (λ place. bottom ≤ place) }
    ensures removal { IfSome result (λ place. places.old.keys ≡ places.new.keys ++ place ∷ []) }
    ensures none { IfNone result (places.new.keys ≡ places.old.keys) }
    ensures below { IfNone result ((k : ℕ) → Contains places.old.keys k → k < bottom) }
{
    let last = *places.last()?;
    if last < bottom {
        return None;
    }
    places.pop_last()
}
