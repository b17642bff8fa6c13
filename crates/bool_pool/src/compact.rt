ghost use Rattle.std.specs.Prelude.{◌≡◌, ℕ, ◌<◌, ◌↔◌, List, ◌∷◌, [], ◌++◌, length, map, nat_eq, All, Contains, Some, IsSome, IfOk, OnOk, if◌then◌else◌};
ghost use Rattle.std.specs.List.Sorted.{IsStrictlyIncreasing};
ghost use Rattle.indexmap.specs.IndexMap.{get};
ghost use Rattle.bool_pool.specs.Gate.{gate_at, IsOperand, IsInOrder, IsApart};
ghost use Rattle.bool_pool.specs.Reach.{AnyReaches};
ghost use Rattle.bool_pool.specs.Compact.{places_of, moved_id, moved_gate, IsCompacted};
ghost use Rattle.bool_pool.specs.Copying.{place_in, AreCopied};
ghost use Rattle.bool_pool.specs.declared.gate.Id.{Id};

use crate::{Gate, Id, Pool};
use indexmap::IndexMap;
use std::alloc::{AllocError, Global};
use std::collections::BTreeSet;
use table_keys::FoldedKeys;
use ternary::NoMemory;

impl Pool {
    /// A pool that has only the gates which these formulas reach, and the formulas in it, in the
    /// same order.
    ///
    /// The gates that the roots reach correspond one to one to those of the new pool, operands to
    /// operands. So each formula keeps its value, and it reaches as many gates as before. The cost
    /// goes by the gates that are reached, whatever else this pool has. The new pool looks its gates
    /// up by the keys of this one. Lack of memory is the only error.
    pub fn compact(&self, alloc: Global, roots: &[Id]) -> Result<(Pool, Vec<Id>), NoMemory>
        requires { All (λ root. root.place < length self.now) roots.now }
        ensures count { IfOk result (λ made. length made.1.items ≡ length roots.now) }
        ensures inside { IfOk result (λ made. All (λ id. id.place < length made.0) made.1.items) }
        ensures compacted { IfOk result (λ made. IsCompacted self.now roots.now made.0 made.1.items) }
    {
        gates_are_apart(self);
        let places = places_reached(alloc, self, roots)?;
        let mut copies = Copies {
            pool: Pool::with_keys(alloc, self.keys()),
            ids: IndexMap::with_hasher(alloc, self.keys().folded()),
        };
        for &place in &places {
            copies.add(self, place)?;
        }
        gates_are_apart(&copies.pool);
        let found = copies.ids_of(alloc, roots)?;
        Ok((copies.pool, found))
    }
}

// The law of pools: each gate stands behind its operands, and no two are equal.
fn gates_are_apart(pool: &Pool)
    ensures order { IsInOrder pool.now }
    ensures apart { IsApart pool.now }
{
    pool.size();
}

// The places that formulas reach, in ascending order.
fn places_reached(alloc: Global, pool: &Pool, roots: &[Id]) -> Result<Vec<usize>, AllocError>
    requires { All (λ root. root.place < length pool.now) roots.now }
    ensures ascending { IfOk result (λ places. IsStrictlyIncreasing places.items) }
    ensures each { IfOk result (λ places. (place : ℕ) →
        Contains places.items place ↔ AnyReaches pool.now (places_of roots.now) place) }
{
    let places = root_places(alloc, roots)?;
    pool.reached_places(alloc, places)
}

// The places of formulas.
fn root_places(alloc: Global, roots: &[Id]) -> Result<BTreeSet<usize>, AllocError>
    ensures { IfOk result (λ places. (place : ℕ) →
        Contains places.keys place ↔ Contains (places_of roots.now) place) }
{
    let mut places = BTreeSet::new(alloc);
    for root in roots {
        places.insert(root.place)?;
    }
    Ok(places)
}

// Copies of gates of another pool.
#[derive(Drop)]
struct Copies {
    pool: Pool,
    // for each place of the other pool that was copied: the formula here
    ids: IndexMap<usize, Id, FoldedKeys>,
}

impl Copies {
    // Copies the gate at a place of the other pool, whose operands were copied.
    fn add(&mut self, old: &Pool, place: usize) -> Result<(), NoMemory>
        requires inside { place < length old.now }
        requires operands { (k : ℕ) → IsOperand (gate_at old.now place) k → IsSome (get nat_eq self.old.ids k) }
        requires ids { (k : ℕ) (id : Id) → get nat_eq self.old.ids k ≡ Some id → id.place < length self.old.pool }
        ensures { OnOk result ((places : List ℕ)
            → ((i : ℕ) → Contains places i → i < place)
            → AreCopied old.now places self.old.pool (get nat_eq self.old.ids)
            → AreCopied old.now (places ++ place ∷ []) self.new.pool (get nat_eq self.new.ids)) }
    {
        let gate = self.moved(old.gate(Id { place }));
        let id = self.pool.put(gate)?;
        self.note(place, id)?;
        Ok(())
    }

    // Notes the copy of the gate at a place.
    fn note(&mut self, place: usize, id: Id) -> Result<(), AllocError>
        ensures ids { OnOk result ((k : ℕ) → get nat_eq self.new.ids k
            ≡ if nat_eq place k then Some id else get nat_eq self.old.ids k) }
        ensures pool { self.new.pool ≡ self.old.pool }
    {
        self.ids.insert(place, id)?;
        Ok(())
    }

    // The gate over the copies of its operands.
    fn moved(&self, gate: Gate) -> Gate
        requires { (k : ℕ) → IsOperand gate k → IsSome (get nat_eq self.now.ids k) }
        ensures { result ≡ moved_gate (place_in (get nat_eq self.now.ids)) gate }
    {
        match gate {
            Gate::False => Gate::False,
            Gate::True => Gate::True,
            Gate::Var(v) => Gate::Var(v),
            Gate::Not(a) => Gate::Not(self.id(a)),
            Gate::And(a, b) => Gate::And(self.id(a), self.id(b)),
            Gate::Or(a, b) => Gate::Or(self.id(a), self.id(b)),
        }
    }

    // The copy of a formula.
    fn id(&self, id: Id) -> Id
        requires { IsSome (get nat_eq self.now.ids id.place) }
        ensures { result ≡ moved_id (place_in (get nat_eq self.now.ids)) id }
    {
        match self.ids.get(&id.place) {
            Some(found) => *found,
            None => unreachable!(),
        }
    }

    // The copies of formulas, in order.
    fn ids_of(&self, alloc: Global, roots: &[Id]) -> Result<Vec<Id>, AllocError>
        requires { All (λ root. IsSome (get nat_eq self.now.ids root.place)) roots.now }
        ensures { IfOk result (λ found. found.items ≡ map (moved_id (place_in (get nat_eq self.now.ids))) roots.now) }
    {
        let mut found = Vec::new(alloc);
        for root in roots {
            found.push(self.id(*root))?;
        }
        Ok(found)
    }
}
