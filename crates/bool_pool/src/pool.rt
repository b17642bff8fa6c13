ghost use Rattle.std.specs.Prelude.{◌≡◌, ◌≢◌, ◌↔◌, ℕ, ◌+◌, ◌<◌, ◌≤◌, Bool, not, ◌&&◌, ◌||◌, List, [], ◌∷◌, length, IfOk, OnErr};
ghost use Rattle.bool_pool.specs.Gate.{gate_at, constant_gate, IsOperand, IsInOrder, IsApart, Extends, AddsAt};
ghost use Rattle.bool_pool.specs.Choice.{IsOver, IsPlaced, IsChoiceIn, Chooses};
ghost use Rattle.bool_pool.specs.Value.{assigned, gate_value, values, value_at};
ghost use Rattle.bool_pool.specs.Made.{IsLeaf, IsMade};

use crate::choice::Choice;
use crate::{Gate, Id};
use indexmap::IndexSet;
use std::alloc::{AllocError, Global};
use std::marker::Model;
use std::sync::ledger::Ledger;
use table_keys::{FoldedKeys, TableKeys};
use ternary::{NoMemory, Steps};

/// An ordered set of gates.
///
/// A gate's operands stand before it, and no two gates are equal. Contracts see the list of the
/// gates, in order of place. Gates are only added, so each formula keeps its value and its reach.
#[derive(Drop)]
pub struct Pool {
    gates: IndexSet<Gate, FoldedKeys>,
}

impl Model for Pool {
    ghost use Rattle.std.specs.Prelude.{List};
    ghost use Rattle.bool_pool.specs.declared.gate.Gate.{Gate};
    ghost use Rattle.bool_pool.specs.Gate.{IsInOrder};

    ghost Value = { List Gate };

    ghost view = { λ pool. pool.gates.keys };

    ghost invariant = { λ pool. IsInOrder pool.gates.keys };
}

impl Pool {
    /// A pool with no gate, whose keys are the same in every run.
    pub fn new(alloc: Global) -> Pool
        ensures { result ≡ [] }
    {
        Pool::with_keys(alloc, TableKeys::fixed())
    }

    /// A pool with no gate, which looks its gates up by hashes that start from these keys.
    ///
    /// If the author of a text chooses the formulas, keys that were drawn keep him from choosing
    /// gates that all fall into one place of the table.
    pub fn with_keys(alloc: Global, keys: TableKeys) -> Pool
        ensures { result ≡ [] }
    {
        Pool {
            gates: IndexSet::with_hasher(alloc, keys.folded()),
        }
    }

    /// How many gates there are. Each stands behind its operands, and no two are equal.
    pub fn size(&self) -> usize
        ensures size { result ≡ length self.now }
        ensures order { IsInOrder self.now }
        ensures apart { IsApart self.now }
    {
        self.gates.len()
    }

    /// The gate of a formula.
    ///
    /// Its operands stand before it, and the formula's value is the gate's on its operands' values.
    pub fn gate(&self, id: Id) -> Gate
        requires { id.place < length self.now }
        ensures gate { result ≡ gate_at self.now id.place }
        ensures order { (k : ℕ) → IsOperand result k → k < id.place }
        ensures value { (vars : ℕ → Bool) →
            value_at self.now vars id.place ≡ gate_value vars (value_at self.now vars) result }
    {
        self.gates.as_slice()[id.place]
    }

    /// The value of a formula, under these values of the variables. A variable past the end of
    /// `vars` is false.
    ///
    /// It goes once over the gates up to the formula's.
    pub fn value(&self, alloc: Global, id: Id, vars: &[bool]) -> Result<bool, NoMemory>
        requires { id.place < length self.now }
        ensures { IfOk result (λ b. b ≡ value_at self.now (assigned vars.now) id.place) }
    {
        let gates = self.gates.as_slice();
        let done = values_of(alloc, &gates[..id.place + 1], vars)?;
        Ok(done[id.place])
    }

    /// The formula of a constant.
    ///
    /// Like each maker, it takes one step, whatever the outcome, and adds at most one gate, at the
    /// end. Lack of memory is the only error, and leaves the pool as it was.
    pub fn constant<L: Ledger>(&mut self, b: bool, steps: &mut Steps<L>) -> Result<Id, NoMemory>
        ensures extends { Extends self.old self.new }
        ensures one { length self.new ≤ length self.old + 1 }
        ensures added { IfOk result (λ r. AddsAt self.old self.new r.place) }
        ensures err { OnErr result (self.new ≡ self.old) }
        ensures made { IfOk result (λ r. IsLeaf self.new (constant_gate b) (λ vars. b) r.place) }
        ensures step { steps.new ≡ steps.old + 1 }
    {
        steps.tick();
        self.put(if b { Gate::True } else { Gate::False })
    }

    /// The formula of the variable with this number.
    pub fn var<L: Ledger>(&mut self, v: u32, steps: &mut Steps<L>) -> Result<Id, NoMemory>
        ensures extends { Extends self.old self.new }
        ensures one { length self.new ≤ length self.old + 1 }
        ensures added { IfOk result (λ r. AddsAt self.old self.new r.place) }
        ensures err { OnErr result (self.new ≡ self.old) }
        ensures made { IfOk result (λ r. IsLeaf self.new (Gate.Var v) (λ vars. vars v) r.place) }
        ensures step { steps.new ≡ steps.old + 1 }
    {
        steps.tick();
        self.put(Gate::Var(v))
    }

    /// The negation of a formula.
    pub fn not<L: Ledger>(&mut self, a: Id, steps: &mut Steps<L>) -> Result<Id, NoMemory>
        requires { a.place < length self.old }
        ensures extends { Extends self.old self.new }
        ensures one { length self.new ≤ length self.old + 1 }
        ensures added { IfOk result (λ r. AddsAt self.old self.new r.place) }
        ensures err { OnErr result (self.new ≡ self.old) }
        ensures made { IfOk result (λ r. IsMade self.old self.new (a.place ∷ [])
            (λ vars. not (value_at self.old vars a.place)) r.place) }
        ensures step { steps.new ≡ steps.old + 1 }
    {
        let choice = self.choose_not(a);
        steps.tick();
        self.take(choice)
    }

    /// The formula that is true if both formulas are.
    pub fn and<L: Ledger>(&mut self, a: Id, b: Id, steps: &mut Steps<L>) -> Result<Id, NoMemory>
        requires first { a.place < length self.old }
        requires second { b.place < length self.old }
        ensures extends { Extends self.old self.new }
        ensures one { length self.new ≤ length self.old + 1 }
        ensures added { IfOk result (λ r. AddsAt self.old self.new r.place) }
        ensures err { OnErr result (self.new ≡ self.old) }
        ensures made { IfOk result (λ r. IsMade self.old self.new (a.place ∷ b.place ∷ [])
            (λ vars. value_at self.old vars a.place && value_at self.old vars b.place) r.place) }
        ensures step { steps.new ≡ steps.old + 1 }
    {
        let choice = self.choose_and(a, b);
        steps.tick();
        self.take(choice)
    }

    /// The formula that is true where at least one of both formulas is.
    pub fn or<L: Ledger>(&mut self, a: Id, b: Id, steps: &mut Steps<L>) -> Result<Id, NoMemory>
        requires first { a.place < length self.old }
        requires second { b.place < length self.old }
        ensures extends { Extends self.old self.new }
        ensures one { length self.new ≤ length self.old + 1 }
        ensures added { IfOk result (λ r. AddsAt self.old self.new r.place) }
        ensures err { OnErr result (self.new ≡ self.old) }
        ensures made { IfOk result (λ r. IsMade self.old self.new (a.place ∷ b.place ∷ [])
            (λ vars. value_at self.old vars a.place || value_at self.old vars b.place) r.place) }
        ensures step { steps.new ≡ steps.old + 1 }
    {
        let choice = self.choose_or(a, b);
        steps.tick();
        self.take(choice)
    }

    // The formula of a choice.
    fn take(&mut self, choice: Choice) -> Result<Id, NoMemory>
        requires { IsChoiceIn self.old choice }
        ensures extends { Extends self.old self.new }
        ensures one { length self.new ≤ length self.old + 1 }
        ensures added { IfOk result (λ r. AddsAt self.old self.new r.place) }
        ensures err { OnErr result (self.new ≡ self.old) }
        ensures made { IfOk result (λ r. (operands : List ℕ) (meaning : (ℕ → Bool) → Bool)
            → Chooses self.old operands meaning choice
            → IsMade self.old self.new operands meaning r.place) }
    {
        match choice {
            Choice::Old(id) => Ok(id),
            Choice::New(gate) => self.put(gate),
        }
    }

    // The keys from which the table's hashes start.
    pub(crate) fn keys(&self) -> TableKeys {
        self.gates.hasher().keys()
    }

    // The formula of a gate: the gate is looked up, and put at the end if it is not there.
    pub(crate) fn put(&mut self, gate: Gate) -> Result<Id, NoMemory>
        requires { IsOver self.old gate }
        ensures extends { Extends self.old self.new }
        ensures one { length self.new ≤ length self.old + 1 }
        ensures added { IfOk result (λ r. AddsAt self.old self.new r.place) }
        ensures err { OnErr result (self.new ≡ self.old) }
        ensures placed { IfOk result (λ r. IsPlaced self.new gate r.place) }
    {
        match self.gates.insert_full(gate) {
            Ok((place, _)) => Ok(Id { place }),
            Err(_) => Err(NoMemory),
        }
    }
}

// The values of gates that are in order.
fn values_of(alloc: Global, gates: &[Gate], vars: &[bool]) -> Result<Vec<bool>, AllocError>
    requires { IsInOrder gates.now }
    ensures { IfOk result (λ done. done.items ≡ values gates.now (assigned vars.now)) }
{
    let mut done = Vec::new(alloc);
    for gate in gates {
        let value = value_of(*gate, done.as_slice(), vars);
        done.push(value)?;
    }
    Ok(done)
}

// The value of a gate, from the values of the gates before it and of the variables.
fn value_of(gate: Gate, done: &[bool], vars: &[bool]) -> bool
    requires { (k : ℕ) → IsOperand gate k → k < length done.now }
    ensures { result ≡ gate_value (assigned vars.now) (assigned done.now) gate }
{
    match gate {
        Gate::False => false,
        Gate::True => true,
        Gate::Var(v) => vars.get(v as usize).copied().unwrap_or(false),
        Gate::Not(a) => !done[a.place],
        Gate::And(a, b) => done[a.place] && done[b.place],
        Gate::Or(a, b) => done[a.place] || done[b.place],
    }
}
