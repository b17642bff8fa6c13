//! The operations by name, comparison, evaluation and witnesses.
ghost use Rattle.std.specs.Prelude.{◌≡◌, ◌≢◌, ◌↔◌, ℕ, ◌<◌, ◌≤◌, Bool, true, false, not, ◌&&◌, ◌||◌, length, IfOk, IfErr, IfSome, IfNone, IsTrue, if◌then◌else◌};
ghost use Rattle.decision_graph.specs.Vertices.{level_at, Extends};
ghost use Rattle.decision_graph.specs.Meaning.{assigned, holds, IsBeforeAll};
ghost use Rattle.decision_graph.specs.Graphs.{SameShape};
ghost use Rattle.decision_graph.specs.declared.graph.GraphFault.TheVariants as fault;

use crate::combining::{Kind, leaves_are_first};
use crate::{DecisionGraph, Function, GraphFault, Vertex};
use std::alloc::{AllocError, Global};

impl DecisionGraph {
    /// The function that holds if both do.
    pub fn and(&mut self, a: Function, b: Function) -> Result<Function, GraphFault>
        requires first { a.place < length self.old.vertices }
        requires second { b.place < length self.old.vertices }
        ensures shape { SameShape self.old self.new }
        ensures extends { Extends self.old.vertices self.new.vertices }
        ensures full { IfErr result (λ why. why ≡ fault.Full → self.new.most ≤ length self.new.vertices) }
        ensures inside { IfOk result (λ r. r.place < length self.new.vertices) }
        ensures value { IfOk result (λ r. (vars : ℕ → Bool) →
            holds self.new.vertices vars r.place ≡ (holds self.old.vertices vars a.place && holds self.old.vertices vars b.place)) }
    {
        self.combine(Kind::And, a, b)
    }

    /// The function that holds where at least one of both does.
    pub fn or(&mut self, a: Function, b: Function) -> Result<Function, GraphFault>
        requires first { a.place < length self.old.vertices }
        requires second { b.place < length self.old.vertices }
        ensures shape { SameShape self.old self.new }
        ensures extends { Extends self.old.vertices self.new.vertices }
        ensures full { IfErr result (λ why. why ≡ fault.Full → self.new.most ≤ length self.new.vertices) }
        ensures inside { IfOk result (λ r. r.place < length self.new.vertices) }
        ensures value { IfOk result (λ r. (vars : ℕ → Bool) →
            holds self.new.vertices vars r.place ≡ (holds self.old.vertices vars a.place || holds self.old.vertices vars b.place)) }
    {
        self.combine(Kind::Or, a, b)
    }

    /// The function that holds where exactly one of both does.
    pub fn differ(&mut self, a: Function, b: Function) -> Result<Function, GraphFault>
        requires first { a.place < length self.old.vertices }
        requires second { b.place < length self.old.vertices }
        ensures shape { SameShape self.old self.new }
        ensures extends { Extends self.old.vertices self.new.vertices }
        ensures full { IfErr result (λ why. why ≡ fault.Full → self.new.most ≤ length self.new.vertices) }
        ensures inside { IfOk result (λ r. r.place < length self.new.vertices) }
        ensures value { IfOk result (λ r. (vars : ℕ → Bool) →
            holds self.new.vertices vars r.place ≡
            (if holds self.old.vertices vars a.place then not (holds self.old.vertices vars b.place) else holds self.old.vertices vars b.place)) }
    {
        self.combine(Kind::Differ, a, b)
    }

    /// The function that holds where this one doesn't.
    pub fn not(&mut self, a: Function) -> Result<Function, GraphFault>
        requires { a.place < length self.old.vertices }
        ensures shape { SameShape self.old self.new }
        ensures extends { Extends self.old.vertices self.new.vertices }
        ensures full { IfErr result (λ why. why ≡ fault.Full → self.new.most ≤ length self.new.vertices) }
        ensures inside { IfOk result (λ r. r.place < length self.new.vertices) }
        ensures value { IfOk result (λ r. (vars : ℕ → Bool) →
            holds self.new.vertices vars r.place ≡ not (holds self.old.vertices vars a.place)) }
    {
        let always = self.constant(true);
        self.combine(Kind::Differ, a, always)
    }

    /// Whether both functions agree under all valuations of the variables.
    pub fn same(&self, a: Function, b: Function) -> bool
        requires first { a.place < length self.now.vertices }
        requires second { b.place < length self.now.vertices }
        ensures place { IsTrue result ↔ (a ≡ b) }
        ensures agree { IsTrue result ↔ ((vars : ℕ → Bool) →
            holds self.now.vertices vars a.place ≡ holds self.now.vertices vars b.place) }
    {
        self.size();
        a == b
    }

    /// Whether the function holds under no valuation.
    pub fn is_never(&self, function: Function) -> bool
        requires { function.place < length self.now.vertices }
        ensures never { IsTrue result ↔ ((vars : ℕ → Bool) → holds self.now.vertices vars function.place ≡ false) }
        ensures place { result ≡ false → function.place ≢ 0 }
    {
        let never = self.constant(false);
        self.same(function, never)
    }

    /// Whether the function holds under this valuation. A variable past its end is false.
    pub fn value(&self, function: Function, vars: &[bool]) -> bool
        requires { function.place < length self.now.vertices }
        ensures { result ≡ holds self.now.vertices (assigned vars.now) function.place }
    {
        match self.vertex(function) {
            Vertex::Leaf(value) => value,
            Vertex::Branch(variable, high, low) => {
                if vars.get(variable as usize).copied().unwrap_or(false) {
                    self.value(high, vars)
                } else {
                    self.value(low, vars)
                }
            }
        }
    }

    /// The first valuation of all variables under which the function holds; None exactly if it holds under none.
    ///
    /// Valuations are in the order of their values, false before true, where the first variable counts most.
    pub fn witness(
        &self,
        alloc: Global,
        function: Function,
    ) -> Result<Option<Vec<bool>>, AllocError>
        requires { function.place < length self.now.vertices }
        ensures count { IfOk result (λ found. IfSome found (λ vars. length vars.items ≡ self.now.variables)) }
        ensures holds { IfOk result (λ found. IfSome found (λ vars. holds self.now.vertices (assigned vars.items) function.place ≡ true)) }
        ensures first { IfOk result (λ found. IfSome found (λ vars. IsBeforeAll self.now.vertices function.place 0 (assigned vars.items))) }
        ensures never { IfOk result (λ found. IfNone found ((vars : ℕ → Bool) → holds self.now.vertices vars function.place ≡ false)) }
    {
        if self.is_never(function) {
            return Ok(None);
        }
        let mut vars = self.unset(alloc)?;
        self.walk(function, &mut vars);
        Ok(Some(vars))
    }

    // The valuation under which all variables are false.
    fn unset(&self, alloc: Global) -> Result<Vec<bool>, AllocError>
        ensures count { IfOk result (λ vars. length vars.items ≡ self.now.variables) }
        ensures unset { IfOk result (λ vars. (v : ℕ) → assigned vars.items v ≡ false) }
    {
        let vars = vec![in alloc; false; self.variables() as usize]?;
        Ok(vars)
    }

    // Sets variables, from the function's first one on, so that the function holds: a variable only if it has to be
    // set. Those before stay.
    fn walk(&self, function: Function, vars: &mut [bool])
        requires inside { function.place < length self.now.vertices }
        requires some { function.place ≢ 0 }
        requires count { length vars.old ≡ self.now.variables }
        requires unset { (v : ℕ) → level_at self.now.variables self.now.vertices function.place ≤ v → assigned vars.old v ≡ false }
        ensures before { (v : ℕ) → v < level_at self.now.variables self.now.vertices function.place → assigned vars.new v ≡ assigned vars.old v }
        ensures holds { holds self.now.vertices (assigned vars.new) function.place ≡ true }
        ensures first { IsBeforeAll self.now.vertices function.place (level_at self.now.variables self.now.vertices function.place) (assigned vars.new) }
    {
        leaves_are_first(self);
        if let Vertex::Branch(variable, high, low) = self.vertex(function) {
            if low == self.constant(false) {
                vars[variable as usize] = true;
                self.walk(high, vars);
            } else {
                self.walk(low, vars);
            }
        }
    }
}
