//! Operations on functions.
ghost use Rattle.std.specs.Prelude.{◌≡◌, ◌≢◌, ℕ, ◌<◌, ◌≤◌, Bool, true, false, ◌||◌, length, min, IfOk, IfSome, IfNone, IfErr, if◌then◌else◌};
ghost use Rattle.decision_graph.specs.Vertices.{vertex_at, level_at, Extends};
ghost use Rattle.decision_graph.specs.Meaning.{holds};
ghost use Rattle.decision_graph.specs.Making.{IsCombined, IsParted, IsChosen};
ghost use Rattle.decision_graph.specs.Graphs.{SameShape};
ghost use Rattle.decision_graph.specs.declared.graph.GraphFault.TheVariants as fault;

use crate::notes::Note;
use crate::{DecisionGraph, Function, GraphFault, Vertex};

/// An operation on two functions.
#[derive(Clone, Copy, PartialEq, Eq)]
pub(crate) enum Kind {
    /// Both hold.
    And,
    /// At least one of both holds.
    Or,
    /// Exactly one of both holds.
    Differ,
}

impl DecisionGraph {
    /// The function of a constant.
    pub fn constant(&self, value: bool) -> Function
        ensures inside { result.place < length self.now.vertices }
        ensures value { (vars : ℕ → Bool) → holds self.now.vertices vars result.place ≡ value }
        ensures level { level_at self.now.variables self.now.vertices result.place ≡ self.now.variables }
        ensures place { result.place ≡ (if value then 1 else 0) }
    {
        leaves_are_first(self);
        Function {
            place: if value { 1 } else { 0 },
        }
    }

    /// The function that holds where the variable with this number is true.
    ///
    /// Like each maker it adds vertices alone: all functions keep their places and what they mean, whatever the
    /// outcome. It is refused if the graph is full, and else lack of memory is the only error.
    pub fn variable(&mut self, number: u32) -> Result<Function, GraphFault>
        requires { number < self.old.variables }
        ensures shape { SameShape self.old self.new }
        ensures extends { Extends self.old.vertices self.new.vertices }
        ensures full { IfErr result (λ why. why ≡ fault.Full → self.new.most ≤ length self.new.vertices) }
        ensures inside { IfOk result (λ r. r.place < length self.new.vertices) }
        ensures value { IfOk result (λ r. (vars : ℕ → Bool) → holds self.new.vertices vars r.place ≡ vars number) }
    {
        let (high, low) = (self.constant(true), self.constant(false));
        self.choose(number, high, low)
    }

    // The function that is one if a variable is true, and another if it is false. Both decide on later
    // variables alone.
    pub(crate) fn choose(
        &mut self,
        variable: u32,
        high: Function,
        low: Function,
    ) -> Result<Function, GraphFault>
        requires known { variable < self.old.variables }
        requires high_inside { high.place < length self.old.vertices }
        requires low_inside { low.place < length self.old.vertices }
        requires high_later { variable < level_at self.old.variables self.old.vertices high.place }
        requires low_later { variable < level_at self.old.variables self.old.vertices low.place }
        ensures shape { SameShape self.old self.new }
        ensures extends { Extends self.old.vertices self.new.vertices }
        ensures full { IfErr result (λ why. why ≡ fault.Full → self.new.most ≤ length self.new.vertices) }
        ensures chosen { IfOk result (λ r. IsChosen self.new.variables self.new.vertices variable high.place low.place r.place) }
    {
        if high == low {
            return Ok(high);
        }
        self.put(Vertex::Branch(variable, high, low))
    }

    // A function parted by a variable on which no vertex before it decides: what it is where the variable is true,
    // and where it is false.
    fn part(&self, function: Function, variable: u32) -> (Function, Function)
        requires inside { function.place < length self.now.vertices }
        requires known { variable < self.now.variables }
        requires first { variable ≤ level_at self.now.variables self.now.vertices function.place }
        ensures { IsParted self.now.variables self.now.vertices variable function.place result.0.place result.1.place }
    {
        match self.vertex(function) {
            Vertex::Branch(first, high, low) if first == variable => (high, low),
            _ => (function, function),
        }
    }

    // What an operation gives if one of its operands, or both together, decide it.
    fn simple(&self, kind: Kind, a: Function, b: Function) -> Option<Function>
        requires first { a.place < length self.now.vertices }
        requires second { b.place < length self.now.vertices }
        ensures simple { IfSome result (λ r. IsCombined self.now.variables self.now.vertices kind a.place b.place r.place) }
        ensures branches { IfNone result (min (level_at self.now.variables self.now.vertices a.place) (level_at self.now.variables self.now.vertices b.place) < self.now.variables) }
    {
        leaves_are_first(self);
        let (no, yes) = (self.constant(false), self.constant(true));
        match kind {
            Kind::And if a == b || a == no || b == yes => Some(a),
            Kind::And if a == yes || b == no => Some(b),
            Kind::Or if a == b || a == yes || b == no => Some(a),
            Kind::Or if a == no || b == yes => Some(b),
            Kind::Differ if a == b => Some(no),
            Kind::Differ if a == no => Some(b),
            Kind::Differ if b == no => Some(a),
            _ => None,
        }
    }

    /// An operation on two functions.
    ///
    /// It goes down both functions at once, one variable at a time, so it calls itself at most as deep as there are
    /// variables.
    pub(crate) fn combine(
        &mut self,
        kind: Kind,
        a: Function,
        b: Function,
    ) -> Result<Function, GraphFault>
        requires first { a.place < length self.old.vertices }
        requires second { b.place < length self.old.vertices }
        ensures shape { SameShape self.old self.new }
        ensures extends { Extends self.old.vertices self.new.vertices }
        ensures full { IfErr result (λ why. why ≡ fault.Full → self.new.most ≤ length self.new.vertices) }
        ensures combined { IfOk result (λ r. IsCombined self.new.variables self.new.vertices kind a.place b.place r.place) }
    {
        if let Some(made) = self.simple(kind, a, b) {
            return Ok(made);
        }
        if let Some(made) = self.noted(kind, a, b) {
            return Ok(made);
        }
        let variable = self.level(a).min(self.level(b));
        let (a_high, a_low) = self.part(a, variable);
        let (b_high, b_low) = self.part(b, variable);
        let high = self.combine(kind, a_high, b_high)?;
        let low = self.combine(kind, a_low, b_low)?;
        let made = self.choose(variable, high, low)?;
        self.note(Note { kind, a, b, made });
        Ok(made)
    }
}

// A law of graphs: both constants stand first.
pub(crate) fn leaves_are_first(graph: &DecisionGraph)
    ensures both { 2 ≤ length graph.now.vertices }
    ensures no { (vars : ℕ → Bool) → holds graph.now.vertices vars 0 ≡ false }
    ensures yes { (vars : ℕ → Bool) → holds graph.now.vertices vars 1 ≡ true }
    ensures level_no { level_at graph.now.variables graph.now.vertices 0 ≡ graph.now.variables }
    ensures level_yes { level_at graph.now.variables graph.now.vertices 1 ≡ graph.now.variables }
    ensures leaf { (i : ℕ) (b : Bool) → i ≢ 0 → i < length graph.now.vertices → vertex_at graph.now.vertices i ≡ Vertex.Leaf b → b ≡ true }
    ensures others { (i : ℕ) → i ≢ 0 → i ≢ 1 → i < length graph.now.vertices → level_at graph.now.variables graph.now.vertices i < graph.now.variables }
{
    graph.size();
}
