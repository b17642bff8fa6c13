ghost use Rattle.std.specs.Prelude.{◌≡◌, ◌↔◌, ℕ, ◌<◌, Bool, not, ◌&&◌, ◌||◌, [], ◌∷◌, length, IsTrue};
ghost use Rattle.bool_pool.specs.Gate.{gate_at, constant_gate};
ghost use Rattle.bool_pool.specs.Value.{value_at};
ghost use Rattle.bool_pool.specs.Choice.{IsChoiceIn, Chooses};

use crate::{Gate, Id, Pool};

/// What stands for a formula that is wanted.
#[derive(Clone, Copy)]
pub(crate) enum Choice {
    /// A formula of the pool.
    Old(Id),
    /// A gate over formulas of the pool.
    New(Gate),
}

impl Pool {
    /// Chooses for the negation of `a`.
    pub(crate) fn choose_not(&self, a: Id) -> Choice
        requires { a.place < length self.now }
        ensures inside { IsChoiceIn self.now result }
        ensures serves { Chooses self.now (a.place ∷ [])
            (λ vars. not (value_at self.now vars a.place)) result }
    {
        match self.gate(a) {
            Gate::False => Choice::New(Gate::True),
            Gate::True => Choice::New(Gate::False),
            Gate::Not(inner) => Choice::Old(inner),
            _ => Choice::New(Gate::Not(a)),
        }
    }

    /// Chooses for "both `a` and `b`".
    ///
    /// The operands go in order of place, so that either order of `a` and `b` gives one gate.
    pub(crate) fn choose_and(&self, a: Id, b: Id) -> Choice
        requires first { a.place < length self.now }
        requires second { b.place < length self.now }
        ensures inside { IsChoiceIn self.now result }
        ensures serves { Chooses self.now (a.place ∷ b.place ∷ [])
            (λ vars. value_at self.now vars a.place && value_at self.now vars b.place) result }
    {
        if a == b || self.is_constant(a, false) || self.is_constant(b, true) {
            return Choice::Old(a);
        }
        if self.is_constant(a, true) || self.is_constant(b, false) {
            return Choice::Old(b);
        }
        if self.are_opposite(a, b) {
            return Choice::New(Gate::False);
        }
        if a.place < b.place {
            return Choice::New(Gate::And(a, b));
        }
        Choice::New(Gate::And(b, a))
    }

    /// Chooses for "`a` or `b`".
    ///
    /// The operands go in order of place, so that either order of `a` and `b` gives one gate.
    pub(crate) fn choose_or(&self, a: Id, b: Id) -> Choice
        requires first { a.place < length self.now }
        requires second { b.place < length self.now }
        ensures inside { IsChoiceIn self.now result }
        ensures serves { Chooses self.now (a.place ∷ b.place ∷ [])
            (λ vars. value_at self.now vars a.place || value_at self.now vars b.place) result }
    {
        if a == b || self.is_constant(a, true) || self.is_constant(b, false) {
            return Choice::Old(a);
        }
        if self.is_constant(a, false) || self.is_constant(b, true) {
            return Choice::Old(b);
        }
        if self.are_opposite(a, b) {
            return Choice::New(Gate::True);
        }
        if a.place < b.place {
            return Choice::New(Gate::Or(a, b));
        }
        Choice::New(Gate::Or(b, a))
    }

    // Whether the gate of `id` is this constant.
    fn is_constant(&self, id: Id, value: bool) -> bool
        requires { id.place < length self.now }
        ensures gate { IsTrue result ↔ (gate_at self.now id.place ≡ constant_gate value) }
        ensures value { IsTrue result → (vars : ℕ → Bool) → value_at self.now vars id.place ≡ value }
    {
        match self.gate(id) {
            Gate::False => !value,
            Gate::True => value,
            _ => false,
        }
    }

    // Whether the gate of `a` or of `b` is the negation of the other.
    fn are_opposite(&self, a: Id, b: Id) -> bool
        requires first { a.place < length self.now }
        requires second { b.place < length self.now }
        ensures { IsTrue result → (vars : ℕ → Bool) →
            value_at self.now vars a.place ≡ not (value_at self.now vars b.place) }
    {
        self.gate(a) == Gate::Not(b) || self.gate(b) == Gate::Not(a)
    }
}
