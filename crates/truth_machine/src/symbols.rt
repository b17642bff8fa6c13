//! The machine over functions of variables: what its maker makes for those who use it.
ghost use Rattle.std.specs.Prelude.{◌≡◌, ℕ, ◌<◌, ◌≤◌, ◌||◌, Bool, not, length, IfErr, IfOk};
ghost use Rattle.truth_machine.specs.Words.{holds, AreInside, named_under, truth_of, IsMissed};
ghost use Rattle.decision_graph.specs.declared.graph.GraphFault.TheVariants as fault;
ghost use Rattle.truth_machine.specs.Symbols.{MakesMore};

use crate::TruthMachine;
use decision_graph::{Function, GraphFault};
use formula_functions::{NamedFunctions, function_of};
use formulas::Part;
use std::alloc::Global;
use truth_makers::Symbols;

impl TruthMachine<Symbols> {
    /// The function of the variable with this number.
    ///
    /// Like each maker it adds vertices alone: all functions keep what they mean, whatever the outcome.
    pub fn variable(&mut self, number: u32) -> Result<Function, GraphFault>
        requires { number < self.old.maker.graph.variables }
        ensures makes { MakesMore self.old self.new }
        ensures full { IfErr result (λ why. why ≡ fault.Full → self.new.maker.graph.most ≤ length self.new.maker.graph.vertices) }
        ensures inside { IfOk result (λ made. made.place < length self.new.maker.graph.vertices) }
        ensures value { IfOk result (λ made. (vars : ℕ → Bool) → holds self.new.maker.graph.vertices vars made.place ≡ vars number) }
    {
        self.truths.graph.variable(number)
    }

    /// The function of a formula, from the functions that its names stand for.
    pub fn formula(
        &mut self,
        alloc: Global,
        table: &NamedFunctions,
        formula: &[Part],
    ) -> Result<Function, GraphFault>
        requires { AreInside self.old.maker.graph.vertices table.now.functions }
        ensures makes { MakesMore self.old self.new }
        ensures full { IfErr result (λ why. why ≡ fault.Full → self.new.maker.graph.most ≤ length self.new.maker.graph.vertices) }
        ensures inside { IfOk result (λ made. made.place < length self.new.maker.graph.vertices) }
        ensures value { IfOk result (λ made. (vars : ℕ → Bool) →
            holds self.new.maker.graph.vertices vars made.place ≡ truth_of (named_under self.old.maker.graph.vertices vars table.now) formula.now) }
    {
        function_of(alloc, &mut self.truths.graph, table, formula)
    }

    /// Where a node with these rails isn't as wanted: 1 where the wanted function holds, and 0 elsewhere.
    pub fn missed(
        &mut self,
        hi: Function,
        lo: Function,
        wanted: Function,
    ) -> Result<Function, GraphFault>
        requires hi { hi.place < length self.old.maker.graph.vertices }
        requires lo { lo.place < length self.old.maker.graph.vertices }
        requires wanted { wanted.place < length self.old.maker.graph.vertices }
        ensures makes { MakesMore self.old self.new }
        ensures full { IfErr result (λ why. why ≡ fault.Full → self.new.maker.graph.most ≤ length self.new.maker.graph.vertices) }
        ensures inside { IfOk result (λ made. made.place < length self.new.maker.graph.vertices) }
        ensures missed { IfOk result (λ made.
            IsMissed self.old.maker.graph.vertices self.new.maker.graph.vertices hi.place lo.place wanted.place made.place) }
    {
        self.truths.missed(hi, lo, wanted)
    }

    /// Where at least one of two functions holds.
    pub fn either(&mut self, a: Function, b: Function) -> Result<Function, GraphFault>
        requires first { a.place < length self.old.maker.graph.vertices }
        requires second { b.place < length self.old.maker.graph.vertices }
        ensures makes { MakesMore self.old self.new }
        ensures full { IfErr result (λ why. why ≡ fault.Full → self.new.maker.graph.most ≤ length self.new.maker.graph.vertices) }
        ensures inside { IfOk result (λ made. made.place < length self.new.maker.graph.vertices) }
        ensures value { IfOk result (λ made. (vars : ℕ → Bool) → holds self.new.maker.graph.vertices vars made.place
            ≡ (holds self.old.maker.graph.vertices vars a.place || holds self.old.maker.graph.vertices vars b.place)) }
    {
        self.truths.graph.or(a, b)
    }

    /// Where a function doesn't hold.
    pub fn negated(&mut self, a: Function) -> Result<Function, GraphFault>
        requires { a.place < length self.old.maker.graph.vertices }
        ensures makes { MakesMore self.old self.new }
        ensures full { IfErr result (λ why. why ≡ fault.Full → self.new.maker.graph.most ≤ length self.new.maker.graph.vertices) }
        ensures inside { IfOk result (λ made. made.place < length self.new.maker.graph.vertices) }
        ensures value { IfOk result (λ made. (vars : ℕ → Bool) →
            holds self.new.maker.graph.vertices vars made.place ≡ not (holds self.old.maker.graph.vertices vars a.place)) }
    {
        self.truths.graph.not(a)
    }
}
