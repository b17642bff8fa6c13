//! Functions that the stage's maker makes; under each valuation the states stay.
ghost use Rattle.std.specs.Prelude.{◌≡◌, ℕ, ◌<◌, ◌≤◌, ◌||◌, Bool, not, List, length, IfErr, IfOk};
ghost use Rattle.decision_graph.specs.Meaning.{holds};
ghost use Rattle.decision_graph.specs.declared.graph.GraphFault.TheVariants as fault;
ghost use Rattle.symbol_stage.specs.Words.{named_under, state_of_truth, truth_of, valuation_of, AreInside, GraphData, GroupTextData, IsMissed, MakesMore};
ghost use Rattle.symbol_stage.specs.Given.{GivesLetters, letter_given};
ghost use Rattle.symbol_stage.specs.Stages.{ServesIn, columns_on};

use crate::SymbolStage;
use crate::given::Letters;
use decision_graph::{Function, GraphFault};
use formula_functions::NamedFunctions;
use formulas::Part;

impl SymbolStage {
    /// The function of the variable with this number.
    pub fn variable(&mut self, number: u32) -> Result<Function, GraphFault>
        requires { number < self.old.machine.maker.graph.variables }
        ensures makes { MakesMore self.old.machine self.new.machine }
        ensures full { IfErr result (λ why. why ≡ fault.Full → self.new.machine.maker.graph.most ≤ length self.new.machine.maker.graph.vertices) }
        ensures inside { IfOk result (λ made. made.place < length self.new.machine.maker.graph.vertices) }
        ensures value { IfOk result (λ made. (vars : ℕ → Bool) → holds self.new.machine.maker.graph.vertices vars made.place ≡ vars number) }
        ensures built { self.new.built ≡ self.old.built }
        ensures serves { (g : GraphData) (kept : List GroupTextData) → ServesIn self.old g kept → ServesIn self.new g kept }
    {
        self.room = None;
        self.machine.variable(number)
    }

    /// The function of a formula, from the functions that its names stand for.
    pub fn formula(
        &mut self,
        table: &NamedFunctions,
        formula: &[Part],
    ) -> Result<Function, GraphFault>
        requires { AreInside self.old.machine.maker.graph.vertices table.now.functions }
        ensures makes { MakesMore self.old.machine self.new.machine }
        ensures full { IfErr result (λ why. why ≡ fault.Full → self.new.machine.maker.graph.most ≤ length self.new.machine.maker.graph.vertices) }
        ensures inside { IfOk result (λ made. made.place < length self.new.machine.maker.graph.vertices) }
        ensures value { IfOk result (λ made. (vars : ℕ → Bool) → holds self.new.machine.maker.graph.vertices vars made.place
            ≡ truth_of (named_under self.old.machine.maker.graph.vertices vars table.now) formula.now) }
        ensures built { self.new.built ≡ self.old.built }
        ensures serves { (g : GraphData) (kept : List GroupTextData) → ServesIn self.old g kept → ServesIn self.new g kept }
    {
        self.room = None;
        self.machine.formula(self.alloc, table, formula)
    }

    /// Where a node with these rails isn't as wanted.
    pub fn missed(
        &mut self,
        hi: Function,
        lo: Function,
        wanted: Function,
    ) -> Result<Function, GraphFault>
        requires hi { hi.place < length self.old.machine.maker.graph.vertices }
        requires lo { lo.place < length self.old.machine.maker.graph.vertices }
        requires wanted { wanted.place < length self.old.machine.maker.graph.vertices }
        ensures makes { MakesMore self.old.machine self.new.machine }
        ensures full { IfErr result (λ why. why ≡ fault.Full → self.new.machine.maker.graph.most ≤ length self.new.machine.maker.graph.vertices) }
        ensures inside { IfOk result (λ made. made.place < length self.new.machine.maker.graph.vertices) }
        ensures missed { IfOk result (λ made.
            IsMissed self.old.machine.maker.graph.vertices self.new.machine.maker.graph.vertices hi.place lo.place wanted.place made.place) }
        ensures built { self.new.built ≡ self.old.built }
        ensures serves { (g : GraphData) (kept : List GroupTextData) → ServesIn self.old g kept → ServesIn self.new g kept }
    {
        self.room = None;
        self.machine.missed(hi, lo, wanted)
    }

    /// Where at least one of two functions holds.
    pub fn either(&mut self, a: Function, b: Function) -> Result<Function, GraphFault>
        requires first { a.place < length self.old.machine.maker.graph.vertices }
        requires second { b.place < length self.old.machine.maker.graph.vertices }
        ensures makes { MakesMore self.old.machine self.new.machine }
        ensures full { IfErr result (λ why. why ≡ fault.Full → self.new.machine.maker.graph.most ≤ length self.new.machine.maker.graph.vertices) }
        ensures inside { IfOk result (λ made. made.place < length self.new.machine.maker.graph.vertices) }
        ensures value { IfOk result (λ made. (vars : ℕ → Bool) → holds self.new.machine.maker.graph.vertices vars made.place
            ≡ (holds self.old.machine.maker.graph.vertices vars a.place || holds self.old.machine.maker.graph.vertices vars b.place)) }
        ensures built { self.new.built ≡ self.old.built }
        ensures serves { (g : GraphData) (kept : List GroupTextData) → ServesIn self.old g kept → ServesIn self.new g kept }
    {
        self.room = None;
        self.machine.either(a, b)
    }

    /// Where a function doesn't hold.
    pub fn negated(&mut self, a: Function) -> Result<Function, GraphFault>
        requires { a.place < length self.old.machine.maker.graph.vertices }
        ensures makes { MakesMore self.old.machine self.new.machine }
        ensures full { IfErr result (λ why. why ≡ fault.Full → self.new.machine.maker.graph.most ≤ length self.new.machine.maker.graph.vertices) }
        ensures inside { IfOk result (λ made. made.place < length self.new.machine.maker.graph.vertices) }
        ensures value { IfOk result (λ made. (vars : ℕ → Bool) →
            holds self.new.machine.maker.graph.vertices vars made.place ≡ not (holds self.old.machine.maker.graph.vertices vars a.place)) }
        ensures built { self.new.built ≡ self.old.built }
        ensures serves { (g : GraphData) (kept : List GroupTextData) → ServesIn self.old g kept → ServesIn self.new g kept }
    {
        self.room = None;
        self.machine.negated(a)
    }

    /// What gives a node the letter of a formula under each valuation, from the functions that its names stand for.
    pub fn letters(
        &mut self,
        table: &NamedFunctions,
        formula: &[Part],
    ) -> Result<Letters, GraphFault>
        requires { AreInside self.old.machine.maker.graph.vertices table.now.functions }
        ensures makes { MakesMore self.old.machine self.new.machine }
        ensures full { IfErr result (λ why. why ≡ fault.Full → self.new.machine.maker.graph.most ≤ length self.new.machine.maker.graph.vertices) }
        ensures own { IfOk result (GivesLetters self.new) }
        ensures letter { IfOk result (λ made. (column : ℕ) → column < columns_on self.old → letter_given self.new made column
            ≡ state_of_truth (truth_of (named_under self.old.machine.maker.graph.vertices (valuation_of self.old.machine.maker.graph.variables column) table.now) formula.now)) }
        ensures built { self.new.built ≡ self.old.built }
        ensures serves { (g : GraphData) (kept : List GroupTextData) → ServesIn self.old g kept → ServesIn self.new g kept }
    {
        let hi = self.formula(table, formula)?;
        let lo = self.negated(hi)?;
        Ok(Letters { hi, lo })
    }
}
