//! Functions of variables: a column for each valuation.
ghost use Rattle.std.specs.Prelude.{◌≡◌, ◌↔◌, ℕ, ◌<◌, ◌≤◌, ◌^◌, Bool, true, false, length, IfOk, IfSome, IfNone, IsTrue};
ghost use Rattle.straight_code.specs.Flat.{kind_value};
ghost use Rattle.decision_graph.specs.Meaning.{assigned};
ghost use Rattle.decision_graph.specs.declared.graph.GraphFault.TheVariants as fault;
ghost use Rattle.truth_columns.specs.Columns.{AreKept};
ghost use Rattle.truth_makers.specs.Valuations.{holds_in, column_of, IsFirstColumn};

use decision_graph::{DecisionGraph, Function, GraphFault};
use std::alloc::{AllocError, Global};
use straight_code::StepKind;
use truth_columns::Truths;

/// The maker of functions of named variables: in column c, the first variable is the highest bit of c.
#[derive(Drop)]
pub struct Symbols {
    pub graph: DecisionGraph,
}

impl Symbols {
    /// The valuation of the first column in which a truth holds; None exactly if it holds in none.
    pub fn first(&self, alloc: Global, truth: Function) -> Result<Option<Vec<bool>>, AllocError>
        requires { truth.place < length self.now.graph.vertices }
        ensures count { IfOk result (λ found. IfSome found (λ vars. length vars.items ≡ self.now.graph.variables)) }
        ensures first { IfOk result (λ found. IfSome found (λ vars.
            IsFirstColumn self.now.graph.variables self.now.graph.vertices truth.place (column_of (assigned vars.items) self.now.graph.variables))) }
        ensures never { IfOk result (λ found. IfNone found ((column : ℕ) → holds_in self.now.graph.variables self.now.graph.vertices column truth.place ≡ false)) }
    {
        self.graph.size();
        match self.graph.witness(alloc, truth)? {
            Some(vars) => Ok(Some(vars)),
            None => Ok(None),
        }
    }
}

impl Truths for Symbols {
    type Truth = Function;

    type Fault = GraphFault;

    ghost columns = { λ symbols. 2 ^ symbols.graph.variables };

    ghost has = { λ symbols function. function.place < length symbols.graph.vertices };

    ghost holds = { λ symbols function column. holds_in symbols.graph.variables symbols.graph.vertices column function.place };

    ghost bound = { λ symbols. symbols.graph.most };

    ghost spent = { λ symbols why. why ≡ fault.Full → symbols.graph.most ≤ length symbols.graph.vertices };

    fn constant(&self, value: bool) -> Function {
        self.graph.constant(value)
    }

    fn is_never(&self, truth: Function) -> bool {
        self.graph.size();
        self.graph.is_never(truth)
    }

    fn same(&self, a: Function, b: Function) -> bool {
        self.graph.size();
        self.graph.same(a, b)
    }

    fn perform(
        &mut self,
        kind: StepKind,
        a: Function,
        b: Function,
    ) -> Result<Function, GraphFault> {
        match kind {
            StepKind::Not => self.graph.not(a),
            StepKind::And => self.graph.and(a, b),
            StepKind::Or => self.graph.or(a, b),
        }
    }
}
