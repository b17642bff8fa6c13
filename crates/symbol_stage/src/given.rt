//! The stage as one that may run out: what nodes are given under all valuations, and its moves.

use crate::SymbolStage;
use column_stage::TruthStage;
use decision_graph::{Function, GraphFault};
use settling::Settled;
use switch_paths::Graph;
use ternary::Tern;
use truth_columns::Truths;

/// What a node is given under all valuations: where it may be 1, and where it may be 0.
///
/// A letter that is the same under all is two constants, X both true; a formula's are its function and what that isn't.
#[derive(Clone, Copy)]
pub struct Letters {
    pub hi: Function,
    pub lo: Function,
}

impl TruthStage for SymbolStage {
    ghost use Rattle.truth_makers.specs.Makers.{IsSpent};
    ghost use Rattle.symbol_stage.specs.Given.{GivesLetters, letter_given};
    ghost use Rattle.symbol_stage.specs.Stages.{bound_in};

    type Given = Letters;

    type Fault = GraphFault;

    ghost gives = { GivesLetters };

    ghost letter_of = { letter_given };

    ghost bound = { bound_in };

    ghost spent = { λ stage why. IsSpent stage.machine.maker why };

    ghost moves = { λ act old new done. done.moves };

    ghost keeps = { λ act old new done. done.keeps };

    fn alike(&self, state: Tern) -> Letters {
        let symbols = self.symbols();
        let hi = symbols.constant(state.may_one());
        let lo = symbols.constant(state.may_zero());
        Letters { hi, lo }
    }

    fn put(&mut self, graph: &Graph, node: usize, given: Letters) {
        // a call for the proof alone: in each column there is a state for each node
        self.are_rails();
        self.place(graph, node, given.hi, given.lo);
    }

    fn step(&mut self, graph: &Graph) -> Result<(), GraphFault> {
        self.step_all(graph)
    }

    fn settle(&mut self, graph: &Graph, limit: u64) -> Result<Settled, GraphFault> {
        self.settle_all(graph, limit)
    }
}
