//! What stands for functions outside of a stage, and goes on with it over another graph.

use crate::SymbolStage;
use column_stage::Work;
use decision_graph::Function;
use formula_functions::NamedFunctions;

/// Functions that stand outside of a stage: those of names, and a list of others, as the rails of states that are kept.
///
/// Its work on the stage is to let go what neither they nor the states need, once the graph has grown: it goes on with the stage,
/// and under each valuation all hold where they held.
#[derive(Drop)]
pub struct Outside {
    /// The names that stand for functions.
    pub names: NamedFunctions,
    /// The other functions.
    pub kept: Vec<Function>,
    /// In how many places a new graph remembers results.
    pub notes: usize,
}

impl Work<SymbolStage> for Outside {
    ghost use Rattle.std.specs.Prelude.{◌<◌, All};
    ghost use Rattle.truth_makers.specs.Makers.{IsFunctionOf};
    ghost use Rattle.symbol_stage.specs.Compacting.{IsTidied};

    ghost asks = { λ outside stage.
        All (IsFunctionOf stage.machine.maker) outside.names.functions × All (IsFunctionOf stage.machine.maker) outside.kept.items × (0 < outside.notes) };

    ghost done = { λ before old after new. IsTidied old new before.names after.names before.kept.items after.kept.items };

    fn work(&mut self, stage: &mut SymbolStage) {
        stage.tidy(&mut self.names, &mut self.kept, self.notes);
    }
}
