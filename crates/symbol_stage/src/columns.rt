//! The stage as one of columns, with a column for each valuation: room, edits and builds.

use crate::SymbolStage;
use analysis_cache::{Analyst, Kept};
use channel_groups::Change;
use circuit_texts::BuildFault;
use column_stage::Columns;
use std::alloc::Global;
use switch_paths::Graph;
use ternary::NoMemory;

impl Columns for SymbolStage {
    ghost use Rattle.std.specs.Prelude.{[]};
    ghost use Rattle.column_stage.specs.Standing.{IsCutInColumns};
    ghost use Rattle.symbol_stage.specs.Stages.{FitsIn, ServesIn, columns_on, states_in};
    ghost use Rattle.symbol_stage.specs.Acts.{DidAct};

    ghost columns = { columns_on };

    ghost states = { states_in };

    ghost spare = { λ stage. stage.spare };

    ghost last = { λ _. [] };

    ghost serves = { ServesIn };

    ghost fits = { FitsIn };

    ghost cuts = { IsCutInColumns };

    ghost did = { DidAct };

    fn reserve(&mut self) -> Result<(), NoMemory> {
        self.take_room()
    }

    fn edit(&mut self, _alloc: Global, graph: &Graph, _change: &Change, _kept: &mut Kept) {
        // a call for the proof alone: in each column there is a state for each node
        self.are_rails();
        self.add_nodes(graph.nodes());
    }

    fn build<A: Analyst>(
        &mut self,
        _alloc: Global,
        graph: &Graph,
        large: usize,
        kept: &mut Kept,
        analyst: &mut A,
    ) -> Result<u64, BuildFault> {
        if large == 0 {
            return self.make(graph, kept, analyst);
        }
        // Groups without a text are stepped by vicinities, and there is no room for such steps under all valuations.
        Err(BuildFault::NoMemory)
    }

    fn use_last(&self, _kept: &mut Kept) {}
}
