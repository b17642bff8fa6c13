//! The columns' stage as a stage.

use crate::stage::ColumnMachineStage;
use crate::words::value_words;
use analysis_cache::{Analyst, Kept};
use channel_groups::Change;
use circuit_texts::BuildFault;
use column_stage::{ColumnStage, Columns, Stage};
use settling::{Onlooker, Settled};
use std::alloc::Global;
use switch_paths::{Graph, graphs_are_wired};
use ternary::{NoMemory, Tern};

impl Columns for ColumnMachineStage {
    ghost use Rattle.column_stage.specs.Standing.{IsCutInColumns};
    ghost use Rattle.column_machine_stage.specs.Stages.{FitsIn, ServesIn, columns_on, last_held, states_in};
    ghost use Rattle.column_machine_stage.specs.Acts.{DidAct};

    ghost columns = { columns_on };

    ghost states = { states_in };

    ghost spare = { λ stage. stage.spare };

    ghost last = { λ stage. last_held stage.machine };

    ghost serves = { ServesIn };

    ghost fits = { λ stage g. FitsIn g stage.machine };

    ghost cuts = { IsCutInColumns };

    ghost did = { DidAct };

    fn reserve(&mut self) -> Result<(), NoMemory> {
        self.take_room()
    }

    fn edit(&mut self, _alloc: Global, graph: &Graph, change: &Change, kept: &mut Kept) {
        // a call for the proof alone: there is a column, which has a state for each node
        let _some = self.count();
        graphs_are_wired(graph);
        self.follow(graph, change, kept);
    }

    fn build<A: Analyst>(
        &mut self,
        _alloc: Global,
        graph: &Graph,
        large: usize,
        kept: &mut Kept,
        analyst: &mut A,
    ) -> Result<u64, BuildFault> {
        self.make(graph, large, kept, analyst)
    }

    fn use_last(&self, kept: &mut Kept) {
        self.put_last(kept);
    }
}

impl Stage for ColumnMachineStage {
    ghost Shows = { ⊥ };

    fn shown(&self) -> Option<&[Tern]> {
        None
    }

    fn columns(&self) -> u32 {
        self.count()
    }

    fn state(&self, node: usize, column: u32) -> Tern {
        self.state_of(node, column)
    }

    fn place(&mut self, graph: &Graph, node: usize, letters: &[Tern]) {
        let words = value_words(letters, self.count());
        self.set_node(graph, node, words);
    }

    fn step<O: Onlooker>(&mut self, graph: &Graph, _onlooker: &mut O) {
        self.step_machine(graph);
    }

    fn settle<O: Onlooker>(
        &mut self,
        graph: &Graph,
        limit: u64,
        counts: &mut [Settled],
        _onlooker: &mut O,
    ) {
        self.settle_machine(graph, limit, counts);
    }
}

impl ColumnStage for ColumnMachineStage {
    ghost use Rattle.column_machine_stage.specs.Moving.{moves_columns};

    ghost moves = { moves_columns };
}
