//! The stage as a stage of one column.

use crate::stage::FaultStage;
use analysis_cache::{Analyst, Kept};
use channel_groups::Change;
use circuit_texts::BuildFault;
use column_stage::{Columns, Stage};
use settling::{Onlooker, Settled};
use std::alloc::Global;
use switch_paths::Graph;
use ternary::{NoMemory, Tern};

impl Columns for FaultStage {
    ghost use Rattle.circuit_texts.specs.Building.{IsCutOff};
    ghost use Rattle.fault_stage.specs.Stages.{DidAct, FitsIn, ServesIn, columns_on, last_in, spare_in, states_in};

    ghost columns = { columns_on };

    ghost states = { states_in };

    ghost spare = { spare_in };

    ghost last = { last_in };

    ghost serves = { ServesIn };

    ghost fits = { FitsIn };

    ghost cuts = { λ large g _. IsCutOff large g };

    ghost did = { DidAct };

    fn reserve(&mut self) -> Result<(), NoMemory> {
        self.take_room()
    }

    fn edit(&mut self, alloc: Global, graph: &Graph, change: &Change, kept: &mut Kept) {
        self.follow(alloc, graph, change, kept);
    }

    fn build<A: Analyst>(
        &mut self,
        alloc: Global,
        graph: &Graph,
        large: usize,
        kept: &mut Kept,
        analyst: &mut A,
    ) -> Result<u64, BuildFault> {
        self.make(alloc, graph, large, kept, analyst)
    }

    fn use_last(&self, kept: &mut Kept) {
        self.put_last(kept);
    }
}

impl Stage for FaultStage {
    ghost Shows = { Unit {0} };

    fn shown(&self) -> Option<&[Tern]> {
        Some(self.states())
    }

    fn columns(&self) -> u32 {
        1
    }

    fn state(&self, node: usize, _column: u32) -> Tern {
        self.states()[node]
    }

    fn place(&mut self, graph: &Graph, node: usize, letters: &[Tern]) {
        self.put(graph, node, letters);
    }

    fn step<O: Onlooker>(&mut self, graph: &Graph, onlooker: &mut O) {
        self.take_step(graph, onlooker);
    }

    fn settle<O: Onlooker>(
        &mut self,
        graph: &Graph,
        limit: u64,
        counts: &mut [Settled],
        onlooker: &mut O,
    ) {
        counts[0] = self.settle_down(graph, limit, onlooker);
    }
}
