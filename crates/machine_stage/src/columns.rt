//! The machine's stage as a stage of one column.

use crate::stage::MachineStage;
use analysis_cache::{Analyst, Kept};
use channel_groups::Change;
use circuit_texts::BuildFault;
use column_stage::{Columns, Stage};
use settling::{Onlooker, Settled};
use std::alloc::Global;
use switch_paths::{Graph, graphs_are_wired};
use ternary::{NoMemory, Tern};

impl Columns for MachineStage {
    ghost use Rattle.circuit_texts.specs.Building.{IsCutOff};
    ghost use Rattle.machine_stage.specs.Machines.{FitsIn, ServesIn, columns_on, last_in, states_in};
    ghost use Rattle.machine_stage.specs.Stages.{DidAct};

    ghost columns = { columns_on };

    ghost states = { states_in };

    ghost spare = { λ stage. stage.spare };

    ghost last = { λ stage. last_in stage.machine };

    ghost serves = { ServesIn };

    ghost fits = { λ stage g. FitsIn g stage.machine };

    ghost cuts = { λ large g _. IsCutOff large g };

    ghost did = { DidAct };

    fn reserve(&mut self) -> Result<(), NoMemory> {
        self.take_room()
    }

    fn edit(&mut self, alloc: Global, graph: &Graph, change: &Change, kept: &mut Kept) {
        graphs_are_wired(graph);
        self.regroup(alloc, graph, change, kept);
    }

    fn build<A: Analyst>(
        &mut self,
        alloc: Global,
        graph: &Graph,
        large: usize,
        kept: &mut Kept,
        analyst: &mut A,
    ) -> Result<u64, BuildFault> {
        self.make(alloc, graph, large, kept, analyst)
    }

    fn use_last(&self, kept: &mut Kept) {
        self.put_last(kept);
    }
}

impl Stage for MachineStage {
    ghost Shows = { Unit {0} };

    fn shown(&self) -> Option<&[Tern]> {
        Some(self.states())
    }

    fn columns(&self) -> u32 {
        1
    }

    fn state(&self, node: usize, _column: u32) -> Tern {
        self.states()[node]
    }

    fn place(&mut self, graph: &Graph, node: usize, letters: &[Tern]) {
        self.is_the_machines();
        self.set_node(graph, node, letters[0]);
        self.is_the_machines();
    }

    fn step<O: Onlooker>(&mut self, graph: &Graph, onlooker: &mut O) {
        self.step_machine(graph, onlooker);
    }

    fn settle<O: Onlooker>(
        &mut self,
        graph: &Graph,
        limit: u64,
        counts: &mut [Settled],
        onlooker: &mut O,
    ) {
        counts[0] = self.settle_machine(graph, limit, onlooker);
    }
}
