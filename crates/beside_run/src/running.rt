//! A run beside a recorded good run.
ghost use Rattle.std.specs.Prelude.{◌≡◌, ◌+◌, ◌-◌, ◌^◌, ◌<◌, length, IfOk};
ghost use Rattle.std.specs.Bool.{OnTrue};
ghost use Rattle.switch_paths.specs.Rails.{IsSound};
ghost use Rattle.machine_laws.specs.Fitting.{FitsGraph};
ghost use Rattle.good_phases.specs.Phases.{IsBeat};
ghost use Rattle.beside_run.specs.Differing.{AreFirstApart};
ghost use Rattle.beside_run.specs.Running.{AreAlikeBut, ComesNext, GivesNode, IsRunBeside, SettlesRun, StartsBeside};

use crate::coming::is_next;
use crate::differing::first_apart;
use crate::phases::settle_phase;
use good_phases::Beat;
use good_run::Recorder;
use settling::{Onlooker, Settled};
use std::alloc::Global;
use std::marker::Model;
use std::sync::ledger::Ledger;
use switch_paths::Graph;
use ternary::{NoMemory, Steps, Tern};
use unit_step::Machine;
use vicinity::NodeSet;

/// A run under a fault beside a recorded good run, whose machine and states are held elsewhere.
#[derive(Drop)]
pub struct RunBeside {
    good: Vec<Tern>,
    at: usize,
    apart: NodeSet,
    touched: NodeSet,
    room: NodeSet,
    given: NodeSet,
}

impl Model for RunBeside {
    ghost use Rattle.beside_run.specs.Running.{BesideData};

    ghost Value = { BesideData };

    ghost view = { λ b. record { good = b.good.items; at = b.at; apart = b.apart; touched = b.touched; room = b.room; given = b.given } };
}

impl RunBeside {
    /// A run begins beside a good one, in a machine of the fault's graph, of which each part stands alike in both graphs but those that are touched. The parts
    /// are apart, and marked, that are touched or stale, and those that a node concerns which has another state than where the good run starts; all others
    /// follow it from the first step on.
    pub fn start(
        alloc: Global,
        machine: &mut Machine,
        good_graph: &Graph,
        run: &Recorder,
        graph: &Graph,
        touched: NodeSet,
    ) -> Result<RunBeside, NoMemory>
        requires fits { FitsGraph graph.now machine.old }
        requires counted { length run.now.start ≡ length machine.old.state }
        requires sound { IsSound run.now.start }
        requires touched { length touched.inside ≡ length machine.old.parts }
        requires alike { AreAlikeBut good_graph.now graph.now machine.old touched.inside }
        ensures beside { IfOk result (IsRunBeside good_graph.now run.now graph.now machine.new machine.new.state) }
        ensures first { IfOk result (λ begun. AreFirstApart machine.old touched.inside run.now.start begun.apart.inside) }
        ensures marks { StartsBeside machine.old machine.new }
    {
        machine.has_a_mark_for_each_part();
        let parts = machine.parts();
        let nodes = machine.state().len();
        let start = run.start();
        let apart = first_apart(alloc, machine, &touched, start)?;
        let room = NodeSet::new(alloc, parts)?;
        let given = NodeSet::new(alloc, nodes)?;
        let state = Vec::from_slice(alloc, start)?;
        apart.lists_what_is_in_it();
        machine.mark_just(apart.nodes_in());
        Ok(RunBeside {
            good: state,
            at: 0,
            apart,
            touched,
            room,
            given,
        })
    }

    /// How many looks of the record led to where the good run is.
    pub fn at(&self) -> usize
        ensures { result ≡ self.now.at }
    {
        self.at
    }

    /// How many parts are apart.
    pub fn apart(&self) -> usize
        ensures { result ≡ length self.now.apart.list }
    {
        self.apart.len()
    }

    /// A node that is no rail is given a state, which takes effect where the next phase begins.
    pub fn give(&mut self, node: usize)
        requires { node < length self.old.given.inside }
        ensures { GivesNode node self.old self.new }
    {
        let _is_new = self.given.insert(node);
    }

    /// Whether this phase of the record is the one that comes next, with this limit, and short enough to be counted.
    pub fn comes(&self, machine: &Machine, beat: Beat, limit: u64) -> bool
        ensures { OnTrue result (ComesNext beat limit (length machine.now.state) self.now) }
    {
        is_next(beat, self.at, limit, machine.state().len())
    }

    /// Settles from the state that is meant, beside the next phase of the good run.
    pub fn settle<O: Onlooker, L: Ledger>(
        &mut self,
        machine: &mut Machine,
        good_graph: &Graph,
        run: &Recorder,
        graph: &Graph,
        state: &[Tern],
        beat: Beat,
        steps: &mut Steps<L>,
        onlooker: &mut O,
    ) -> Settled
        requires beside { IsRunBeside good_graph.now run.now graph.now machine.old state.now self.old }
        requires beat { IsBeat good_graph.now run.now beat }
        requires next { beat.begin ≡ self.old.at }
        requires few { (beat.end - (beat.begin + 1)) + beat.limit + length machine.old.state < 2 ^ 62 }
        requires knows { O.knows onlooker.old state.now }
        ensures settles { SettlesRun O.see good_graph.now run.now graph.now beat.limit result.steps result.joined machine.old machine.new state.now self.new (O.seen onlooker.old) (O.seen onlooker.new) }
        ensures knows { O.knows onlooker.new machine.new.state }
    {
        let told = settle_phase(
            machine,
            good_graph,
            run,
            graph,
            state,
            beat,
            &mut self.good,
            &mut self.apart,
            &self.touched,
            &mut self.room,
            &mut self.given,
            steps,
            onlooker,
        );
        self.at = beat.end;
        told
    }
}
