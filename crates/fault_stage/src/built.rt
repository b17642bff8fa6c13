//! A stage that is built: its run is recorded, or goes beside a recorded one, or by itself.

ghost use Rattle.std.specs.Prelude.{◌≡◌, ℕ, ◌-◌, ◌<◌, ◌≤◌, List, length, slice_set, vec_capacity, vec_len, IfSome, OnOk};
ghost use Rattle.switch_paths.specs.declared.TheConstants.{RAILS};
ghost use Rattle.fault_stage.specs.Words.{IsStep, SteppingThrough, AreOf, first_texts, GroupTextData, HasTexts, SeesStates};
ghost use Rattle.column_stage.specs.declared.TheConstants.{NEW_NODES};
ghost use Rattle.fault_stage.specs.Runs.{IsBuilt, IsLastRun};
ghost use Rattle.fault_stage.specs.Stages.{SettlesSeen, ready_of, texts_in};

use crate::moving::room_in;
use crate::passing::Passed;
use crate::placing::{go_alone, place_in};
use crate::settling_beside::settle_in;
use crate::waiting::LastRun;
use beside_run::RunBeside;
use channel_groups::Groups;
use column_stage::NEW_NODES;
use edits_between::Differences;
use good_phases::GoodPhases;
use machine_stage::take_step;
use settling::{MOST_LIMIT, Onlooker, Settled};
use std::mem;
use switch_paths::{Graph, RAILS};
use ternary::{NoMemory, Tern};
use unit_step::Machine;

/// How the machine of a stage that is built goes on: it is recorded; or beside the recorded run, whose phase with this number may
/// come next; or by itself.
#[derive(Drop)]
pub(crate) enum Course {
    Recorded,
    Beside(RunBeside, usize),
    Alone,
}

/// A machine of a graph, and the record of a good run.
#[derive(Drop)]
pub(crate) struct Built {
    pub(crate) machine: Machine,
    pub(crate) graph: Graph,
    // The state that is meant: the machine's, but beside a good run nodes that were given states since the last phase lag there.
    pub(crate) state: Vec<Tern>,
    pub(crate) good: GoodPhases,
    // Where the graph differs from the good run's.
    pub(crate) apart: Differences,
    // Up to how many members groups without a text might have at the build.
    pub(crate) large: usize,
    pub(crate) course: Course,
    // The phases that the machine took by itself and may take again.
    pub(crate) passes: Vec<Passed>,
}

impl Built {
    /// Takes room for the states of as many new nodes as one edit makes at most.
    pub(crate) fn take_room(&mut self) -> Result<(), NoMemory>
        requires { IsBuilt self.old }
        ensures built { IsBuilt self.new }
        ensures room { OnOk result (NEW_NODES ≤ vec_capacity self.new.state - vec_len self.new.state) }
        ensures same { ready_of self.new ≡ record (ready_of self.old) { spare = vec_capacity self.new.state - vec_len self.new.state } }
    {
        room_in(&mut self.state)
    }

    /// Gives a node that is no rail a state.
    pub(crate) fn place(&mut self, node: usize, value: Tern)
        requires built { IsBuilt self.old }
        requires inside { node < length self.old.state.items }
        requires no_rail { RAILS ≤ node }
        ensures built { IsBuilt self.new }
        ensures same { ready_of self.new ≡ record (ready_of self.old) { state = slice_set self.old.state.items node value } }
    {
        place_in(
            &mut self.machine,
            &self.graph,
            &self.good,
            &self.state,
            &mut self.course,
            node,
            value,
        );
        self.state[node] = value;
    }

    /// Takes a unit step, by itself from here on, and shows the state behind it if it changed.
    pub(crate) fn step<O: Onlooker>(&mut self, onlooker: &mut O)
        requires built { IsBuilt self.old }
        requires knows { O.knows onlooker.old self.old.state.items }
        ensures built { IsBuilt self.new }
        ensures same { ready_of self.new ≡ record (ready_of self.old) { state = self.new.state.items } }
        ensures step { IsStep self.old.graph self.old.state.items self.new.state.items }
        ensures seen { SeesStates O.see (SteppingThrough self.old.graph 1 self.old.state.items) self.old.state.items self.new.state.items (O.seen onlooker.old) (O.seen onlooker.new) }
        ensures knows { O.knows onlooker.new self.new.state.items }
    {
        let course = mem::replace(&mut self.course, Course::Alone);
        go_alone(
            &mut self.machine,
            &self.graph,
            &self.good,
            &self.state,
            &course,
        );
        take_step(&mut self.machine, &self.graph, onlooker);
        take_over(&self.machine, &mut self.state);
    }

    /// Settles: recorded, or beside the next phase of the record, or by itself; and shows each state that it passes through.
    pub(crate) fn settle<O: Onlooker>(&mut self, limit: u64, onlooker: &mut O) -> Settled
        requires built { IsBuilt self.old }
        requires low { 1 ≤ limit }
        requires high { limit ≤ MOST_LIMIT }
        requires knows { O.knows onlooker.old self.old.state.items }
        ensures built { IsBuilt self.new }
        ensures same { ready_of self.new ≡ record (ready_of self.old) { state = self.new.state.items } }
        ensures takes { SettlesSeen O.see self.old.graph limit result.steps result.joined self.old.state.items self.new.state.items (O.seen onlooker.old) (O.seen onlooker.new) }
        ensures knows { O.knows onlooker.new self.new.state.items }
    {
        let course = mem::replace(&mut self.course, Course::Alone);
        let (course, told) = settle_in(
            &mut self.machine,
            &self.graph,
            &self.state,
            &mut self.good,
            course,
            &mut self.passes,
            limit,
            onlooker,
        );
        self.course = course;
        take_over(&self.machine, &mut self.state);
        told
    }

    /// How many groups its graph has.
    pub(crate) fn group_count(&self) -> usize
        requires { IsBuilt self.now }
        ensures { (large : ℕ) (texts : List GroupTextData) (has : HasTexts large self.now.graph texts) → result ≡ length has.groups }
    {
        self.machine.groups()
    }

    /// How many distinct texts these have.
    pub(crate) fn text_count(&self) -> usize
        requires { IsBuilt self.now }
        ensures { (large : ℕ) (texts : List GroupTextData) → HasTexts large self.now.graph texts → result ≡ length (first_texts texts) }
    {
        self.machine.texts()
    }

    /// The groups of its graph, if they are at hand.
    pub(crate) fn groups_there(&self) -> Option<&Groups>
        requires { IsBuilt self.now }
        ensures { IfSome result (λ groups. AreOf self.now.graph groups.now) }
    {
        self.machine.grouping()
    }

    /// What there is of its run once it is over: the machine covers its graph, whatever its state.
    pub(crate) fn ended(self) -> LastRun
        requires { IsBuilt self }
        ensures last_run { IsLastRun result }
        ensures texts { texts_in result.machine ≡ self.machine.last }
    {
        let Built {
            mut machine,
            graph,
            good,
            apart,
            ..
        } = self;
        machine.has_a_mark_for_each_part();
        machine.mark_all_parts();
        LastRun {
            machine: Some(machine),
            covered: true,
            graph,
            good,
            apart,
        }
    }
}

// Takes the machine's state over, which is of as many nodes.
fn take_over(machine: &Machine, state: &mut Vec<Tern>)
    requires { length state.old.items ≡ length machine.now.state }
    ensures items { state.new.items ≡ machine.now.state }
    ensures room { vec_capacity state.new - vec_len state.new ≡ vec_capacity state.old - vec_len state.old }
{
    state.copy_from_slice(machine.state());
}
