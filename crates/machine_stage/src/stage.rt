//! The state of a circuit's nodes, and the machine that moves it, if there is one.

ghost use Rattle.std.specs.Prelude.{◌≡◌, ◌+◌, ◌<◌, ◌≤◌, ◌⊎◌, true, None, Some, Err, is_some, length, count_by, option_map, slice_set, IfSome, IfOk, IfErr, OnOk, OnErr};
ghost use Rattle.machine_stage.specs.Words.{RAILS, nodes, IsWired, IsRailed, IsSound, SteppingThrough, undo, texts_of, IsGrown};
ghost use Rattle.machine_stage.specs.Words.{TellsRefused, Builds, IsCutOff, NEW_NODES, has_members, Covers, with_new_nodes, AreAmong};
ghost use Rattle.machine_stage.specs.Words.{PhaseThrough, SeesStates};
ghost use Rattle.machine_stage.specs.Machines.{Serves, FitsIn, kept_in, last_in, without_room};
ghost use Rattle.machine_stage.specs.Stages.{PutsIn, MovesBy, TakesStep, TakesPhase, EditsFrom, BuiltFrom};

use crate::moving::{place, settle_to_rest, take_step};
use crate::regrouping::regrouped;
use analysis_cache::{Analyst, Kept};
use channel_groups::Change;
use circuit_texts::BuildFault;
use settling::{MOST_LIMIT, Onlooker, Settled};
use std::alloc::Global;
use std::marker::Model;
use std::mem;
use switch_paths::{Graph, RAILS};
use ternary::{NoMemory, Tern};
use unit_step::{Codes, Machine, NEW_NODES};

// The state alone, or the machine that moves it.
#[derive(Drop)]
pub(crate) enum Held {
    Still(Vec<Tern>),
    Built(Machine),
}

/// The stage of a plain script over a compiled machine: the state of each node, and the machine that moves it, if
/// there is one.
///
/// The machine is built at the first command that wants it, and lives through edits of the circuit. Contracts see the
/// state, the machine and for how many new nodes there is room.
#[derive(Drop)]
pub struct MachineStage {
    held: Held,
}

impl Model for MachineStage {
    ghost use Rattle.machine_stage.specs.Machines.{StageData};
    ghost use Rattle.machine_stage.specs.Held.{state_held, machine_held, spare_held};

    ghost Value = { StageData };

    ghost view = { λ stage. record { state = state_held stage.held; machine = machine_held stage.held; spare = spare_held stage.held } };
}

impl MachineStage {
    /// This state, and no machine.
    pub(crate) fn start(state: Vec<Tern>) -> MachineStage
        ensures state { result.state ≡ state.items }
        ensures machine { result.machine ≡ None }
    {
        MachineStage {
            held: Held::Still(state),
        }
    }

    /// The state of each node.
    pub(crate) fn states(&self) -> &[Tern]
        ensures { result.now ≡ self.now.state }
    {
        match &self.held {
            Held::Still(state) => state,
            Held::Built(machine) => machine.state(),
        }
    }

    /// The machine, if there is one.
    pub fn machine(&self) -> Option<&Machine>
        ensures value { option_map (λ machine. without_room machine.now) result ≡ self.now.machine }
        ensures state { IfSome result (λ machine. machine.now.state ≡ self.now.state) }
    {
        match &self.held {
            Held::Still(_) => None,
            Held::Built(machine) => Some(machine),
        }
    }

    /// The state is the machine's, if there is one: a call of this is for its contract alone.
    pub(crate) fn is_the_machines(&self)
        ensures { IfSome self.now.machine (λ machine. machine.state ≡ self.now.state) }
    {
        let _ = &self.held;
    }

    /// Takes room for the states of as many new nodes as one edit makes at most.
    ///
    /// Out of memory too the state and the machine are as before.
    pub(crate) fn take_room(&mut self) -> Result<(), NoMemory>
        ensures room { OnOk result (NEW_NODES ≤ self.new.spare) }
        ensures state { self.new.state ≡ self.old.state }
        ensures machine { self.new.machine ≡ self.old.machine }
    {
        match &mut self.held {
            Held::Still(state) => {
                state.reserve(NEW_NODES)?;
                Ok(())
            }
            Held::Built(machine) => machine.reserve(),
        }
    }

    /// Goes on after an edit of the graph: each new node is X, in room that is there, and the machine, if
    /// there is one, is made stale round the edit. Where that lacks memory, the machine alone is let go; then
    /// the texts of its last build are moved to the front of what is kept, where they count as standing anyhow.
    pub(crate) fn regroup(&mut self, alloc: Global, graph: &Graph, change: &Change, kept: &mut Kept)
        requires covers { IfSome self.old.machine (Covers (undo graph.now change.now)) }
        requires wired { IsWired (undo graph.now change.now) }
        requires room { nodes graph.now ≤ length self.old.state + self.old.spare }
        requires last { AreAmong (last_in self.old.machine) (texts_of kept.old) }
        ensures state { self.new.state ≡ with_new_nodes self.old.state (nodes graph.now) }
        ensures machine { IfSome self.new.machine (EditsFrom graph.now change.now self.old.machine) }
        ensures kept { kept_in self.new.machine (texts_of kept.new) ≡ kept_in self.old.machine (texts_of kept.old) }
        ensures last { AreAmong (last_in self.new.machine) (texts_of kept.new) }
        ensures bound { kept.new.bound ≡ kept.old.bound }
    {
        let held = mem::replace(&mut self.held, Held::Still(Vec::new(alloc)));
        self.held = regrouped(held, graph, change, kept);
    }

    /// Moves the texts of the machine's last build, if there is a machine, to the front of what is kept.
    #[tactic(auto, using(column_stage::proofs::FrontLemmas::kept_alone))]
    pub(crate) fn put_last(&self, kept: &mut Kept)
        requires { AreAmong (last_in self.now.machine) (texts_of kept.old) }
        ensures kept { texts_of kept.new ≡ kept_in self.now.machine (texts_of kept.old) }
        ensures bound { kept.new.bound ≡ kept.old.bound }
    {
        match &self.held {
            Held::Still(_) => {}
            Held::Built(machine) => machine.use_last(kept),
        }
    }

    /// Gets a machine that fits the graph: the stale parts of the one that is there get their codes, and
    /// if there is none one is built.
    ///
    /// Texts that aren't kept are analysed first, each once, and kept; the answer is how many these are. What is
    /// kept, with the texts of this build in front, is what a build leaves. The refusals are those of a build;
    /// after them the state and the machine are as before.
    #[tactic(auto, using(crate::proofs::RoomLemmas::built_finished))]
    pub(crate) fn make<A: Analyst>(
        &mut self,
        alloc: Global,
        graph: &Graph,
        large: usize,
        kept: &mut Kept,
        analyst: &mut A,
    ) -> Result<u64, BuildFault>
        requires counted { length self.old.state ≡ nodes graph.now }
        requires railed { IsRailed graph.now }
        requires sound { IsSound self.old.state }
        requires serves { IfSome self.old.machine (Serves graph.now self.old.state (texts_of kept.old)) }
        requires last { AreAmong (last_in self.old.machine) (texts_of kept.old) }
        ensures built { OnOk result (BuiltFrom large graph.now self.old self.new) }
        ensures builds { IfOk result (Builds large graph.now kept.old.bound (kept_in self.old.machine (texts_of kept.old)) (kept_in self.new.machine (texts_of kept.new))
            (A.analysed analyst.old) (A.analysed analyst.new)) }
        ensures last { OnOk result (AreAmong (last_in self.new.machine) (texts_of kept.new)) }
        ensures bound { kept.new.bound ≡ kept.old.bound }
        ensures cut_off { result ≡ Err BuildFault.NoMemory → IsCutOff large graph.now (kept_in self.old.machine (texts_of kept.old)) (kept_in self.old.machine (texts_of kept.new))
            (A.analysed analyst.old) (A.analysed analyst.new) }
        ensures refused { IfErr result (λ fault. (fault ≡ BuildFault.NoMemory)
            ⊎ (TellsRefused large graph.now fault × (kept.new ≡ kept.old) × (A.analysed analyst.new ≡ A.analysed analyst.old))) }
        ensures err { OnErr result (self.new ≡ self.old) }
        ensures grown { OnErr result (IsGrown kept.old kept.new) }
    {
        match &mut self.held {
            Held::Built(machine) => machine.finish(graph, large, Codes::Short, kept, analyst),
            Held::Still(_) => self.start_machine(alloc, graph, large, kept, analyst),
        }
    }

    // Builds a machine that fits the graph, where there is none. A machine is large: room for one on the stack is made
    // ready here, and so not where the one that is there is looked at alone.
    #[inline(never)]
    #[tactic(auto, using(crate::proofs::RoomLemmas::built_anew, crate::proofs::LastLemmas::builds_anew, crate::proofs::LastLemmas::last_kept, crate::proofs::LastLemmas::cut_off_alone))]
    fn start_machine<A: Analyst>(
        &mut self,
        alloc: Global,
        graph: &Graph,
        large: usize,
        kept: &mut Kept,
        analyst: &mut A,
    ) -> Result<u64, BuildFault>
        requires counted { length self.old.state ≡ nodes graph.now }
        requires railed { IsRailed graph.now }
        requires sound { IsSound self.old.state }
        requires none { self.old.machine ≡ None }
        ensures built { OnOk result (BuiltFrom large graph.now self.old self.new) }
        ensures builds { IfOk result (Builds large graph.now kept.old.bound (kept_in self.old.machine (texts_of kept.old)) (kept_in self.new.machine (texts_of kept.new))
            (A.analysed analyst.old) (A.analysed analyst.new)) }
        ensures last { OnOk result (AreAmong (last_in self.new.machine) (texts_of kept.new)) }
        ensures bound { kept.new.bound ≡ kept.old.bound }
        ensures cut_off { result ≡ Err BuildFault.NoMemory → IsCutOff large graph.now (kept_in self.old.machine (texts_of kept.old)) (kept_in self.old.machine (texts_of kept.new))
            (A.analysed analyst.old) (A.analysed analyst.new) }
        ensures refused { IfErr result (λ fault. (fault ≡ BuildFault.NoMemory)
            ⊎ (TellsRefused large graph.now fault × (kept.new ≡ kept.old) × (A.analysed analyst.new ≡ A.analysed analyst.old))) }
        ensures err { OnErr result (self.new ≡ self.old) }
        ensures grown { OnErr result (IsGrown kept.old kept.new) }
    {
        let Held::Still(state) = &self.held else {
            unreachable!();
        };
        let (machine, fresh) = Machine::build(
            alloc,
            graph,
            state,
            large,
            Codes::Short,
            kept,
            analyst,
        )?;
        self.held = Held::Built(machine);
        Ok(fresh)
    }

    /// Gives a node that is no rail this state.
    pub(crate) fn set_node(&mut self, graph: &Graph, node: usize, value: Tern)
        requires inside { node < length self.old.state }
        requires no_rail { RAILS ≤ node }
        ensures state { self.new.state ≡ slice_set self.old.state node value }
        ensures machine { PutsIn graph.now node value self.old.machine self.new.machine }
    {
        match &mut self.held {
            Held::Still(state) => state[node] = value,
            Held::Built(machine) => place(machine, graph, node, value),
        }
    }

    /// Has the machine, which fits the graph, take a unit step, and shows the state behind it if it changed.
    pub(crate) fn step_machine<O: Onlooker>(&mut self, graph: &Graph, onlooker: &mut O)
        requires fits { FitsIn graph.now self.old.machine }
        requires knows { O.knows onlooker.old self.old.state }
        ensures moves { MovesBy (TakesStep graph.now) self.old self.new }
        ensures seen { SeesStates O.see (SteppingThrough graph.now 1 self.old.state) self.old.state self.new.state (O.seen onlooker.old) (O.seen onlooker.new) }
        ensures knows { O.knows onlooker.new self.new.state }
    {
        match &mut self.held {
            Held::Built(machine) => take_step(machine, graph, onlooker),
            Held::Still(_) => {}
        }
    }

    /// Has the machine, which fits the graph, settle, and shows each state that it passes through.
    pub(crate) fn settle_machine<O: Onlooker>(
        &mut self,
        graph: &Graph,
        limit: u64,
        onlooker: &mut O,
    ) -> Settled
        requires fits { FitsIn graph.now self.old.machine }
        requires low { 1 ≤ limit }
        requires high { limit ≤ MOST_LIMIT }
        requires knows { O.knows onlooker.old self.old.state }
        ensures moves { MovesBy (λ before after. TakesPhase graph.now limit before after result.steps result.joined) self.old self.new }
        ensures seen { SeesStates O.see (PhaseThrough graph.now limit self.old.state result.steps) self.old.state self.new.state (O.seen onlooker.old) (O.seen onlooker.new) }
        ensures knows { O.knows onlooker.new self.new.state }
    {
        match &mut self.held {
            Held::Built(machine) => settle_to_rest(machine, graph, limit, onlooker),
            Held::Still(_) => Settled {
                steps: 0,
                joined: false,
            },
        }
    }

    /// How many groups the machine, which is there, has.
    pub(crate) fn group_count(&self) -> usize
        requires { is_some self.now.machine ≡ true }
        ensures { IfSome self.now.machine (λ machine. result ≡ count_by has_members machine.parts) }
    {
        match &self.held {
            Held::Built(machine) => machine.groups(),
            Held::Still(_) => 0,
        }
    }

    /// How many distinct texts the groups of the machine, which is there, have.
    pub(crate) fn text_count(&self) -> usize
        requires { is_some self.now.machine ≡ true }
        ensures { IfSome self.now.machine (λ machine. result ≡ machine.texts) }
    {
        match &self.held {
            Held::Built(machine) => machine.texts(),
            Held::Still(_) => 0,
        }
    }
}
