//! The stage.

ghost use Rattle.std.specs.Prelude.{◌≡◌, ◌⊎◌, ℕ, ◌+◌, ◌<◌, ◌≤◌, List, [], length, slice_set, vec_capacity, IfErr, IfSome, OnOk};
ghost use Rattle.switch_paths.specs.declared.TheConstants.{RAILS};
ghost use Rattle.fault_stage.specs.Words.{GraphData, nodes, IsStep, SteppingThrough, AreOf, first_texts, GroupTextData};
ghost use Rattle.fault_stage.specs.Words.{used_texts, texts_of, HasTexts, AreAmong, IsSoundState, letter_in, with_new_nodes};
ghost use Rattle.fault_stage.specs.Words.{IsUndone, IsRailed, TellsRefused, SeesStates};
ghost use Rattle.column_stage.specs.declared.TheConstants.{NEW_NODES};
ghost use Rattle.fault_stage.specs.Building.{BuildsStage};
ghost use Rattle.fault_stage.specs.Runs.{IsWell};
ghost use Rattle.fault_stage.specs.Stages.{EditsStage, FitsIn, IsAtStart, Plain, ServesIn, SettlesSeen, StaysOn, data_of, last_in, spare_in, state_of};

use crate::building::{build_in, stays_built};
use crate::built::Built;
use crate::held::Held;
use crate::moving::{make_room, put_held, settle_held, step_held, wait_on};
use crate::waiting::Waiting;
use analysis_cache::{Analyst, Kept};
use channel_groups::{Change, Groups};
use circuit_texts::BuildFault;
use column_stage::{Columns, NEW_NODES, PlainStage};
use machine_stage::MachineStage;
use settling::{MOST_LIMIT, Onlooker, Settled};
use std::alloc::Global;
use std::marker::Model;
use std::mem;
use switch_paths::{Graph, RAILS};
use ternary::{NoMemory, Tern};
use unit_step::grow;

/// A stage whose first run is recorded, and whose later ones go beside it: the state of each node, and the machine that moves it, if there is
/// one.
///
/// Contracts see the state, for how many new nodes there is room, and if it is built of which graph; whether its run is
/// recorded, or goes beside the recorded one, makes no difference to them.
#[derive(Drop)]
pub struct FaultStage {
    held: Held,
}

impl Model for FaultStage {
    ghost use Rattle.fault_stage.specs.Stages.{FaultData, data_of};
    ghost use Rattle.fault_stage.specs.Runs.{IsWell};

    ghost Value = { FaultData };

    ghost view = { λ stage. data_of stage.held };

    ghost invariant = { λ stage. IsWell stage.held };
}

impl FaultStage {
    /// This state; its first run will be recorded.
    pub(crate) fn start(state: Vec<Tern>) -> FaultStage
        ensures state { state_of result ≡ state.items }
        ensures last { last_in result ≡ [] }
        ensures serves { (g : GraphData) (kept : List GroupTextData) → ServesIn result g kept }
        ensures starts { IsAtStart result }
    {
        let waiting = Waiting {
            state,
            last_run: None,
        };
        FaultStage {
            held: Held::Waiting(waiting),
        }
    }

    /// Another state, and what there is of the last run.
    pub(crate) fn start_again(self, state: Vec<Tern>) -> FaultStage
        ensures state { state_of result ≡ state.items }
        ensures last { last_in result ≡ [] }
        ensures serves { (g h : GraphData) (kept : List GroupTextData) → ServesIn self g kept → ServesIn result h kept }
        ensures starts { IsAtStart result }
    {
        FaultStage {
            held: again(self.held, state),
        }
    }

    /// The state of each node.
    pub(crate) fn states(&self) -> &[Tern]
        ensures { result.now ≡ state_of self.now }
    {
        match &self.held {
            Held::Whole(stage) => stage.column(),
            Held::Built(built) => &built.state,
            Held::Waiting(waiting) => &waiting.state,
        }
    }

    /// Takes room for the states of as many new nodes as one edit makes at most.
    pub(crate) fn take_room(&mut self) -> Result<(), NoMemory>
        ensures room { OnOk result (NEW_NODES ≤ spare_in self.new) }
        ensures state { state_of self.new ≡ state_of self.old }
        ensures last { last_in self.new ≡ last_in self.old }
        ensures serves { (g : GraphData) (kept : List GroupTextData) → ServesIn self.old g kept → ServesIn self.new g kept }
    {
        make_room(&mut self.held)
    }

    /// Goes on after an edit of the graph: each new node is X, in room that is there. A machine that is recorded, or goes beside the record, is
    /// let go, with all else that was held on to; one that waits is led to the graph when it is built.
    pub(crate) fn follow(&mut self, alloc: Global, graph: &Graph, change: &Change, kept: &mut Kept)
        requires before { (before : GraphData) × IsUndone before graph.now change.now × IsSoundState before (state_of self.old)
            × (nodes graph.now ≤ nodes before + spare_in self.old) × ServesIn self.old before (used_texts (last_in self.old) (texts_of kept.old)) }
        requires last { AreAmong (last_in self.old) (texts_of kept.old) }
        ensures edits { EditsStage graph.now self.old self.new (texts_of kept.old) (texts_of kept.new) }
        ensures bound { kept.new.bound ≡ kept.old.bound }
    {
        if wait_on(&mut self.held, graph) {
            return;
        }
        edit_in(alloc, &mut self.held, graph, change, kept);
    }

    /// Gets what takes steps of the graph.
    pub(crate) fn make<A: Analyst>(
        &mut self,
        alloc: Global,
        graph: &Graph,
        large: usize,
        kept: &mut Kept,
        analyst: &mut A,
    ) -> Result<u64, BuildFault>
        requires railed { IsRailed graph.now }
        requires sound { IsSoundState graph.now (state_of self.old) }
        requires serves { ServesIn self.old graph.now (used_texts (last_in self.old) (texts_of kept.old)) }
        requires last { AreAmong (last_in self.old) (texts_of kept.old) }
        ensures builds { BuildsStage large graph.now kept.old.bound self.old self.new (texts_of kept.old) (texts_of kept.new) (A.analysed analyst.old) (A.analysed analyst.new) result }
        ensures bound { kept.new.bound ≡ kept.old.bound }
        ensures refused { IfErr result (λ fault. (fault ≡ BuildFault.NoMemory)
            ⊎ (TellsRefused large graph.now fault × (kept.new ≡ kept.old) × (A.analysed analyst.new ≡ A.analysed analyst.old))) }
    {
        if stays_built(&self.held, large, kept) {
            return Ok(0);
        }
        build_in(alloc, &mut self.held, graph, large, kept, analyst)
    }

    /// Moves the texts of the last build to the front of what is kept, where those of a machine that is recorded, or goes beside the record, stand
    /// already.
    pub(crate) fn put_last(&self, kept: &mut Kept)
        requires { AreAmong (last_in self.now) (texts_of kept.old) }
        ensures kept { texts_of kept.new ≡ used_texts (last_in self.now) (texts_of kept.old) }
        ensures bound { kept.new.bound ≡ kept.old.bound }
    {
        match &self.held {
            Held::Whole(stage) => stage.use_last(kept),
            Held::Built(_) => {}
            Held::Waiting(_) => {}
        }
    }

    /// Gives a node that is no rail its state.
    pub(crate) fn put(&mut self, graph: &Graph, node: usize, letters: &[Tern])
        requires sound { IsSoundState graph.now (state_of self.old) }
        requires inside { node < nodes graph.now }
        requires no_rail { RAILS ≤ node }
        requires letters { length letters.now ≡ 1 }
        ensures state { state_of self.new ≡ slice_set (state_of self.old) node (letter_in 0 letters.now) }
        ensures stays { StaysOn graph.now self.old self.new }
    {
        put_held(&mut self.held, graph, node, letters);
    }

    /// Takes a unit step, and shows the state behind it if it changed.
    pub(crate) fn take_step<O: Onlooker>(&mut self, graph: &Graph, onlooker: &mut O)
        requires fits { FitsIn self.old graph.now }
        requires knows { O.knows onlooker.old (state_of self.old) }
        ensures step { IsStep graph.now (state_of self.old) (state_of self.new) }
        ensures stays { StaysOn graph.now self.old self.new }
        ensures seen { SeesStates O.see (SteppingThrough graph.now 1 (state_of self.old)) (state_of self.old) (state_of self.new) (O.seen onlooker.old) (O.seen onlooker.new) }
        ensures knows { O.knows onlooker.new (state_of self.new) }
    {
        step_held(&mut self.held, graph, onlooker);
    }

    /// Settles, and shows each state that it passes through.
    pub(crate) fn settle_down<O: Onlooker>(
        &mut self,
        graph: &Graph,
        limit: u64,
        onlooker: &mut O,
    ) -> Settled
        requires fits { FitsIn self.old graph.now }
        requires low { 1 ≤ limit }
        requires high { limit ≤ MOST_LIMIT }
        requires knows { O.knows onlooker.old (state_of self.old) }
        ensures takes { SettlesSeen O.see graph.now limit result.steps result.joined (state_of self.old) (state_of self.new) (O.seen onlooker.old) (O.seen onlooker.new) }
        ensures stays { StaysOn graph.now self.old self.new }
        ensures knows { O.knows onlooker.new (state_of self.new) }
    {
        settle_held(&mut self.held, graph, limit, onlooker)
    }

    /// How many groups there are.
    pub(crate) fn group_count(&self, graph: &Graph) -> usize
        requires { FitsIn self.now graph.now }
        ensures { (large : ℕ) (texts : List GroupTextData) (has : HasTexts large graph.now texts) → result ≡ length has.groups }
    {
        match &self.held {
            Held::Whole(stage) => stage.groups(graph),
            Held::Built(built) => built.group_count(),
            Held::Waiting(_) => 0,
        }
    }

    /// How many distinct texts these have.
    pub(crate) fn text_count(&self, graph: &Graph) -> usize
        requires { FitsIn self.now graph.now }
        ensures { (large : ℕ) (texts : List GroupTextData) → HasTexts large graph.now texts → result ≡ length (first_texts texts) }
    {
        match &self.held {
            Held::Whole(stage) => stage.texts(graph),
            Held::Built(built) => built.text_count(),
            Held::Waiting(_) => 0,
        }
    }

    /// The groups of the graph, if they are at hand.
    pub(crate) fn groups_there(&self, graph: &Graph) -> Option<&Groups>
        requires { (kept : List GroupTextData) × ServesIn self.now graph.now kept }
        ensures { IfSome result (λ groups. AreOf graph.now groups.now) }
    {
        match &self.held {
            Held::Whole(stage) => stage.grouping(graph),
            Held::Built(built) => built.groups_there(),
            Held::Waiting(_) => None,
        }
    }
}

// What is held at a start in this state, of what was held before.
fn again(held: Held, state: Vec<Tern>) -> Held
    requires { IsWell held }
    ensures well { IsWell result }
    ensures state { state_of (data_of result) ≡ state.items }
    ensures last { last_in (data_of result) ≡ [] }
    ensures serves { (g h : GraphData) (kept : List GroupTextData) → ServesIn (data_of held) g kept → ServesIn (data_of result) h kept }
    ensures starts { IsAtStart (data_of result) }
{
    match held {
        Held::Whole(stage) => Held::Whole(stage.again(state)),
        Held::Built(built) => Held::Waiting(Waiting {
            state,
            last_run: Some(built.ended()),
        }),
        Held::Waiting(waiting) => Held::Waiting(Waiting {
            state,
            last_run: waiting.last_run,
        }),
    }
}

// What is held follows an edit of the graph in its place. It stands by itself, as `build_in` does.
#[inline(never)]
fn edit_in(alloc: Global, slot: &mut Held, graph: &Graph, change: &Change, kept: &mut Kept)
    requires well { IsWell slot.old }
    requires before { (before : GraphData) × IsUndone before graph.now change.now × IsSoundState before (state_of (data_of slot.old))
        × (nodes graph.now ≤ nodes before + spare_in (data_of slot.old)) × ServesIn (data_of slot.old) before (used_texts (last_in (data_of slot.old)) (texts_of kept.old)) }
    requires last { AreAmong (last_in (data_of slot.old)) (texts_of kept.old) }
    ensures well { IsWell slot.new }
    ensures edits { EditsStage graph.now (data_of slot.old) (data_of slot.new) (texts_of kept.old) (texts_of kept.new) }
    ensures bound { kept.new.bound ≡ kept.old.bound }
{
    let none = Held::Whole(MachineStage::still(Vec::new(alloc)));
    let held = mem::replace(slot, none);
    *slot = edited(alloc, held, graph, change, kept);
}

// What is held after an edit of the graph.
fn edited(alloc: Global, held: Held, graph: &Graph, change: &Change, kept: &mut Kept) -> Held
    requires well { IsWell held }
    requires before { (before : GraphData) × IsUndone before graph.now change.now × IsSoundState before (state_of (data_of held))
        × (nodes graph.now ≤ nodes before + spare_in (data_of held)) × ServesIn (data_of held) before (used_texts (last_in (data_of held)) (texts_of kept.old)) }
    requires last { AreAmong (last_in (data_of held)) (texts_of kept.old) }
    ensures well { IsWell result }
    ensures edits { EditsStage graph.now (data_of held) (data_of result) (texts_of kept.old) (texts_of kept.new) }
    ensures bound { kept.new.bound ≡ kept.old.bound }
{
    match held {
        Held::Whole(mut stage) => {
            stage.edit(alloc, graph, change, kept);
            Held::Whole(stage)
        }
        Held::Built(built) => Held::Whole(let_go(built, graph)),
        Held::Waiting(waiting) => {
            let mut waiting = waiting;
            grow(&mut waiting.state, graph.nodes());
            Held::Waiting(waiting)
        }
    }
}

// What goes on without the machine of a stage that was built, after an edit of the graph: its state.
fn let_go(built: Built, graph: &Graph) -> MachineStage
    requires { nodes graph.now ≤ vec_capacity built.state }
    ensures state { result.state ≡ with_new_nodes built.state.items (nodes graph.now) }
    ensures last { last_in (Plain result) ≡ [] }
    ensures serves { (g : GraphData) (kept : List GroupTextData) → ServesIn (Plain result) g kept }
{
    let mut state = built.state;
    grow(&mut state, graph.nodes());
    MachineStage::still(state)
}
