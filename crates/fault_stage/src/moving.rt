//! What is done to what a stage holds: it takes room, states that are set, unit steps, and phases.

ghost use Rattle.std.specs.Prelude.{◌≡◌, ◌+◌, ◌-◌, ◌<◌, ◌≤◌, List, length, slice_index_or, slice_set, vec_capacity, vec_len, OnOk};
ghost use Rattle.std.specs.Bool.{OnFalse, OnTrue};
ghost use Rattle.switch_paths.specs.declared.TheConstants.{RAILS};
ghost use Rattle.fault_stage.specs.Words.{GraphData, nodes, IsStep, SteppingThrough, GroupTextData, IsSoundState, letter_in, SeesStates};
ghost use Rattle.settling.specs.declared.settling.Settled.{Settled};
ghost use Rattle.column_stage.specs.declared.TheConstants.{NEW_NODES};
ghost use Rattle.fault_stage.specs.Runs.{IsWell};
ghost use Rattle.fault_stage.specs.Stages.{FitsIn, Plain, ServesIn, SettlesSeen, StaysOn, WaitsOn, data_of, last_in, spare_in, state_of};

use crate::held::Held;
use column_stage::{Columns, NEW_NODES, Stage};
use machine_stage::MachineStage;
use settling::{MOST_LIMIT, Onlooker, Settled};
use switch_paths::{Graph, RAILS};
use ternary::{NoMemory, Tern};
use unit_step::grow;

/// Takes room for the states of as many new nodes as one edit makes at most.
pub(crate) fn make_room(held: &mut Held) -> Result<(), NoMemory>
    requires { IsWell held.old }
    ensures well { IsWell held.new }
    ensures room { OnOk result (NEW_NODES ≤ spare_in (data_of held.new)) }
    ensures state { state_of (data_of held.new) ≡ state_of (data_of held.old) }
    ensures last { last_in (data_of held.new) ≡ last_in (data_of held.old) }
    ensures serves { (g : GraphData) (kept : List GroupTextData) → ServesIn (data_of held.old) g kept → ServesIn (data_of held.new) g kept }
{
    match held {
        Held::Whole(stage) => stage.reserve(),
        Held::Built(built) => built.take_room(),
        Held::Waiting(waiting) => room_in(&mut waiting.state),
    }
}

/// Follows an edit of the graph, if the stage waits for its build: each new node is X, in room that is there. Answers whether it waits.
pub(crate) fn wait_on(held: &mut Held, graph: &Graph) -> bool
    requires well { IsWell held.old }
    requires room { nodes graph.now ≤ length (state_of (data_of held.old)) + spare_in (data_of held.old) }
    ensures well { IsWell held.new }
    ensures waits { OnTrue result (WaitsOn graph.now held.old held.new) }
    ensures same { OnFalse result (held.new ≡ held.old) }
{
    match held {
        Held::Whole(_) => false,
        Held::Built(_) => false,
        Held::Waiting(waiting) => {
            grow(&mut waiting.state, graph.nodes());
            true
        }
    }
}

/// Takes room in a state for as many new nodes as one edit makes at most.
pub(crate) fn room_in(state: &mut Vec<Tern>) -> Result<(), NoMemory>
    ensures room { OnOk result (NEW_NODES ≤ vec_capacity state.new - vec_len state.new) }
    ensures state { state.new.items ≡ state.old.items }
{
    state.reserve(NEW_NODES)?;
    Ok(())
}

/// Gives a node that is no rail its state.
pub(crate) fn put_held(held: &mut Held, graph: &Graph, node: usize, letters: &[Tern])
    requires well { IsWell held.old }
    requires sound { IsSoundState graph.now (state_of (data_of held.old)) }
    requires inside { node < nodes graph.now }
    requires no_rail { RAILS ≤ node }
    requires letters { length letters.now ≡ 1 }
    ensures well { IsWell held.new }
    ensures state { state_of (data_of held.new) ≡ slice_set (state_of (data_of held.old)) node (letter_in 0 letters.now) }
    ensures stays { StaysOn graph.now (data_of held.old) (data_of held.new) }
{
    match held {
        Held::Whole(stage) => put_whole(stage, graph, node, letters),
        Held::Built(built) => built.place(node, letters[0]),
        Held::Waiting(waiting) => put_state(&mut waiting.state, node, letters[0]),
    }
}

// Gives a node of a stage that holds on to nothing its state, as ever.
fn put_whole(stage: &mut MachineStage, graph: &Graph, node: usize, letters: &[Tern])
    requires sound { IsSoundState graph.now stage.old.state }
    requires inside { node < nodes graph.now }
    requires no_rail { RAILS ≤ node }
    requires letters { length letters.now ≡ 1 }
    ensures state { stage.new.state ≡ slice_set stage.old.state node (letter_in 0 letters.now) }
    ensures stays { StaysOn graph.now (Plain stage.old) (Plain stage.new) }
{
    stage.place(graph, node, letters);
}

// Gives a node its state.
fn put_state(state: &mut Vec<Tern>, node: usize, value: Tern)
    requires { node < length state.old.items }
    ensures { state.new.items ≡ slice_set state.old.items node value }
{
    state[node] = value;
}

/// Takes a unit step, and shows the state behind it if it changed.
pub(crate) fn step_held<O: Onlooker>(held: &mut Held, graph: &Graph, onlooker: &mut O)
    requires well { IsWell held.old }
    requires fits { FitsIn (data_of held.old) graph.now }
    requires knows { O.knows onlooker.old (state_of (data_of held.old)) }
    ensures well { IsWell held.new }
    ensures step { IsStep graph.now (state_of (data_of held.old)) (state_of (data_of held.new)) }
    ensures stays { StaysOn graph.now (data_of held.old) (data_of held.new) }
    ensures seen { SeesStates O.see (SteppingThrough graph.now 1 (state_of (data_of held.old))) (state_of (data_of held.old)) (state_of (data_of held.new)) (O.seen onlooker.old) (O.seen onlooker.new) }
    ensures knows { O.knows onlooker.new (state_of (data_of held.new)) }
{
    match held {
        Held::Whole(stage) => step_whole(stage, graph, onlooker),
        Held::Built(built) => built.step(onlooker),
        Held::Waiting(_) => {}
    }
}

// Has a stage that holds on to nothing take a unit step, as ever.
fn step_whole<O: Onlooker>(stage: &mut MachineStage, graph: &Graph, onlooker: &mut O)
    requires fits { FitsIn (Plain stage.old) graph.now }
    requires knows { O.knows onlooker.old stage.old.state }
    ensures step { IsStep graph.now stage.old.state stage.new.state }
    ensures stays { StaysOn graph.now (Plain stage.old) (Plain stage.new) }
    ensures seen { SeesStates O.see (SteppingThrough graph.now 1 stage.old.state) stage.old.state stage.new.state (O.seen onlooker.old) (O.seen onlooker.new) }
    ensures knows { O.knows onlooker.new stage.new.state }
{
    stage.step(graph, onlooker);
}

/// Settles, and shows each state that it passes through.
pub(crate) fn settle_held<O: Onlooker>(
    held: &mut Held,
    graph: &Graph,
    limit: u64,
    onlooker: &mut O,
) -> Settled
    requires well { IsWell held.old }
    requires fits { FitsIn (data_of held.old) graph.now }
    requires low { 1 ≤ limit }
    requires high { limit ≤ MOST_LIMIT }
    requires knows { O.knows onlooker.old (state_of (data_of held.old)) }
    ensures well { IsWell held.new }
    ensures takes { SettlesSeen O.see graph.now limit result.steps result.joined (state_of (data_of held.old)) (state_of (data_of held.new)) (O.seen onlooker.old) (O.seen onlooker.new) }
    ensures stays { StaysOn graph.now (data_of held.old) (data_of held.new) }
    ensures knows { O.knows onlooker.new (state_of (data_of held.new)) }
{
    match held {
        Held::Whole(stage) => settle_whole(stage, graph, limit, onlooker),
        Held::Built(built) => built.settle(limit, onlooker),
        Held::Waiting(_) => Settled {
            steps: 0,
            joined: false,
        },
    }
}

// Has a stage that holds on to nothing settle, as ever.
fn settle_whole<O: Onlooker>(
    stage: &mut MachineStage,
    graph: &Graph,
    limit: u64,
    onlooker: &mut O,
) -> Settled
    requires fits { FitsIn (Plain stage.old) graph.now }
    requires low { 1 ≤ limit }
    requires high { limit ≤ MOST_LIMIT }
    requires knows { O.knows onlooker.old stage.old.state }
    ensures takes { SettlesSeen O.see graph.now limit result.steps result.joined stage.old.state stage.new.state (O.seen onlooker.old) (O.seen onlooker.new) }
    ensures stays { StaysOn graph.now (Plain stage.old) (Plain stage.new) }
    ensures knows { O.knows onlooker.new stage.new.state }
{
    let mut counts = [Settled {
        steps: 0,
        joined: false,
    }];
    stage.settle(graph, limit, &mut counts, onlooker);
    first_of(&counts)
}

// The count of the one column.
fn first_of(counts: &[Settled]) -> Settled
    requires { length counts.now ≡ 1 }
    ensures { (past : Settled) → result ≡ slice_index_or counts.now 0 past }
{
    counts[0]
}
