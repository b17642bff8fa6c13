//! What a stage's machine does: it takes states that are set, unit steps, and phases that end at rest.

ghost use Rattle.std.specs.Prelude.{◌≡◌, ◌≢◌, ◌<◌, ◌≤◌, false, length, slice_set};
ghost use Rattle.machine_stage.specs.Words.{raised, RAILS, IsStep, ListsChanges, SteppingThrough, Settles, Advances, IsAtRest};
ghost use Rattle.machine_stage.specs.Words.{FitsGraph, nodes_told, PhaseThrough, SeesStates};
ghost use Rattle.std.specs.Bool.{OnTrue, OnFalse};
ghost use Rattle.machine_stage.specs.Machines.{without_room};
ghost use Rattle.machine_stage.specs.Stages.{PutsNode, TakesStep, TakesPhase};

use settling::{MOST_LIMIT, Onlooker, Settled, settle_seen, unfailing};
use std::marker::Brand;
use std::sync::ledger::{Blank, Ledger};
use switch_paths::Graph;
use ternary::{Steps, Tern};
use unit_step::{Machine, Watched, show};

/// Gives a node that is no rail this state.
pub(crate) fn place(machine: &mut Machine, graph: &Graph, node: usize, value: Tern)
    requires inside { node < length machine.old.state }
    requires no_rail { RAILS ≤ node }
    ensures state { machine.new.state ≡ slice_set machine.old.state node value }
    ensures puts { PutsNode graph.now node value (without_room machine.old) (without_room machine.new) }
{
    machine.set_node(graph, node, value);
}

/// Takes a unit step of a graph that the machine fits, and shows the state behind it if it changed.
pub fn take_step<O: Onlooker>(machine: &mut Machine, graph: &Graph, onlooker: &mut O)
    requires fits { FitsGraph graph.now machine.old }
    requires knows { O.knows onlooker.old machine.old.state }
    ensures takes { TakesStep graph.now machine.old machine.new }
    ensures seen { SeesStates O.see (SteppingThrough graph.now 1 machine.old.state) machine.old.state machine.new.state (O.seen onlooker.old) (O.seen onlooker.new) }
    ensures knows { O.knows onlooker.new machine.new.state }
{
    let mut changed = machine.listing(onlooker.is_looking());
    if step_uncounted::<Brand>(machine, graph, Blank::new(1), &mut changed) {
        show(machine, &mut changed, onlooker);
    }
}

/// Settles in a graph that the machine fits, and shows each state that it passes through. If it comes to rest in time,
/// no part is marked but those whose groups are stepped by vicinities, and no node of these is touched: one step more
/// changes nothing, counts for nothing, and leaves no other mark and nothing touched.
pub fn settle_to_rest<O: Onlooker>(
    machine: &mut Machine,
    graph: &Graph,
    limit: u64,
    onlooker: &mut O,
) -> Settled
    requires fits { FitsGraph graph.now machine.old }
    requires low { 1 ≤ limit }
    requires high { limit ≤ MOST_LIMIT }
    requires knows { O.knows onlooker.old machine.old.state }
    ensures takes { TakesPhase graph.now limit machine.old machine.new result.steps result.joined }
    ensures seen { SeesStates O.see (PhaseThrough graph.now limit machine.old.state result.steps) machine.old.state machine.new.state (O.seen onlooker.old) (O.seen onlooker.new) }
    ensures knows { O.knows onlooker.new machine.new.state }
{
    let settled = settle_uncounted::<Brand, O>(machine, graph, limit, Blank::new(1), onlooker);
    if is_at_rest(settled, limit) {
        rest_uncounted::<Brand>(machine, graph, Blank::new(1));
    }
    settled
}

// Whether a phase came to rest in time.
fn is_at_rest(settled: Settled, limit: u64) -> bool
    ensures rest { OnTrue result ((settled.joined ≡ false) × (settled.steps < limit)) }
    ensures moving { OnFalse result (settled.joined ≡ false → ¬ (settled.steps < limit)) }
{
    !settled.joined && settled.steps < limit
}

// One unit step, without counting the instructions that the machine runs. It lists the nodes at which the state
// changes, if there is a list, and answers whether it does.
#[tactic(auto, using(machine_laws::proofs::FittingLemmas::touches_changed))]
fn step_uncounted<L: Ledger>(
    machine: &mut Machine,
    graph: &Graph,
    blank: Blank,
    changed: &mut Option<Vec<usize>>,
) -> bool
    requires name { blank.name ≡ L.name }
    requires parts { blank.parts ≡ L.parts }
    requires some { blank.parts ≢ 0 }
    requires fits { FitsGraph graph.now machine.old }
    ensures advances { Advances false machine.old machine.new }
    ensures step { TakesStep graph.now machine.old machine.new }
    ensures changed { OnTrue result (machine.new.state ≢ machine.old.state) }
    ensures same { OnFalse result (machine.new.state ≡ machine.old.state) }
    ensures listed { ListsChanges (nodes_told changed.new (length machine.new.state)) machine.old.state machine.new.state }
{
    machine.step_listed(graph, &mut Steps::<L>::new(blank), changed)
}

// Settles, and shows each state that it passes through, without counting the instructions that the machine runs.
fn settle_uncounted<L: Ledger, O: Onlooker>(
    machine: &mut Machine,
    graph: &Graph,
    limit: u64,
    blank: Blank,
    onlooker: &mut O,
) -> Settled
    requires name { blank.name ≡ L.name }
    requires parts { blank.parts ≡ L.parts }
    requires some { blank.parts ≢ 0 }
    requires low { 1 ≤ limit }
    requires high { limit ≤ MOST_LIMIT }
    requires fits { FitsGraph graph.now machine.old }
    requires knows { O.knows onlooker.old machine.old.state }
    ensures settles { Settles graph.now machine.old.state limit machine.new.state result.steps result.joined }
    ensures fits { FitsGraph graph.now machine.new }
    ensures moves { machine.new.moves ≡ raised machine.old.moves result.steps }
    ensures placed { machine.new.placed ≡ machine.old.placed }
    ensures last { machine.new.last ≡ machine.old.last }
    ensures seen { SeesStates O.see (PhaseThrough graph.now limit machine.old.state result.steps) machine.old.state machine.new.state (O.seen onlooker.old) (O.seen onlooker.new) }
    ensures knows { O.knows onlooker.new machine.new.state }
{
    let mut steps = Steps::<L>::new(blank);
    let mut recall = machine.recall();
    let mut changed = machine.listing(onlooker.is_looking());
    let mut watched = Watched {
        machine,
        changed: &mut changed,
    };
    unfailing(settle_seen(
        &mut watched,
        graph,
        limit,
        &mut steps,
        onlooker,
        &mut recall,
    ))
}

// One unit step from a steady state: it leaves the state and the counts, no mark but those of stale parts, and nothing
// touched.
fn rest_uncounted<L: Ledger>(machine: &mut Machine, graph: &Graph, blank: Blank)
    requires name { blank.name ≡ L.name }
    requires parts { blank.parts ≡ L.parts }
    requires some { blank.parts ≢ 0 }
    requires fits { FitsGraph graph.now machine.old }
    requires steady { IsStep graph.now machine.old.state machine.old.state }
    ensures state { machine.new.state ≡ machine.old.state }
    ensures fits { FitsGraph graph.now machine.new }
    ensures moves { machine.new.moves ≡ machine.old.moves }
    ensures placed { machine.new.placed ≡ machine.old.placed }
    ensures last { machine.new.last ≡ machine.old.last }
    ensures rests { IsAtRest machine.new }
{
    let _changed = step_uncounted::<L>(machine, graph, blank, &mut None);
}
