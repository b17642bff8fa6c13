//! A phase of the run under a fault beside the good run's, whose steps are counted and shown.
ghost use Rattle.std.specs.Prelude.{◌≡◌, ◌≢◌, ◌⊎◌, ℕ, ◌+◌, ◌-◌, ◌^◌, ◌<◌, ◌≤◌, [], length, true, false, not, nat_lt, Contains};
ghost use Rattle.std.specs.Bool.{OnTrue, OnFalse};
ghost use Rattle.part_words.specs.declared.change.Change.{Change};
ghost use Rattle.beside_phases.specs.Words.{state_at, AreAgreed, IsMarked, IsTaken, state_before, IsReplacement};
ghost use Rattle.beside_phases.specs.Words.{AdvancesBeside, KeepsPartsApart, FitsBeside, IsPhaseOf};
ghost use Rattle.beside_phases.specs.Counting.{ComesToRest, FollowsOne, SettlesSeen, SomeFollows};

use good_run::Recorder;
use part_words::Change;
use settling::{Onlooker, Settled};
use std::sync::ledger::Ledger;
use switch_paths::{Graph, graphs_are_wired};
use ternary::{Steps, Tern};
use unit_step::{Machine, show};
use vicinity::NodeSet;

/// Settles the run under a fault beside the good run's phase, whose steps are those of the record from one place up to another; counts
/// the steps that change the state under the fault, and shows the state behind each of them.
///
/// Both runs take as many replacements as the longer one wants, plain ones up to the limit and then joining ones: a run that is
/// at rest stays. It takes no memory.
///
/// After Bryant and Schuster, "Performance Evaluation of FMOSSIM, a Concurrent Switch-Level Fault
/// Simulator", 1985.
pub fn settle_counted<O: Onlooker, L: Ledger>(
    machine: &mut Machine,
    good_graph: &Graph,
    graph: &Graph,
    run: &Recorder,
    first: usize,
    end: usize,
    limit: u64,
    good: &mut [Tern],
    apart: &mut NodeSet,
    steps: &mut Steps<L>,
    onlooker: &mut O,
) -> Settled
    requires fits { FitsBeside good_graph.now graph.now good.old apart.old.inside machine.old }
    requires phase { IsPhaseOf good_graph.now limit run.now first end }
    requires begins { good.old ≡ state_before run.now first }
    requires few { (end - first) + limit + length machine.old.state < 2 ^ 62 }
    requires knows { O.knows onlooker.old machine.old.state }
    ensures settles { SettlesSeen O.see good_graph.now graph.now limit result.steps result.joined machine.old machine.new good.new apart.new.inside (O.seen onlooker.old) (O.seen onlooker.new) }
    ensures ends { good.new ≡ state_before run.now end }
    ensures knows { O.knows onlooker.new machine.new.state }
{
    graphs_are_wired(good_graph);
    graphs_are_wired(graph);
    let mut moved: usize = 0;
    for at in first..end {
        let joining = is_joining(looks_between(first, at), limit);
        let changes = run.changes_at(at);
        let changed = step_seen(machine, joining, changes, good, apart, steps, onlooker);
        moved = one_more_if(moved, changed, end);
    }
    let all = looks_between(first, end);
    let count = rest_or_go_on(
        machine,
        good_graph,
        graph,
        moved as u64,
        all,
        limit,
        good,
        apart,
        steps,
        onlooker,
    );
    settled(count, limit)
}

// How many looks of a record stand between these places.
fn looks_between(first: usize, end: usize) -> u64
    requires { first ≤ end }
    ensures { result ≡ end - first }
{
    (end - first) as u64
}

/// What is told of a phase in which so many steps changed something.
pub fn settled(steps: u64, limit: u64) -> Settled
    ensures steps { result.steps ≡ steps }
    ensures joined { result.joined ≡ nat_lt limit steps }
{
    Settled {
        steps,
        joined: limit < steps,
    }
}

// One step more, if it changed something.
fn one_more_if(moved: usize, changed: bool, end: usize) -> usize
    requires { moved < end }
    ensures yes { OnTrue changed (result ≡ moved + 1) }
    ensures no { OnFalse changed (result ≡ moved) }
{
    if changed {
        return moved + 1;
    }
    moved
}

/// Whether a replacement with this number is a joining one.
pub fn is_joining(count: u64, limit: u64) -> bool
    ensures { result ≡ not (nat_lt count limit) }
{
    count >= limit
}

// Goes on beside a good run that is at its end, if each of all replacements changed something: takes steps while they change something, plain ones up to
// the limit and then joining ones. It answers how many did.
fn rest_or_go_on<O: Onlooker, L: Ledger>(
    machine: &mut Machine,
    good_graph: &Graph,
    graph: &Graph,
    moved: u64,
    all: u64,
    limit: u64,
    good: &mut [Tern],
    apart: &mut NodeSet,
    steps: &mut Steps<L>,
    onlooker: &mut O,
) -> u64
    requires fits { FitsBeside good_graph.now graph.now good.old apart.old.inside machine.old }
    requires most { moved ≤ all }
    requires rests { moved < all → IsReplacement graph.now limit moved machine.old.state machine.old.state }
    requires stays { (n : ℕ) → all ≤ n → IsReplacement good_graph.now limit n good.old good.old }
    requires few { all + limit + length machine.old.state < 2 ^ 62 }
    requires knows { O.knows onlooker.old machine.old.state }
    ensures rests { ComesToRest O.see good_graph.now graph.now limit moved result machine.old machine.new good.new apart.new.inside (O.seen onlooker.old) (O.seen onlooker.new) }
    ensures good { good.new ≡ good.old }
    ensures knows { O.knows onlooker.new machine.new.state }
{
    if moved < all {
        return moved;
    }
    graphs_are_wired(good_graph);
    graphs_are_wired(graph);
    let mut count = moved;
    while step_seen(
        machine,
        is_joining(count, limit),
        &[],
        good,
        apart,
        steps,
        onlooker,
    ) {
        count += 1;
    }
    count
}

// Takes a step beside the good run's, and shows the state behind it if it changed under the fault; answers whether it did.
fn step_seen<O: Onlooker, L: Ledger>(
    machine: &mut Machine,
    joining: bool,
    changes: &[Change],
    good: &mut [Tern],
    apart: &mut NodeSet,
    steps: &mut Steps<L>,
    onlooker: &mut O,
) -> bool
    requires counted { length good.old ≡ length machine.old.state }
    requires inside { (change : Change) → Contains changes.now change → change.node < length good.old }
    requires agreed { AreAgreed changes.now }
    requires apart { length apart.old.inside ≡ length machine.old.parts }
    requires marked { (k : ℕ) → IsMarked machine.old.marks k → IsMarked apart.old.inside k }
    requires kept { KeepsPartsApart machine.old.parts apart.old.inside good.old machine.old.state }
    requires knows { O.knows onlooker.old machine.old.state }
    ensures good { IsTaken changes.now good.old good.new }
    ensures advances { AdvancesBeside joining changes.now apart.old.inside apart.new.inside machine.old machine.new }
    ensures kept { KeepsPartsApart machine.new.parts apart.new.inside good.new machine.new.state }
    ensures changed { OnTrue result (machine.new.state ≢ machine.old.state) }
    ensures same { OnFalse result (machine.new.state ≡ machine.old.state) }
    ensures seen { OnTrue result (O.seen onlooker.new ≡ O.see (O.seen onlooker.old) machine.new.state) }
    ensures unseen { OnFalse result (O.seen onlooker.new ≡ O.seen onlooker.old) }
    ensures knows { O.knows onlooker.new machine.new.state }
{
    let follows = some_follows(machine, changes, good, apart);
    let moved = machine.step_beside(joining, changes, good, apart, steps);
    if !is_change(follows, moved) {
        return false;
    }
    let mut changed = None;
    show(machine, &mut changed, onlooker);
    true
}

// Whether a step changed something: a node follows that changes, or what was replaced changed.
fn is_change(follows: bool, moved: bool) -> bool
    ensures yes { OnTrue result ((follows ≡ true) ⊎ (moved ≡ true)) }
    ensures no { OnFalse result ((follows ≡ false) × (moved ≡ false)) }
{
    follows || moved
}

// Whether a node of these changes follows the good run and changes in it.
fn some_follows(machine: &Machine, changes: &[Change], good: &[Tern], apart: &NodeSet) -> bool
    requires inside { (change : Change) → Contains changes.now change → change.node < length good.now }
    requires counted { length good.now ≡ length machine.now.state }
    requires apart { length apart.now.inside ≡ length machine.now.parts }
    ensures yes { OnTrue result (SomeFollows changes.now machine.now.parts apart.now.inside good.now) }
    ensures no { OnFalse result (¬ SomeFollows changes.now machine.now.parts apart.now.inside good.now) }
{
    for change in changes {
        if follows(machine, change, good, apart) {
            return true;
        }
    }
    false
}

// Whether the node of a change follows the good run and changes in it.
fn follows(machine: &Machine, change: &Change, good: &[Tern], apart: &NodeSet) -> bool
    requires inside { change.now.node < length good.now }
    requires counted { length good.now ≡ length machine.now.state }
    requires apart { length apart.now.inside ≡ length machine.now.parts }
    ensures yes { OnTrue result (FollowsOne change.now machine.now.parts apart.now.inside good.now) }
    ensures no { OnFalse result (¬ FollowsOne change.now machine.now.parts apart.now.inside good.now) }
{
    let Some(k) = machine.owner_at(change.node) else {
        return false;
    };
    if apart.contains(k) {
        return false;
    }
    changes_good(change, good)
}

// Whether a change gives its node another state than the good run's.
fn changes_good(change: &Change, good: &[Tern]) -> bool
    requires { change.now.node < length good.now }
    ensures yes { OnTrue result (state_at good.now change.now.node ≢ change.now.value) }
    ensures no { OnFalse result (state_at good.now change.now.node ≡ change.now.value) }
{
    good[change.node] != change.value
}
