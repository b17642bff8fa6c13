//! A phase of a stage that is built.

ghost use Rattle.std.specs.Prelude.{◌≡◌, ◌≢◌, ◌+◌, ◌-◌, ◌^◌, ◌<◌, ◌≤◌, length, All, IfSome};
ghost use Rattle.std.specs.Bool.{OnTrue};
ghost use Rattle.fault_stage.specs.Words.{IsSound, FitsGraph, IsRunBeside, SettlesRun, IsBeat, SettlesGood};
ghost use Rattle.fault_stage.specs.Passing.{IsPassed};
ghost use Rattle.fault_stage.specs.Runs.{GoesIn, GoesRecorded, SettlesIn, TakesNext};

use crate::built::Course;
use crate::passing::{Passed, settle_alone};
use beside_run::{RunBeside, leave};
use good_phases::{Beat, GoodPhases};
use machine_stage::settle_to_rest;
use settling::{MOST_LIMIT, Onlooker, Settled};
use std::marker::Brand;
use std::sync::ledger::{Blank, Ledger};
use switch_paths::Graph;
use ternary::{Steps, Tern};
use unit_step::Machine;

// A phase with a higher limit isn't recorded: by itself the machine passes over rounds of states.
const MOST_RECORDED: u64 = 4096;

// Nor is one of a machine with more nodes.
const MOST_NODES: usize = 1_000_000_000_000;

// So many steps more than twice the good run's looks may a phase take beside it, and the run goes on so.
const MOST_MORE: u64 = 64;

// If more than one part in so many groups is apart behind a phase, the run goes on by itself.
const MOST_SHARE: usize = 2;

/// Settles on its course, and answers how it goes on.
pub(crate) fn settle_in<O: Onlooker>(
    machine: &mut Machine,
    graph: &Graph,
    state: &[Tern],
    good: &mut GoodPhases,
    course: Course,
    passes: &mut Vec<Passed>,
    limit: u64,
    onlooker: &mut O,
) -> (Course, Settled)
    requires goes { GoesIn good.old graph.now machine.old state.now course }
    requires sound { IsSound state.now }
    requires passes { All (IsPassed graph.now) passes.old.items }
    requires low { 1 ≤ limit }
    requires high { limit ≤ MOST_LIMIT }
    requires knows { O.knows onlooker.old state.now }
    ensures settles { SettlesIn O.see graph.now limit result.1.steps result.1.joined state.now machine.old machine.new good.new result.0 (O.seen onlooker.old) (O.seen onlooker.new) }
    ensures passes { All (IsPassed graph.now) passes.new.items }
    ensures good { good.new.graph ≡ good.old.graph }
    ensures knows { O.knows onlooker.new machine.new.state }
{
    match course {
        Course::Recorded => settle_recorded(machine, graph, state, good, limit, onlooker),
        Course::Beside(run, next) => {
            settle_next(machine, graph, state, good, run, next, limit, onlooker)
        }
        Course::Alone => {
            let told = settle_alone(machine, graph, state, passes, limit, onlooker);
            (Course::Alone, told)
        }
    }
}

// Settles, and notes the phase in the record, if the limit is low enough.
fn settle_recorded<O: Onlooker>(
    machine: &mut Machine,
    graph: &Graph,
    state: &[Tern],
    good: &mut GoodPhases,
    limit: u64,
    onlooker: &mut O,
) -> (Course, Settled)
    requires goes { GoesRecorded good.old graph.now machine.old state.now }
    requires low { 1 ≤ limit }
    requires high { limit ≤ MOST_LIMIT }
    requires knows { O.knows onlooker.old state.now }
    ensures settles { SettlesIn O.see graph.now limit result.1.steps result.1.joined state.now machine.old machine.new good.new result.0 (O.seen onlooker.old) (O.seen onlooker.new) }
    ensures good { good.new.graph ≡ good.old.graph }
    ensures knows { O.knows onlooker.new machine.new.state }
{
    if !is_recorded(limit, machine.state().len()) {
        let told = settle_to_rest(machine, graph, limit, onlooker);
        return (Course::Alone, told);
    }
    let told = note_uncounted::<Brand, O>(machine, good, limit, Blank::new(1), onlooker);
    (Course::Recorded, told)
}

// Whether a phase with this limit, in a machine of so many nodes, is recorded.
fn is_recorded(limit: u64, nodes: usize) -> bool
    ensures { OnTrue result (limit + nodes < 2 ^ 62) }
{
    limit <= MOST_RECORDED && nodes < MOST_NODES
}

// Settles, and notes the phase, without counting the instructions that the machine runs.
fn note_uncounted<L: Ledger, O: Onlooker>(
    machine: &mut Machine,
    good: &mut GoodPhases,
    limit: u64,
    blank: Blank,
    onlooker: &mut O,
) -> Settled
    requires name { blank.name ≡ L.name }
    requires parts { blank.parts ≡ L.parts }
    requires some { blank.parts ≢ 0 }
    requires fits { FitsGraph good.old.graph machine.old }
    requires counted { length good.old.run.known ≡ length machine.old.state }
    requires few { limit + length machine.old.state < 2 ^ 62 }
    requires knows { O.knows onlooker.old machine.old.state }
    ensures settles { SettlesGood O.see limit result.steps result.joined machine.old machine.new good.old good.new (O.seen onlooker.old) (O.seen onlooker.new) }
    ensures knows { O.knows onlooker.new machine.new.state }
{
    good.settle(machine, limit, &mut Steps::<L>::new(blank), onlooker)
}

// Settles beside the next phase of the record, if that has the same limit and begins where the run is; else by itself.
fn settle_next<O: Onlooker>(
    machine: &mut Machine,
    graph: &Graph,
    state: &[Tern],
    good: &GoodPhases,
    run: RunBeside,
    next: usize,
    limit: u64,
    onlooker: &mut O,
) -> (Course, Settled)
    requires goes { IsRunBeside good.now.graph good.now.run graph.now machine.old state.now run }
    requires sound { IsSound state.now }
    requires low { 1 ≤ limit }
    requires high { limit ≤ MOST_LIMIT }
    requires knows { O.knows onlooker.old state.now }
    ensures settles { SettlesIn O.see graph.now limit result.1.steps result.1.joined state.now machine.old machine.new good.now result.0 (O.seen onlooker.old) (O.seen onlooker.new) }
    ensures knows { O.knows onlooker.new machine.new.state }
{
    match next_beat(machine, good, &run, next, limit) {
        Some(beat) => {
            let mut run = run;
            let told = beside_uncounted::<Brand, O>(
                machine,
                graph,
                state,
                good,
                &mut run,
                beat,
                Blank::new(1),
                onlooker,
            );
            let number = number_after(next, beat, told.steps, run.apart(), machine.groups());
            (Course::Beside(run, number), told)
        }
        None => {
            leave(machine, graph, state);
            let told = settle_to_rest(machine, graph, limit, onlooker);
            (Course::Alone, told)
        }
    }
}

// The number of the phase that may come next, behind one beside which a run took so many steps, and so many parts are apart: none if
// the steps are far more than the good run's, since by itself a machine passes over rounds of states, or if the parts are many of so
// many groups, since by itself a machine doesn't look at what the good run changes.
fn number_after(next: usize, beat: Beat, steps: u64, apart: usize, groups: usize) -> usize {
    if apart.saturating_mul(MOST_SHARE) > groups {
        return usize::MAX;
    }
    let looks = beat.end.saturating_sub(beat.begin) as u64;
    if steps > looks.saturating_mul(2).saturating_add(MOST_MORE) {
        return usize::MAX;
    }
    next.saturating_add(1)
}

// The phase of the record with this number, if it is the one that the run takes next.
fn next_beat(
    machine: &Machine,
    good: &GoodPhases,
    run: &RunBeside,
    next: usize,
    limit: u64,
) -> Option<Beat>
    ensures { IfSome result (TakesNext good.now machine.now limit run.now) }
{
    match good.beat(next) {
        Some(beat) => {
            if run.comes(machine, beat, limit) {
                Some(beat)
            } else {
                None
            }
        }
        None => None,
    }
}

// Settles beside a phase of the record, without counting the instructions that the machine runs.
fn beside_uncounted<L: Ledger, O: Onlooker>(
    machine: &mut Machine,
    graph: &Graph,
    state: &[Tern],
    good: &GoodPhases,
    run: &mut RunBeside,
    beat: Beat,
    blank: Blank,
    onlooker: &mut O,
) -> Settled
    requires name { blank.name ≡ L.name }
    requires parts { blank.parts ≡ L.parts }
    requires some { blank.parts ≢ 0 }
    requires beside { IsRunBeside good.now.graph good.now.run graph.now machine.old state.now run.old }
    requires beat { IsBeat good.now.graph good.now.run beat }
    requires next { beat.begin ≡ run.old.at }
    requires few { (beat.end - (beat.begin + 1)) + beat.limit + length machine.old.state < 2 ^ 62 }
    requires knows { O.knows onlooker.old state.now }
    ensures settles { SettlesRun O.see good.now.graph good.now.run graph.now beat.limit result.steps result.joined machine.old machine.new state.now run.new (O.seen onlooker.old) (O.seen onlooker.new) }
    ensures knows { O.knows onlooker.new machine.new.state }
{
    run.settle(
        machine,
        good.graph(),
        good.run(),
        graph,
        state,
        beat,
        &mut Steps::<L>::new(blank),
        onlooker,
    )
}
