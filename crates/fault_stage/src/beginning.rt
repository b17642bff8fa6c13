//! How a machine goes on that was led to a graph and finished.

ghost use Rattle.std.specs.Prelude.{◌≡◌, length, IfSome};
ghost use Rattle.std.specs.Bool.{OnTrue};
ghost use Rattle.fault_stage.specs.Words.{IsSound, FitsGraph, KeepsBuild, KeepsParts, HasLater};
ghost use Rattle.fault_stage.specs.Runs.{GoesIn, IsTouched};

use crate::built::Course;
use beside_run::{begin, later_parts};
use good_phases::GoodPhases;
use std::alloc::Global;
use switch_paths::Graph;
use ternary::Tern;
use unit_step::Machine;
use vicinity::NodeSet;

/// The parts of a machine which may stand otherwise in the graph that it was led to than in the good run's, where it had so many, if there is memory
/// for them.
pub(crate) fn touched_in(alloc: Global, machine: &Machine, count: usize) -> Option<NodeSet>
    ensures { IfSome result (HasLater count machine.now) }
{
    match later_parts(alloc, machine, count) {
        Ok(touched) => Some(touched),
        Err(_) => None,
    }
}

/// How a machine that fits a graph goes on, if it is known which parts don't stand alike in the graph of the good run: beside that, if there is
/// memory for it.
pub(crate) fn course_of(
    alloc: Global,
    machine: &mut Machine,
    graph: &Graph,
    good: &GoodPhases,
    state: &[Tern],
    touched: Option<NodeSet>,
) -> Course
    requires fits { FitsGraph graph.now machine.old }
    requires state { machine.old.state ≡ state.now }
    requires touched { IfSome touched (IsTouched good.now.graph graph.now machine.old) }
    ensures goes { GoesIn good.now graph.now machine.new state.now result }
    ensures build { KeepsBuild machine.old machine.new }
    ensures held { KeepsParts machine.old machine.new }
{
    let Some(touched) = touched else {
        return Course::Alone;
    };
    if !starts_right(good.run().start(), state.len()) {
        return Course::Alone;
    }
    begun_in(alloc, machine, graph, good, state, touched)
}

// The run begins beside the good one, if there is memory for it.
fn begun_in(
    alloc: Global,
    machine: &mut Machine,
    graph: &Graph,
    good: &GoodPhases,
    state: &[Tern],
    touched: NodeSet,
) -> Course
    requires fits { FitsGraph graph.now machine.old }
    requires state { machine.old.state ≡ state.now }
    requires counted { length good.now.run.start ≡ length state.now }
    requires sound { IsSound good.now.run.start }
    requires touched { IsTouched good.now.graph graph.now machine.old touched }
    ensures goes { GoesIn good.now graph.now machine.new state.now result }
    ensures build { KeepsBuild machine.old machine.new }
    ensures held { KeepsParts machine.old machine.new }
{
    match begin(
        alloc,
        machine,
        good.graph(),
        good.run(),
        graph,
        touched,
        state,
    ) {
        Some(run) => Course::Beside(run, 0),
        None => Course::Alone,
    }
}

// Whether a state has so many nodes, and the rails their states.
fn starts_right(state: &[Tern], count: usize) -> bool
    ensures counted { OnTrue result (length state.now ≡ count) }
    ensures sound { OnTrue result (IsSound state.now) }
{
    state.len() == count && count > 1 && state[0] == Tern::Zero && state[1] == Tern::One
}
