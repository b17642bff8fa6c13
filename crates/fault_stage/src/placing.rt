//! A node of a stage that is built is given a state; and a machine that goes by itself from here on.

ghost use Rattle.std.specs.Prelude.{◌≡◌, ◌<◌, ◌≤◌, length, slice_set};
ghost use Rattle.switch_paths.specs.declared.TheConstants.{RAILS};
ghost use Rattle.switch_paths.specs.Graphs.{nodes};
ghost use Rattle.switch_paths.specs.Rails.{IsSound};
ghost use Rattle.machine_laws.specs.Fitting.{IsKeptBy};
ghost use Rattle.fault_stage.specs.Runs.{Gives, GoesIn, IsAlone};

use crate::built::Course;
use beside_run::leave;
use good_phases::GoodPhases;
use switch_paths::{Graph, RAILS};
use ternary::Tern;
use unit_step::Machine;

/// Gives a node that is no rail a state: beside a good run for the next phase alone, else at once.
pub(crate) fn place_in(
    machine: &mut Machine,
    graph: &Graph,
    good: &GoodPhases,
    state: &[Tern],
    course: &mut Course,
    node: usize,
    value: Tern,
)
    requires goes { GoesIn good.now graph.now machine.old state.now course.old }
    requires counted { length state.now ≡ nodes graph.now }
    requires known { IsKeptBy graph.now machine.old.last machine.old }
    requires inside { node < length state.now }
    requires no_rail { RAILS ≤ node }
    ensures gives { Gives good.now graph.now (slice_set state.now node value) machine.old machine.new course.new }
    ensures known { IsKeptBy graph.now machine.new.last machine.new }
{
    match course {
        Course::Beside(run, _) => run.give(node),
        Course::Recorded => machine.set_node(graph, node, value),
        Course::Alone => machine.set_node(graph, node, value),
    }
}

/// Has the machine go by itself, in the state that is meant.
pub(crate) fn go_alone(
    machine: &mut Machine,
    graph: &Graph,
    good: &GoodPhases,
    state: &[Tern],
    course: &Course,
)
    requires goes { GoesIn good.now graph.now machine.old state.now course.now }
    requires sound { IsSound state.now }
    ensures { IsAlone graph.now state.now machine.old machine.new }
{
    match course {
        Course::Beside(_, _) => leave(machine, graph, state),
        Course::Recorded => {}
        Course::Alone => {}
    }
}
