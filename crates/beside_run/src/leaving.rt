//! A run that goes on by itself.
ghost use Rattle.std.specs.Prelude.{◌≡◌, length};
ghost use Rattle.switch_paths.specs.Rails.{IsSound};
ghost use Rattle.machine_laws.specs.Fitting.{FitsGraph};
ghost use Rattle.beside.specs.Fitting.{all_marked};
ghost use Rattle.beside_run.specs.Running.{Leaves};

use switch_paths::Graph;
use ternary::Tern;
use unit_step::Machine;

/// Has a machine that went beside a good run go on by itself, in this state: with all its parts marked it fits its graph. It takes no memory.
pub fn leave(machine: &mut Machine, graph: &Graph, state: &[Tern])
    requires fits { FitsGraph graph.now (all_marked machine.old) }
    requires counted { length state.now ≡ length machine.old.state }
    requires sound { IsSound state.now }
    ensures { Leaves graph.now state.now machine.old machine.new }
{
    machine.has_a_mark_for_each_part();
    machine.mark_all_parts();
    machine.restart(graph, state);
}
