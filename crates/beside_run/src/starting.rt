//! A run that begins beside a good one, or by itself.
ghost use Rattle.std.specs.Prelude.{◌≡◌, length};
ghost use Rattle.switch_paths.specs.Rails.{IsSound};
ghost use Rattle.machine_laws.specs.Fitting.{FitsGraph};
ghost use Rattle.beside_run.specs.Running.{AreAlikeBut, BeginsRun};

use crate::leaving::leave;
use crate::running::RunBeside;
use good_run::Recorder;
use std::alloc::Global;
use switch_paths::Graph;
use ternary::Tern;
use unit_step::Machine;
use vicinity::NodeSet;

/// Begins a run beside a good one, in a machine that has this state and of which each part stands alike in both graphs but those that are touched; if there
/// is no memory for the run, the machine goes by itself.
pub fn begin(
    alloc: Global,
    machine: &mut Machine,
    good_graph: &Graph,
    run: &Recorder,
    graph: &Graph,
    touched: NodeSet,
    state: &[Tern],
) -> Option<RunBeside>
    requires fits { FitsGraph graph.now machine.old }
    requires state { machine.old.state ≡ state.now }
    requires counted { length run.now.start ≡ length machine.old.state }
    requires sound { IsSound run.now.start }
    requires touched { length touched.inside ≡ length machine.old.parts }
    requires alike { AreAlikeBut good_graph.now graph.now machine.old touched.inside }
    ensures { BeginsRun good_graph.now run.now graph.now machine.old machine.new result }
{
    match RunBeside::start(alloc, machine, good_graph, run, graph, touched) {
        Ok(begun) => Some(begun),
        Err(_) => {
            leave(machine, graph, state);
            None
        }
    }
}
