//! A node that is placed in both runs.
ghost use Rattle.std.specs.Prelude.{◌≡◌, ◌<◌, ◌≤◌, true, length};
ghost use Rattle.std.specs.Bool.{OnFalse};
ghost use Rattle.switch_paths.specs.declared.TheConstants.{RAILS};
ghost use Rattle.beside.specs.Fitting.{FitsBeside};
ghost use Rattle.beside_phases.specs.Placing.{ComesApart, PlacesBoth};

use beside::put_apart;
use switch_paths::{Graph, graphs_are_wired};
use ternary::Tern;
use unit_step::Machine;
use vicinity::NodeSet;

/// Places a node that is no rail in both runs, where a phase begins. If it gets one value in both, the parts that it concerns go on to
/// follow, but for those that are apart, which are marked; else all of them are apart afterwards, and marked. It takes no memory.
pub fn place_both(
    machine: &mut Machine,
    good_graph: &Graph,
    graph: &Graph,
    node: usize,
    value: Tern,
    bad_value: Tern,
    good: &mut [Tern],
    apart: &mut NodeSet,
)
    requires fits { FitsBeside good_graph.now graph.now good.old apart.old.inside machine.old }
    requires inside { node < length machine.old.state }
    requires no_rail { RAILS ≤ node }
    ensures { PlacesBoth good_graph.now graph.now node value bad_value good.old good.new machine.old machine.new apart.new.inside }
{
    graphs_are_wired(graph);
    separate(machine, node, are_other(value, bad_value), apart);
    good[node] = value;
    machine.set_node_among(node, bad_value, apart);
}

// Whether two states are different ones.
fn are_other(one: Tern, other: Tern) -> bool
    ensures { OnFalse result (one ≡ other) }
{
    one != other
}

// Puts the parts apart that a node concerns, if it differs.
fn separate(machine: &Machine, node: usize, differs: bool, apart: &mut NodeSet)
    requires inside { node < length machine.now.state }
    requires counted { length apart.old.inside ≡ length machine.now.parts }
    ensures { ComesApart (differs ≡ true) machine.now node apart.old.inside apart.new.inside }
{
    if !differs {
        return;
    }
    put_apart(machine, node, apart);
}
