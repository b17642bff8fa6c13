//! Switches that the rails alone decide.

ghost use Rattle.std.specs.Prelude.{◌≡◌, ℕ, ◌<◌, length, Some, IfSome};
ghost use Rattle.switch_paths.specs.Graphs.{nodes};
ghost use Rattle.circuit_lint.specs.Conducting as spec;

use switch_paths::{GND, Graph, Switch, SwitchKind, VDD};

/// Whether a switch is closed in each state.
pub(crate) fn is_always_closed(switch: Switch) -> bool
    ensures { result ≡ spec.is_always_closed switch }
{
    is_kept(switch, true, VDD, GND)
}

/// Whether a switch is closed in no state.
pub(crate) fn is_never_closed(switch: Switch) -> bool
    ensures { result ≡ spec.is_never_closed switch }
{
    is_kept(switch, false, GND, VDD)
}

// What holds of a depletion switch, and of an n-channel and of a p-channel one if its gate is this node.
fn is_kept(switch: Switch, always: bool, nchan: usize, pchan: usize) -> bool
    ensures { result ≡ spec.is_kept switch.kind switch.gate always nchan pchan }
{
    match switch.kind {
        SwitchKind::Always => always,
        SwitchKind::NChan => switch.gate == nchan,
        SwitchKind::PChan => switch.gate == pchan,
    }
}

/// The node at the other end of an always closed switch at a place that has an end at this node, if there
/// is such a switch.
pub(crate) fn across(graph: &Graph, place: usize, node: usize) -> Option<usize>
    requires { place < length graph.now.places }
    ensures joined { IfSome result (spec.IsClosedAcross graph.now place node) }
    ensures all { (other : ℕ) → spec.IsClosedAcross graph.now place node other → result ≡ Some other }
    ensures inside { IfSome result (λ other. other < nodes graph.now) }
{
    let switch = graph.switch_at(place)?;
    if is_always_closed(switch) {
        switch.other_end(node)
    } else {
        None
    }
}
