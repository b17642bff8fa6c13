//! One edit, taken back.
ghost use Rattle.std.specs.Prelude.{◌≡◌, ◌<◌, length, IfSome};
ghost use Rattle.strength_order.specs.Levels.{IsLevel};
ghost use Rattle.switch_paths.specs.Graphs.{nodes, FitsPlace, IsWired};
ghost use Rattle.channel_groups.specs.Changes.{undo, with_place, with_level};
ghost use Rattle.edit_undo.specs.Undoing.{IsInPlace, place_now, level_now};

use channel_groups::Change;
use switch_paths::{Graph, Switch};

/// How the graph is until an edit is taken back, for what follows that.
pub fn way_back(graph: &Graph, change: &Change) -> Change
    requires { IsInPlace graph.now change.now }
    ensures same { undo (undo graph.now change.now) result ≡ graph.now }
    ensures nodes { IsInPlace (undo graph.now change.now) result }
{
    Change {
        nodes: graph.nodes(),
        place: place_before(graph, change.place),
        level: level_before(graph, change.level),
    }
}

// What stands at the place that is to be changed.
fn place_before(
    graph: &Graph,
    place: Option<(usize, Option<Switch>)>,
) -> Option<(usize, Option<Switch>)>
    ensures { result ≡ place_now graph.now place }
{
    match place {
        Some((at, _)) => Some((at, graph.switch_there(at))),
        None => None,
    }
}

// The level of the node that is to be changed.
fn level_before(graph: &Graph, level: Option<(usize, u8)>) -> Option<(usize, u8)>
    requires { IfSome level (λ old. old.0 < nodes graph.now) }
    ensures { result ≡ level_now graph.now level }
{
    match level {
        Some((node, _)) => Some((node, graph.level(node))),
        None => None,
    }
}

/// Takes an edit back: the graph is as it was before it.
pub fn take_back(graph: &mut Graph, change: &Change)
    requires place { IsInPlace graph.old change.now }
    requires wired { IsWired (undo graph.old change.now) }
    ensures { graph.new ≡ undo graph.old change.now }
{
    put_switch_back(graph, change.place);
    put_level_back(graph, change.level);
}

// Puts back what stood at a place.
fn put_switch_back(graph: &mut Graph, place: Option<(usize, Option<Switch>)>)
    requires inside { IfSome place (λ old. old.0 < length graph.old.places) }
    requires fits { IfSome place (λ old. FitsPlace (nodes graph.old) old.1) }
    ensures { graph.new ≡ record graph.old { places = with_place place graph.old.places } }
{
    if let Some((at, switch)) = place {
        graph.put_switch(at, switch);
    }
}

// Gives its level back to a node.
fn put_level_back(graph: &mut Graph, level: Option<(usize, u8)>)
    requires inside { IfSome level (λ old. old.0 < nodes graph.old) }
    requires level { IfSome level (λ old. IsLevel old.1) }
    ensures { graph.new ≡ record graph.old { levels = with_level level graph.old.levels } }
{
    if let Some((node, level)) = level {
        graph.set_level(node, level);
    }
}
