//! How the graph of a session's circuit was before an edit.

ghost use Rattle.std.specs.Prelude.{◌≡◌, ◌+◌, ◌-◌, ◌≤◌};
ghost use Rattle.switch_paths.specs.Graphs.{nodes};
ghost use Rattle.session_meaning.specs.Stages.{before_place, before_level};

use channel_groups::Change;
use switch_paths::Graph;

/// How the graph is before what stands at a place is changed; past the last place nothing stands.
pub(crate) fn change_at(graph: &Graph, place: usize) -> Change
    ensures { result ≡ before_place graph.now place }
{
    let there = if place < graph.places() {
        graph.switch_at(place)
    } else {
        None
    };
    Change {
        nodes: graph.nodes(),
        place: Some((place, there)),
        level: None,
    }
}

/// How the graph is before what stands at the place of a transistor's number is changed.
pub(crate) fn change_of(graph: &Graph, number: u64) -> Change
    ensures { result ≡ before_place graph.now (number - 1) }
{
    change_at(graph, (number as usize).saturating_sub(1))
}

/// How the graph is before the level of a node is changed.
pub(crate) fn change_of_level(graph: &Graph, node: usize) -> Change
    requires { node + 1 ≤ nodes graph.now }
    ensures { result ≡ before_level graph.now node }
{
    Change {
        nodes: graph.nodes(),
        place: None,
        level: Some((node, graph.level(node))),
    }
}
