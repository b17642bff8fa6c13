//! Reasons found in the group of a node.

ghost use Rattle.std.specs.Prelude.{◌≡◌, ◌<◌, length, IfOk};
ghost use Rattle.why_path.specs.Words.{nodes, rail_of, AreGroups, Explains};

use crate::near::near_reason;
use channel_groups::Groups;
use std::alloc::Global;
use switch_paths::{Graph, Walk};
use ternary::{NoMemory, Tern};

/// A reason for a rail of a node, as [`reason`](crate::reason) gives it, found in the node's group among
/// these, which are the groups of the graph.
pub fn group_reason(
    alloc: Global,
    graph: &Graph,
    state: &[Tern],
    groups: &Groups,
    node: usize,
    one: bool,
) -> Result<Option<Walk>, NoMemory>
    requires state { length state.now ≡ nodes graph.now }
    requires groups { AreGroups graph.now groups.now.groups }
    requires count { groups.now.nodes ≡ nodes graph.now }
    requires node { node < nodes graph.now }
    ensures { IfOk result (λ found. Explains (rail_of one) graph.now state.now node found) }
{
    match groups.group_of(node) {
        Some(id) => {
            let members = groups.members(id);
            let switches = groups.switches(id);
            near_reason(alloc, graph, state, members, switches, node, one)
        }
        None => near_reason(alloc, graph, state, &[], &[], node, one),
    }
}
