//! The groups that are stepped by vicinities, as they are made of a graph.
ghost use Rattle.std.specs.Prelude.{◌≡◌, length, IfOk};
ghost use Rattle.switch_paths.specs.Graphs.{nodes};
ghost use Rattle.wide_groups.specs.Holding.{HoldsMembers};

use crate::confined::confined;
use std::alloc::Global;
use switch_paths::{Graph, graphs_are_wired};
use ternary::{NoMemory, Tern};
use vicinity::{NodeSet, Wide};

/// The groups of a graph with these members, under a state. All their members are touched, so that the next step finds
/// the steady state of each.
///
/// The set is meant to have all members of each of its groups. A group whose members aren't all in it isn't held.
pub fn wide_of(
    alloc: Global,
    large: usize,
    graph: &Graph,
    state: &[Tern],
    members: &NodeSet,
) -> Result<Wide, NoMemory>
    requires counted { length state.now ≡ nodes graph.now }
    requires members { length members.now.inside ≡ nodes graph.now }
    ensures { IfOk result (HoldsMembers large graph.now state.now members.now.inside) }
{
    let held = confined(alloc, graph, members)?;
    graphs_are_wired(&held);
    let wide = Wide::of(alloc, large, held, state)?;
    Ok(wide)
}
