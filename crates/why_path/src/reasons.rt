//! Reasons for the rails of a node, found over a whole graph.

ghost use Rattle.std.specs.Prelude.{◌≡◌, ◌<◌, length, IfOk};
ghost use Rattle.why_path.specs.Words.{nodes, rail_of, AreAllBelow, Explains, IsEntryOf, IsTrail, LeadBack};

use crate::search::{Found, search};
use std::alloc::{AllocError, Global};
use switch_paths::{Graph, Walk, graphs_are_wired, strongest};
use ternary::{NoMemory, Tern};

/// A reason for a rail of a node, "may be 1" where `one` is true and else "may be 0": a live path to
/// the node that is unblocked and whose root's state has that rail.
///
/// The reason passes no node twice, and no other one is stronger. `None` exactly if there is no
/// reason, so exactly if the node's steady state hasn't that rail. `state` has one state for each
/// node of the graph.
///
/// Bryant, "Boolean Analysis of MOS Circuits", 1987.
pub fn reason(
    alloc: Global,
    graph: &Graph,
    state: &[Tern],
    node: usize,
    one: bool,
) -> Result<Option<Walk>, NoMemory>
    requires state { length state.now ≡ nodes graph.now }
    requires node { node < nodes graph.now }
    ensures { IfOk result (λ found. Explains (rail_of one) graph.now state.now node found) }
{
    let roots = all_below(alloc, graph.nodes())?;
    reason_from(alloc, graph, state, &roots, node, one)
}

/// A reason as [`reason`] gives it; of equal roots it is the one that comes first in `roots`, which
/// has all nodes.
pub(crate) fn reason_from(
    alloc: Global,
    graph: &Graph,
    state: &[Tern],
    roots: &[usize],
    node: usize,
    one: bool,
) -> Result<Option<Walk>, NoMemory>
    requires state { length state.now ≡ nodes graph.now }
    requires roots { AreAllBelow (nodes graph.now) roots.now }
    requires node { node < nodes graph.now }
    ensures { IfOk result (λ found. Explains (rail_of one) graph.now state.now node found) }
{
    graphs_are_wired(graph);
    let best = strongest(alloc, graph, state)?;
    let found = search(alloc, graph, state, &best, roots, one)?.found;
    match entry_of(&found, node) {
        Some(at) => {
            let walk = trail(alloc, &found, at)?;
            Ok(Some(walk))
        }
        None => Ok(None),
    }
}

/// The numbers below this count, in ascending order.
pub(crate) fn all_below(alloc: Global, count: usize) -> Result<Vec<usize>, NoMemory>
    ensures { IfOk result (λ numbers. AreAllBelow count numbers.items) }
{
    let mut numbers = Vec::new(alloc);
    for number in 0..count {
        numbers.push(number).map_err(AllocError::from)?;
    }
    Ok(numbers)
}

// The place of the entry for this node.
fn entry_of(found: &[Found], node: usize) -> Option<usize>
    ensures { IsEntryOf found.now node result }
{
    for at in 0..found.len() {
        if found[at].node == node {
            return Some(at);
        }
    }
    None
}

// The walk by which the entry at this place was found.
fn trail(alloc: Global, found: &[Found], at: usize) -> Result<Walk, NoMemory>
    requires inside { at < length found.now }
    requires back { LeadBack found.now }
    ensures { IfOk result (λ walk. IsTrail found.now at walk.hops.items walk.root) }
{
    let mut hops = Vec::new(alloc);
    let mut entry = found[at];
    let mut reached = at;
    while let Some(last) = entry.last {
        hops.push(last.place).map_err(AllocError::from)?;
        reached = last.from;
        entry = found[reached];
    }
    hops.reverse();
    Ok(Walk {
        root: entry.node,
        hops,
    })
}
