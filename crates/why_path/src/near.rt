//! Reasons found near a node, in its group alone.

ghost use Rattle.std.specs.Prelude.{◌≡◌, ◌<◌, length, map, All, Contains, IfOk, slice_index};
ghost use Rattle.why_path.specs.Words.{level_of, nodes, rail_of, state_at, AreAllBelow, Explains, IsNear};
ghost use Rattle.strength_order.specs.declared.TheConstants.{INPUT_LEVEL};

use crate::reasons::{all_below, reason_from};
use crate::search::has_rail;
use group_text::{MOST_MEMBERS, MOST_SWITCHES, text_of_any_size};
use std::alloc::{AllocError, Global};
use strength_order::INPUT_LEVEL;
use switch_paths::{Graph, Walk, graphs_are_wired};
use ternary::{NoMemory, Tern};

/// A reason for a rail of a node, as [`reason`](crate::reason) gives it, found near the node alone.
///
/// The caller hands in what is near: the members of the node's group and the places of the group's
/// switches. For an input node both may be empty. So what is read and the memory that is taken go by
/// the sizes of these lists, however large the group is, and don't grow with the graph.
///
/// Of equal reasons a group that has more members or switches than `text_of` accepts tells the one
/// that `reason` finds.
///
/// After Bryant, Beatty, Brace, Cho and Sheffler, "COSMOS: A Compiled Simulator for MOS Circuits",
/// 1987, where each group is analysed by itself.
pub fn near_reason(
    alloc: Global,
    graph: &Graph,
    state: &[Tern],
    members: &[usize],
    switches: &[usize],
    node: usize,
    one: bool,
) -> Result<Option<Walk>, NoMemory>
    requires state { length state.now ≡ nodes graph.now }
    requires node { node < nodes graph.now }
    requires near { IsNear graph.now members.now switches.now node }
    ensures { IfOk result (λ found. Explains (rail_of one) graph.now state.now node found) }
{
    graphs_are_wired(graph);
    if graph.level(node) == INPUT_LEVEL {
        return Ok(input_reason(alloc, graph, state, node, one));
    }
    let (text, locals) = text_of_any_size(alloc, graph, members, switches)?;
    let local_state = states_at(alloc, state, &locals)?;
    let is_wide = members.len() > MOST_MEMBERS || switches.len() > MOST_SWITCHES;
    let roots = roots_of(alloc, &locals, is_wide)?;
    let local = place_of(members, node);
    match reason_from(alloc, text.graph(), &local_state, &roots, local, one)? {
        Some(walk) => Ok(Some(whole_walk(alloc, &walk, &locals, switches)?)),
        None => Ok(None),
    }
}

// The reason for a rail of an input node: its own empty path, if its state has the rail.
fn input_reason(
    alloc: Global,
    graph: &Graph,
    state: &[Tern],
    node: usize,
    one: bool,
) -> Option<Walk>
    requires state { length state.now ≡ nodes graph.now }
    requires node { node < nodes graph.now }
    requires input { level_of graph.now node ≡ INPUT_LEVEL }
    ensures { Explains (rail_of one) graph.now state.now node result }
{
    graphs_are_wired(graph);
    if !has_rail(one, state[node]) {
        return None;
    }
    Some(Walk {
        root: node,
        hops: Vec::new(alloc),
    })
}

// The place of a node among these, if it is one of them.
fn place_of(members: &[usize], node: usize) -> usize
    requires { Contains members.now node }
    ensures inside { result < length members.now }
    ensures named { slice_index members.now result ≡ node }
{
    for place in 0..members.len() {
        if members[place] == node {
            return place;
        }
    }
    unreachable!()
}

// The local nodes, which stand for these, in the order in which they are taken as roots: as they are
// numbered, but in a wide group as the nodes are that they stand for.
fn roots_of(alloc: Global, locals: &[usize], is_wide: bool) -> Result<Vec<usize>, NoMemory>
    ensures { IfOk result (λ roots. AreAllBelow (length locals.now) roots.items) }
{
    let mut roots = all_below(alloc, locals.len())?;
    if !is_wide {
        return Ok(roots);
    }
    roots.sort_unstable_by_key(|&local| locals.get(local).copied());
    Ok(roots)
}

// The states of these nodes.
fn states_at(alloc: Global, state: &[Tern], nodes: &[usize]) -> Result<Vec<Tern>, NoMemory>
    requires { All (λ node. node < length state.now) nodes.now }
    ensures { IfOk result (λ states. states.items ≡ map (state_at state.now) nodes.now) }
{
    let mut states = Vec::new(alloc);
    for &node in nodes {
        states.push(state[node]).map_err(AllocError::from)?;
    }
    Ok(states)
}

// The walk over the whole graph that a walk over a group's local graph stands for.
fn whole_walk(
    alloc: Global,
    walk: &Walk,
    locals: &[usize],
    switches: &[usize],
) -> Result<Walk, NoMemory>
    requires root { walk.now.root < length locals.now }
    requires hops { All (λ place. place < length switches.now) walk.now.hops.items }
    ensures root { IfOk result (λ whole. whole.root ≡ slice_index locals.now walk.now.root) }
    ensures hops { IfOk result (λ whole. whole.hops.items ≡ map (slice_index switches.now) walk.now.hops.items) }
{
    let mut hops = Vec::new(alloc);
    for &place in &walk.hops {
        hops.push(switches[place]).map_err(AllocError::from)?;
    }
    Ok(Walk {
        root: locals[walk.root],
        hops,
    })
}
