//! The search for reasons: forwards from the roots, by strengths from the greatest down.
//!
//! A node is found once, from an earlier place of one list of found nodes, and with the greatest
//! strength with which an unblocked path leads to it. So what is read back along these places ends,
//! passes no node twice, and no other path is stronger.

ghost use Rattle.std.specs.Prelude.{◌≡◌, ℕ, ◌<◌, ◌↔◌, ◌++◌, ◌∷◌, [], true, IsTrue, length, All, IfOk, OnOk, slice_get, slice_set, Contains};
ghost use Rattle.why_path.specs.Words.{nodes, rail_of, AreAllBelow, HaveSwitches, IsPassed, IsRootIn, IsRootOf, IsSearch, IsSettled, Keeps, Lands};
ghost use Rattle.why_path.specs.declared.search.Found.{Found};

use crate::ends::ends_of;
use std::alloc::{AllocError, Global};
use strength_order::INPUT_LEVEL;
use switch_paths::{Graph, WalkFacts, graphs_are_wired};
use ternary::{NoMemory, Tern};

/// A node that was found, with a strength that some unblocked path to it has, and where from; a root
/// is found from nowhere.
#[derive(Clone, Copy)]
pub(crate) struct Found {
    pub(crate) node: usize,
    pub(crate) strength: u8,
    pub(crate) last: Option<Last>,
}

/// The last hop to a found node: over the switch at this place, from the entry at this place of the
/// list.
#[derive(Clone, Copy)]
pub(crate) struct Last {
    pub(crate) place: usize,
    pub(crate) from: usize,
}

/// What was found so far: for which rail, the list, and for each node whether it is in it.
#[derive(Drop)]
pub(crate) struct Progress {
    pub(crate) one: bool,
    pub(crate) found: Vec<Found>,
    pub(crate) seen: Vec<bool>,
}

/// All nodes to which an unblocked path leads from a root whose state has the rail.
///
/// `best` has for each node the strength of the strongest definite path to it. Roots of one level are
/// taken in the order of `roots`, which has all nodes.
pub(crate) fn search(
    alloc: Global,
    graph: &Graph,
    state: &[Tern],
    best: &[u8],
    roots: &[usize],
    one: bool,
) -> Result<Progress, NoMemory>
    requires state { length state.now ≡ nodes graph.now }
    requires best { length best.now ≡ nodes graph.now }
    requires roots { AreAllBelow (nodes graph.now) roots.now }
    ensures { IfOk result (λ end. IsSearch (rail_of one) graph.now state.now best.now 0 end.found.items end.seen.items) }
{
    // For the proof alone: each level is a level.
    graphs_are_wired(graph);
    let ends = ends_of(alloc, graph)?;
    let mut progress = Progress {
        one,
        found: Vec::new(alloc),
        seen: vec![in alloc; false; graph.nodes()]?,
    };
    let mut strength = INPUT_LEVEL;
    while strength > 0 {
        add_roots(graph, state, best, roots, strength, &mut progress)?;
        widen(graph, state, best, &ends, strength, &mut progress)?;
        strength -= 1;
    }
    Ok(progress)
}

// Adds the nodes among these that are roots of this level.
fn add_roots(
    graph: &Graph,
    state: &[Tern],
    best: &[u8],
    roots: &[usize],
    strength: u8,
    progress: &mut Progress,
) -> Result<(), NoMemory>
    requires state { length state.now ≡ nodes graph.now }
    requires best { length best.now ≡ nodes graph.now }
    requires inside { All (λ node. node < nodes graph.now) roots.now }
    requires sound { IsSearch (rail_of progress.old.one) graph.now state.now best.now strength progress.old.found.items progress.old.seen.items }
    ensures one { progress.new.one ≡ progress.old.one }
    ensures sound { OnOk result (IsSearch (rail_of progress.old.one) graph.now state.now best.now strength progress.new.found.items progress.new.seen.items) }
    ensures roots { OnOk result (All (IsRootIn (rail_of progress.old.one) graph.now state.now best.now strength progress.new.found.items) roots.now) }
{
    for &node in roots {
        add_root(graph, state, best, strength, node, progress)?;
    }
    Ok(())
}

// Adds a node if it is a root of this level that isn't found yet.
fn add_root(
    graph: &Graph,
    state: &[Tern],
    best: &[u8],
    strength: u8,
    node: usize,
    progress: &mut Progress,
) -> Result<(), NoMemory>
    requires state { length state.now ≡ nodes graph.now }
    requires best { length best.now ≡ nodes graph.now }
    requires node { node < nodes graph.now }
    requires sound { IsSearch (rail_of progress.old.one) graph.now state.now best.now strength progress.old.found.items progress.old.seen.items }
    ensures one { progress.new.one ≡ progress.old.one }
    ensures kept { OnOk result (Keeps progress.old.found.items progress.new.found.items) }
    ensures sound { OnOk result (IsSearch (rail_of progress.old.one) graph.now state.now best.now strength progress.new.found.items progress.new.seen.items) }
    ensures root { OnOk result (IsRootIn (rail_of progress.old.one) graph.now state.now best.now strength progress.new.found.items node) }
{
    if !is_root(graph, state, best, progress.one, strength, node) || progress.seen[node] {
        return Ok(());
    }
    let root = Found {
        node,
        strength,
        last: None,
    };
    take(progress, root)?;
    Ok(())
}

// Whether a node has this level, its state has the rail, and nothing stronger leads to it.
fn is_root(graph: &Graph, state: &[Tern], best: &[u8], one: bool, level: u8, node: usize) -> bool
    requires state { length state.now ≡ nodes graph.now }
    requires best { length best.now ≡ nodes graph.now }
    requires node { node < nodes graph.now }
    ensures { IsTrue result ↔ IsRootOf (rail_of one) graph.now state.now best.now level node }
{
    has_rail(one, state[node]) && graph.level(node) == level && best[node] <= level
}

/// Whether a state has the rail "may be 1", or else "may be 0".
pub(crate) fn has_rail(one: bool, state: Tern) -> bool
    ensures { result ≡ rail_of one state }
{
    if one {
        state.may_one()
    } else {
        state.may_zero()
    }
}

// Adds what is found from the entries of the list, those that are added meanwhile included.
fn widen(
    graph: &Graph,
    state: &[Tern],
    best: &[u8],
    ends: &[Vec<usize>],
    strength: u8,
    progress: &mut Progress,
) -> Result<(), NoMemory>
    requires state { length state.now ≡ nodes graph.now }
    requires best { length best.now ≡ nodes graph.now }
    requires ends { length ends.now ≡ nodes graph.now }
    requires switches { HaveSwitches graph.now ends.now }
    requires sound { IsSearch (rail_of progress.old.one) graph.now state.now best.now strength progress.old.found.items progress.old.seen.items }
    ensures one { progress.new.one ≡ progress.old.one }
    ensures kept { OnOk result (Keeps progress.old.found.items progress.new.found.items) }
    ensures sound { OnOk result (IsSearch (rail_of progress.old.one) graph.now state.now best.now strength progress.new.found.items progress.new.seen.items) }
    ensures settled { OnOk result ((k : ℕ) (entry : Found) → slice_get progress.new.found.items k ≡ Some entry → IsSettled graph.now state.now best.now strength progress.new.found.items entry) }
{
    let mut from = 0;
    while from < progress.found.len() {
        let entry = progress.found[from];
        try_hops(
            graph,
            state,
            best,
            &ends[entry.node],
            strength,
            from,
            progress,
        )?;
        from += 1;
    }
    Ok(())
}

// Adds what hops over these places lead to from an entry, if that isn't found yet.
fn try_hops(
    graph: &Graph,
    state: &[Tern],
    best: &[u8],
    places: &[usize],
    strength: u8,
    from: usize,
    progress: &mut Progress,
) -> Result<(), NoMemory>
    requires state { length state.now ≡ nodes graph.now }
    requires best { length best.now ≡ nodes graph.now }
    requires from { from < length progress.old.found.items }
    requires sound { IsSearch (rail_of progress.old.one) graph.now state.now best.now strength progress.old.found.items progress.old.seen.items }
    ensures one { progress.new.one ≡ progress.old.one }
    ensures kept { OnOk result (Keeps progress.old.found.items progress.new.found.items) }
    ensures sound { OnOk result (IsSearch (rail_of progress.old.one) graph.now state.now best.now strength progress.new.found.items progress.new.seen.items) }
    ensures passed { OnOk result ((entry : Found) → slice_get progress.old.found.items from ≡ Some entry →
        (place : ℕ) → Contains places.now place → IsPassed graph.now state.now best.now strength progress.new.found.items entry place) }
{
    let entry = progress.found[from];
    for &place in places {
        let Some(node) = node_after(graph, state, best, entry, place, strength) else {
            continue;
        };
        if progress.seen[node] {
            continue;
        }
        let last = Some(Last { place, from });
        take(
            progress,
            Found {
                node,
                strength,
                last,
            },
        )?;
    }
    Ok(())
}

// The node to which a hop over this place leads from an entry with at least this strength, and to
// which nothing stronger leads.
fn node_after(
    graph: &Graph,
    state: &[Tern],
    best: &[u8],
    entry: Found,
    place: usize,
    strength: u8,
) -> Option<usize>
    requires state { length state.now ≡ nodes graph.now }
    requires best { length best.now ≡ nodes graph.now }
    ensures { Lands graph.now state.now best.now strength entry place result }
{
    let here = WalkFacts {
        end: entry.node,
        strength: entry.strength,
        definite: true,
    };
    let there = graph.after_hop(state, here, place)?;
    if there.strength < strength || best[there.end] > strength {
        return None;
    }
    Some(there.end)
}

// Adds an entry for a node that isn't found yet.
fn take(progress: &mut Progress, entry: Found) -> Result<(), NoMemory>
    requires { entry.node < length progress.old.seen.items }
    ensures one { progress.new.one ≡ progress.old.one }
    ensures found { OnOk result (progress.new.found.items ≡ progress.old.found.items ++ entry ∷ []) }
    ensures seen { OnOk result (progress.new.seen.items ≡ slice_set progress.old.seen.items entry.node true) }
{
    progress.found.push(entry).map_err(AllocError::from)?;
    progress.seen[entry.node] = true;
    Ok(())
}
