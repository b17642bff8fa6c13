ghost use Rattle.std.specs.Prelude.{◌≡◌, ℕ, ◌+◌, ◌<◌, ◌≤◌, ◌↔◌, ◌||◌, true, false, length, All, IfOk, slice_index};
ghost use Rattle.ternary.specs.Tern.{may_one, may_zero};
ghost use Rattle.switch_paths.specs.Switching.{state_at};
ghost use Rattle.switch_paths.specs.Graphs.{IsWired, FitsPlace, nodes};
ghost use Rattle.switch_paths.specs.Step.{IsStep};
ghost use Rattle.switch_paths.specs.Spread.{AreWidths};
ghost use Rattle.switch_paths.specs.Plain.{PlainRoomData, AreStrongest, AreReached, AreRoots, root_entry};

use crate::graph::Graph;
use crate::spread::{put_widths, spread};
use crate::switching::Switch;
use std::alloc::Global;
use std::marker::Model;
use ternary::{NoMemory, Tern};

/// The room that plain steps need, so that a step takes no memory.
///
/// It was made for so many nodes and places, and serves every graph that has no more of them.
#[derive(Drop)]
pub struct PlainRoom {
    // for each place: the most that it lets through
    widths: Vec<u8>,
    // for each node: the strength of its strongest definite path
    best: Vec<u8>,
    // for each node: the strength of its strongest unblocked path from a root that may be 1, or 0
    one: Vec<u8>,
    // likewise from a root that may be 0
    zero: Vec<u8>,
}

impl Model for PlainRoom {
    ghost Value = { PlainRoomData };

    ghost view = { λ room. record { nodes = length room.best.items; places = length room.widths.items } };

    ghost invariant = { λ room. (length room.one.items ≡ length room.best.items) × (length room.zero.items ≡ length room.best.items) };
}

impl PlainRoom {
    /// Room for graphs of at most so many nodes and places.
    pub fn new(alloc: Global, nodes: usize, places: usize) -> Result<PlainRoom, NoMemory>
        ensures { IfOk result (λ room. (room.nodes ≡ nodes) × (room.places ≡ places)) }
    {
        Ok(PlainRoom {
            widths: vec![in alloc; 0; places]?,
            best: vec![in alloc; 0; nodes]?,
            one: vec![in alloc; 0; nodes]?,
            zero: vec![in alloc; 0; nodes]?,
        })
    }
}

/// The unit step: the steady state of every node, all under the same old state.
///
/// `state` has one state for each node of the graph. A node may be 1 where some unblocked path
/// leads to it from a root that may be 1, and likewise for 0.
///
/// Bryant, "Boolean Analysis of MOS Circuits", 1987.
pub fn plain_step(alloc: Global, graph: &Graph, state: &[Tern]) -> Result<Vec<Tern>, NoMemory>
    requires { length state.now ≡ nodes graph.now }
    ensures { IfOk result (λ next. IsStep graph.now state.now next.items) }
{
    let mut room = PlainRoom::new(alloc, graph.nodes(), graph.places())?;
    let mut next = vec![in alloc; Tern::Unk; graph.nodes()]?;
    plain_step_into(graph, state, &mut room, &mut next);
    Ok(next)
}

/// The unit step, written to `out`, in room that the caller keeps; it takes no memory.
///
/// `state` and `out` have one state for each node of the graph, and the room was made for at least
/// the graph's nodes and places. The room keeps its two numbers.
///
/// Bryant, "Boolean Analysis of MOS Circuits", 1987.
pub fn plain_step_into(graph: &Graph, state: &[Tern], room: &mut PlainRoom, out: &mut [Tern])
    requires state { length state.now ≡ nodes graph.now }
    requires out { length out.old ≡ nodes graph.now }
    requires nodes { nodes graph.now ≤ room.old.nodes }
    requires places { length graph.now.places ≤ room.old.places }
    ensures step { IsStep graph.now state.now out.new }
    ensures room { room.new ≡ room.old }
{
    put_strongest(graph, state, &mut room.widths, &mut room.best);
    put_widths(false, state, graph.switches(), &mut room.widths);
    put_reached(true, graph, state, &room.widths, &room.best, &mut room.one);
    put_reached(
        false,
        graph,
        state,
        &room.widths,
        &room.best,
        &mut room.zero,
    );
    put_responses(&room.one, &room.zero, out);
}

/// For each node the strength of the strongest definite path to it.
///
/// `state` has one state for each node of the graph. No node is without such a path, since its own
/// empty one is definite.
///
/// Bryant, "Boolean Analysis of MOS Circuits", 1987.
pub fn strongest(alloc: Global, graph: &Graph, state: &[Tern]) -> Result<Vec<u8>, NoMemory>
    requires { length state.now ≡ nodes graph.now }
    ensures strongest { IfOk result (λ best. AreStrongest graph.now state.now best.items) }
    ensures count { IfOk result (λ best. length best.items ≡ nodes graph.now) }
{
    let mut widths = vec![in alloc; 0; graph.places()]?;
    let mut best = vec![in alloc; 0; graph.nodes()]?;
    put_strongest(graph, state, &mut widths, &mut best);
    Ok(best)
}

// Writes the strength of the strongest definite path to each node, and what closed switches let through.
fn put_strongest(graph: &Graph, state: &[Tern], widths: &mut [u8], best: &mut [u8])
    requires state { length state.now ≡ nodes graph.now }
    requires widths { length graph.now.places ≤ length widths.old }
    requires best { nodes graph.now ≤ length best.old }
    ensures { AreStrongest graph.now state.now best.new }
{
    let levels = graph.levels();
    let places = graph.switches();
    put_widths(true, state, places, widths);
    best[..levels.len()].copy_from_slice(levels);
    // The floor of a node is its own level, since what is weaker changes nothing there.
    spread(places, widths, levels, best);
}

// Writes the strength of each node's strongest unblocked path from a root with the rail, or 0.
fn put_reached(
    one: bool,
    graph: &Graph,
    state: &[Tern],
    widths: &[u8],
    best: &[u8],
    table: &mut [u8],
)
    requires state { length state.now ≡ nodes graph.now }
    requires places { length graph.now.places ≤ length widths.now }
    requires best { nodes graph.now ≤ length best.now }
    requires table { length table.old ≡ length best.now }
    requires widths { AreWidths false state.now graph.now.places widths.now }
    requires strongest { AreStrongest graph.now state.now best.now }
    ensures { AreReached one graph.now state.now table.new }
{
    put_roots(one, graph.levels(), state, best, table);
    spread(graph.switches(), widths, best, table);
}

// Writes the level of each node that has the rail and to which nothing stronger comes, else 0.
fn put_roots(one: bool, levels: &[u8], state: &[Tern], best: &[u8], table: &mut [u8])
    requires state { length levels.now ≤ length state.now }
    requires best { length levels.now ≤ length best.now }
    requires table { length levels.now ≤ length table.old }
    ensures { AreRoots one state.now levels.now best.now table.new }
{
    for node in 0..levels.len() {
        table[node] = first_strength(one, state[node], levels[node], best[node]);
    }
}

// The strength with which a node starts a path of its own.
fn first_strength(one: bool, state: Tern, level: u8, best: u8) -> u8
    ensures { result ≡ root_entry one state level best }
{
    let rail = if one {
        state.may_one()
    } else {
        state.may_zero()
    };
    if rail && best <= level { level } else { 0 }
}

// Writes for each node the state whose rails are set where its entries aren't 0.
fn put_responses(one: &[u8], zero: &[u8], out: &mut [Tern])
    requires one { length out.old ≤ length one.now }
    requires zero { length out.old ≤ length zero.now }
    requires some { (n : ℕ) → n < length out.old → 0 < slice_index one.now n + slice_index zero.now n }
    ensures one { (n : ℕ) → n < length out.old → (may_one (state_at out.new n) ≡ true) ↔ (0 < slice_index one.now n) }
    ensures zero { (n : ℕ) → n < length out.old → (may_zero (state_at out.new n) ≡ true) ↔ (0 < slice_index zero.now n) }
{
    for node in 0..out.len() {
        out[node] = response(one[node] > 0, zero[node] > 0);
    }
}

/// The state with these rails, one of which is set.
pub fn response(one: bool, zero: bool) -> Tern
    requires { (one || zero) ≡ true }
    ensures one { may_one result ≡ one }
    ensures zero { may_zero result ≡ zero }
{
    match Tern::from_rails(one, zero) {
        Some(state) => state,
        None => unreachable!(),
    }
}
