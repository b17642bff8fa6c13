//! How far Gnd is from each node, over always closed switches and storage nodes.

ghost use Rattle.std.specs.Prelude.{◌≡◌, ◌<◌, ◌≤◌, ◌+◌, ℕ, length, slice_index, slice_set, true, false, Some, None, Contains, IfOk, OnOk};
ghost use Rattle.switch_paths.specs.Graphs.{nodes, IsStorage};
ghost use Rattle.switch_paths.specs.declared.TheConstants.{RAILS};
ghost use Rattle.circuit_lint.specs.Conducting.{IsClosedAcross};
ghost use Rattle.circuit_lint.specs.Closed.{AreClosed};
ghost use Rattle.circuit_lint.specs.Distances.{AreDistances, IsSearched, HasSpread, Keeps, IsFound, distance_at};

use crate::closed::closed_at;
use crate::conducting::across;
use crate::lists::no_numbers;
use std::alloc::{AllocError, Global};
use strength_order::INPUT_LEVEL;
use switch_paths::{GND, Graph};

/// What a search from Gnd has found: of each node its distance, and the found nodes in order.
#[derive(Drop)]
struct Search {
    distance: Vec<Option<usize>>,
    order: Vec<usize>,
}

/// Of each node from which a way leads down the length of a shortest one.
pub(crate) fn distances(
    alloc: Global,
    graph: &Graph,
    closed: &[Vec<usize>],
) -> Result<Vec<Option<usize>>, AllocError>
    requires rails { RAILS ≤ nodes graph.now }
    requires gnd { ¬ IsStorage graph.now GND }
    requires closed { AreClosed graph.now closed.now }
    ensures { IfOk result (λ distance. AreDistances graph.now distance.items) }
{
    let mut search = from_gnd(alloc, graph)?;
    let mut count = 0;
    while count < search.order.len() {
        let places = closed_at(closed, item(&search.order, count));
        visit(graph, places, count, &mut search)?;
        count += 1;
    }
    Ok(search.distance)
}

// The node at a place of the order.
fn item(order: &[usize], count: usize) -> usize
    requires { count < length order.now }
    ensures { result ≡ slice_index order.now count }
{
    order[count]
}

// The search that has found Gnd alone.
fn from_gnd(alloc: Global, graph: &Graph) -> Result<Search, AllocError>
    requires { RAILS ≤ nodes graph.now }
    ensures { IfOk result (λ search. IsSearched graph.now 0 search.distance.items search.order.items) }
{
    let mut distance = no_numbers(alloc, graph.nodes())?;
    put_distance(&mut distance, GND, 0);
    let mut order = Vec::new(alloc);
    order.push(GND)?;
    Ok(Search { distance, order })
}

// Looks at these places from the found node that the search has reached.
fn visit(
    graph: &Graph,
    places: &[usize],
    count: usize,
    search: &mut Search,
) -> Result<(), AllocError>
    requires inside { count < length search.old.order.items }
    requires places { (place : ℕ) → Contains places.now place → place < length graph.now.places }
    requires searched { IsSearched graph.now count search.old.distance.items search.old.order.items }
    ensures searched { OnOk result (IsSearched graph.now count search.new.distance.items search.new.order.items) }
    ensures keeps { OnOk result (Keeps search.old.distance.items search.new.distance.items search.old.order.items search.new.order.items) }
    ensures found { OnOk result ((place node : ℕ) → Contains places.now place → IsStorage graph.now node →
        IsClosedAcross graph.now place (slice_index search.old.order.items count) node → IsFound search.new.distance.items node) }
{
    for &place in places {
        look(graph, place, count, search)?;
    }
    Ok(())
}

// Looks at a place from the found node that the search has reached.
fn look(graph: &Graph, place: usize, count: usize, search: &mut Search) -> Result<(), AllocError>
    requires inside { count < length search.old.order.items }
    requires place { place < length graph.now.places }
    requires searched { IsSearched graph.now count search.old.distance.items search.old.order.items }
    ensures searched { OnOk result (IsSearched graph.now count search.new.distance.items search.new.order.items) }
    ensures keeps { OnOk result (Keeps search.old.distance.items search.new.distance.items search.old.order.items search.new.order.items) }
    ensures found { OnOk result ((node : ℕ) → IsStorage graph.now node →
        IsClosedAcross graph.now place (slice_index search.old.order.items count) node → IsFound search.new.distance.items node) }
{
    let from = item(&search.order, count);
    let Some(node) = across(graph, place, from) else {
        return Ok(());
    };
    if is_fresh(graph, &search.distance, node) {
        find(graph, place, node, count, search)?;
    }
    Ok(())
}

// Whether a node is a storage node that wasn't found.
fn is_fresh(graph: &Graph, distance: &[Option<usize>], node: usize) -> bool
    requires node { node < nodes graph.now }
    requires count { length distance.now ≡ nodes graph.now }
    ensures storage { result ≡ true → IsStorage graph.now node }
    ensures fresh { result ≡ true → distance_at distance.now node ≡ None }
    ensures found { result ≡ false → IsStorage graph.now node → IsFound distance.now node }
{
    match distance_of(distance, node) {
        Some(_) => false,
        None => graph.level(node) < INPUT_LEVEL,
    }
}

// The distance of a node, if it was found.
fn distance_of(distance: &[Option<usize>], node: usize) -> Option<usize>
    requires { node < length distance.now }
    ensures { result ≡ distance_at distance.now node }
{
    distance[node]
}

// Finds a storage node that wasn't found, one switch farther than the node that the search has reached.
fn find(
    graph: &Graph,
    place: usize,
    node: usize,
    count: usize,
    search: &mut Search,
) -> Result<(), AllocError>
    requires inside { count < length search.old.order.items }
    requires storage { IsStorage graph.now node }
    requires joined { IsClosedAcross graph.now place (slice_index search.old.order.items count) node }
    requires fresh { distance_at search.old.distance.items node ≡ None }
    requires searched { IsSearched graph.now count search.old.distance.items search.old.order.items }
    ensures searched { OnOk result (IsSearched graph.now count search.new.distance.items search.new.order.items) }
    ensures keeps { OnOk result (Keeps search.old.distance.items search.new.distance.items search.old.order.items search.new.order.items) }
    ensures found { OnOk result (IsFound search.new.distance.items node) }
{
    let here = reached(graph, &search.distance, &search.order, count);
    search.order.push(node)?;
    put_distance(&mut search.distance, node, here + 1);
    Ok(())
}

// Puts the distance of a node.
fn put_distance(distance: &mut Vec<Option<usize>>, node: usize, far: usize)
    requires { node < length distance.old.items }
    ensures { distance.new.items ≡ slice_set distance.old.items node (Some far) }
{
    distance[node] = Some(far);
}

// The distance of the node that the search has reached.
fn reached(graph: &Graph, distance: &[Option<usize>], order: &[usize], count: usize) -> usize
    requires inside { count < length order.now }
    requires searched { IsSearched graph.now count distance.now order.now }
    ensures is { distance_at distance.now (slice_index order.now count) ≡ Some result }
    ensures low { result < length order.now }
{
    match distance_of(distance, item(order, count)) {
        Some(here) => here,
        None => unreachable!(),
    }
}
