//! Lists of always closed switches that join the rails.

ghost use Rattle.std.specs.Prelude.{◌≡◌, ◌<◌, ◌≤◌, ℕ, length, map, Some, All, Contains, IfOk, IfSome, IfNone, OnOk};
ghost use Rattle.std.specs.List.Sorted.{IsStrictlyIncreasing};
ghost use Rattle.circuit_lint.specs.Words.{nodes, IsStorage, RAILS, GND, VDD, AreGroups, id_of, IsId};
ghost use Rattle.circuit_lint.specs.Conducting.{IsClosedAcross};
ghost use Rattle.circuit_lint.specs.Closed.{AreClosed};
ghost use Rattle.circuit_lint.specs.Distances.{AreDistances, IsFound, distance_at};
ghost use Rattle.circuit_lint.specs.Shorts.{AreShorts};
ghost use Rattle.circuit_lint.specs.Ways.{lists_of, IsStep, IsFirstStep, GoesDown, IsWayFrom};

use crate::closed::{closed_at, closed_switches};
use crate::conducting::across;
use crate::distances::distances;
use crate::starts::starts_of;
use channel_groups::{GroupId, Groups};
use std::alloc::{AllocError, Global};
use switch_paths::{Graph, VDD};

/// The lists of always closed switches that join the rails, in ascending order: of each group the shortest,
/// and of these the first by numbers, and single switches between the rails.
pub(crate) fn shorts_of(
    alloc: Global,
    graph: &Graph,
    groups: &Groups,
    ids: &[GroupId],
) -> Result<Vec<Vec<usize>>, AllocError>
    requires rails { RAILS ≤ nodes graph.now }
    requires gnd { ¬ IsStorage graph.now GND }
    requires vdd { ¬ IsStorage graph.now VDD }
    requires groups { AreGroups graph.now groups.now.groups }
    requires ids { map (λ id. id.node) ids.now ≡ map id_of groups.now.groups }
    requires all { All (λ id. IsId groups.now.groups id.node) ids.now }
    ensures { IfOk result (λ shorts. AreShorts graph.now (lists_of shorts.items)) }
{
    let closed = closed_switches(alloc, graph)?;
    let distance = distances(alloc, graph, &closed)?;
    let starts = starts_of(
        alloc,
        graph,
        groups,
        ids,
        closed_at(&closed, VDD),
        &distance,
    )?;
    let mut ways = Vec::new(alloc);
    for &place in &starts {
        ways.push(way_from(alloc, graph, &closed, &distance, place)?)?;
    }
    Ok(ways)
}

// The list that begins at a place.
fn way_from(
    alloc: Global,
    graph: &Graph,
    closed: &[Vec<usize>],
    distance: &[Option<usize>],
    place: usize,
) -> Result<Vec<usize>, AllocError>
    requires closed { AreClosed graph.now closed.now }
    requires distance { AreDistances graph.now distance.now }
    requires start { (node : ℕ) × IsClosedAcross graph.now place VDD node × IsFound distance.now node }
    ensures { IfOk result (λ way. IsWayFrom graph.now place way.items) }
{
    let mut way = Vec::new(alloc);
    way.push(place)?;
    let node = entered(graph, distance, place);
    go_down(graph, closed, distance, node, &mut way)?;
    Ok(way)
}

// The node to which the switch at a place leads from Vdd.
fn entered(graph: &Graph, distance: &[Option<usize>], place: usize) -> usize
    requires { (node : ℕ) × IsClosedAcross graph.now place VDD node × IsFound distance.now node }
    ensures enters { IsClosedAcross graph.now place VDD result }
    ensures found { IsFound distance.now result }
{
    if place >= graph.places() {
        unreachable!();
    }
    match across(graph, place, VDD) {
        Some(node) => node,
        None => unreachable!(),
    }
}

// Puts the first of the shortest ways from a node behind what is there.
fn go_down(
    graph: &Graph,
    closed: &[Vec<usize>],
    distance: &[Option<usize>],
    from: usize,
    way: &mut Vec<usize>,
) -> Result<(), AllocError>
    requires closed { AreClosed graph.now closed.now }
    requires distance { AreDistances graph.now distance.now }
    requires from { IsFound distance.now from }
    ensures { OnOk result (GoesDown graph.now from way.old.items way.new.items) }
{
    let mut node = from;
    let mut left = far_of(distance, from);
    while left > 0 {
        left -= 1;
        let places = closed_at(closed, node);
        let Some((place, next)) = first_step(graph, places, distance, node, left) else {
            unreachable!();
        };
        way.push(place)?;
        node = next;
    }
    Ok(())
}

// The distance of a node that was found.
fn far_of(distance: &[Option<usize>], node: usize) -> usize
    requires { IsFound distance.now node }
    ensures { distance_at distance.now node ≡ Some result }
{
    if node >= distance.len() {
        unreachable!();
    }
    match distance[node] {
        Some(far) => far,
        None => unreachable!(),
    }
}

// The first of these places that leads from a node to one at a distance, and that node.
fn first_step(
    graph: &Graph,
    places: &[usize],
    distance: &[Option<usize>],
    node: usize,
    left: usize,
) -> Option<(usize, usize)>
    requires inside { (place : ℕ) → Contains places.now place → place < length graph.now.places }
    requires distance { length distance.now ≡ nodes graph.now }
    requires ascending { IsStrictlyIncreasing places.now }
    ensures some { IfSome result (λ step. IsFirstStep graph.now distance.now places.now node left step.0 step.1) }
    ensures none { IfNone result ((place next : ℕ) → Contains places.now place → ¬ IsStep graph.now distance.now node left place next) }
{
    for &place in places {
        if let Some(next) = leads_on(graph, distance, place, node, left) {
            return Some((place, next));
        }
    }
    None
}

// The node at a distance to which the switch at a place leads from a node, if it does.
fn leads_on(
    graph: &Graph,
    distance: &[Option<usize>],
    place: usize,
    node: usize,
    left: usize,
) -> Option<usize>
    requires place { place < length graph.now.places }
    requires distance { length distance.now ≡ nodes graph.now }
    ensures is { IfSome result (IsStep graph.now distance.now node left place) }
    ensures all { (next : ℕ) → IsStep graph.now distance.now node left place next → result ≡ Some next }
{
    let next = across(graph, place, node)?;
    let far = distance[next]?;
    if far == left { Some(next) } else { None }
}
