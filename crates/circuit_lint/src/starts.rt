//! Where lists of always closed switches that join the rails begin.

ghost use Rattle.std.specs.Prelude.{◌≡◌, ◌<◌, ℕ, length, map, option_map, Some, All, Contains, IfOk, IfSome, OnOk};
ghost use Rattle.std.specs.List.Sorted.{IsStrictlyIncreasing};
ghost use Rattle.switch_paths.specs.Graphs.{nodes};
ghost use Rattle.group_meaning.specs.Groups.{AreGroups, id_of};
ghost use Rattle.channel_groups.specs.Grouping.{IsId};
ghost use Rattle.circuit_lint.specs.Conducting.{IsClosedAcross};
ghost use Rattle.circuit_lint.specs.Starts.{IsStartAt, FindsStart, AddsStarts, AreStarts, soonest, sooner_of};

use crate::conducting::across;
use crate::lists::push_some;
use channel_groups::{GroupId, Groups, ascending};
use std::alloc::{AllocError, Global};
use switch_paths::{GND, Graph, VDD};

/// A switch at Vdd from which a way leads down: its place, and how many switches are behind it.
#[derive(Clone, Copy, PartialEq, Eq)]
pub struct Start {
    pub distance: usize,
    pub place: usize,
}

/// The places at which lists that join the rails begin, in ascending order: the first of each group, and
/// switches between the rails. At Vdd are these places, and no other always closed switches.
pub(crate) fn starts_of(
    alloc: Global,
    graph: &Graph,
    groups: &Groups,
    ids: &[GroupId],
    at_vdd: &[usize],
    distance: &[Option<usize>],
) -> Result<Vec<usize>, AllocError>
    requires groups { AreGroups graph.now groups.now.groups }
    requires ids { map (λ id. id.node) ids.now ≡ map id_of groups.now.groups }
    requires all { All (λ id. IsId groups.now.groups id.node) ids.now }
    requires inside { (place : ℕ) → Contains at_vdd.now place → place < length graph.now.places }
    requires whole { (place node : ℕ) → IsClosedAcross graph.now place VDD node → Contains at_vdd.now place }
    requires distance { length distance.now ≡ nodes graph.now }
    ensures starts { IfOk result (λ starts. AreStarts graph.now distance.now groups.now.groups starts.items) }
    ensures ascending { IfOk result (λ starts. IsStrictlyIncreasing starts.items) }
{
    let mut starts = direct_starts(alloc, graph, at_vdd)?;
    add_starts(graph, groups, ids, distance, &mut starts)?;
    Ok(ascending(starts))
}

// The places of the always closed switches between the rails.
fn direct_starts(alloc: Global, graph: &Graph, at_vdd: &[usize]) -> Result<Vec<usize>, AllocError>
    requires inside { (place : ℕ) → Contains at_vdd.now place → place < length graph.now.places }
    requires whole { (place node : ℕ) → IsClosedAcross graph.now place VDD node → Contains at_vdd.now place }
    ensures only { IfOk result (λ starts. (place : ℕ) → Contains starts.items place → IsClosedAcross graph.now place VDD GND) }
    ensures all { IfOk result (λ starts. (place : ℕ) → IsClosedAcross graph.now place VDD GND → Contains starts.items place) }
{
    let mut starts = Vec::new(alloc);
    for &place in at_vdd {
        push_some(&mut starts, direct_at(graph, place))?;
    }
    Ok(starts)
}

// The place, if an always closed switch between the rails stands there.
fn direct_at(graph: &Graph, place: usize) -> Option<usize>
    requires { place < length graph.now.places }
    ensures is { IfSome result (λ one. one ≡ place) }
    ensures joined { IfSome result (λ _. IsClosedAcross graph.now place VDD GND) }
    ensures all { IsClosedAcross graph.now place VDD GND → result ≡ Some place }
{
    let node = across(graph, place, VDD)?;
    if node == GND { Some(place) } else { None }
}

// Adds the first start of each group that has one.
fn add_starts(
    graph: &Graph,
    groups: &Groups,
    ids: &[GroupId],
    distance: &[Option<usize>],
    starts: &mut Vec<usize>,
) -> Result<(), AllocError>
    requires groups { AreGroups graph.now groups.now.groups }
    requires ids { map (λ id. id.node) ids.now ≡ map id_of groups.now.groups }
    requires all { All (λ id. IsId groups.now.groups id.node) ids.now }
    requires distance { length distance.now ≡ nodes graph.now }
    ensures { OnOk result (AddsStarts graph.now distance.now groups.now.groups starts.old.items starts.new.items) }
{
    for &id in ids {
        let start = first_start(graph, distance, groups.group(id).switches());
        push_some(starts, place_of(start))?;
    }
    Ok(())
}

// The place of a start, if there is one.
fn place_of(start: Option<Start>) -> Option<usize>
    ensures { result ≡ option_map (λ start. start.place) start }
{
    match start {
        Some(start) => Some(start.place),
        None => None,
    }
}

// The first start at these places.
fn first_start(graph: &Graph, distance: &[Option<usize>], places: &[usize]) -> Option<Start>
    requires { length distance.now ≡ nodes graph.now }
    ensures { FindsStart graph.now distance.now places.now result }
{
    let mut first = None;
    for &place in places {
        first = sooner(first, start_at(graph, distance, place));
    }
    first
}

// The start at a place, if there is one.
fn start_at(graph: &Graph, distance: &[Option<usize>], place: usize) -> Option<Start>
    requires { length distance.now ≡ nodes graph.now }
    ensures place { IfSome result (λ start. start.place ≡ place) }
    ensures is { IfSome result (λ start. IsStartAt graph.now distance.now place start.distance) }
    ensures all { (far : ℕ) → IsStartAt graph.now distance.now place far → result ≡ Some (record { distance = far; place = place }) }
{
    if place >= graph.places() {
        return None;
    }
    let node = across(graph, place, VDD)?;
    let distance = distance[node]?;
    Some(Start { distance, place })
}

// The sooner of two starts: the nearer one, or of equally near ones the one of the lower place.
fn sooner(one: Option<Start>, other: Option<Start>) -> Option<Start>
    ensures { result ≡ soonest one other }
{
    match (one, other) {
        (Some(first), Some(second)) => Some(sooner_of(first, second)),
        (Some(first), None) => Some(first),
        (None, second) => second,
    }
}

// The sooner of two starts.
fn sooner_of(first: Start, second: Start) -> Start
    ensures { result ≡ sooner_of first second }
{
    if first.distance < second.distance
        || first.distance == second.distance && first.place <= second.place
    {
        first
    } else {
        second
    }
}
