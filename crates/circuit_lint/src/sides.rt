//! What is at the ends of a group's switches.

ghost use Rattle.std.specs.Prelude.{◌≡◌, ◌<◌, map, filter, Some, None, IfOk, All, if◌then◌else◌};
ghost use Rattle.switch_paths.specs.Graphs.{nodes, place_at};
ghost use Rattle.group_meaning.specs.Groups.{AreGroups, id_of};
ghost use Rattle.channel_groups.specs.Grouping.{IsId};
ghost use Rattle.circuit_lint.specs.Sides as spec;
ghost use Rattle.circuit_lint.specs.Nodes as of_nodes;

use crate::lists::push_some;
use channel_groups::{Group, GroupId, Groups};
use group_text::{MOST_MEMBERS, MOST_SWITCHES};
use std::alloc::{AllocError, Global};
use strength_order::INPUT_LEVEL;
use switch_paths::{GND, Graph, RAILS, Switch, VDD};

/// Of a group its least node, how many nodes and switches it has, and whether some switch of it has an end
/// at Gnd, at Vdd, and at another input node.
#[derive(Clone, Copy, PartialEq, Eq)]
pub struct Sides {
    pub node: usize,
    pub nodes: usize,
    pub switches: usize,
    pub gnd: bool,
    pub vdd: bool,
    pub other: bool,
}

/// What is wrong with a group.
#[derive(Clone, Copy, Debug, PartialEq, Eq)]
pub enum SideFault {
    /// It has two nodes and more, and no switch of it has an end at an input node.
    Undriven,
    /// Of all input nodes Gnd alone is at the ends of its switches.
    NeverOne,
    /// Of all input nodes Vdd alone is.
    NeverZero,
    /// It is too large for a text.
    Wide,
}

/// The sides of all groups.
pub(crate) fn all_sides(
    alloc: Global,
    graph: &Graph,
    groups: &Groups,
    ids: &[GroupId],
) -> Result<Vec<Sides>, AllocError>
    requires groups { AreGroups graph.now groups.now.groups }
    requires ids { map (λ id. id.node) ids.now ≡ map id_of groups.now.groups }
    requires all { All (λ id. IsId groups.now.groups id.node) ids.now }
    ensures { IfOk result (λ sides. sides.items ≡ map (spec.sides_of graph.now) groups.now.groups) }
{
    let mut sides = Vec::new(alloc);
    for &id in ids {
        sides.push(sides_of(graph, groups.group(id)))?;
    }
    Ok(sides)
}

// The sides of a group.
fn sides_of(graph: &Graph, group: &Group) -> Sides
    ensures { result ≡ spec.sides_of graph.now group.now }
{
    let switches = group.switches();
    Sides {
        node: group.id().node(),
        nodes: group.members().len(),
        switches: switches.len(),
        gnd: ends_at(graph, GND, switches),
        vdd: ends_at(graph, VDD, switches),
        other: ends_at_input(graph, switches),
    }
}

// Whether some switch at these places has an end at the node.
fn ends_at(graph: &Graph, node: usize, places: &[usize]) -> bool
    ensures { result ≡ spec.ends_at graph.now node places.now }
{
    for &place in places {
        if has_end(graph.switch_there(place), node) {
            return true;
        }
    }
    false
}

// Whether some switch at these places has an end at an input node other than a rail.
fn ends_at_input(graph: &Graph, places: &[usize]) -> bool
    ensures { result ≡ spec.ends_at_input graph.now places.now }
{
    for &place in places {
        if has_input_end(graph, place) {
            return true;
        }
    }
    false
}

// Whether there is a switch, with an end at the node.
fn has_end(switch: Option<Switch>, node: usize) -> bool
    ensures { result ≡ of_nodes.has_end node switch }
{
    match switch {
        Some(switch) => switch.a == node || switch.b == node,
        None => false,
    }
}

// Whether a switch stands at a place, with an end at an input node other than a rail.
fn has_input_end(graph: &Graph, place: usize) -> bool
    ensures { result ≡ spec.has_input_end graph.now (place_at graph.now.places place) }
{
    match graph.switch_there(place) {
        Some(switch) => is_other_input(graph, switch.a) || is_other_input(graph, switch.b),
        None => false,
    }
}

// Whether a node is an input node other than a rail.
fn is_other_input(graph: &Graph, node: usize) -> bool
    requires { node < nodes graph.now }
    ensures { result ≡ spec.is_other_input graph.now node }
{
    RAILS <= node && !(graph.level(node) < INPUT_LEVEL)
}

/// Those of these groups that show a fault.
pub(crate) fn showing(
    alloc: Global,
    fault: SideFault,
    sides: &[Sides],
) -> Result<Vec<Sides>, AllocError>
    ensures { IfOk result (λ found. found.items ≡ filter (spec.shows fault) sides.now) }
{
    let mut found = Vec::new(alloc);
    for &one in sides {
        push_some(&mut found, shown(fault, one))?;
    }
    Ok(found)
}

// A group, if it shows a fault.
fn shown(fault: SideFault, sides: Sides) -> Option<Sides>
    ensures { result ≡ (if spec.shows fault sides then Some sides else None) }
{
    if shows(fault, sides) {
        Some(sides)
    } else {
        None
    }
}

// Whether a group shows a fault.
fn shows(fault: SideFault, sides: Sides) -> bool
    ensures { result ≡ spec.shows fault sides }
{
    match fault {
        SideFault::Undriven => 1 < sides.nodes && !(sides.gnd || sides.vdd || sides.other),
        SideFault::NeverOne => sides.gnd && !(sides.vdd || sides.other),
        SideFault::NeverZero => sides.vdd && !(sides.gnd || sides.other),
        SideFault::Wide => MOST_MEMBERS < sides.nodes || MOST_SWITCHES < sides.switches,
    }
}
