//! The local nodes of a group, and the local graph between them.

ghost use Rattle.std.specs.Prelude.{◌≡◌, ℕ, ◌<◌, ◌≤◌, ◌++◌, ◌-◌, [], All, Contains, IfOk, OnOk, nat_eq, length, map, replicate, option_map};
ghost use Rattle.indexmap.specs.IndexSet.{insert_all};
ghost use Rattle.switch_paths.specs.Graphs.{nodes, level_of, place_at, Fits};
ghost use Rattle.group_text.specs.Texts.{local_nodes, local_of, local_switch, terminals_of};
ghost use Rattle.group_text.specs.Local.{AreAmong, StandsAmong};

use indexmap::IndexSet;
use std::alloc::{AllocError, Global};
use strength_order::INPUT_LEVEL;
use switch_paths::{Graph, Switch};
use ternary::NoMemory;

/// The nodes that the local nodes of a group stand for: its members, then the outside nodes in the
/// order of their first appearance.
pub(crate) fn collect_nodes(
    alloc: Global,
    graph: &Graph,
    members: &[usize],
    switches: &[usize],
) -> Result<IndexSet<usize>, AllocError>
    requires { All (λ place. place < length graph.now.places) switches.now }
    ensures { IfOk result (λ locals.
        locals.keys ≡ local_nodes graph.now (record { members = members.now; switches = switches.now })) }
{
    let mut locals = IndexSet::new(alloc);
    for &member in members {
        locals.insert(member)?;
    }
    for &place in switches {
        insert_terminals(&mut locals, graph.switch_at(place))?;
    }
    Ok(locals)
}

// Inserts the nodes at the terminals of what stands at a place.
fn insert_terminals(locals: &mut IndexSet<usize>, place: Option<Switch>) -> Result<(), AllocError>
    ensures { OnOk result (locals.new.keys ≡ insert_all nat_eq locals.old.keys (terminals_of place)) }
{
    if let Some(switch) = place {
        locals.insert(switch.gate)?;
        locals.insert(switch.a)?;
        locals.insert(switch.b)?;
    }
    Ok(())
}

/// The local graph of a group: its members, its outside nodes as input nodes, and its switches
/// between the local nodes.
pub(crate) fn local_graph(
    alloc: Global,
    graph: &Graph,
    members: &[usize],
    switches: &[usize],
    locals: &IndexSet<usize>,
) -> Result<Graph, NoMemory>
    requires members { All (λ member. member < nodes graph.now) members.now }
    requires within { length members.now ≤ length locals.now.keys }
    requires switches { All (StandsAmong graph.now locals.now.keys) switches.now }
    ensures { IfOk result (λ local. local ≡ record {
      levels = map (level_of graph.now) members.now ++ replicate (length locals.now.keys - length members.now) INPUT_LEVEL;
      places = map (λ place. option_map (local_switch locals.now.keys) (place_at graph.now.places place)) switches.now;
    }) }
{
    let mut local = Graph::new(alloc);
    for &member in members {
        local.add_node(graph.level(member))?;
    }
    for _outside in members.len()..locals.len() {
        local.add_node(INPUT_LEVEL)?;
    }
    add_switches(graph, switches, locals, &mut local)?;
    Ok(local)
}

// Adds the switches at these places to a local graph without places, between the local nodes.
fn add_switches(
    graph: &Graph,
    switches: &[usize],
    locals: &IndexSet<usize>,
    local: &mut Graph,
) -> Result<(), NoMemory>
    requires switches { All (StandsAmong graph.now locals.now.keys) switches.now }
    requires nodes { nodes local.old ≡ length locals.now.keys }
    requires empty { local.old.places ≡ [] }
    ensures { OnOk result (local.new ≡ record local.old {
      places = map (λ place. option_map (local_switch locals.now.keys) (place_at graph.now.places place)) switches.now;
    }) }
{
    for &place in switches {
        let Some(switch) = graph.switch_at(place) else {
            unreachable!();
        };
        local.add_switch(local_switch(locals, switch))?;
    }
    Ok(())
}

// The switch between the local nodes of its terminals.
fn local_switch(locals: &IndexSet<usize>, switch: Switch) -> Switch
    requires { AreAmong locals.now.keys switch }
    ensures value { result ≡ local_switch locals.now.keys switch }

    // What fits a graph fits one with the local nodes.
    ensures fits { (count : ℕ) → Fits count switch → Fits (length locals.now.keys) result }
{
    Switch {
        gate: local_of(locals, switch.gate),
        a: local_of(locals, switch.a),
        b: local_of(locals, switch.b),
        ..switch
    }
}

// The local node that stands for a node.
fn local_of(locals: &IndexSet<usize>, node: usize) -> usize
    requires { Contains locals.now.keys node }
    ensures value { result ≡ local_of locals.now.keys node }
    ensures within { result < length locals.now.keys }
{
    match locals.get_index_of(&node) {
        Some(local) => local,
        None => unreachable!(),
    }
}
