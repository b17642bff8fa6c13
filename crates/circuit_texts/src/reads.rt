//! The nodes that groups read.
ghost use Rattle.std.specs.Prelude.{◌≡◌, ◌<◌, ◌++◌, length, All, IfOk, OnOk};
ghost use Rattle.std.specs.List.{AllZip, flat_map};
ghost use Rattle.std.specs.List.Sorted.{IsPermutation};
ghost use Rattle.switch_paths.specs.Graphs.{nodes, place_at, FitsPlace};
ghost use Rattle.group_meaning.specs.Groups.{AreGroups};
ghost use Rattle.group_text.specs.Texts.{firsts};
ghost use Rattle.circuit_texts.specs.Reading.{AreReads, inputs_of, reads_at};

use crate::chosen::reads_at;
use channel_groups::Groups;
use std::alloc::{AllocError, Global};
use strength_order::INPUT_LEVEL;
use switch_paths::{Graph, Switch};
use ternary::NoMemory;

/// The nodes that each group of a graph reads, each once, in the groups' order: the gates of the
/// group's switches, and the input nodes at their ends. The nodes of a group ascend.
pub fn reads_of(alloc: Global, graph: &Graph, groups: &Groups) -> Result<Vec<Vec<usize>>, NoMemory>
    requires { AreGroups graph.now groups.now.groups }
    ensures { IfOk result (λ lists. AllZip (λ group list. AreReads graph.now group list.items) groups.now.groups lists.items) }
{
    let ids = groups.ids(alloc)?;
    Ok(reads_at(alloc, graph, groups, &ids)?)
}

// The nodes that the switches at these places read, each once, in ascending order.
pub(crate) fn sorted_reads(
    alloc: Global,
    graph: &Graph,
    switches: &[usize],
) -> Result<Vec<usize>, AllocError>
    requires { All (λ place. place < length graph.now.places) switches.now }
    ensures { IfOk result (λ list.
        IsPermutation (firsts (flat_map (λ place. reads_at graph.now (place_at graph.now.places place)) switches.now)) list.items) }
{
    let mut reads = reads_in(alloc, graph, switches)?;
    reads.sort_unstable();
    reads.dedup();
    reads.shrink_to_fit();
    Ok(reads)
}

// The nodes that each of the switches at these places reads, in turn.
fn reads_in(alloc: Global, graph: &Graph, switches: &[usize]) -> Result<Vec<usize>, AllocError>
    requires { All (λ place. place < length graph.now.places) switches.now }
    ensures { IfOk result (λ list.
        list.items ≡ flat_map (λ place. reads_at graph.now (place_at graph.now.places place)) switches.now) }
{
    let mut reads = Vec::with_capacity(alloc, 2 * switches.len())?;
    for &place in switches {
        push_reads(graph, graph.switch_at(place), &mut reads)?;
    }
    Ok(reads)
}

// Adds the nodes that what stands at a place reads.
fn push_reads(
    graph: &Graph,
    place: Option<Switch>,
    reads: &mut Vec<usize>,
) -> Result<(), AllocError>
    requires { FitsPlace (nodes graph.now) place }
    ensures { OnOk result (reads.new.items ≡ reads.old.items ++ reads_at graph.now place) }
{
    if let Some(switch) = place {
        reads.push(switch.gate)?;
        push_input(graph, switch.a, reads)?;
        push_input(graph, switch.b, reads)?;
    }
    Ok(())
}

// Adds a node if it is an input node.
fn push_input(graph: &Graph, node: usize, reads: &mut Vec<usize>) -> Result<(), AllocError>
    requires { node < nodes graph.now }
    ensures { OnOk result (reads.new.items ≡ reads.old.items ++ inputs_of graph.now node) }
{
    if graph.level(node) == INPUT_LEVEL {
        reads.push(node)?;
    }
    Ok(())
}
