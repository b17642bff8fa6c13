//! Nodes that nothing can give a state, and nodes that nothing uses.

ghost use Rattle.std.specs.Prelude.{◌≡◌, ◌+◌, ◌^◌, ◌<◌, true, length, slice_index, slice_set, Some, None, IfOk, if◌then◌else◌};
ghost use Rattle.switch_paths.specs.Graphs.{nodes as count_of};
ghost use Rattle.circuit_lint.specs.Nodes as spec;

use crate::counted::Counted;
use crate::lists::push_some;
use std::alloc::{AllocError, Global};
use strength_order::INPUT_LEVEL;
use switch_paths::{Graph, RAILS};

// Of each node how many switches it is the gate of, and whether it is an end of one.
#[derive(Drop)]
struct Uses {
    gates: Vec<usize>,
    ends: Vec<bool>,
}

/// The floating nodes, each with the number of switches that it is the gate of, and the unused nodes.
pub(crate) fn floating_and_unused(
    alloc: Global,
    graph: &Graph,
) -> Result<(Vec<Counted>, Vec<usize>), AllocError>
    ensures floating { IfOk result (λ found. found.0.items ≡ spec.floating_of graph.now) }
    ensures unused { IfOk result (λ found. found.1.items ≡ spec.unused_of graph.now) }
{
    let uses = uses_of(alloc, graph)?;
    let mut floating = Vec::new(alloc);
    let mut unused = Vec::new(alloc);
    for node in 0..graph.nodes() {
        push_some(&mut floating, floating_at(graph, &uses, node))?;
        push_some(&mut unused, unused_at(graph, &uses, node))?;
    }
    Ok((floating, unused))
}

// The uses of the nodes of a graph.
fn uses_of(alloc: Global, graph: &Graph) -> Result<Uses, AllocError>
    ensures gates { IfOk result (λ uses. spec.AreGates graph.now uses.gates.items) }
    ensures ends { IfOk result (λ uses. spec.AreEnds graph.now uses.ends.items) }
{
    Ok(Uses {
        gates: gate_counts(alloc, graph)?,
        ends: end_marks(alloc, graph)?,
    })
}

// Of each node how many switches it is the gate of.
fn gate_counts(alloc: Global, graph: &Graph) -> Result<Vec<usize>, AllocError>
    ensures { IfOk result (λ gates. spec.AreGates graph.now gates.items) }
{
    let mut gates = vec![in alloc; 0usize; graph.nodes()]?;
    for place in 0..graph.places() {
        note_gate(graph, place, &mut gates);
    }
    Ok(gates)
}

// Counts the switch at a place at its gate.
fn note_gate(graph: &Graph, place: usize, gates: &mut Vec<usize>)
    requires place { place < length graph.now.places }
    requires fits { place + 1 < 2 ^ 64 }
    requires before { spec.AreGatesTo graph.now place gates.old.items }
    ensures { spec.AreGatesTo graph.now (place + 1) gates.new.items }
{
    if let Some(switch) = graph.switch_at(place) {
        raise(gates, switch.gate);
    }
}

// Counts one more at a node.
fn raise(counts: &mut Vec<usize>, node: usize)
    requires inside { node < length counts.old.items }
    requires fits { slice_index counts.old.items node + 1 < 2 ^ 64 }
    ensures { counts.new.items ≡ slice_set counts.old.items node (slice_index counts.old.items node + 1) }
{
    let count = counts[node];
    counts[node] = count + 1;
}

// Of each node whether it is an end of a switch.
fn end_marks(alloc: Global, graph: &Graph) -> Result<Vec<bool>, AllocError>
    ensures { IfOk result (λ ends. spec.AreEnds graph.now ends.items) }
{
    let mut ends = vec![in alloc; false; graph.nodes()]?;
    for place in 0..graph.places() {
        note_ends(graph, place, &mut ends);
    }
    Ok(ends)
}

// Marks the ends of the switch at a place.
fn note_ends(graph: &Graph, place: usize, ends: &mut Vec<bool>)
    requires place { place < length graph.now.places }
    requires before { spec.AreEndsTo graph.now place ends.old.items }
    ensures { spec.AreEndsTo graph.now (place + 1) ends.new.items }
{
    if let Some(switch) = graph.switch_at(place) {
        mark(ends, switch.a);
        mark(ends, switch.b);
    }
}

// Marks a node.
fn mark(marks: &mut Vec<bool>, node: usize)
    requires { node < length marks.old.items }
    ensures { marks.new.items ≡ slice_set marks.old.items node true }
{
    marks[node] = true;
}

// What there is to tell of a node, if it is floating.
fn floating_at(graph: &Graph, uses: &Uses, node: usize) -> Option<Counted>
    requires node { node < count_of graph.now }
    requires gates { spec.AreGates graph.now uses.now.gates.items }
    requires ends { spec.AreEnds graph.now uses.now.ends.items }
    ensures { result ≡ spec.floating_at graph.now node }
{
    let count = gates_at(graph, &uses.gates, node);
    if graph.level(node) < INPUT_LEVEL && (0 < count && !is_end(graph, &uses.ends, node)) {
        Some(Counted {
            number: node,
            count,
        })
    } else {
        None
    }
}

// A node, if it is unused.
fn unused_at(graph: &Graph, uses: &Uses, node: usize) -> Option<usize>
    requires node { node < count_of graph.now }
    requires gates { spec.AreGates graph.now uses.now.gates.items }
    requires ends { spec.AreEnds graph.now uses.now.ends.items }
    ensures { result ≡ (if spec.is_unused graph.now node then Some node else None) }
{
    if RAILS <= node
        && (gates_at(graph, &uses.gates, node) == 0 && !is_end(graph, &uses.ends, node))
    {
        Some(node)
    } else {
        None
    }
}

// Of how many switches a node is the gate.
fn gates_at(graph: &Graph, gates: &[usize], node: usize) -> usize
    requires node { node < count_of graph.now }
    requires gates { spec.AreGates graph.now gates.now }
    ensures { result ≡ spec.gates_at graph.now node }
{
    gates[node]
}

// Whether a node is an end of some switch.
fn is_end(graph: &Graph, ends: &[bool], node: usize) -> bool
    requires node { node < count_of graph.now }
    requires ends { spec.AreEnds graph.now ends.now }
    ensures { result ≡ spec.is_end graph.now node }
{
    ends[node]
}
