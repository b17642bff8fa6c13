//! The nodes that names stand for.

ghost use Rattle.std.specs.Prelude.{◌≡◌, ◌<◌, ◌≤◌, ◌^◌, ◌++◌, length, IfOk, IfSome, OnOk, Ok, None};
ghost use Rattle.session_meaning.specs.Refusals.{all_named, nodes_named};

use netlist::Circuit;
use node_words::{Named, Vectors};
use script_lang::Name;
use std::alloc::{AllocError, Global};
use ternary::NoMemory;

/// All nodes of these names, in order; a name that isn't in use has none.
pub(crate) fn all_nodes(
    alloc: Global,
    circuit: &Circuit,
    vectors: &Vectors,
    names: &[Name],
) -> Result<Vec<usize>, NoMemory>
    ensures { IfOk result (λ list. list.items ≡ all_named circuit.now vectors.now names.now) }
{
    let mut list = Vec::new(alloc);
    for name in names {
        add_nodes(circuit, vectors, name.items(), &mut list)?;
    }
    Ok(list)
}

/// All nodes of these names, in order, or None exactly if there are more than so many.
pub(crate) fn few_nodes(
    alloc: Global,
    circuit: &Circuit,
    vectors: &Vectors,
    names: &[Name],
    most: usize,
) -> Result<Option<Vec<usize>>, NoMemory>
    ensures some { IfOk result (λ found. IfSome found (λ list. list.items ≡ all_named circuit.now vectors.now names.now)) }
    ensures few { IfOk result (λ found. IfSome found (λ list. length list.items ≤ most)) }
    ensures none { result ≡ Ok None → most < length (all_named circuit.now vectors.now names.now) }
{
    let mut list = Vec::new(alloc);
    for name in names {
        add_nodes(circuit, vectors, name.items(), &mut list)?;
        if list.len() > most {
            return Ok(None);
        }
    }
    Ok(Some(list))
}

// Puts the nodes of a name behind others.
fn add_nodes(
    circuit: &Circuit,
    vectors: &Vectors,
    name: &[u8],
    list: &mut Vec<usize>,
) -> Result<(), NoMemory>
    ensures { OnOk result (list.new.items ≡ list.old.items ++ nodes_named circuit.now vectors.now name.now) }
{
    match vectors.named(circuit, name) {
        Named::Node(node) => list.push(node).map_err(AllocError::from)?,
        Named::Vector(nodes) => list.extend_from_slice(nodes)?,
        Named::Nothing => {}
    }
    Ok(())
}

/// How many nodes a name has.
pub(crate) fn count_of(circuit: &Circuit, vectors: &Vectors, name: &[u8]) -> usize
    ensures value { result ≡ length (nodes_named circuit.now vectors.now name.now) }
    ensures few { result < 2 ^ 62 }
{
    match vectors.named(circuit, name) {
        Named::Node(_) => 1,
        Named::Vector(nodes) => nodes.len(),
        Named::Nothing => 0,
    }
}
