//! The nodes of an assignment, each with its letter.
ghost use Rattle.std.specs.Prelude.{◌≡◌, ◌⊎◌, [], ◌∷◌, Ok, Err, IfErr, IfOk, IfSome, length, replicate, Some, zip};
ghost use Rattle.node_values.specs.Givings as spec;

use crate::fault::GivenFault;
use crate::guesses::is_called;
use netlist::Circuit;
use node_words::{Named, Vectors};
use script_lang::Value;
use std::alloc::{AllocError, Global};
use ternary::{NoMemory, Tern};
use vector_values::{Letter, VectorValue};

/// Whether the value may stand at a vector alone, and the name is that of none.
pub fn is_misplaced(circuit: &Circuit, vectors: &Vectors, name: &[u8], value: &Value) -> bool
    ensures { result ≡ spec.is_misplaced circuit.now vectors.now (name.now, value.now) }
{
    match value {
        Value::Wide(_) => !is_vector(circuit, vectors, name),
        Value::Letter(_) | Value::Alone(_) => false,
    }
}

// Whether the name is that of a vector, and of no node in use.
fn is_vector(circuit: &Circuit, vectors: &Vectors, name: &[u8]) -> bool
    ensures { result ≡ spec.is_vector circuit.now vectors.now name.now }
{
    matches!(vectors.named(circuit, name), Named::Vector(_))
}

/// The nodes of an assignment, each with the letter that it is given, in order.
///
/// In this order: `UnknownNode` exactly if the name stands for no nodes that the value could go to, and
/// `VectorValue` exactly if the value doesn't fit them.
pub fn letters_given(
    alloc: Global,
    circuit: &Circuit,
    vectors: &Vectors,
    name: &[u8],
    value: &Value,
) -> Result<Vec<(usize, Letter)>, GivenFault>
    ensures ok { IfOk result (λ pairs. spec.letters_given circuit.now vectors.now (name.now, value.now) ≡ Ok pairs.items) }
    ensures refused { IfErr result (λ fault. (fault ≡ GivenFault.NoMemory)
        ⊎ (spec.letters_given circuit.now vectors.now (name.now, value.now) ≡ Err fault)) }
{
    match value {
        Value::Letter(state) => match vectors.named(circuit, name) {
            Named::Node(node) => with_state(alloc, &[node], *state),
            Named::Vector(nodes) => with_state(alloc, nodes, *state),
            Named::Nothing => Err(GivenFault::UnknownNode),
        },
        Value::Wide(value) => match vectors.named(circuit, name) {
            Named::Vector(nodes) => with_value(alloc, nodes, value),
            Named::Node(_) | Named::Nothing => Err(GivenFault::UnknownNode),
        },
        Value::Alone(state) => match circuit.find(name) {
            Some(node) => with_state(alloc, &[node], *state),
            None => Err(GivenFault::UnknownNode),
        },
    }
}

/// The node of an assignment that gives a state to one node, by its name, and the state. It takes no memory; None says nothing.
/// The name isn't looked up if the node that is guessed is called so.
pub fn one_given(
    circuit: &Circuit,
    vectors: &Vectors,
    name: &[u8],
    value: &Value,
    guess: usize,
) -> Option<(usize, Tern)>
    ensures { IfSome result (λ given. spec.letters_given circuit.now vectors.now (name.now, value.now) ≡ Ok ((given.0, Some given.1) ∷ [])) }
{
    match value {
        Value::Letter(state) => {
            if is_called(circuit, guess, name) {
                return Some((guess, *state));
            }
            match vectors.named(circuit, name) {
                Named::Node(node) => Some((node, *state)),
                Named::Vector(_) | Named::Nothing => None,
            }
        }
        Value::Wide(_) | Value::Alone(_) => None,
    }
}

// These nodes, each with this state.
fn with_state(
    alloc: Global,
    nodes: &[usize],
    state: Tern,
) -> Result<Vec<(usize, Letter)>, GivenFault>
    ensures ok { IfOk result (λ pairs. pairs.items ≡ zip nodes.now (replicate (length nodes.now) (Some state))) }
    ensures refused { IfErr result (λ fault. fault ≡ GivenFault.NoMemory) }
{
    let mut pairs = Vec::with_capacity(alloc, nodes.len()).map_err(NoMemory::from)?;
    for node in nodes {
        pairs.push_reserved((*node, Some(state)));
    }
    Ok(pairs)
}

// These nodes, each with its letter of the value.
fn with_value(
    alloc: Global,
    nodes: &[usize],
    value: &VectorValue,
) -> Result<Vec<(usize, Letter)>, GivenFault>
    ensures ok { IfOk result (λ pairs. spec.with_value nodes.now value.now ≡ Ok pairs.items) }
    ensures refused { IfErr result (λ fault. (fault ≡ GivenFault.NoMemory)
        ⊎ (spec.with_value nodes.now value.now ≡ Err fault)) }
{
    match value.letters(alloc, nodes.len())? {
        Some(letters) => Ok(paired(alloc, nodes, &letters)?),
        None => Err(GivenFault::VectorValue),
    }
}

// These nodes, each with the letter at its place.
fn paired(
    alloc: Global,
    nodes: &[usize],
    letters: &[Letter],
) -> Result<Vec<(usize, Letter)>, NoMemory>
    ensures { IfOk result (λ pairs. pairs.items ≡ zip nodes.now letters.now) }
{
    let mut pairs = Vec::new(alloc);
    for (&node, &letter) in nodes.iter().zip(letters) {
        pairs.push((node, letter)).map_err(AllocError::from)?;
    }
    Ok(pairs)
}
