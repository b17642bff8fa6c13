//! What assignments give nodes, and why they are refused.

ghost use Rattle.std.specs.Prelude.{◌≡◌, ◌<◌, [], ◌∷◌, ◌++◌, ℕ, None, Ok, All, Option, IfErr, IfOk, OnOk};
ghost use Rattle.cosmos_session.specs.Words.{nodes, IsCircuit, AreWithin, letters_in, states_by, IsFaultFor};
ghost use Rattle.node_values.specs.Givings as giving;
ghost use Rattle.session_meaning.specs.Refusals as spec;
ghost use Rattle.cosmos_session.specs.Targets.{target_at};

use crate::guesses::Guesses;
use netlist::{Circuit, RAILS};
use node_values::{GivenFault, is_misplaced, letters_given, one_given};
use node_words::Vectors;
use script_lang::{Name, Value};
use session_meaning::{ApplyFault, Refusal};
use std::alloc::{AllocError, Global};
use strength_order::INPUT_LEVEL;
use ternary::Tern;
use vector_values::Letter;

/// Which nodes may be given states.
#[derive(Clone, Copy)]
pub(crate) enum Target {
    /// Input nodes but the rails.
    Inputs,
    /// Storage nodes.
    Stores,
}

/// The refusal of values that may stand at vectors alone and stand at other names.
pub(crate) fn place_refusal(
    circuit: &Circuit,
    vectors: &Vectors,
    list: &[(Name, Value)],
) -> Option<Refusal>
    ensures { result ≡ spec.first_refusal (spec.place_refusal circuit.now vectors.now) list.now }
{
    for (name, value) in list {
        if is_misplaced(circuit, vectors, name.items(), value) {
            return Some(Refusal::BadValue);
        }
    }
    None
}

/// The states that these assignments give nodes, from left to right, where all values stand as they may.
pub(crate) fn all_states(
    alloc: Global,
    circuit: &Circuit,
    vectors: &Vectors,
    list: &[(Name, Value)],
    target: Target,
    guesses: &mut Guesses,
) -> Result<Vec<(usize, Tern)>, ApplyFault>
    requires netlist { IsCircuit circuit.now }
    requires within { AreWithin (nodes circuit.now.graph) vectors.now }
    ensures allowed { OnOk result (spec.givings_refusal (target_at target circuit.now) circuit.now vectors.now list.now ≡ None) }
    ensures states { IfOk result (λ states. states.items ≡ states_by circuit.now vectors.now list.now) }
    ensures refused { IfErr result (IsFaultFor (spec.givings_refusal (target_at target circuit.now) circuit.now vectors.now list.now)) }
{
    let mut states = Vec::with_capacity(alloc, list.len())?;
    for (name, value) in list {
        add_given(
            alloc,
            circuit,
            vectors,
            name.items(),
            value,
            target,
            guesses,
            &mut states,
        )?;
    }
    Ok(states)
}

// Puts the states that an assignment gives nodes behind others, unless it is refused.
fn add_given(
    alloc: Global,
    circuit: &Circuit,
    vectors: &Vectors,
    name: &[u8],
    value: &Value,
    target: Target,
    guesses: &mut Guesses,
    states: &mut Vec<(usize, Tern)>,
) -> Result<(), ApplyFault>
    requires netlist { IsCircuit circuit.now }
    requires within { AreWithin (nodes circuit.now.graph) vectors.now }
    ensures allowed { OnOk result (spec.given_refusal (target_at target circuit.now) (giving.letters_given circuit.now vectors.now (name.now, value.now)) ≡ None) }
    ensures states { OnOk result (states.new.items ≡ states.old.items
        ++ giving.states_given (letters_in (giving.letters_given circuit.now vectors.now (name.now, value.now)))) }
    ensures refused { IfErr result (IsFaultFor
        (spec.given_refusal (target_at target circuit.now) (giving.letters_given circuit.now vectors.now (name.now, value.now)))) }
{
    let guess = guesses.first();
    if let Some((node, state)) = one_given(circuit, vectors, name, value, guess) {
        guesses.note(node);
        return add_state(circuit, target, node, Some(state), states);
    }
    guesses.note(usize::MAX);
    let pairs = pairs_given(alloc, circuit, vectors, name, value)?;
    add_states(circuit, target, &pairs, states)
}

/// The letters that an assignment gives nodes. The refusals are those by the name and the value.
pub(crate) fn pairs_given(
    alloc: Global,
    circuit: &Circuit,
    vectors: &Vectors,
    name: &[u8],
    value: &Value,
) -> Result<Vec<(usize, Letter)>, ApplyFault>
    ensures ok { IfOk result (λ pairs. giving.letters_given circuit.now vectors.now (name.now, value.now) ≡ Ok pairs.items) }
    ensures refused { IfErr result (λ fault. (at : ℕ → Option Refusal) →
        IsFaultFor (spec.given_refusal at (giving.letters_given circuit.now vectors.now (name.now, value.now))) fault) }
{
    match letters_given(alloc, circuit, vectors, name, value) {
        Ok(pairs) => Ok(pairs),
        Err(GivenFault::UnknownNode) => Err(ApplyFault::Refused(Refusal::UnknownNode)),
        Err(GivenFault::VectorValue) => Err(ApplyFault::Refused(Refusal::VectorValue)),
        Err(GivenFault::NoMemory) => Err(ApplyFault::NoMemory),
    }
}

// Puts the states of these nodes behind others, unless one of the nodes is refused.
fn add_states(
    circuit: &Circuit,
    target: Target,
    pairs: &[(usize, Letter)],
    states: &mut Vec<(usize, Tern)>,
) -> Result<(), ApplyFault>
    requires within { All (λ pair. pair.0 < nodes circuit.now.graph) pairs.now }
    ensures allowed { OnOk result (spec.given_refusal (target_at target circuit.now) (Ok pairs.now) ≡ None) }
    ensures states { OnOk result (states.new.items ≡ states.old.items ++ giving.states_given pairs.now) }
    ensures refused { IfErr result (IsFaultFor (spec.given_refusal (target_at target circuit.now) (Ok pairs.now))) }
{
    for (node, letter) in pairs {
        add_state(circuit, target, *node, *letter, states)?;
    }
    Ok(())
}

// Puts the state of a node behind others, if its letter is one of a state, unless the node is refused.
fn add_state(
    circuit: &Circuit,
    target: Target,
    node: usize,
    letter: Letter,
    states: &mut Vec<(usize, Tern)>,
) -> Result<(), ApplyFault>
    requires { node < nodes circuit.now.graph }
    ensures allowed { OnOk result (spec.given_refusal (target_at target circuit.now) (Ok ((node, letter) ∷ [])) ≡ None) }
    ensures states { OnOk result (states.new.items ≡ states.old.items ++ giving.states_given ((node, letter) ∷ [])) }
    ensures refused { IfErr result (IsFaultFor (spec.given_refusal (target_at target circuit.now) (Ok ((node, letter) ∷ [])))) }
{
    let Some(state) = letter else {
        return Ok(());
    };
    if let Some(refusal) = target_refusal(circuit, target, node) {
        return Err(ApplyFault::Refused(refusal));
    }
    states.push((node, state)).map_err(AllocError::from)?;
    Ok(())
}

// Why a node isn't given a state.
fn target_refusal(circuit: &Circuit, target: Target, node: usize) -> Option<Refusal>
    requires { node < nodes circuit.now.graph }
    ensures { result ≡ target_at target circuit.now node }
{
    if node < RAILS {
        return Some(Refusal::Rail);
    }
    let input = circuit.graph().level(node) == INPUT_LEVEL;
    match target {
        Target::Inputs if !input => Some(Refusal::NotInput),
        Target::Stores if input => Some(Refusal::NotStore),
        Target::Inputs | Target::Stores => None,
    }
}
