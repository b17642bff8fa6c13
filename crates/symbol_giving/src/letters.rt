//! The letters that an assignment gives nodes under all valuations at once.
ghost use Rattle.std.specs.Prelude.{◌≡◌, ℕ, ◌<◌, List, map, All, Ok, IfErr, IfOk};
ghost use Rattle.symbol_giving.specs.Words.{nodes, value_by, IsSpent, nodes_named};
ghost use Rattle.vector_values.specs.Values as wide;
ghost use Rattle.node_values.specs.Givings as giving;
ghost use Rattle.symbol_lines.specs.declared.values.SymbolValue.TheVariants as written;
ghost use Rattle.symbol_giving.specs.StandIns.{IsGiven};
ghost use Rattle.symbol_giving.specs.Letters.{AreGivenBy, IsLetterOf, IsTableOf, OnlyMakes, same_letter, same_pair};

use crate::items::item_letters;
use crate::standing::plain_copied;
use cosmos_session::Session;
use decision_graph::GraphFault;
use formula_functions::NamedFunctions;
use netlist::Circuit;
use node_values::{GivenFault, letters_given};
use node_words::{Named, Vectors};
use std::alloc::{AllocError, Global};
use symbol_lines::{Item, SymbolValue};
use symbol_script::Assignment;
use symbol_stage::{Letters, SymbolStage};
use ternary::{NoMemory, Tern};
use vector_values::{Letter, VectorValue};

/// A letter under all valuations: what a node is given, or expected to have.
#[derive(Clone, Copy)]
pub enum SymbolLetter {
    /// Any letter.
    Any,
    /// This letter, the same under all valuations.
    Same(Tern),
    /// Under each valuation the letter of a truth value: where that is 1, and where it is 0.
    Truth(Letters),
}

/// The nodes of an assignment's name, in order, each with the letter that the assignment gives it, or wants of it.
///
/// The names of formulas stand for the functions of a table, and a name that isn't in it is false. The stage's maker makes more
/// functions; nothing else changes. If vertices or memory run out, that is the only error.
pub fn letters_of(
    session: &mut Session<SymbolStage>,
    alloc: Global,
    table: &NamedFunctions,
    own: &Assignment,
) -> Result<Vec<(usize, SymbolLetter)>, GraphFault>
    requires table { IsTableOf session.old.stage table.now }
    requires given { IsGiven session.old.core.circuit session.old.core.vectors own.now }
    ensures only { OnlyMakes session.old session.new }
    ensures letters { IfOk result (λ pairs. AreGivenBy session.old table.now own.now session.new.stage pairs.items) }
    ensures own { IfOk result (λ pairs. All (λ pair. IsLetterOf session.new.stage pair.1) pairs.items) }
    ensures within { IfOk result (λ pairs. All (λ pair. pair.0 < nodes session.old.core.circuit.graph) pairs.items) }
    ensures spent { IfErr result (IsSpent session.new.stage.machine.maker) }
{
    // for the proof alone: a session's vectors are of nodes of its circuit
    let _circuit = session.circuit();
    let name = own.name.items();
    match &own.value {
        SymbolValue::Plain(value) => {
            match plain_letters(alloc, session.circuit(), session.vectors(), name, value) {
                Ok(pairs) => Ok(pairs),
                Err(NoMemory) => Err(GraphFault::NoMemory),
            }
        }
        SymbolValue::List(items) => list_letters(session, alloc, table, own, items.items()),
    }
}

// The nodes of an assignment's name, each with the letter of its item of the list that the value is.
fn list_letters(
    session: &mut Session<SymbolStage>,
    alloc: Global,
    table: &NamedFunctions,
    own: &Assignment,
    items: &[Item],
) -> Result<Vec<(usize, SymbolLetter)>, GraphFault>
    requires table { IsTableOf session.old.stage table.now }
    requires given { IsGiven session.old.core.circuit session.old.core.vectors own.now }
    requires list { own.now.value ≡ written.List items.now }
    ensures only { OnlyMakes session.old session.new }
    ensures letters { IfOk result (λ pairs. AreGivenBy session.old table.now own.now session.new.stage pairs.items) }
    ensures own { IfOk result (λ pairs. All (λ pair. IsLetterOf session.new.stage pair.1) pairs.items) }
    ensures spent { IfErr result (IsSpent session.new.stage.machine.maker) }
{
    let name = own.name.items();
    match nodes_of(alloc, session.circuit(), session.vectors(), name) {
        Ok(nodes) => item_letters(session, alloc, table, &nodes, items),
        Err(NoMemory) => Err(GraphFault::NoMemory),
    }
}

// The nodes of a name, each with the letter that a value gives it which is the same under all valuations.
fn plain_letters(
    alloc: Global,
    circuit: &Circuit,
    vectors: &Vectors,
    name: &[u8],
    value: &VectorValue,
) -> Result<Vec<(usize, SymbolLetter)>, NoMemory>
    requires { (pairs : List (ℕ × wide.Letter)) × (giving.letters_given circuit.now vectors.now (name.now, value_by value.now) ≡ Ok pairs) }
    ensures { IfOk result (λ letters. (pairs : List (ℕ × wide.Letter)) × (letters.items ≡ map same_pair pairs)
        × (giving.letters_given circuit.now vectors.now (name.now, value_by value.now) ≡ Ok pairs)) }
{
    let value = plain_copied(alloc, value)?;
    match letters_given(alloc, circuit, vectors, name, &value) {
        Ok(pairs) => same_letters(alloc, &pairs),
        Err(GivenFault::NoMemory) => Err(NoMemory),
        Err(GivenFault::UnknownNode | GivenFault::VectorValue) => unreachable!(),
    }
}

// These nodes, each with its letter, the same under all valuations.
fn same_letters(
    alloc: Global,
    pairs: &[(usize, Letter)],
) -> Result<Vec<(usize, SymbolLetter)>, NoMemory>
    ensures { IfOk result (λ letters. letters.items ≡ map same_pair pairs.now) }
{
    let mut letters = Vec::new(alloc);
    for (node, letter) in pairs {
        letters
            .push((*node, same_letter(*letter)))
            .map_err(AllocError::from)?;
    }
    Ok(letters)
}

/// A letter that is the same under all valuations.
pub(crate) fn same_letter(letter: Letter) -> SymbolLetter
    ensures { result ≡ same_letter letter }
{
    match letter {
        None => SymbolLetter::Any,
        Some(state) => SymbolLetter::Same(state),
    }
}

// The nodes of a name, in order; a name that isn't in use has none.
fn nodes_of(
    alloc: Global,
    circuit: &Circuit,
    vectors: &Vectors,
    name: &[u8],
) -> Result<Vec<usize>, NoMemory>
    ensures { IfOk result (λ list. list.items ≡ nodes_named circuit.now vectors.now name.now) }
{
    match vectors.named(circuit, name) {
        Named::Node(node) => Ok(Vec::from_slice(alloc, &[node])?),
        Named::Vector(nodes) => Ok(Vec::from_slice(alloc, nodes)?),
        Named::Nothing => Ok(Vec::new(alloc)),
    }
}
