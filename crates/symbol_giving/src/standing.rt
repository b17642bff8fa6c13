//! Plain assignments that stand for those of a symbolic script, under all valuations.
ghost use Rattle.std.specs.Prelude.{◌≡◌, ℕ, List, length, map, IfOk, Some, None};
ghost use Rattle.script_lang.specs.Parts.{value_by};
ghost use Rattle.symbol_meaning.specs.Readings.{given_by_list};
ghost use Rattle.symbol_giving.specs.StandIns as spec;

use netlist::Circuit;
use node_words::{Named, Vectors};
use script_lang::{Name, Value, ValueList};
use std::alloc::{AllocError, Global};
use symbol_lines::{Item, SymbolValue};
use symbol_script::{Assignment, AssignmentList};
use ternary::{NoMemory, Tern};
use vector_values::{Letter, VectorValue};

/// The assignments of a plain script that stand for these, with 0 in the place of each formula.
///
/// They are refused, at any nodes, as these are under each valuation.
pub fn stand_ins(
    alloc: Global,
    circuit: &Circuit,
    vectors: &Vectors,
    list: &AssignmentList,
) -> Result<ValueList, NoMemory>
    ensures { IfOk result (λ values. values ≡ map (spec.stand_in circuit.now vectors.now) list.now) }
{
    stand_list(alloc, circuit, vectors, list.items())
}

// The same of assignments in order.
fn stand_list(
    alloc: Global,
    circuit: &Circuit,
    vectors: &Vectors,
    list: &[Assignment],
) -> Result<ValueList, NoMemory>
    ensures { IfOk result (λ values. values ≡ map (spec.stand_in circuit.now vectors.now) list.now) }
{
    let mut values = ValueList::new(alloc);
    for own in list {
        let value = stand_in(alloc, circuit, vectors, own)?;
        let name = Name::from_slice(alloc, own.name.items())?;
        values.push((name, value))?;
    }
    Ok(values)
}

// The value that stands for that of an assignment.
fn stand_in(
    alloc: Global,
    circuit: &Circuit,
    vectors: &Vectors,
    own: &Assignment,
) -> Result<Value, NoMemory>
    ensures { IfOk result (λ value. (own.now.name, value) ≡ spec.stand_in circuit.now vectors.now own.now) }
{
    match &own.value {
        SymbolValue::Plain(value) => plain_copied(alloc, value),
        SymbolValue::List(items) => {
            let letters = stand_letters(alloc, items.items())?;
            match vectors.named(circuit, own.name.items()) {
                Named::Vector(nodes) => fitted(alloc, nodes.len(), letters),
                Named::Node(_) | Named::Nothing => Ok(narrowed(letters)),
            }
        }
    }
}

/// What a value gives that is the same under all valuations.
pub(crate) fn plain_copied(alloc: Global, value: &VectorValue) -> Result<Value, NoMemory>
    ensures { IfOk result (λ copy. copy ≡ value_by value.now) }
{
    match value.state() {
        Some(state) => Ok(Value::Letter(state)),
        None => Ok(Value::Wide(value.copied(alloc)?)),
    }
}

// The letters of items, with 0 for each formula.
fn stand_letters(alloc: Global, items: &[Item]) -> Result<Vec<Letter>, NoMemory>
    ensures { IfOk result (λ letters. letters.items ≡ map spec.stand_letter items.now) }
{
    let mut letters = Vec::new(alloc);
    for item in items {
        letters.push(stand_letter(item)).map_err(AllocError::from)?;
    }
    Ok(letters)
}

// The letter of an item, with 0 for a formula.
fn stand_letter(item: &Item) -> Letter
    ensures { result ≡ spec.stand_letter item.now }
{
    match item {
        Item::Letter(letter) => *letter,
        Item::Formula(_) => Some(Tern::Zero),
    }
}

// What letters give to a vector of so many nodes: themselves if they are as many, and else none.
fn fitted(alloc: Global, count: usize, letters: Vec<Letter>) -> Result<Value, NoMemory>
    ensures { IfOk result (λ value. (nodes : List ℕ) → length nodes ≡ count → value ≡ given_by_list (Some nodes) letters.items) }
{
    if letters.len() == count {
        Ok(Value::Wide(VectorValue::of_letters(letters)))
    } else {
        Ok(Value::Wide(VectorValue::of_letters(Vec::new(alloc))))
    }
}

// What letters give to a name that is no vector's: one letter of a state alone, or all of them.
fn narrowed(letters: Vec<Letter>) -> Value
    ensures { result ≡ given_by_list None letters.items }
{
    let value = VectorValue::of_letters(letters);
    match value.state() {
        Some(state) => Value::Letter(state),
        None => Value::Wide(value),
    }
}
