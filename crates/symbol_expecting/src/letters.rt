//! What nodes have, and what is wanted of them, under one valuation.
ghost use Rattle.std.specs.Prelude.{◌≡◌, ◌<◌, length, map, IfOk};
ghost use Rattle.symbol_expecting.specs.Words.{state_at, wanted_letter, IsFunctionOf, states_in, IsLetterOf, letter_in};
ghost use Rattle.truth_parts.specs.Columns as columns;
ghost use Rattle.symbol_meaning.specs.Merging as spec;
ghost use Rattle.symbol_expecting.specs.Missing.{AreWantedOf, column_with};
ghost use Rattle.symbol_expecting.specs.Telling.{is_formula_item, state_under, states_under, wanted_under};

use crate::missing::pair_at;
use decision_graph::Function;
use std::alloc::{AllocError, Global};
use symbol_giving::SymbolLetter;
use symbol_lines::{Item, SymbolValue};
use symbol_stage::SymbolStage;
use ternary::Tern;
use truth_makers::Symbols;
use vector_values::Letter;

/// The states of nodes under a valuation.
pub(crate) fn states(
    alloc: Global,
    stage: &SymbolStage,
    pairs: &[(usize, SymbolLetter)],
    vars: &[bool],
) -> Result<Vec<Tern>, AllocError>
    requires { AreWantedOf stage.now pairs.now }
    ensures { IfOk result (λ states. states.items ≡ states_under stage.now pairs.now vars.now) }
{
    let mut states = Vec::new(alloc);
    for k in 0..pairs.len() {
        let (node, _wanted) = pair_at(pairs, k);
        let state = node_state(stage, node, vars);
        states.push(state)?;
    }
    Ok(states)
}

// The state of a node under a valuation.
fn node_state(stage: &SymbolStage, node: usize, vars: &[bool]) -> Tern
    requires { node < length stage.now.machine.hi }
    ensures { result ≡ state_at (states_in stage.now (column_with stage.now.machine.maker vars.now)) node }
{
    let (hi, lo) = stage.rails(node);
    state_of(stage.symbols(), hi, lo, vars)
}

/// The bytes of the letters that are wanted of nodes under a valuation, with `-` if any will do.
pub(crate) fn letters(
    alloc: Global,
    stage: &SymbolStage,
    pairs: &[(usize, SymbolLetter)],
    vars: &[bool],
) -> Result<Vec<u8>, AllocError>
    requires { AreWantedOf stage.now pairs.now }
    ensures { IfOk result (λ bytes. bytes.items ≡ map wanted_letter (wanted_under stage.now pairs.now vars.now)) }
{
    let mut bytes = Vec::new(alloc);
    for k in 0..pairs.len() {
        let (_node, wanted) = pair_at(pairs, k);
        let byte = letter_byte(letter(stage, wanted, vars));
        bytes.push(byte)?;
    }
    Ok(bytes)
}

// The byte of a letter, and `-` for any.
fn letter_byte(letter: Letter) -> u8
    ensures { result ≡ wanted_letter letter }
{
    match letter {
        None => b'-',
        Some(state) => state.letter(),
    }
}

// The letter that is wanted of a node under a valuation.
fn letter(stage: &SymbolStage, wanted: SymbolLetter, vars: &[bool]) -> Letter
    requires { IsLetterOf stage.now wanted }
    ensures { result ≡ letter_in stage.now (column_with stage.now.machine.maker vars.now) wanted }
{
    match wanted {
        SymbolLetter::Any => None,
        SymbolLetter::Same(state) => Some(state),
        SymbolLetter::Truth(given) => Some(state_of(stage.symbols(), given.hi, given.lo, vars)),
    }
}

// The state that two functions are under a valuation: where a node may be 1, and where it may be 0.
fn state_of(symbols: &Symbols, hi: Function, lo: Function, vars: &[bool]) -> Tern
    requires high { IsFunctionOf symbols.now hi }
    requires low { IsFunctionOf symbols.now lo }
    ensures { result ≡ state_under symbols.now hi lo vars.now }
{
    symbols.graph.size();
    let one = symbols.graph.value(hi, vars);
    let zero = symbols.graph.value(lo, vars);
    state_with(one, zero)
}

// The state with these rails, "may be 1" first; X if there is none.
fn state_with(one: bool, zero: bool) -> Tern
    ensures { result ≡ columns.state_with one zero }
{
    match (one, zero) {
        (false, true) => Tern::Zero,
        (true, false) => Tern::One,
        (true, true) | (false, false) => Tern::Unk,
    }
}

/// Whether a value is one formula.
pub(crate) fn is_formula(value: &SymbolValue) -> bool
    ensures { result ≡ spec.is_formula value.now }
{
    match value {
        SymbolValue::Plain(_) => false,
        SymbolValue::List(items) => is_formula_alone(items.items()),
    }
}

// Whether there is one item, and that is a formula.
fn is_formula_alone(items: &[Item]) -> bool
    ensures { result ≡ spec.is_formula_alone items.now }
{
    let count = items.len();
    if count == 1 {
        return is_formula_item(&items[0]);
    }
    false
}

// Whether the item is a formula.
fn is_formula_item(item: &Item) -> bool
    ensures { result ≡ is_formula_item item.now }
{
    match item {
        Item::Letter(_) => false,
        Item::Formula(_) => true,
    }
}
