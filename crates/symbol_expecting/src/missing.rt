//! The functions of the valuations under which nodes aren't as they are wanted.
ghost use Rattle.std.specs.Prelude.{◌≡◌, ℕ, ◌<◌, Some, not, length, IfErr, IfOk};
ghost use Rattle.ternary.specs.declared.tern.Tern.TheVariants.{Unk};
ghost use Rattle.symbol_expecting.specs.Words.{state_at, IsFunctionOf, IsSpent, function_holds, state_of_truth, is_met, columns_on};
ghost use Rattle.symbol_expecting.specs.Words.{states_in, IsLetterOf, letter_in};
ghost use Rattle.symbol_expecting.specs.Missing.{AreWantedOf, IsFirstMissed, MakesOn, are_met_in, pair_of};

use decision_graph::{Function, GraphFault};
use std::alloc::Global;
use symbol_giving::SymbolLetter;
use symbol_stage::SymbolStage;
use ternary::Tern;
use truth_columns::Truths;

/// The valuation of the first column in which these nodes aren't all as they are wanted; None exactly if they are in all columns.
pub(crate) fn first_missed(
    alloc: Global,
    stage: &mut SymbolStage,
    pairs: &[(usize, SymbolLetter)],
) -> Result<Option<Vec<bool>>, GraphFault>
    requires { AreWantedOf stage.old pairs.now }
    ensures makes { MakesOn stage.old stage.new }
    ensures spent { IfErr result (IsSpent stage.new.machine.maker) }
    ensures first { IfOk result (IsFirstMissed stage.new pairs.now) }
{
    let made = missed_among(stage, pairs)?;
    match stage.symbols().first(alloc, made) {
        Ok(found) => Ok(found),
        Err(_) => Err(GraphFault::NoMemory),
    }
}

/// Where some of these nodes isn't as it is wanted: the function of the valuations under which that is so.
pub fn missed_among(
    stage: &mut SymbolStage,
    pairs: &[(usize, SymbolLetter)],
) -> Result<Function, GraphFault>
    requires { AreWantedOf stage.old pairs.now }
    ensures makes { MakesOn stage.old stage.new }
    ensures spent { IfErr result (IsSpent stage.new.machine.maker) }
    ensures inside { IfOk result (IsFunctionOf stage.new.machine.maker) }
    ensures value { IfOk result (λ made. (column : ℕ) → column < columns_on stage.old → function_holds stage.new.machine.maker made column
        ≡ not (are_met_in stage.old pairs.now column)) }
{
    let mut made = constant(stage, false);
    for k in 0..pairs.len() {
        let (node, wanted) = pair_at(pairs, k);
        let own = missed_at(stage, node, wanted)?;
        let more = stage.either(made, own)?;
        made = more;
    }
    Ok(made)
}

/// The node at a place, with what is wanted of it.
pub(crate) fn pair_at(pairs: &[(usize, SymbolLetter)], k: usize) -> (usize, SymbolLetter)
    requires { k < length pairs.now }
    ensures { result ≡ pair_of pairs.now k }
{
    pairs[k]
}

// Where a node isn't as it is wanted.
fn missed_at(
    stage: &mut SymbolStage,
    node: usize,
    wanted: SymbolLetter,
) -> Result<Function, GraphFault>
    requires node { node < length stage.old.machine.hi }
    requires wanted { IsLetterOf stage.old wanted }
    ensures makes { MakesOn stage.old stage.new }
    ensures spent { IfErr result (IsSpent stage.new.machine.maker) }
    ensures inside { IfOk result (IsFunctionOf stage.new.machine.maker) }
    ensures value { IfOk result (λ made. (column : ℕ) → column < columns_on stage.old → function_holds stage.new.machine.maker made column
        ≡ not (is_met (letter_in stage.old column wanted) (state_at (states_in stage.old column) node))) }
{
    match wanted {
        SymbolLetter::Any => Ok(constant(stage, false)),
        SymbolLetter::Same(state) => not_state(stage, node, state),
        SymbolLetter::Truth(given) => not_truth(stage, node, given.hi),
    }
}

// Where a node hasn't this state.
fn not_state(stage: &mut SymbolStage, node: usize, state: Tern) -> Result<Function, GraphFault>
    requires { node < length stage.old.machine.hi }
    ensures makes { MakesOn stage.old stage.new }
    ensures spent { IfErr result (IsSpent stage.new.machine.maker) }
    ensures inside { IfOk result (IsFunctionOf stage.new.machine.maker) }
    ensures value { IfOk result (λ made. (column : ℕ) → column < columns_on stage.old → function_holds stage.new.machine.maker made column
        ≡ not (is_met (Some state) (state_at (states_in stage.old column) node))) }
{
    match state {
        Tern::Zero => {
            let never = constant(stage, false);
            not_truth(stage, node, never)
        }
        Tern::One => {
            let always = constant(stage, true);
            not_truth(stage, node, always)
        }
        Tern::Unk => not_unknown(stage, node),
    }
}

// Where a node hasn't the state of a function's truth value.
fn not_truth(
    stage: &mut SymbolStage,
    node: usize,
    function: Function,
) -> Result<Function, GraphFault>
    requires node { node < length stage.old.machine.hi }
    requires function { IsFunctionOf stage.old.machine.maker function }
    ensures makes { MakesOn stage.old stage.new }
    ensures spent { IfErr result (IsSpent stage.new.machine.maker) }
    ensures inside { IfOk result (IsFunctionOf stage.new.machine.maker) }
    ensures value { IfOk result (λ made. (column : ℕ) → column < columns_on stage.old → function_holds stage.new.machine.maker made column
        ≡ not (is_met (Some (state_of_truth (function_holds stage.old.machine.maker function column))) (state_at (states_in stage.old column) node))) }
{
    let (hi, lo) = stage.rails(node);
    stage.missed(hi, lo, function)
}

// Where a node isn't X: one of its rails isn't there.
fn not_unknown(stage: &mut SymbolStage, node: usize) -> Result<Function, GraphFault>
    requires { node < length stage.old.machine.hi }
    ensures makes { MakesOn stage.old stage.new }
    ensures spent { IfErr result (IsSpent stage.new.machine.maker) }
    ensures inside { IfOk result (IsFunctionOf stage.new.machine.maker) }
    ensures value { IfOk result (λ made. (column : ℕ) → column < columns_on stage.old → function_holds stage.new.machine.maker made column
        ≡ not (is_met (Some Unk) (state_at (states_in stage.old column) node))) }
{
    let (hi, lo) = stage.rails(node);
    let no_one = stage.negated(hi)?;
    let no_zero = stage.negated(lo)?;
    let made = stage.either(no_one, no_zero)?;
    Ok(made)
}

// The function that holds in all columns, or in none.
fn constant(stage: &SymbolStage, value: bool) -> Function
    ensures has { IsFunctionOf stage.now.machine.maker result }
    ensures value { (column : ℕ) → column < columns_on stage.now → function_holds stage.now.machine.maker result column ≡ value }
{
    stage.symbols().constant(value)
}
