//! A run of straight-line code over truths.
ghost use Rattle.std.specs.Prelude.{◌≡◌, ℕ, ◌+◌, ◌*◌, ◌<◌, ◌≤◌, List, [], length, map, take, All, IfErr, IfOk, OnOk};
ghost use Rattle.ternary.specs.declared.tern.Tern.{Tern};
ghost use Rattle.truth_columns.specs.Words.{may_one, may_zero, state_at, results, code_value, settled, flat_values, step_value};
ghost use Rattle.truth_columns.specs.Columns.{values_in, AreKept, HasColumn};

use crate::Truths;
use straight_code::{Code, FlatStep, StepKind};

/// Runs the instructions of code in all columns, if the constants and the rails of the inputs stand in the array: behind
/// them stand the results then. If the maker runs out, it tells why, and has all truths that it had.
pub fn run_steps<T: Truths>(
    truths: &mut T,
    code: &Code,
    values: &mut [T::Truth],
) -> Result<(), T::Fault>
    requires room { 2 + 2 * code.now.inputs + length code.now.instructions ≤ length values.old }
    requires has { All (T.has truths.old) values.old }
    ensures kept { AreKept (T.columns truths.old) (T.has truths.old) (T.holds truths.old) (T.columns truths.new) (T.has truths.new) (T.holds truths.new) }
    ensures bound { T.bound truths.new ≡ T.bound truths.old }
    ensures spent { IfErr result (T.spent truths.new) }
    ensures has { All (T.has truths.new) values.new }
    ensures ran { OnOk result ((column : ℕ) (input : List Tern) → column < T.columns truths.old → length input ≡ code.now.inputs
        → take (2 + 2 * code.now.inputs) (values_in (T.holds truths.old) column values.old) ≡ flat_values input []
        → take (2 + 2 * code.now.inputs + length code.now.instructions) (values_in (T.holds truths.new) column values.new)
        ≡ flat_values input (results input code.now.instructions)) }
{
    let first = 2 + 2 * code.inputs();
    for (k, step) in code.dense().steps.iter().enumerate() {
        let made = perform_step(truths, *step, &values[..first + k])?;
        values[first + k] = made;
    }
    Ok(())
}

/// Puts the constants and the rails of the inputs into the array: input j has the truths of node j of these.
pub fn fill<T: Truths>(
    truths: &T,
    hi: &[T::Truth],
    lo: &[T::Truth],
    nodes: &[usize],
    values: &mut [T::Truth],
)
    requires counted { length lo.now ≡ length hi.now }
    requires below { All (λ node. node < length hi.now) nodes.now }
    requires room { 2 + 2 * length nodes.now ≤ length values.old }
    requires highs { All (T.has truths.now) hi.now }
    requires lows { All (T.has truths.now) lo.now }
    requires has { All (T.has truths.now) values.old }
    ensures has { All (T.has truths.now) values.new }
    ensures filled { (column : ℕ) (state : List Tern) → column < T.columns truths.now → HasColumn (T.holds truths.now) column hi.now lo.now state
        → take (2 + 2 * length nodes.now) (values_in (T.holds truths.now) column values.new) ≡ flat_values (map (state_at state) nodes.now) [] }
{
    values[0] = truths.constant(false);
    values[1] = truths.constant(true);
    for (j, node) in nodes.iter().enumerate() {
        let (one, zero) = (hi[*node], lo[*node]);
        values[2 + 2 * j] = one;
        values[3 + 2 * j] = zero;
    }
}

/// Both rails of an output of code that ran in the array, "may be 1" first, in all columns. An output with neither rail
/// is X.
pub fn output<T: Truths>(
    truths: &mut T,
    code: &Code,
    values: &[T::Truth],
    k: usize,
) -> Result<(T::Truth, T::Truth), T::Fault>
    requires inside { k < length code.now.outputs }
    requires room { 2 + 2 * code.now.inputs + length code.now.instructions ≤ length values.now }
    requires has { All (T.has truths.old) values.now }
    ensures kept { AreKept (T.columns truths.old) (T.has truths.old) (T.holds truths.old) (T.columns truths.new) (T.has truths.new) (T.holds truths.new) }
    ensures bound { T.bound truths.new ≡ T.bound truths.old }
    ensures spent { IfErr result (T.spent truths.new) }
    ensures has { IfOk result (λ rails. T.has truths.new rails.0 × T.has truths.new rails.1) }
    ensures rails { IfOk result (λ rails. (column : ℕ) (input : List Tern) → column < T.columns truths.old → length input ≡ code.now.inputs
        → take (2 + 2 * code.now.inputs + length code.now.instructions) (values_in (T.holds truths.old) column values.now)
        ≡ flat_values input (results input code.now.instructions)
        → (T.holds truths.new rails.0 column ≡ may_one (state_at (code_value code.now input) k))
        × (T.holds truths.new rails.1 column ≡ may_zero (state_at (code_value code.now input) k))) }
{
    let pair = code.dense().outputs[k];
    let (one, zero) = (values[pair.hi as usize], values[pair.lo as usize]);
    let rails = settle(truths, one, zero)?;
    Ok(rails)
}

// Both rails of an output that may be 1 and may be 0 as these say: if neither says so, it is X.
fn settle<T: Truths>(
    truths: &mut T,
    one: T::Truth,
    zero: T::Truth,
) -> Result<(T::Truth, T::Truth), T::Fault>
    requires one { T.has truths.old one }
    requires zero { T.has truths.old zero }
    ensures kept { AreKept (T.columns truths.old) (T.has truths.old) (T.holds truths.old) (T.columns truths.new) (T.has truths.new) (T.holds truths.new) }
    ensures bound { T.bound truths.new ≡ T.bound truths.old }
    ensures spent { IfErr result (T.spent truths.new) }
    ensures has { IfOk result (λ rails. T.has truths.new rails.0 × T.has truths.new rails.1) }
    ensures rails { IfOk result (λ rails. (column : ℕ) → column < T.columns truths.old
        → (T.holds truths.new rails.0 column ≡ may_one (settled (T.holds truths.old one column) (T.holds truths.old zero column)))
        × (T.holds truths.new rails.1 column ≡ may_zero (settled (T.holds truths.old one column) (T.holds truths.old zero column)))) }
{
    let no_zero = truths.perform(StepKind::Not, zero, zero)?;
    let high = truths.perform(StepKind::Or, one, no_zero)?;
    let no_one = truths.perform(StepKind::Not, one, one)?;
    let low = truths.perform(StepKind::Or, zero, no_one)?;
    Ok((high, low))
}

// The result of an instruction, in all columns.
fn perform_step<T: Truths>(
    truths: &mut T,
    step: FlatStep,
    values: &[T::Truth],
) -> Result<T::Truth, T::Fault>
    requires a { step.a < length values.now }
    requires b { step.b < length values.now }
    requires has { All (T.has truths.old) values.now }
    ensures kept { AreKept (T.columns truths.old) (T.has truths.old) (T.holds truths.old) (T.columns truths.new) (T.has truths.new) (T.holds truths.new) }
    ensures bound { T.bound truths.new ≡ T.bound truths.old }
    ensures spent { IfErr result (T.spent truths.new) }
    ensures has { IfOk result (T.has truths.new) }
    ensures value { IfOk result (λ made. (column : ℕ) → column < T.columns truths.old
        → T.holds truths.new made column ≡ step_value (values_in (T.holds truths.old) column values.now) step) }
{
    let a = values[step.a as usize];
    let b = values[step.b as usize];
    truths.perform(step.kind, a, b)
}
