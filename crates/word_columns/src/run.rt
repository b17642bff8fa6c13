//! A run on words.
ghost use Rattle.std.specs.Prelude.{◌≡◌, ℕ, ◌+◌, ◌*◌, ◌<◌, ◌≤◌, List, [], length, map, take, All};
ghost use Rattle.ternary.specs.declared.tern.Tern.{Tern};
ghost use Rattle.ternary.specs.Tern.{may_one, may_zero};
ghost use Rattle.switch_paths.specs.Switching.{state_at};
ghost use Rattle.straight_code.specs.Code.{code_value, results};
ghost use Rattle.straight_code.specs.Flat.{flat_values};
ghost use Rattle.word_columns.specs.Columns.{is_in_column, column_bits, AreRailsIn};

use crate::word::{high_word, low_word, step_words};
use std::sync::ledger::Ledger;
use straight_code::Code;
use ternary::Steps;

/// Runs code in all columns, where input j has the states of node j of these: in each column it gives what
/// [`Code::run_mapped`] would on the column's states.
///
/// The words `hi` and `lo` are the rails of each node's states, bit i for column i. A column whose bits are no
/// states, since some node has neither rail, is left open. The run takes no memory: all that instructions read
/// stands in `values`, which has room for both constants, both rails of each input and each result.
pub fn run_words(
    code: &Code,
    hi: &[u64],
    lo: &[u64],
    nodes: &[usize],
    values: &mut [u64],
    out_hi: &mut [u64],
    out_lo: &mut [u64],
)
    requires counted { length lo.now ≡ length hi.now }
    requires nodes { length nodes.now ≡ code.now.inputs }
    requires below { All (λ node. node < length hi.now) nodes.now }
    requires values { 2 + 2 * code.now.inputs + length code.now.instructions ≤ length values.old }
    requires highs { length out_hi.old ≡ length code.now.outputs }
    requires lows { length out_lo.old ≡ length code.now.outputs }
    ensures { (column : ℕ) (state : List Tern) → column < 64 → AreRailsIn column hi.now lo.now state
        → AreRailsIn column out_hi.new out_lo.new (code_value code.now (map (state_at state) nodes.now)) }
{
    fill_words(hi, lo, nodes, values);
    run_filled(code, values, out_hi, out_lo);
}

// Puts the constants and the rails of the inputs into the array: input j has the words of node j of these.
fn fill_words(hi: &[u64], lo: &[u64], nodes: &[usize], values: &mut [u64])
    requires counted { length lo.now ≡ length hi.now }
    requires below { All (λ node. node < length hi.now) nodes.now }
    requires room { 2 + 2 * length nodes.now ≤ length values.old }
    ensures { (column : ℕ) (state : List Tern) → column < 64 → AreRailsIn column hi.now lo.now state
        → take (2 + 2 * length nodes.now) (column_bits column values.new) ≡ flat_values (map (state_at state) nodes.now) [] }
{
    values[0] = 0;
    values[1] = u64::MAX;
    for (j, node) in nodes.iter().enumerate() {
        values[2 + 2 * j] = hi[*node];
        values[3 + 2 * j] = lo[*node];
    }
}

// Runs code whose inputs stand in the array.
fn run_filled(code: &Code, values: &mut [u64], out_hi: &mut [u64], out_lo: &mut [u64])
    requires values { 2 + 2 * code.now.inputs + length code.now.instructions ≤ length values.old }
    requires highs { length out_hi.old ≡ length code.now.outputs }
    requires lows { length out_lo.old ≡ length code.now.outputs }
    ensures { (column : ℕ) (input : List Tern) → column < 64 → length input ≡ code.now.inputs
        → take (2 + 2 * code.now.inputs) (column_bits column values.old) ≡ flat_values input []
        → AreRailsIn column out_hi.new out_lo.new (code_value code.now input) }
{
    run_uncounted(code, values);
    for k in 0..code.outputs() {
        let (hi, lo) = output_words(code, values, k);
        out_hi[k] = hi;
        out_lo[k] = lo;
    }
}

// Runs the instructions of code whose inputs stand in the array, and counts no step.
fn run_uncounted(code: &Code, values: &mut [u64])
    requires values { 2 + 2 * code.now.inputs + length code.now.instructions ≤ length values.old }
    ensures count { length values.new ≡ length values.old }
    ensures ran { (column : ℕ) (input : List Tern) → column < 64 → length input ≡ code.now.inputs
        → take (2 + 2 * code.now.inputs) (column_bits column values.old) ≡ flat_values input []
        → take (2 + 2 * code.now.inputs + length code.now.instructions) (column_bits column values.new)
        ≡ flat_values input (results input code.now.instructions) }
{
    let first = 2 + 2 * code.inputs();
    for (k, step) in code.dense().steps.iter().enumerate() {
        values[first + k] = step_words(*step, &values[..first + k]);
    }
}

/// Runs the instructions of code in all columns, where the constants and the rails of the inputs stand in the array,
/// as [`Code::run_mapped`] would: behind them, which stay, stand the results then. It takes one step for each
/// instruction, and no memory.
pub fn run_steps<L: Ledger>(code: &Code, values: &mut [u64], steps: &mut Steps<L>)
    requires values { 2 + 2 * code.now.inputs + length code.now.instructions ≤ length values.old }
    ensures count { length values.new ≡ length values.old }
    ensures front { take (2 + 2 * code.now.inputs) values.new ≡ take (2 + 2 * code.now.inputs) values.old }
    ensures steps { steps.new ≡ steps.old + length code.now.instructions }
    ensures ran { (column : ℕ) (input : List Tern) → column < 64 → length input ≡ code.now.inputs
        → take (2 + 2 * code.now.inputs) (column_bits column values.old) ≡ flat_values input []
        → take (2 + 2 * code.now.inputs + length code.now.instructions) (column_bits column values.new)
        ≡ flat_values input (results input code.now.instructions) }
{
    let first = 2 + 2 * code.inputs();
    for (done, step) in code.dense().steps.iter().enumerate() {
        values[first + done] = step_words(*step, &values[..first + done]);
        steps.tick();
    }
}

/// Both rails of an output of code that ran in the array, "may be 1" first, in all columns. An output with neither
/// rail is X.
pub fn output_words(code: &Code, values: &[u64], k: usize) -> (u64, u64)
    requires inside { k < length code.now.outputs }
    requires values { 2 + 2 * code.now.inputs + length code.now.instructions ≤ length values.now }
    ensures hi { (column : ℕ) (input : List Tern) → column < 64 → length input ≡ code.now.inputs
        → take (2 + 2 * code.now.inputs + length code.now.instructions) (column_bits column values.now)
        ≡ flat_values input (results input code.now.instructions)
        → is_in_column column result.0 ≡ may_one (state_at (code_value code.now input) k) }
    ensures lo { (column : ℕ) (input : List Tern) → column < 64 → length input ≡ code.now.inputs
        → take (2 + 2 * code.now.inputs + length code.now.instructions) (column_bits column values.now)
        ≡ flat_values input (results input code.now.instructions)
        → is_in_column column result.1 ≡ may_zero (state_at (code_value code.now input) k) }
{
    let pair = code.dense().outputs[k];
    let (one, zero) = (values[pair.hi as usize], values[pair.lo as usize]);
    (high_word(one, zero), low_word(one, zero))
}
