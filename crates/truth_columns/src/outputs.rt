//! The outputs of code that ran over truths.
ghost use Rattle.std.specs.Prelude.{◌≡◌, ℕ, ◌+◌, ◌*◌, ◌<◌, ◌≤◌, List, [], length, map, take, All, IfErr, OnOk};
ghost use Rattle.ternary.specs.declared.tern.Tern.{Tern};
ghost use Rattle.truth_columns.specs.Words.{may_one, may_zero, state_at, results, code_value, flat_values};
ghost use Rattle.truth_columns.specs.Columns.{values_in, AreKept, HasColumn};

use crate::{Truths, output};
use straight_code::Code;

/// Puts both rails of each output of code that ran in the array, in all columns, to the front of two lists. If the maker
/// runs out, it tells why, and has all truths that it had.
pub fn write_outputs<T: Truths>(
    truths: &mut T,
    code: &Code,
    values: &[T::Truth],
    out_hi: &mut [T::Truth],
    out_lo: &mut [T::Truth],
) -> Result<(), T::Fault>
    requires room { 2 + 2 * code.now.inputs + length code.now.instructions ≤ length values.now }
    requires has { All (T.has truths.old) values.now }
    requires highs { length code.now.outputs ≤ length out_hi.old }
    requires lows { length code.now.outputs ≤ length out_lo.old }
    requires high_has { All (T.has truths.old) out_hi.old }
    requires low_has { All (T.has truths.old) out_lo.old }
    ensures kept { AreKept (T.columns truths.old) (T.has truths.old) (T.holds truths.old) (T.columns truths.new) (T.has truths.new) (T.holds truths.new) }
    ensures bound { T.bound truths.new ≡ T.bound truths.old }
    ensures spent { IfErr result (T.spent truths.new) }
    ensures high_has { All (T.has truths.new) out_hi.new }
    ensures low_has { All (T.has truths.new) out_lo.new }
    ensures written { OnOk result ((column : ℕ) (input : List Tern) → column < T.columns truths.old → length input ≡ code.now.inputs
        → take (2 + 2 * code.now.inputs + length code.now.instructions) (values_in (T.holds truths.old) column values.now)
        ≡ flat_values input (results input code.now.instructions)
        → HasColumn (T.holds truths.new) column (take (length code.now.outputs) out_hi.new) (take (length code.now.outputs) out_lo.new)
        (code_value code.now input)) }
{
    for k in 0..code.outputs() {
        let rails = output(truths, code, values, k)?;
        out_hi[k] = rails.0;
        out_lo[k] = rails.1;
    }
    Ok(())
}
