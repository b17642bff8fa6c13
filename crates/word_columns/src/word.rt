//! Instructions and outputs on words.
ghost use Rattle.std.specs.Prelude.{◌≡◌, ℕ, ◌<◌, ◌≤◌, length};
ghost use Rattle.ternary.specs.Tern.{may_one, may_zero};
ghost use Rattle.straight_code.specs.Code.{settled};
ghost use Rattle.straight_code.specs.Flat.{kind_value, step_value};
ghost use Rattle.word_columns.specs.Columns.{is_in_column, column_bits, AreUsed};
ghost use Rattle.word_columns.specs.Words.{is_not, is_or};

use straight_code::{FlatStep, StepKind};

/// The bits of the first columns, so many.
pub fn used_columns(columns: u32) -> u64
    requires some { 1 ≤ columns }
    requires few { columns ≤ 64 }
    ensures { AreUsed columns result }
{
    u64::MAX >> (64 - columns)
}

// The result of an instruction, in all columns.
pub(crate) fn step_words(step: FlatStep, values: &[u64]) -> u64
    requires a { step.a < length values.now }
    requires b { step.b < length values.now }
    ensures { (column : ℕ) → column < 64 → is_in_column column result ≡ step_value (column_bits column values.now) step }
{
    kind_word(step.kind, values[step.a as usize], values[step.b as usize])
}

/// What an instruction of this kind gives of two words. It has no branch on the kind's result.
pub fn kind_word(kind: StepKind, a: u64, b: u64) -> u64
    ensures { (column : ℕ) → column < 64 → is_in_column column result ≡ kind_value kind (is_in_column column a) (is_in_column column b) }
{
    let turned = not_mask(kind);
    let either = or_mask(kind);
    ((a & (b | turned | either)) | (b & either)) ^ turned
}

// All columns if the kind is a Not, else none.
fn not_mask(kind: StepKind) -> u64
    ensures { (column : ℕ) → column < 64 → is_in_column column result ≡ is_not kind }
{
    match kind {
        StepKind::Not => u64::MAX,
        StepKind::And | StepKind::Or => 0,
    }
}

// All columns if the kind is an Or, else none.
fn or_mask(kind: StepKind) -> u64
    ensures { (column : ℕ) → column < 64 → is_in_column column result ≡ is_or kind }
{
    match kind {
        StepKind::Or => u64::MAX,
        StepKind::Not | StepKind::And => 0,
    }
}

// The rail "may be 1" of an output whose rails these are: if neither is set, the output is X.
pub(crate) fn high_word(one: u64, zero: u64) -> u64
    ensures { (column : ℕ) → column < 64 → is_in_column column result ≡ may_one (settled (is_in_column column one) (is_in_column column zero)) }
{
    one | !zero
}

// The rail "may be 0" of such an output.
pub(crate) fn low_word(one: u64, zero: u64) -> u64
    ensures { (column : ℕ) → column < 64 → is_in_column column result ≡ may_zero (settled (is_in_column column one) (is_in_column column zero)) }
{
    zero | !one
}
