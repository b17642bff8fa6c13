//! Both rails of a node's states in words, bit i for column i.

ghost use Rattle.std.specs.Prelude.{◌≡◌, ℕ, ◌<◌, ◌≤◌, ◌⊎◌, length};
ghost use Rattle.word_columns.specs.Columns.{is_in_column};
ghost use Rattle.column_stage.specs.Columns.{letter_in};
ghost use Rattle.column_machine_stage.specs.Stages.{HasValue, HasValuesBelow};

use column_machines::with_bit;
use ternary::Tern;

/// The words of a node: the rails "may be 1" and "may be 0" of its states.
#[derive(Clone, Copy)]
pub(crate) struct Words {
    pub(crate) hi: u64,
    pub(crate) lo: u64,
}

/// The words of a node that is X in each column.
pub(crate) const UNKNOWN: Words = Words {
    hi: u64::MAX,
    lo: u64::MAX,
};

/// The words of a value: one letter for all columns, or one for each of them.
pub(crate) fn value_words(letters: &[Tern], columns: u32) -> Words
    requires few { columns ≤ 64 }
    requires fit { (length letters.now ≡ 1) ⊎ (length letters.now ≡ columns) }
    ensures { (column : ℕ) → column < columns → HasValue column (letter_in column letters.now) result }
{
    match letters {
        [letter] => shared_words(*letter),
        _ => column_words(letters),
    }
}

// The words of a node that has the same state in all columns.
fn shared_words(state: Tern) -> Words
    ensures { (column : ℕ) → column < 64 → HasValue column state result }
{
    Words {
        hi: mask(state.may_one()),
        lo: mask(state.may_zero()),
    }
}

// All columns, or none.
fn mask(set: bool) -> u64
    ensures { (column : ℕ) → column < 64 → is_in_column column result ≡ set }
{
    if set { u64::MAX } else { 0 }
}

// The words of a node that has these states in the columns, the first one in the first.
fn column_words(states: &[Tern]) -> Words
    requires { length states.now ≤ 64 }
    ensures { HasValuesBelow (length states.now) states.now result }
{
    let mut words = Words { hi: 0, lo: 0 };
    for (column, state) in states.iter().enumerate() {
        words = Words {
            hi: with_bit(words.hi, column, state.may_one()),
            lo: with_bit(words.lo, column, state.may_zero()),
        };
    }
    words
}
