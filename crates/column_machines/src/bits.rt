//! The states of columns in the words of a node: bit i is column i's.
ghost use Rattle.std.specs.Prelude.{◌≡◌, ◌≢◌, ℕ, ◌<◌, true};
ghost use Rattle.std.specs.Bool.{OnTrue};
ghost use Rattle.word_columns.specs.Columns.{is_in_column};
ghost use Rattle.column_machines.specs.Columns.{state_in};

use ternary::Tern;
use word_settling::has_bit;

/// The state of a node in a column, by its rails.
pub fn state_in(hi: u64, lo: u64, column: usize) -> Tern
    requires { column < 64 }
    ensures { result ≡ state_in column (hi, lo) }
{
    match Tern::from_rails(has_bit(hi, column), has_bit(lo, column)) {
        Some(state) => state,
        None => Tern::Unk,
    }
}

/// A word with a column's bit set, or not.
pub fn with_bit(word: u64, column: usize, set: bool) -> u64
    requires { column < 64 }
    ensures here { is_in_column column result ≡ set }
    ensures other { (other : ℕ) → other < 64 → other ≢ column → is_in_column other result ≡ is_in_column other word }
{
    if set {
        word | (1 << column)
    } else {
        word & !(1 << column)
    }
}

// Whether a node has this state in all of the columns whose bits are used.
pub(crate) fn have_state(used: u64, hi: u64, lo: u64, state: Tern) -> bool
    ensures { OnTrue result ((column : ℕ) → column < 64 → is_in_column column used ≡ true → state_in column (hi, lo) ≡ state) }
{
    if !have_bit(used, hi, state.may_one()) {
        return false;
    }
    have_bit(used, lo, state.may_zero())
}

// Whether all of the columns whose bits are used have their bits set in a word, or none of them.
fn have_bit(used: u64, word: u64, set: bool) -> bool
    ensures { OnTrue result ((column : ℕ) → column < 64 → is_in_column column used ≡ true → is_in_column column word ≡ set) }
{
    if set {
        word & used == used
    } else {
        word & used == 0
    }
}
