//! Columns of words as wholes: one that begins with the states of some nodes, and one that is begun with them.
ghost use Rattle.std.specs.Prelude.{◌≡◌, ℕ, ◌+◌, ◌*◌, ◌<◌, ◌≤◌, true, false, [], length, map, take, All, IfSome};
ghost use Rattle.switch_paths.specs.Switching.{state_at};
ghost use Rattle.straight_code.specs.Flat.{flat_values};
ghost use Rattle.word_columns.specs.Columns.{is_in_column, column_bits};
ghost use Rattle.part_words.specs.Members.{HasState};
ghost use Rattle.part_words.specs.Noting.{map_at};

use crate::gather::with_bit;
use ternary::Tern;

// A column that begins with the constants and the rails of the states of these nodes, so many from this place on, if there is
// one.
pub(crate) fn column_with(
    state: &[Tern],
    nodes: &[u32],
    at: usize,
    inputs: usize,
    all: &[u64],
) -> Option<usize>
    requires inside { at + inputs ≤ length nodes.now }
    requires below { All (λ node. node < length state.now) (map_at nodes.now inputs at) }
    requires room { 2 + 2 * inputs ≤ length all.now }
    ensures inside { IfSome result (λ column. column < 64) }
    ensures begins { IfSome result (λ column. take (2 + 2 * inputs) (column_bits column all.now)
        ≡ flat_values (map (state_at state.now) (map_at nodes.now inputs at)) []) }
{
    let columns = columns_with(state, nodes, at, inputs, all);
    if columns == 0 {
        return None;
    }
    Some(columns.trailing_zeros() as usize)
}

// The columns that begin so.
fn columns_with(state: &[Tern], nodes: &[u32], at: usize, inputs: usize, all: &[u64]) -> u64
    requires inside { at + inputs ≤ length nodes.now }
    requires below { All (λ node. node < length state.now) (map_at nodes.now inputs at) }
    requires room { 2 + 2 * inputs ≤ length all.now }
    ensures { (column : ℕ) → column < 64 → is_in_column column result ≡ true
        → take (2 + 2 * inputs) (column_bits column all.now) ≡ flat_values (map (state_at state.now) (map_at nodes.now inputs at)) [] }
{
    let mut columns = agreeing(agreeing(u64::MAX, all[0], 0), all[1], u64::MAX);
    for j in 0..inputs {
        let tern = state[nodes[at + j] as usize];
        columns = with_state(columns, all[2 + 2 * j], all[3 + 2 * j], tern);
        if columns == 0 {
            return 0;
        }
    }
    columns
}

// Those of these columns in which both words are the rails of a state.
fn with_state(columns: u64, hi: u64, lo: u64, tern: Tern) -> u64
    ensures { (column : ℕ) → column < 64 → is_in_column column result ≡ true → (is_in_column column columns ≡ true) × HasState column hi lo tern }
{
    let ones = agreeing(columns, hi, spread(tern.may_one()));
    agreeing(ones, lo, spread(tern.may_zero()))
}

// Those of these columns in which two words agree.
fn agreeing(columns: u64, one: u64, other: u64) -> u64
    ensures { (column : ℕ) → column < 64 → is_in_column column result ≡ true
        → (is_in_column column columns ≡ true) × (is_in_column column one ≡ is_in_column column other) }
{
    columns & !(one ^ other)
}

// A bit in all columns.
fn spread(set: bool) -> u64
    ensures { (column : ℕ) → column < 64 → is_in_column column result ≡ set }
{
    if set { u64::MAX } else { 0 }
}

// Begins a column with the constants and the rails of the states of these nodes, so many from this place on.
pub(crate) fn begin_column(
    state: &[Tern],
    nodes: &[u32],
    at: usize,
    inputs: usize,
    column: usize,
    all: &mut [u64],
)
    requires column { column < 64 }
    requires inside { at + inputs ≤ length nodes.now }
    requires below { All (λ node. node < length state.now) (map_at nodes.now inputs at) }
    requires room { 2 + 2 * inputs ≤ length all.old }
    ensures count { length all.new ≡ length all.old }
    ensures begins { take (2 + 2 * inputs) (column_bits column all.new) ≡ flat_values (map (state_at state.now) (map_at nodes.now inputs at)) [] }
{
    all[0] = 0;
    all[1] = u64::MAX;
    for j in 0..inputs {
        let tern = state[nodes[at + j] as usize];
        let hi = put_bit(all[2 + 2 * j], column, tern.may_one());
        let lo = put_bit(all[3 + 2 * j], column, tern.may_zero());
        all[2 + 2 * j] = hi;
        all[3 + 2 * j] = lo;
    }
}

// A word whose bit of a column is this one.
fn put_bit(word: u64, column: usize, set: bool) -> u64
    requires { column < 64 }
    ensures { is_in_column column result ≡ set }
{
    with_bit(cleared(word, column), column, set)
}

// A word without a column's bit.
fn cleared(word: u64, column: usize) -> u64
    requires { column < 64 }
    ensures { is_in_column column result ≡ false }
{
    word & !(1 << column)
}
