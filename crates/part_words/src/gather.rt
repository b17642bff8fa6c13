//! The states of the inputs of many parts, in words.
ghost use Rattle.std.specs.Prelude.{◌≡◌, ◌≢◌, ℕ, ◌+◌, ◌*◌, ◌<◌, ◌≤◌, ◌||◌, [], length, map, take, All, Some, slice_get, slice_index};
ghost use Rattle.switch_paths.specs.Switching.{state_at};
ghost use Rattle.straight_code.specs.Flat.{flat_values};
ghost use Rattle.word_columns.specs.Columns.{is_in_column, column_bits};
ghost use Rattle.part_words.specs.Members.{HasRails};
ghost use Rattle.part_words.specs.Noting.{map_at};

use ternary::Tern;

// Puts the constants and the rails of the inputs into the array. The map of the part in column i begins at place i
// of `starts` among the nodes, and its input j has the state of the map's node j.
pub(crate) fn gather(
    state: &[Tern],
    nodes: &[u32],
    starts: &[u32],
    inputs: usize,
    values: &mut [u64],
)
    requires columns { length starts.now ≤ 64 }
    requires inside { All (λ at. at + inputs ≤ length nodes.now) starts.now }
    requires below { All (λ at. All (λ node. node < length state.now) (map_at nodes.now inputs at)) starts.now }
    requires room { 2 + 2 * inputs ≤ length values.old }
    ensures count { length values.new ≡ length values.old }
    ensures gathered { (column at : ℕ) → slice_get starts.now column ≡ Some at
        → take (2 + 2 * inputs) (column_bits column values.new) ≡ flat_values (map (state_at state.now) (map_at nodes.now inputs at)) [] }
{
    values[0] = 0;
    values[1] = u64::MAX;
    for j in 0..inputs {
        let (hi, lo) = rails_of(state, nodes, starts, j);
        values[2 + 2 * j] = hi;
        values[3 + 2 * j] = lo;
    }
}

// Both rails of input j of each part.
fn rails_of(state: &[Tern], nodes: &[u32], starts: &[u32], j: usize) -> (u64, u64)
    requires columns { length starts.now ≤ 64 }
    requires inside { All (λ at. at + j < length nodes.now) starts.now }
    requires below { All (λ at. slice_index nodes.now (at + j) < length state.now) starts.now }
    ensures { HasRails starts.now result.0 result.1 (λ at. state_at state.now (slice_index nodes.now (at + j))) }
{
    let mut hi = 0;
    let mut lo = 0;
    for (column, at) in starts.iter().enumerate() {
        let tern = state[nodes[*at as usize + j] as usize];
        hi = with_bit(hi, column, tern.may_one());
        lo = with_bit(lo, column, tern.may_zero());
    }
    (hi, lo)
}

// A word with a column's bit set too, if it is to be. It has no branch.
pub(crate) fn with_bit(word: u64, column: usize, set: bool) -> u64
    requires { column < 64 }
    ensures same { is_in_column column result ≡ (is_in_column column word || set) }
    ensures other { (other : ℕ) → other ≢ column → is_in_column other result ≡ is_in_column other word }
{
    word | (set as u64) << column
}
