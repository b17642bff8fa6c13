//! The counts of the columns.
ghost use Rattle.std.specs.Prelude.{◌≡◌, ℕ, ◌+◌, ◌<◌, ◌≤◌, ◌^◌, All, length, slice_index_or};
ghost use Rattle.word_settling.specs.Words.{counted, is_in_column, none_yet};
ghost use Rattle.settling.specs.declared.settling.Settled.{Settled};

use settling::Settled;

// No column took a step yet.
pub(crate) fn clear(out: &mut [Settled])
    ensures { (column : ℕ) (past : Settled) → column < length out.old → slice_index_or out.new column past ≡ none_yet }
{
    for settled in out.iter_mut() {
        *settled = Settled {
            steps: 0,
            joined: false,
        };
    }
}

// Counts a step in each column that it changed.
pub(crate) fn count_all(changed: u64, joining: bool, out: &mut [Settled])
    requires columns { length out.old ≤ 64 }
    requires room { All (λ settled. settled.steps + 1 < 2 ^ 64) out.old }
    ensures { (column : ℕ) (past : Settled) → column < length out.old
        → slice_index_or out.new column past ≡ counted (is_in_column column changed) joining (slice_index_or out.old column past) }
{
    for column in 0..out.len() {
        out[column] = counted(has_bit(changed, column), joining, out[column]);
    }
}

// A column's count after a step that changed it, or didn't.
fn counted(changed: bool, joining: bool, settled: Settled) -> Settled
    requires { settled.steps + 1 < 2 ^ 64 }
    ensures { result ≡ counted changed joining settled }
{
    if changed {
        Settled {
            steps: settled.steps + 1,
            joined: joining || settled.joined,
        }
    } else {
        settled
    }
}

/// Whether a column's bit is set.
pub fn has_bit(word: u64, column: usize) -> bool
    requires { column < 64 }
    ensures { result ≡ is_in_column column word }
{
    (word >> column) & 1 == 1
}
