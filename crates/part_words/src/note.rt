//! The members that change, by the words of their rails.
ghost use Rattle.std.specs.Prelude.{◌≡◌, ℕ, ◌+◌, ◌*◌, ◌<◌, ◌≤◌, List, length, All, vec_len, vec_capacity};
ghost use Rattle.ternary.specs.declared.tern.Tern.{Tern};
ghost use Rattle.straight_code.specs.Code.{settled};
ghost use Rattle.word_columns.specs.Columns.{is_in_column};
ghost use Rattle.part_words.specs.Members.{HasState, HasRails, HasRun, IsMoved, NotesEach};
ghost use Rattle.part_words.specs.Noting.{after, NotesAll};

use crate::change::Change;
use straight_code::Code;
use ternary::Tern;
use word_columns::output_words;

// Notes each member of the parts whose next state differs from its state, by the array in which their code ran, in the
// columns behind so many others. A joining step joins what the code gives with the state.
pub(crate) fn note_all(
    joining: bool,
    code: &Code,
    nodes: &[u32],
    starts: &[u32],
    values: &[u64],
    shift: usize,
    changes: &mut Vec<Change>,
)
    requires columns { shift + length starts.now ≤ 64 }
    requires shift { shift < 64 }
    requires inside { All (λ at. at + code.now.inputs ≤ length nodes.now) starts.now }
    requires front { length code.now.outputs ≤ code.now.inputs }
    requires values { 2 + 2 * code.now.inputs + length code.now.instructions ≤ length values.now }
    requires room { vec_len changes.old + length starts.now * length code.now.outputs ≤ vec_capacity changes.old }
    ensures notes { (state : List Tern) → HasRun code.now nodes.now starts.now shift state values.now
        → NotesAll joining code.now nodes.now starts.now state changes.old.items changes.new.items }
    ensures few { vec_len changes.new ≤ vec_len changes.old + length starts.now * length code.now.outputs }
    ensures capacity { vec_capacity changes.new ≡ vec_capacity changes.old }
{
    for k in 0..code.outputs() {
        let old = (values[2 + 2 * k] >> shift, values[3 + 2 * k] >> shift);
        let given = output_words(code, values, k);
        let new = after(joining, old, (given.0 >> shift, given.1 >> shift));
        note_member(nodes, starts, k, old, new, changes);
    }
}

// The rails of the next states of members whose code gives these: a joining step joins them with the old states.
fn after(joining: bool, old: (u64, u64), given: (u64, u64)) -> (u64, u64)
    ensures { (column : ℕ) (state value : Tern) → HasState column old.0 old.1 state → HasState column given.0 given.1 value
        → HasState column result.0 result.1 (after joining state value) }
{
    if joining {
        (old.0 | given.0, old.1 | given.1)
    } else {
        given
    }
}

// Notes the member at this place of the parts in which its next state differs from its state, by the words of both.
fn note_member(
    nodes: &[u32],
    starts: &[u32],
    k: usize,
    old: (u64, u64),
    new: (u64, u64),
    changes: &mut Vec<Change>,
)
    requires columns { length starts.now ≤ 64 }
    requires inside { All (λ at. at + k < length nodes.now) starts.now }
    requires room { vec_len changes.old + length starts.now ≤ vec_capacity changes.old }
    ensures notes { (before next : ℕ → Tern) → HasRails starts.now old.0 old.1 before → HasRails starts.now new.0 new.1 next
        → NotesEach starts.now (IsMoved nodes.now k before next) changes.old.items changes.new.items }
    ensures few { vec_len changes.new ≤ vec_len changes.old + length starts.now }
    ensures capacity { vec_capacity changes.new ≡ vec_capacity changes.old }
{
    // A column without a part has neither rail.
    let differs = ((old.0 ^ new.0) | (old.1 ^ new.1)) & (old.0 | old.1);
    if differs == 0 {
        return;
    }
    for (column, at) in starts.iter().enumerate() {
        if has_bit(differs, column) {
            let node = nodes[*at as usize + k] as usize;
            let value = tern_in(new, column);
            changes.push_reserved(Change { node, value });
        }
    }
}

// The state whose rails are a column's bits, X if neither is set.
fn tern_in(rails: (u64, u64), column: usize) -> Tern
    requires { column < 64 }
    ensures { result ≡ settled (is_in_column column rails.0) (is_in_column column rails.1) }
{
    Tern::from_rails(has_bit(rails.0, column), has_bit(rails.1, column)).unwrap_or(Tern::Unk)
}

// Whether a column's bit is set.
fn has_bit(word: u64, column: usize) -> bool
    requires { column < 64 }
    ensures { result ≡ is_in_column column word }
{
    (word >> column) & 1 == 1
}
