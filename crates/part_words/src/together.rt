//! A run of parts together.
ghost use Rattle.std.specs.Prelude.{◌≡◌, ◌+◌, ◌*◌, ◌<◌, ◌≤◌, length, All, vec_len, vec_capacity};
ghost use Rattle.part_words.specs.Noting.{map_at, NotesAll};

use crate::change::Change;
use crate::gather::gather;
use crate::note::note_all;
use std::sync::ledger::Ledger;
use straight_code::Code;
use ternary::{Steps, Tern};
use word_columns::run_steps;

/// Runs code for up to 64 parts of a machine in the time of one, and notes each member whose next state differs from
/// its state.
///
/// The map of a part begins at its place of `starts` among the nodes: input j of the code stands for the map's node
/// j, and output j is the next state of that node, which a joining step joins with its state. No state is written,
/// and no memory is taken: all that instructions read stands in `values`, and `changes` has room for each member.
pub fn run_together<L: Ledger>(
    joining: bool,
    code: &Code,
    nodes: &[u32],
    starts: &[u32],
    state: &[Tern],
    values: &mut [u64],
    changes: &mut Vec<Change>,
    steps: &mut Steps<L>,
)
    requires columns { length starts.now ≤ 64 }
    requires inside { All (λ at. at + code.now.inputs ≤ length nodes.now) starts.now }
    requires below { All (λ at. All (λ node. node < length state.now) (map_at nodes.now code.now.inputs at)) starts.now }
    requires front { length code.now.outputs ≤ code.now.inputs }
    requires values { 2 + 2 * code.now.inputs + length code.now.instructions ≤ length values.old }
    requires room { vec_len changes.old + length starts.now * length code.now.outputs ≤ vec_capacity changes.old }
    ensures notes { NotesAll joining code.now nodes.now starts.now state.now changes.old.items changes.new.items }
    ensures few { vec_len changes.new ≤ vec_len changes.old + length starts.now * length code.now.outputs }
    ensures capacity { vec_capacity changes.new ≡ vec_capacity changes.old }
    ensures count { length values.new ≡ length values.old }
    ensures steps { steps.new ≡ steps.old + length code.now.instructions }
{
    gather(state, nodes, starts, code.inputs(), values);
    run_steps(code, values, steps);
    note_all(joining, code, nodes, starts, values, 0, changes);
}
