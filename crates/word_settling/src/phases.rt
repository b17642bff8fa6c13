//! Settling of all columns in one run.
ghost use Rattle.std.specs.Prelude.{◌≡◌, ℕ, ◌+◌, ◌<◌, ◌≤◌, false, length, slice_index_or};
ghost use Rattle.std.specs.Bool.{OnTrue};
ghost use Rattle.word_settling.specs.Words.{none_yet, IsStep, Joins, Settles, Stepping};
ghost use Rattle.settling.specs.declared.settling.TheConstants.{MOST_LIMIT};
ghost use Rattle.settling.specs.declared.settling.Settled.{Settled};

use crate::counting::{clear, count_all};
use crate::stepping::WordStepper;
use settling::{MOST_LIMIT, Settled};
use switch_paths::Graph;

/// Settles the state of each column: all take unit steps together while some column changes, at most `limit` of
/// them, and after that joining steps while some column changes.
///
/// `limit` is from 1 to [`MOST_LIMIT`]; there are at most 64 columns, and a place of `out` for each. Each column
/// settles as it would alone, and its place tells how: how many steps changed it, and whether it joined. No step
/// changes a column that has settled. A call takes no memory and has no refusal.
///
/// In the manner of MOSSIM II: Bryant, "A Switch-Level Model and Simulator for MOS Digital Systems", 1984.
pub fn settle_each<M: WordStepper>(m: &mut M, graph: &Graph, limit: u64, out: &mut [Settled])
    requires low { 1 ≤ limit }
    requires high { limit ≤ MOST_LIMIT }
    requires columns { M.columns m.old ≤ 64 }
    requires places { length out.old ≡ M.columns m.old }
    ensures settles { M.fits m.old graph.now → (column : ℕ) (past : Settled) → column < M.columns m.old
        → Settles graph.now (M.state m.old column) limit (M.state m.new column) (slice_index_or out.new column past).steps (slice_index_or out.new column past).joined }
    ensures fits { M.fits m.old graph.now → M.fits m.new graph.now }
    ensures columns { M.columns m.new ≡ M.columns m.old }
    ensures nodes { (column : ℕ) → column < M.columns m.old → length (M.state m.new column) ≡ length (M.state m.old column) }
{
    clear(out);
    if !step_columns(m, graph, limit, out) {
        join_columns(m, graph, out);
    }
}

// Takes unit steps while some column changes, at most `limit` of them, and counts them in each column that they
// change; answers whether the last one changed none, so that all columns rest.
fn step_columns<M: WordStepper>(m: &mut M, graph: &Graph, limit: u64, out: &mut [Settled]) -> bool
    requires high { limit ≤ MOST_LIMIT }
    requires columns { M.columns m.old ≤ 64 }
    requires places { length out.old ≡ M.columns m.old }
    requires none { (column : ℕ) (past : Settled) → column < length out.old → slice_index_or out.old column past ≡ none_yet }
    ensures stepping { M.fits m.old graph.now → (column : ℕ) (past : Settled) → column < M.columns m.old
        → Stepping graph.now limit (M.state m.old column) (slice_index_or out.new column past).steps (M.state m.new column) }
    ensures rest { M.fits m.old graph.now → OnTrue result ((column : ℕ) → column < M.columns m.old → IsStep graph.now (M.state m.new column) (M.state m.new column)) }
    ensures within { (column : ℕ) (past : Settled) → column < M.columns m.old → (slice_index_or out.new column past).steps ≤ limit }
    ensures unjoined { (column : ℕ) (past : Settled) → column < M.columns m.old → (slice_index_or out.new column past).joined ≡ false }
    ensures fits { M.fits m.old graph.now → M.fits m.new graph.now }
    ensures columns { M.columns m.new ≡ M.columns m.old }
    ensures nodes { (column : ℕ) → column < M.columns m.old → length (M.state m.new column) ≡ length (M.state m.old column) }
{
    for _taken in 0..limit {
        let changed = m.step(graph);
        if changed == 0 {
            return true;
        }
        count_all(changed, false, out);
    }
    false
}

// Takes joining steps while some column changes, and counts them in each column that they change.
fn join_columns<M: WordStepper>(m: &mut M, graph: &Graph, out: &mut [Settled])
    requires columns { M.columns m.old ≤ 64 }
    requires places { length out.old ≡ M.columns m.old }
    requires within { (column : ℕ) (past : Settled) → column < length out.old → (slice_index_or out.old column past).steps ≤ MOST_LIMIT }
    requires unjoined { (column : ℕ) (past : Settled) → column < length out.old → (slice_index_or out.old column past).joined ≡ false }
    ensures joins { M.fits m.old graph.now → (column : ℕ) (past : Settled) → column < M.columns m.old
        → Joins graph.now (M.state m.old column) (slice_index_or out.old column past).steps (M.state m.new column)
        (slice_index_or out.new column past) }
    ensures fits { M.fits m.old graph.now → M.fits m.new graph.now }
    ensures columns { M.columns m.new ≡ M.columns m.old }
    ensures nodes { (column : ℕ) → column < M.columns m.old → length (M.state m.new column) ≡ length (M.state m.old column) }
{
    'joining: loop {
        let changed = m.join_step(graph);
        if changed == 0 {
            return;
        }
        count_all(changed, true, out);
    }
}
