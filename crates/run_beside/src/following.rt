//! The good run's changes, taken over in both runs, and those of the run under a fault alone.
ghost use Rattle.std.specs.Prelude.{◌≡◌, ℕ, ◌<◌, ◌⊎◌, Contains, Some, None, length, slice_index_or, slice_set};
ghost use Rattle.std.specs.Bool.{OnTrue, OnFalse};
ghost use Rattle.part_words.specs.declared.change.Change.{Change};
ghost use Rattle.machine_parts.specs.Words.{AreAgreed, IsTaken};
ghost use Rattle.wide_groups.specs.Awake.{IsListedIn, TurnedIn};
ghost use Rattle.run_beside.specs.Words.{HasNear, IsWritten, FollowsAt, IsOut};

use crate::near::{NearSpan, is_out};
use part_words::Change;
use ternary::Tern;
use vicinity::{NodeSet, Wide};
use wide_groups::write;

/// Whether a node follows the good run: it is a member of a part that isn't apart.
pub fn does_follow(owners: &[Option<usize>], apart: &NodeSet, node: usize) -> bool
    requires inside { node < length owners.now }
    requires owners { (n k : ℕ) → slice_index_or owners.now n None ≡ Some k → k < length apart.now.inside }
    ensures yes { OnTrue result (FollowsAt owners.now apart.now.inside node) }
    ensures no { OnFalse result (¬ FollowsAt owners.now apart.now.inside node) }
{
    match owners[node] {
        Some(k) => !apart.contains(k),
        None => false,
    }
}

/// Takes over the changes of a step of the good run: the good state has them all, and the state under the fault
/// those of the nodes that follow. Those whose flag is unset do. Answers where those changes stand whose node's flag isn't
/// unset.
pub fn follow(
    changes: &[Change],
    owners: &[Option<usize>],
    apart: &NodeSet,
    near: &[bool],
    good: &mut [Tern],
    bad: &mut [Tern],
    wide: &mut Option<Wide>,
) -> NearSpan
    requires inside { (change : Change) → Contains changes.now change → change.node < length good.old }
    requires agreed { AreAgreed changes.now }
    requires counted { length bad.old ≡ length good.old }
    requires owned { length owners.now ≡ length good.old }
    requires owners { (n k : ℕ) → slice_index_or owners.now n None ≡ Some k → k < length apart.now.inside }
    requires far { (node : ℕ) → IsOut near.now node → node < length good.old → FollowsAt owners.now apart.now.inside node }
    requires wide { IsListedIn bad.old wide.old }
    ensures span { HasNear near.now changes.now result }
    ensures good { IsTaken changes.now good.old good.new }
    ensures bad { IsWritten (FollowsAt owners.now apart.now.inside) changes.now bad.old bad.new }
    ensures turned { TurnedIn wide.old wide.new bad.old bad.new }
{
    let mut first = changes.len();
    let mut end = first;
    for (k, change) in changes.iter().enumerate() {
        let change = *change;
        good[change.node] = change.value;
        if !follow_one(change, owners, apart, near, bad, wide) {
            first = first.min(k);
            end = k + 1;
        }
    }
    NearSpan { first, end }
}

// Writes a change if its node follows, and answers whether the node's flag is unset.
fn follow_one(
    change: Change,
    owners: &[Option<usize>],
    apart: &NodeSet,
    near: &[bool],
    bad: &mut [Tern],
    wide: &mut Option<Wide>,
) -> bool
    requires inside { change.node < length bad.old }
    requires owned { length owners.now ≡ length bad.old }
    requires owners { (n k : ℕ) → slice_index_or owners.now n None ≡ Some k → k < length apart.now.inside }
    requires far { IsOut near.now change.node → FollowsAt owners.now apart.now.inside change.node }
    requires wide { IsListedIn bad.old wide.old }
    ensures far { OnTrue result (IsOut near.now change.node) }
    ensures bad { (FollowsAt owners.now apart.now.inside change.node × (bad.new ≡ slice_set bad.old change.node change.value))
        ⊎ ((¬ FollowsAt owners.now apart.now.inside change.node) × (bad.new ≡ bad.old)) }
    ensures turned { TurnedIn wide.old wide.new bad.old bad.new }
{
    if is_out(near, change.node) {
        write(change.node, change.value, bad, wide);
        return true;
    }
    if does_follow(owners, apart, change.node) {
        write(change.node, change.value, bad, wide);
    }
    false
}

/// Writes all of these changes.
pub fn write_all(changes: &[Change], state: &mut [Tern], wide: &mut Option<Wide>)
    requires inside { (change : Change) → Contains changes.now change → change.node < length state.old }
    requires agreed { AreAgreed changes.now }
    requires wide { IsListedIn state.old wide.old }
    ensures taken { IsTaken changes.now state.old state.new }
    ensures turned { TurnedIn wide.old wide.new state.old state.new }
{
    for change in changes {
        write(change.node, change.value, state, wide);
    }
}
