//! One step: all marked parts, and what is awake, are evaluated under the old state; then the changes are taken over.
ghost use Rattle.std.specs.Prelude.{◌≡◌, ◌≢◌, ℕ, ◌+◌, ◌<◌, ◌≤◌, ◌⊎◌, ◌++◌, true, length, Contains, vec_capacity};
ghost use Rattle.std.specs.Bool.{OnTrue, OnFalse};
ghost use Rattle.settling.specs.Settling.{StaysOrBecomesX};
ghost use Rattle.settling.specs.Moved.{ListsChanges};
ghost use Rattle.part_words.specs.declared.change.Change.{Change};
ghost use Rattle.machine_parts.specs.Words.{marked_sum, instructions_of, MarksAll, Remarks, IsRunnable, AreAgreed, IsTaken, ReadsAny, readers_of};
ghost use Rattle.wide_groups.specs.Moving.{MovesIn, RetouchesIn};
ghost use Rattle.wide_groups.specs.Awake.{HoldsWide, IsListedIn, TurnedIn, IsWorked};
ghost use Rattle.part_steps.specs.Workspaces.{rooms, nodes_noted};
ghost use Rattle.part_steps.specs.Dense.{AreDense};

use machine_parts::MachinePart;
use part_steps::{Agenda, DenseParts, ReaderLists, Workspace, evaluate_all, mark_all};
use part_words::Change;
use std::sync::ledger::Ledger;
use ternary::{Steps, Tern};
use vicinity::Wide;
use wide_groups::{calm, evaluate_awake, touched_is_listed, write};

/// Takes a step, plain or joining, and answers whether it changes the state.
///
/// Its work is that of the marked parts, of the nodes that are awake in groups that are stepped by vicinities, if such
/// are known, and of the parts that read a node that changes. It takes no memory: there is room for a change of each
/// member of the marked parts, since each evaluation clears a mark, and in `noted` for one of each node. The nodes
/// that change are those that the workspace and `noted` list afterwards.
pub fn advance<L: Ledger>(
    joining: bool,
    parts: &[MachinePart],
    dense: &mut DenseParts,
    readers: &ReaderLists,
    state: &mut [Tern],
    agenda: &mut Agenda,
    workspace: &mut Workspace,
    wide: &mut Option<Wide>,
    noted: &mut Vec<Change>,
    steps: &mut Steps<L>,
) -> bool
    requires dense { AreDense parts.now dense.old }
    requires wide { HoldsWide parts.now state.old (vec_capacity noted.old) wide.old }
    requires runnable { IsRunnable parts.now agenda.old.marks agenda.old.waiting (length state.old) readers.now (rooms workspace.old) }
    ensures dense { AreDense parts.now dense.new }
    ensures moves { MovesIn joining parts.now agenda.old.marks wide.old state.old state.new }
    ensures retouches { RetouchesIn joining wide.old wide.new state.old state.new }
    ensures holds { HoldsWide parts.now state.new (vec_capacity noted.new) wide.new }
    ensures noted { vec_capacity noted.new ≡ vec_capacity noted.old }
    ensures marks { Remarks joining parts.now agenda.old.marks state.old state.new agenda.new.marks }
    ensures waiting { agenda.new.waiting ≡ agenda.old.waiting }
    ensures rooms { rooms workspace.new ≡ rooms workspace.old }
    ensures steps { IsWorked (marked_sum instructions_of parts.now agenda.old.marks) wide.old state.old steps.old steps.new }
    ensures changed { OnTrue result (state.new ≢ state.old) }
    ensures same { OnFalse result (state.new ≡ state.old) }
    ensures unknown { joining ≡ true → StaysOrBecomesX state.old state.new }
    ensures listed { ListsChanges (nodes_noted (workspace.new.changes.items ++ noted.new.items)) state.old state.new }
{
    workspace.changes.clear();
    workspace.done.clear();
    evaluate_all(joining, parts, dense, state, agenda, workspace, steps);
    evaluate_awake(joining, wide, state, noted, steps);
    mark_again(joining, &workspace.done, agenda);
    touched_is_listed(wide);
    calm(joining, wide);
    take_over(&workspace.changes, readers, state, agenda, wide);
    take_over(noted, readers, state, agenda, wide);
    touched_is_listed(wide);
    is_any(&workspace.changes, noted)
}

/// Whether some change is in one of these lists.
pub fn is_any(one: &[Change], two: &[Change]) -> bool
    ensures some { OnTrue result ((0 < length one.now) ⊎ (0 < length two.now)) }
    ensures none { OnFalse result ((length one.now ≡ 0) × (length two.now ≡ 0)) }
{
    !one.is_empty() || !two.is_empty()
}

/// After a joining step the parts that were evaluated stay marked: their members need not rest.
pub fn mark_again(joining: bool, done: &[usize], agenda: &mut Agenda)
    requires { (k : ℕ) → Contains done.now k → k < length agenda.old.marks }
    ensures marks { MarksAll (λ k. (joining ≡ true) × Contains done.now k) agenda.old.marks agenda.new.marks }
    ensures waiting { agenda.new.waiting ≡ agenda.old.waiting }
{
    if joining {
        mark_all(done, agenda);
    }
}

// Writes the changes into the state, and marks the parts that read a node that changes.
fn take_over(
    changes: &[Change],
    readers: &ReaderLists,
    state: &mut [Tern],
    agenda: &mut Agenda,
    wide: &mut Option<Wide>,
)
    requires inside { (change : Change) → Contains changes.now change → change.node < length state.old }
    requires agreed { AreAgreed changes.now }
    requires readers { length readers.now ≡ length state.old }
    requires parts { (node k : ℕ) → Contains (readers_of readers.now node) k → k < length agenda.old.marks }
    requires wide { IsListedIn state.old wide.old }
    ensures taken { IsTaken changes.now state.old state.new }
    ensures turned { TurnedIn wide.old wide.new state.old state.new }
    ensures marks { MarksAll (ReadsAny readers.now changes.now) agenda.old.marks agenda.new.marks }
    ensures waiting { agenda.new.waiting ≡ agenda.old.waiting }
{
    for change in changes {
        write(change.node, change.value, state, wide);
        mark_all(readers.of(change.node), agenda);
    }
}
