//! A step of the run under a fault, beside the good run's.
ghost use Rattle.std.specs.Prelude.{◌≡◌, ◌≢◌, ℕ, ◌<◌, length, Contains, vec_capacity};
ghost use Rattle.std.specs.Bool.{OnTrue, OnFalse};
ghost use Rattle.part_words.specs.declared.change.Change.{Change};
ghost use Rattle.machine_parts.specs.Words.{AreAgreed, AreOwners, IsMarked, IsRunnable, IsTaken, instructions_of, marked_sum};
ghost use Rattle.part_steps.specs.Dense.{AreDense};
ghost use Rattle.part_steps.specs.Workspaces.{rooms};
ghost use Rattle.wide_groups.specs.Awake.{HoldsWide, IsWorked};
ghost use Rattle.wide_groups.specs.Moving.{RetouchesIn};
ghost use Rattle.run_beside.specs.Words.{AreNearIn, FollowsAt, IsWritten, KeepsApart, MovesBeside, RemarksBeside};

use crate::following::{follow, write_all};
use crate::near::{Near, look_near, near_flags};
use crate::noticing::{notice, notice_near};
use machine_parts::MachinePart;
use part_advance::{is_any, mark_again};
use part_steps::{Agenda, DenseParts, ReaderLists, Workspace, evaluate_all};
use part_words::Change;
use std::sync::ledger::Ledger;
use ternary::{Steps, Tern};
use vicinity::{NodeSet, Wide};
use wide_groups::{calm, evaluate_awake, touched_is_listed};

/// Takes a step of the run under a fault beside the good run's, of which these are the changes, and answers whether a part that
/// is apart changed a node.
///
/// Only parts that are apart are marked, and so they alone are evaluated; all other nodes follow the good run. The work is
/// that of the marked parts, of the nodes that are awake, and of the parts that the changes of both runs concern; but of a
/// change of the good run at a node that is known to be far from all parts that are apart it is that of one write. It takes
/// no memory, as `advance`.
///
/// After Bryant and Schuster, "Performance Evaluation of FMOSSIM, a Concurrent Switch-Level Fault
/// Simulator", 1985.
pub fn advance_beside<L: Ledger>(
    joining: bool,
    changes: &[Change],
    parts: &[MachinePart],
    dense: &mut DenseParts,
    owners: &[Option<usize>],
    readers: &ReaderLists,
    good: &mut [Tern],
    bad: &mut [Tern],
    apart: &mut NodeSet,
    agenda: &mut Agenda,
    workspace: &mut Workspace,
    wide: &mut Option<Wide>,
    noted: &mut Vec<Change>,
    near: &mut Option<Near>,
    steps: &mut Steps<L>,
) -> bool
    requires dense { AreDense parts.now dense.old }
    requires wide { HoldsWide parts.now bad.old (vec_capacity noted.old) wide.old }
    requires runnable { IsRunnable parts.now agenda.old.marks agenda.old.waiting (length bad.old) readers.now (rooms workspace.old) }
    requires owners { AreOwners parts.now (length bad.old) owners.now }
    requires counted { length good.old ≡ length bad.old }
    requires inside { (change : Change) → Contains changes.now change → change.node < length good.old }
    requires agreed { AreAgreed changes.now }
    requires apart { length apart.old.inside ≡ length parts.now }
    requires marked { (k : ℕ) → IsMarked agenda.old.marks k → IsMarked apart.old.inside k }
    requires kept { KeepsApart owners.now readers.now apart.old.inside good.old bad.old }
    requires near { AreNearIn parts.now owners.now near.old }
    ensures dense { AreDense parts.now dense.new }
    ensures good { IsTaken changes.now good.old good.new }
    ensures moves { MovesBeside joining parts.now agenda.old.marks wide.old owners.now apart.old.inside changes.now bad.old bad.new }
    ensures retouches { RetouchesIn joining wide.old wide.new bad.old bad.new }
    ensures holds { HoldsWide parts.now bad.new (vec_capacity noted.new) wide.new }
    ensures noted { vec_capacity noted.new ≡ vec_capacity noted.old }
    ensures kept { KeepsApart owners.now readers.now apart.new.inside good.new bad.new }
    ensures marks { RemarksBeside joining parts.now agenda.old.marks bad.old bad.new apart.old.inside apart.new.inside agenda.new.marks }
    ensures waiting { agenda.new.waiting ≡ agenda.old.waiting }
    ensures near { AreNearIn parts.now owners.now near.new }
    ensures rooms { rooms workspace.new ≡ rooms workspace.old }
    ensures steps { IsWorked (marked_sum instructions_of parts.now agenda.old.marks) wide.old bad.old steps.old steps.new }
    ensures changed { OnTrue result (bad.new ≢ bad.old) }
    ensures same { OnFalse result (IsWritten (FollowsAt owners.now apart.old.inside) changes.now bad.old bad.new) }
{
    agenda.waiting_parts_are_marked();
    workspace.changes.clear();
    workspace.done.clear();
    evaluate_all(joining, parts, dense, bad, agenda, workspace, steps);
    evaluate_awake(joining, wide, bad, noted, steps);
    mark_again(joining, &workspace.done, agenda);
    touched_is_listed(wide);
    calm(joining, wide);
    look_near(changes, parts, apart, near);
    let flags = near_flags(near);
    let span = follow(changes, owners, apart, flags, good, bad, wide);
    write_all(&workspace.changes, bad, wide);
    write_all(noted, bad, wide);
    touched_is_listed(wide);
    notice_near(
        changes, span, owners, readers, flags, good, bad, apart, agenda,
    );
    notice(
        &workspace.changes,
        owners,
        readers,
        good,
        bad,
        apart,
        agenda,
    );
    notice(noted, owners, readers, good, bad, apart, agenda);
    is_any(&workspace.changes, noted)
}
