//! One step of all columns: all marked parts are evaluated on the old rails, and then the changes are taken over.
ghost use Rattle.std.specs.Prelude.{◌≡◌, ℕ, ◌<◌, Bool, true, List, length, All, Contains, IfErr, IfOk, OnErr};
ghost use Rattle.truth_columns.specs.Columns.{AreKept};
ghost use Rattle.machine_parts.specs.Marking.{MarksAll};
ghost use Rattle.truth_parts.specs.Evaluating.{rooms, AreTaken, IsWorkspace};
ghost use Rattle.truth_parts.specs.Stepping.{IsRunnable, StepsInAll};

use crate::evaluation::evaluate_all;
use crate::taking::take_over;
use crate::workspace::Workspace;
use machine_parts::MachinePart;
use part_lists::{Agenda, mark_all};
use truth_columns::Truths;

/// Takes a step of all columns, plain or joining, and answers whether it changes some column.
///
/// Its work is that of the marked parts, and of the parts that read a node that changes. If the maker runs out, it tells
/// why, which is so of the maker as it is then, and all rails and marks are as before.
pub fn advance<T: Truths>(
    joining: bool,
    truths: &mut T,
    parts: &[MachinePart],
    readers: &[Vec<usize>],
    hi: &mut [T::Truth],
    lo: &mut [T::Truth],
    agenda: &mut Agenda,
    workspace: &mut Workspace<T::Truth>,
) -> Result<bool, T::Fault>
    requires rails { length lo.old ≡ length hi.old }
    requires highs { All (T.has truths.old) hi.old }
    requires lows { All (T.has truths.old) lo.old }
    requires runnable { IsRunnable parts.now agenda.old (length hi.old) readers.now (rooms workspace.old) }
    requires workspace { IsWorkspace (T.has truths.old) workspace.old }
    ensures kept { AreKept (T.columns truths.old) (T.has truths.old) (T.holds truths.old) (T.columns truths.new) (T.has truths.new) (T.holds truths.new) }
    ensures bound { T.bound truths.new ≡ T.bound truths.old }
    ensures spent { IfErr result (T.spent truths.new) }
    ensures highs { All (T.has truths.new) hi.new }
    ensures lows { All (T.has truths.new) lo.new }
    ensures columns { IfOk result (StepsInAll joining parts.now (T.columns truths.new) (T.holds truths.new) agenda.old agenda.new hi.old lo.old hi.new lo.new) }
    ensures err_highs { OnErr result (hi.new ≡ hi.old) }
    ensures err_lows { OnErr result (lo.new ≡ lo.old) }
    ensures err_marks { OnErr result (agenda.new ≡ agenda.old) }
    ensures rooms { rooms workspace.new ≡ rooms workspace.old }
    ensures workspace { IsWorkspace (T.has truths.new) workspace.new }
{
    workspace.changes.clear();
    workspace.done.clear();
    match evaluate_all(joining, truths, parts, hi, lo, agenda, workspace) {
        Ok(()) => {
            mark_again(joining, &workspace.done, agenda);
            take_over(&workspace.changes, readers, hi, lo, agenda);
            Ok(!workspace.changes.is_empty())
        }
        Err(fault) => {
            put_back(&workspace.done, agenda);
            Err(fault)
        }
    }
}

/// After a joining step the parts that were evaluated stay marked: their members need not rest.
pub fn mark_again(joining: bool, done: &[usize], agenda: &mut Agenda)
    requires { (k : ℕ) → Contains done.now k → k < length agenda.old }
    ensures { MarksAll (λ k. (joining ≡ true) × Contains done.now k) agenda.old agenda.new }
{
    if joining {
        mark_all(done, agenda);
    }
}

// Marks the parts again that were taken, so that all marks are as they were before.
fn put_back(done: &[usize], agenda: &mut Agenda)
    requires { (k : ℕ) → Contains done.now k → k < length agenda.old }
    ensures { (before : List Bool) → AreTaken before agenda.old done.now → agenda.new ≡ before }
{
    mark_all(done, agenda);
}
