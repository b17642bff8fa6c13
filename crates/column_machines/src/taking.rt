//! The changes of a step are taken over.
ghost use Rattle.std.specs.Prelude.{◌≡◌, ℕ, ◌<◌, true, false, length, All, Contains, slice_index};
ghost use Rattle.machine_parts.specs.Marking.{MarksAll};
ghost use Rattle.word_columns.specs.Columns.{is_in_column};
ghost use Rattle.column_machines.specs.declared.evaluation.WordChange.{WordChange};
ghost use Rattle.column_machines.specs.Noting.{differs_in};
ghost use Rattle.column_machines.specs.Running.{AreWritten, ReadsAny};

use crate::evaluation::{WordChange, differing};
use part_lists::{Agenda, mark_all};
use unit_step::Machine;

// The used columns in which some of these changes changes its node.
pub(crate) fn changed_columns(used: u64, changes: &[WordChange], hi: &[u64], lo: &[u64]) -> u64
    requires words { length lo.now ≡ length hi.now }
    requires inside { All (λ change. change.node < length hi.now) changes.now }
    ensures set { (column : ℕ) → is_in_column column result ≡ true
        → (change : WordChange) × Contains changes.now change × (differs_in used (slice_index hi.now change.node) (slice_index lo.now change.node) column change ≡ true) }
    ensures unset { (column : ℕ) → is_in_column column result ≡ false → (change : WordChange) → Contains changes.now change
        → differs_in used (slice_index hi.now change.node) (slice_index lo.now change.node) column change ≡ false }
{
    let mut columns = 0;
    for change in changes {
        columns |= differing(used, *change, hi[change.node], lo[change.node]);
    }
    columns
}

// Writes the changes into the words, and marks the parts that read a node that changes.
pub(crate) fn take_over(
    changes: &[WordChange],
    machine: &Machine,
    hi: &mut [u64],
    lo: &mut [u64],
    agenda: &mut Agenda,
)
    requires words { length lo.old ≡ length hi.old }
    requires inside { All (λ change. change.node < length hi.old) changes.now }
    requires nodes { length hi.old ≡ length machine.now.state }
    requires counted { length agenda.old ≡ length machine.now.parts }
    ensures written { AreWritten changes.now hi.old lo.old hi.new lo.new }
    ensures marks { MarksAll (ReadsAny machine.now.parts changes.now) agenda.old agenda.new }
{
    for change in changes {
        hi[change.node] = change.hi;
        lo[change.node] = change.lo;
        mark_all(machine.readers(change.node), agenda);
    }
}
