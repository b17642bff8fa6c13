//! The changes of a step are taken over.
ghost use Rattle.std.specs.Prelude.{◌≡◌, ℕ, ◌<◌, length, All, Contains};
ghost use Rattle.machine_parts.specs.Marking.{MarksAll};
ghost use Rattle.part_lists.specs.Listing.{listed_at};
ghost use Rattle.truth_parts.specs.declared.workspace.TruthChange.{TruthChange};
ghost use Rattle.truth_parts.specs.Stepping.{AreWritten, ReadsAny};

use crate::workspace::TruthChange;
use part_lists::{Agenda, mark_all};

/// Writes the changes into the rails, and marks the parts that read a node that changes.
pub fn take_over<A: Copy>(
    changes: &[TruthChange<A>],
    readers: &[Vec<usize>],
    hi: &mut [A],
    lo: &mut [A],
    agenda: &mut Agenda,
)
    requires rails { length lo.old ≡ length hi.old }
    requires inside { All (λ (change : TruthChange A). change.node < length hi.old) changes.now }
    requires readers { length readers.now ≡ length hi.old }
    requires parts { (node k : ℕ) → Contains (listed_at readers.now node) k → k < length agenda.old }
    ensures written { AreWritten changes.now hi.old lo.old hi.new lo.new }
    ensures marks { MarksAll (ReadsAny readers.now changes.now) agenda.old agenda.new }
{
    for change in changes {
        hi[change.node] = change.hi;
        lo[change.node] = change.lo;
        mark_all(&readers[change.node], agenda);
    }
}
