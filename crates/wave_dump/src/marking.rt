//! Which entries may have changed.
ghost use Rattle.std.specs.Prelude.{IsTrue, OnOk};
ghost use Rattle.std.specs.Bool.{OnTrue};
ghost use Rattle.wave_dump.specs.Entries.{MarksAll};

use crate::entries::{Numbers, mark};
use settling::Moved;
use std::alloc::AllocError;

// Marks the entries of the nodes that a move may have changed, if entries are listed by their nodes, and answers
// whether it did.
pub(crate) fn could_mark<M: Moved>(
    is_listed: bool,
    lists: &[Numbers],
    moved: &M,
    marked: &mut Vec<usize>,
) -> bool
    ensures listed { OnTrue result (IsTrue is_listed) }
    ensures marks { OnTrue result (MarksAll lists.now (M.changed moved.now) marked.new.items) }
{
    if !is_listed {
        return false;
    }
    mark_changed(lists, moved, marked).is_ok()
}

// Marks the entries of the nodes that a move may have changed, in ascending order, in the place of what was marked.
fn mark_changed<M: Moved>(
    lists: &[Numbers],
    moved: &M,
    marked: &mut Vec<usize>,
) -> Result<(), AllocError>
    ensures { OnOk result (MarksAll lists.now (M.changed moved.now) marked.new.items) }
{
    marked.clear();
    for at in 0..moved.change_count() {
        mark(lists, moved.changed_node(at), marked)?;
    }
    marked.sort_unstable();
    marked.dedup();
    Ok(())
}
