//! What the columns of a line have in common.
ghost use Rattle.column_script.specs.Laws.{ColumnsAreRefusedAlike, ColumnsPassAlike};

/// A law: whether a line is refused, and why, doesn't depend on the column, nor does whether it asks for
/// nothing.
pub fn columns_are_refused_alike()
    ensures refused { ColumnsAreRefusedAlike }
    ensures passed { ColumnsPassAlike }
{}
