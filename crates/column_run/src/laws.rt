//! Laws of the answer of a script in columns.

ghost use Rattle.column_run.specs.Laws.{ColumnAnswersAreUnique};

/// A law: a script in one column or more has one answer, since in each column it runs in one way.
pub fn columns_have_one_answer()
    ensures { ColumnAnswersAreUnique }
{}
