//! Laws of what lines that were told come to.

ghost use Rattle.told_lines.specs.Laws.{LinesArePrinted, RowsAreNoted, SumsAreTotals};

/// A law: a printer wrote the text of the lines that it heard.
pub fn lines_are_printed()
    ensures { LinesArePrinted }
{}

/// A law: notes have the rows of the waveform lines that were heard.
pub fn rows_are_noted()
    ensures { RowsAreNoted }
{}

/// A law: counted one after the other, lines come to their summary.
pub fn sums_are_totals()
    ensures { SumsAreTotals }
{}
