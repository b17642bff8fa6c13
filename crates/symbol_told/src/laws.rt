//! Laws of what lines that were told come to.

ghost use Rattle.std.specs.Prelude.{◌≡◌};
ghost use Rattle.symbol_meaning.specs.Told as spec;
ghost use Rattle.symbol_told.specs.declared.TheConstants.{MOST_TOLD};
ghost use Rattle.symbol_told.specs.Laws.{SymbolLinesArePrinted};

/// A law: a printer wrote the text of the lines that it heard, and remembers whether an expectation among them isn't met.
pub fn symbol_lines_are_printed()
    ensures { SymbolLinesArePrinted }
{}

/// A law: all variables are told if there are up to 64.
pub fn limits_are_as_stated()
    ensures { MOST_TOLD ≡ spec.most_told }
{}
