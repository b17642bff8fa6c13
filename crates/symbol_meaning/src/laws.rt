//! What holds of symbolic scripts. The functions are for proofs alone.
ghost use Rattle.symbol_meaning.specs.Laws.{SymbolicAnswersAreUnique, ValuationsRefuseAlike, ValuationsRunPlainScripts};

/// A law: in each column a symbolic script runs as the plain script that it is under the column's valuation, to the same
/// end, with the same texts analysed and the same refusal, if there is one.
pub fn valuations_run_plain_scripts()
    ensures { ValuationsRunPlainScripts }
{}

/// A law: no refusal looks at a letter. A line that is refused under one valuation is refused so under any other, by sessions
/// that differ in states alone.
pub fn valuations_refuse_alike()
    ensures { ValuationsRefuseAlike }
{}

/// A law: a symbolic script has one answer.
pub fn symbolic_scripts_have_one_answer()
    ensures { SymbolicAnswersAreUnique }
{}
