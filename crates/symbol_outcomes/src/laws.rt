//! What holds of symbolic scripts. The functions are for proofs alone.
ghost use Rattle.symbol_outcomes.specs.Laws.{SymbolicLinesRun, SymbolicScriptsHaveAnswers};

/// A law: lines of a symbolic script run in all columns of a session, whatever they are, to their end or to one that is refused
/// in all of them.
pub fn symbolic_lines_run()
    ensures { SymbolicLinesRun }
{}

/// A law: a symbolic script has an answer from ready data.
pub fn symbolic_scripts_have_answers()
    ensures { SymbolicScriptsHaveAnswers }
{}
