//! What holds of formulas. The function is for proofs alone.
ghost use Rattle.formulas.specs.Laws.{FormulasAreOfTheGrammar, TextsWriteOneFormula};

/// A law: what is read of a text is the formula that it writes, and it writes one alone.
pub fn formulas_are_of_the_grammar()
    ensures grammar { FormulasAreOfTheGrammar }
    ensures one { TextsWriteOneFormula }
{}
