//! What holds of the truth values of parts. The function is for proofs alone.
ghost use Rattle.formula_functions.specs.Truths.{TruthsAreOfFormulas};

/// A law: the parts of a formula have its truth value.
pub fn truths_are_of_formulas()
    ensures { TruthsAreOfFormulas }
{}
