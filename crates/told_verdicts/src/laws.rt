//! A law of runs that are compared.

ghost use Rattle.told_verdicts.specs.Laws.{VerdictsAreCompared};

/// A law: what the comparison of a run's lines comes to is the verdict on its trace.
pub fn verdicts_are_compared()
    ensures { VerdictsAreCompared }
{}
