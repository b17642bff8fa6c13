//! Laws of builds over what is kept.
//!
//! Each function here does nothing: its contract is the law, and its proof proves it. So a law can be
//! cited like any other contract.
ghost use Rattle.analysis_cache.specs.Laws.{DistinctTextsServe, DistinctTextsStay, PresentTextsAreKept, NoneIsNewAgain, TheSameIsKeptAgain};

/// The distinct ones of some present texts serve in their place, so a caller who has them need look up no
/// text twice; `stay`: they are their own first appearances.
pub fn distinct_texts_serve()
    ensures serve { DistinctTextsServe }
    ensures stay { DistinctTextsStay }
{}

/// After a build each present text is kept. A further build with the same present texts finds none of them
/// new, and leaves what is kept.
pub fn builds_settle()
    ensures kept { PresentTextsAreKept }
    ensures new { NoneIsNewAgain }
    ensures same { TheSameIsKeptAgain }
{}
