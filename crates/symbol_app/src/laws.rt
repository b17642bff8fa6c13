//! Laws of the answer of the words, of a dump, of a run under all valuations and of a comparison.

ghost use Rattle.symbol_app.specs.Laws.{AnswersAreAlike, AnswersAreUnique, ComparisonsHaveOneAnswer, DumpsHaveOneAnswer, SymbolicRunsHaveOneAnswer};

/// A law: the words have one answer, by what the files hold, and so have a dump, a run under all valuations and a comparison.
///
/// `one`: it is the answer, whole, unless the words ask for a listing or for reasons: any faithful listing is right, and
/// any of the strongest reasons. `alike`: of these too the status is one, and the same texts of groups are analysed.
/// `dumps`: a dump is one answer, whole; `symbolic`, `equiv`: so are a run under all valuations and a comparison.
pub fn answers_are_unique()
    ensures one { AnswersAreUnique }
    ensures alike { AnswersAreAlike }
    ensures dumps { DumpsHaveOneAnswer }
    ensures symbolic { SymbolicRunsHaveOneAnswer }
    ensures equiv { ComparisonsHaveOneAnswer }
{}
