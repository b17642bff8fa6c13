//! Laws of what a script tells.

ghost use Rattle.script_meaning.specs.FirstRefused.{ObeyedIsNotRefused, RunsEndAtTheFirst};
ghost use Rattle.script_meaning.specs.Laws.{RunsAreUnique, ScriptAnswersAreUnique, ScriptsShowOneList};

/// A law: a script tells what its lines tell one after the other, to its end or to its first refused
/// line, which has no refused line before it.
pub fn scripts_end_at_their_first_refused_line()
    ensures runs { RunsEndAtTheFirst }
    ensures first { ObeyedIsNotRefused }
{}

/// A law: a script runs in one way alone, from given data and under given readings of its lines, so it has one
/// answer.
pub fn scripts_have_one_answer()
    ensures runs { RunsAreUnique }
    ensures answers { ScriptAnswersAreUnique }
{}

/// A law: what an onlooker is shown of lines that are obeyed is determined.
pub fn scripts_show_one_list()
    ensures { ScriptsShowOneList }
{}
