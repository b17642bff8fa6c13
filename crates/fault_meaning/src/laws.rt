//! Laws of the answer to a list of faults.

ghost use Rattle.fault_meaning.specs.Laws.{EntriesAreNamed, JudgementsAreUnique, TextsAreAnalysedOnce};

/// A law: over the good run and the runs under all faults of a list each text of a group is analysed once, where no
/// line of the script is `keep`.
pub fn each_text_is_analysed_once()
    ensures { TextsAreAnalysedOnce }
{}

/// A law: each entry of each row of a trace has a name, so a line that tells of a difference names a node.
pub fn each_entry_is_named()
    ensures { EntriesAreNamed }
{}

/// A law: a list of faults has one answer, since under each fault the script runs in one way, and its trace has one
/// verdict.
pub fn faults_have_one_answer()
    ensures { JudgementsAreUnique }
{}
