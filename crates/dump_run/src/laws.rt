//! Laws of what is dumped of a script.

ghost use Rattle.dump_run.specs.Laws.{DumpAnswersAreUnique, DumpsAreRuns, DumpsAreUnique, DumpsHaveRuns};

/// A law: a script is dumped in one way alone, from given data, so its dump is one answer, byte by byte.
pub fn scripts_have_one_dump()
    ensures dumps { DumpsAreUnique }
    ensures answers { DumpAnswersAreUnique }
{}

/// A law: what is dumped of a script is its run, with the same data at its end, the same refusal and the same texts
/// of groups, unless the dump ends at a word that is watched too late.
pub fn dumps_are_those_of_runs()
    ensures there { DumpsHaveRuns }
    ensures alone { DumpsAreRuns }
{}
