//! Laws of dumps, over all runs.
ghost use Rattle.wave_dump.specs.Laws.{CodesAreUnique, CodesAreVisible, CommentsEnd, DumpsAreTold};

/// A law: a code stands for its entry's number, so no two entries have one code.
pub fn codes_are_unique()
    ensures { CodesAreUnique }
{}

/// A law: a code has some bytes, all of them visible, from `!` to `~`.
pub fn codes_are_visible()
    ensures { CodesAreVisible }
{}

/// A law: in a comment no word of the line begins with `$`, so none is read as the comment's end; and
/// a line in which none does stands there as it is.
pub fn comments_end()
    ensures { CommentsEnd }
{}

/// A law: what a writer tells scene by scene, a step or a phase state by state, and at the end, is
/// the dump of the run.
pub fn dumps_are_told()
    ensures { DumpsAreTold }
{}
