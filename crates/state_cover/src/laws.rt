//! The law of notes, over all runs.
ghost use Rattle.state_cover.specs.Laws.{NotesTellTheStates};

/// A law: of states that were noted one after the other the notes tell for each node exactly whether
/// it was 0 in one of them, and whether it was 1.
pub fn notes_tell_the_states()
    ensures { NotesTellTheStates }
{}
