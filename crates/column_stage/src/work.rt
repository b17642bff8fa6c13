//! Work on a stage that leaves the states of its columns.

ghost use Rattle.std.specs.Prelude.{◌≡◌, ℕ, ◌<◌, List};
ghost use Rattle.switch_paths.specs.Graphs.{GraphData};
ghost use Rattle.group_text.specs.Texts.{GroupTextData};

use crate::columns::Columns;

/// Who works on a stage, and leaves the states of all its columns: more is made there of what nodes can be given, or what was
/// made is told anew.
///
/// Contracts see when the work can be done, and what was done by it.
pub trait Work<M: Columns> {
    ghost asks: { Self → M → Type 0 };

    ghost done: { Self → M → Self → M → Type 0 };

    /// Works on the stage.
    fn work(&mut self, stage: &mut M)
        requires { asks self.old stage.old }
        ensures columns { M.columns stage.new ≡ M.columns stage.old }
        ensures states { (column : ℕ) → column < M.columns stage.old → M.states stage.new column ≡ M.states stage.old column }
        ensures last { M.last stage.new ≡ M.last stage.old }
        ensures serves { (g : GraphData) (kept : List GroupTextData) → M.serves stage.old g kept → M.serves stage.new g kept }
        ensures done { done self.old stage.old self.new stage.new };
}
