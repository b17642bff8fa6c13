//! The stage of a script for columns: of each act it is known what it does to the states of each column.

ghost use Rattle.column_stage.specs.Acts.{Act};
ghost use Rattle.column_stage.specs.Moving.{MovesColumns};

use crate::stage::Stage;

/// A stage of any number of columns, which differ in the letters that they are given. What an act does to it tells what it
/// does to the states of each column.
pub trait ColumnStage: Stage {
    ghost moves: { (act : Act) (old new : Self) → Self.did act old new → MovesColumns Self.columns Self.states act old new };
}
