use script_lang::{ClockList, Command};

/// A command of a test script for several columns. Each column is given a command of a plain script.
#[derive(Drop)]
pub enum ColumnCommand {
    /// It gives nodes values. Each has one state for all columns, or one for each of them.
    Values(ValueCommand, ClockList),
    /// It is the same in each column. It gives no states, and neither tells of what is there, nor is `report` or `keep`.
    Shared(Command),
}

/// A command that gives nodes values.
#[derive(Clone, Copy, PartialEq, Eq)]
pub enum ValueCommand {
    /// `set NAME=V..`: sets input nodes, from left to right.
    Set,
    /// `charge NAME=V..`: sets storage nodes, from left to right.
    Charge,
}
