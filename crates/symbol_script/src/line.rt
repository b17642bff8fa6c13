use script_lang::{Command, ItemList, Name};
use symbol_lines::{SymbolCommand, SymbolValue};

/// What a line of a symbolic script asks for.
#[derive(Drop)]
pub enum SymbolLine {
    /// A command that is given values, in which there may be formulas.
    Values(ValueVerb, AssignmentList),
    /// A command that says of names, and does nothing when it is obeyed.
    Names(SymbolCommand),
    /// A command of a plain script, the same under all valuations: it is given no values, and is neither `report` nor `keep`
    /// nor `wide`.
    Plain(Command),
}

/// A command that is given values.
#[derive(Clone, Copy, PartialEq, Eq)]
pub enum ValueVerb {
    /// `set NAME=V..`: sets input nodes, from left to right.
    Set,
    /// `charge NAME=V..`: sets storage nodes, from left to right.
    Charge,
    /// `expect NAME=V..`: tells of each name whose nodes aren't all as they are wanted.
    Expect,
}

/// A name with the value that its nodes are given, or expected to have.
#[derive(Drop)]
pub struct Assignment {
    /// The name.
    pub name: Name,
    /// The value as it is written.
    pub text: Name,
    /// The value.
    pub value: SymbolValue,
}

/// Assignments, from left to right.
pub type AssignmentList = ItemList<Assignment>;
