//! The commands of a test script for several columns, read from its lines.
//!
//! One script runs many simulations of a circuit side by side: in `set` and `charge` a value has one letter
//! for all columns, or one for each of them, the first for the first column. The main type is
//! `ColumnCommand`, and the main call is `read_column_command`. The layer above uses its contract: in each
//! column the line is read as `column_reading_of` says, which is the reading of a plain script's line
//! whose values are the column's letters. `in_column` is what a column is given of a command.
//!
//! ```text
//! read_column_command(alloc, b"set a=01X b=1", 3)   is Values(Set, [a [Zero, One, Unk], b [One]])
//! read_column_command(alloc, b"set a=01", 3)        is Err(ScriptFault::BadValue)
//! read_column_command(alloc, b"expect a=1", 3)      is Err(ScriptFault::BadCommand)
//! ```
//!
//! The proofs of crates above cite `ColumnLemmas`, whose head says what it is of.
#![tactic(auto)]

mod command;
mod laws;
mod reader;

pub use command::{ColumnCommand, ValueCommand};
pub use laws::columns_are_refused_alike;
pub use reader::read_column_command;
