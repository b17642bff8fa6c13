//! The commands of a test script, read from its lines.
//!
//! The main type is `Command`, of five families, and the main call is `read_command`. The layer above uses its
//! contract: it gives `reading_of` of the line, a command, nothing to do, or the refusal, and
//! commands that are well formed alone. For the proofs of crates above: `ReadingLemmas` has the laws
//! of `reading_of`.
//!
//! ```text
//! read_command(alloc, b"set a=1 b=0")     is Ok(Some(Command::Give(Give::Set([a Letter One, b Letter Zero]))))
//! read_command(alloc, b"| a comment")     is Ok(None)
//! read_command(alloc, b"limit")           is Err(ScriptFault::FewWords)
//! ```
//!
//! The proofs of crates above cite `CutLemmas`, `FormLemmas`, `ListLemmas` and `VerbLemmas`, whose
//! heads say what they are of.
#![tactic(auto)]

mod command;
mod edits;
mod laws;
mod lists;
mod parts;
mod reader;
mod value;
mod verb;

pub use command::{Command, Edit, Give, Run, ScriptFault, Setup, Tell};
pub use laws::{limits_are_as_stated, readings_are_commands_or_refusals};
pub use lists::{ClockList, ItemList, Name, NameList, StateList, ValueList};
pub use parts::{beats, cut_at_last_equals};
pub use reader::read_command;
pub use value::Value;

/// The greatest number of `limit`, of `cycle`, of `keep` and of `wide`.
pub const MOST_TIMES: u64 = 1_000_000;

/// The least number of `wide`: as many members a group with a text may have.
pub const LEAST_WIDE: u64 = 200;
