//! The texts of help: a page, the usage of a bad command line, the version's line, a text for each request
//! and each command of a script, and what each refusal means with its cure.
//!
//! The main functions are `topic`, `cure` and `symbolic_cure`, which find a text by its name. The layers above use that it
//! is the text of the first entry with this name, of `REQUESTS` with `COMMANDS` behind them, of `CURES`, or of
//! `SYMBOLIC_CURES` with `CURES` behind them, and that there is none exactly if no entry has the name.
//!
//! ```text
//! topic("del")              Some("del K\nRemoves transistor K. ..\n")
//! topic("delete")           None
//! cure(b"S6 NotInput")      Some("'{}' is a storage node; 'input {}' makes it an input")
//! ```
#![tactic(auto)]

mod cures;
mod finding;
mod pages;
mod topics;

pub use cures::{CURES, SYMBOLIC_CURES, cure, symbolic_cure};
pub use pages::{PAGE, USAGE, VERSION, page, usage, version};
pub use topics::{COMMANDS, REQUESTS, topic};
