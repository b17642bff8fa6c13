//! What a script does when it runs in a session, and what is answered of it.
//!
//! The main call is `obey_lines`, which obeys the lines of a script, tells what they tell to any hearer, and answers
//! how they end; `run_lines` tells the line of a refusal besides, `run_line` runs one line, and `run_command` a command that
//! was read before. How a line is read
//! is a value of the caller, a `LineReader`: `Plain` reads each as its command. The layers above use that these do
//! what the relation `Runs` of `script_meaning` says: the lines have their effects in order, to the end or to the
//! first that is refused. `obey_seen` does it under the eyes of an onlooker. How a run ends, and what an answer is,
//! stands in `run_ends`. All definitions, and the lemmas that the proofs here cite, stand in those two crates.
//! `note_line` notes the cure of a refused line, for a human.
//!
//! ```text
//! obey_lines(alloc, session, "set a=1\nphase\n", &Plain, out, analyst)   is Ok(Halt::End)
//! run_lines(alloc, session, "set b=1\n", out, analyst)                   tells the line `script line 1: E1 UnknownNode`
//! ```
#![tactic(auto)]

mod codes;
mod reader;
mod refusal;
mod script;

pub use codes::{refusal_code, script_code};
pub use reader::{LineReader, Plain};
pub use refusal::{note_line, refuse_halt, size_cause};
pub use script::{end_of, obey_lines, obey_seen, run_command, run_line, run_lines, turn_of};
