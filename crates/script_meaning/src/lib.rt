//! What a script does when it runs, and what is answered of it.
//!
//! The main definition is the relation `Runs` of `specs/`: the lines of a script have their effects in order,
//! to the end or to the first that is refused, and what comes of that is an `Outcome`. The reading of a line is
//! a parameter of the relation, so the same one serves if a fault changes how lines are read. The layers above
//! use it as `TellsHalt` in `specs/Halts` and `TellsRun` in `specs/Ends` have it, with what was heard and
//! analysed; `TakesTurn` in `specs/Turns` says it of one line. `Shows` in `specs/Shown` is what an onlooker
//! sees of lines that are obeyed.
//!
//! The types are plain: `Halt`, how the lines of a script ended, and `Turn`, what became of one of them. No
//! session stands here: `script_run` has the calls.
//!
//! ```text
//! the script "set a=1\nphase\n"    halts at Halt::End
//! the script "phase\nset b=1\n"    halts at Halt::Refused(2, FaultCode::E1UnknownNode), if no node is b
//! ```
//!
//! For the proofs of crates above: `FirstRefusedLemmas`, how what comes of a script's lines joins;
//! `HaltLemmas`, what the refusal of a line tells; `PrintedLemmas`, what a printer has written of a script;
//! `ReadingLemmas`, that scripts are read soundly; `LowerLemmas`, that a session starts ready; `RunLemmas`,
//! that something comes of each script. They cite `ShownLemmas`, `TurnLemmas` and `UniqueRuns` too, whose heads say
//! what they are of.
#![tactic(auto)]

mod halt;
mod laws;
mod turn;

pub use halt::Halt;
pub use laws::{
    scripts_end_at_their_first_refused_line, scripts_have_one_answer, scripts_show_one_list,
};
pub use turn::Turn;
