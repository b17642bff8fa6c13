//! A simulation session: a circuit, the state of its nodes, and what the commands of a test script
//! do to them.
//!
//! The main type is `Session`, and the main call is `Session::apply`. The layer above uses its
//! contract, in the words of `session_meaning`: an accepted command has its effect, `Effect`, its lines were
//! heard, and the analyst's list grew by the texts of groups that were new; a refused one has the first
//! refusal of its command, `refusal_of`, or else a group that is too large, and changes nothing.
//! `Session::apply_seen` does the same under the eyes of an onlooker, who is shown the steps and phases of the
//! command, and `Session::show_behind` shows it the state behind the command.
//!
//! Unit steps are those of its stage, whatever that is: a session is generic over a `PlainStage` of `column_stage`, and
//! `machine_stage` has the compiled machine as one. What needs the circuit built has the stage built first, over the
//! analyses that are kept; an edit is told to it. `ObeysOn` says which acts each command does to the stage. The lemmas on commands
//! are those of `session_meaning`, and crates above cite them there.
//!
//! A session over a stage of columns, `Session::over`, does the commands of a script for columns, `Session::apply_columns`:
//! each column gets its letters, and is then told as the session of a plain script would tell it, waveform line by waveform
//! line in the order of the columns. What a plain session does that a row of columns can't tell, `expect` and `report`, isn't
//! there for columns. Unit steps, phases and cycles are done in all columns by the same calls, also where there is one.
//!
//! A session over a stage that may run out, as a symbolic script has one, does in all columns at once what a line asks for that
//! tells nothing: `edit_in_all`, `set_up_in_all`, `give_in_all`; and what the lines do that move: `ready_in_all`, `beat_in_all`,
//! `step_in_all`, `settle_in_all`. If the stage runs out, it says why, and the session is one still. `work_on_stage` has more made
//! there of what nodes can be given.
//!
//! ```text
//! let mut session = Session::<MachineStage>::new(alloc, circuit)?;
//! session.apply(&command, analyst, out)?     for `set a=1`, then for `phase`: the line `1 1 10` is told
//! ```
//!
//! After Bryant, "A Switch-Level Model and Simulator for MOS Digital Systems", 1984, and Bryant, Beatty,
//! Brace, Cho and Sheffler, "COSMOS: A Compiled Simulator for MOS Circuits", 1987.
#![tactic(auto)]

mod changes;
mod columns;
mod edits;
mod giving;
mod guesses;
mod looking;
mod naming;
mod placing;
mod preparing;
mod putting;
mod refusals;
mod reporting;
mod running;
mod saving;
mod session;
mod setting;
mod showing;
mod telling;
mod truths;
mod values;
mod waves;

pub use looking::{node_in_use, node_refusal};
pub use refusals::cycle_refusal;
pub use session::Session;
pub use session_meaning::{ApplyFault, Clock, FIRST_LIMIT, MOST_WATCHED, Refusal, places_of};
