//! The lines of a symbolic script, obeyed one after the other under all valuations at once.
//!
//! The main call is [`obey_lines`]: it obeys the lines before the one that is refused by its names, tells what they tell to any
//! hearer, and answers how they end. The session is a value of the caller, a [`LineSession`], whose contract says what one line
//! comes to in all columns. The layer above uses that the lines did what the relation `RunsInAll` of `symbol_meaning` says;
//! where memory or vertices ran out, a front of what some right run tells was heard.
//!
//! ```text
//! obey_lines(&mut session, "set a=$x\nphase\n", None, out, analyst)     is Ok(Halt::End)
//! ```
//!
//! `run_script` does that on a printer, and writes the line of the refusal that ends the script, if one does: so a right answer was
//! written, by `IsSymbolicAnswer`.
//!
//! For the proofs of crates above: `NamedLemmas` (a formula's truth value by the names so far is that by all definitions of the script), and
//! `ServingLemmas` (a session is served with the lines that run, from the start and behind each line that is read).
#![tactic(auto)]

mod ending;
mod lines;
mod refusing;
mod session;

pub use ending::run_script;
pub use lines::{is_past, obey_lines};
pub use refusing::{is_whole, refuse_halt};
pub use session::{LineSession, SymbolFault};
