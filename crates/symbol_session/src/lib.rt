//! The session of a symbolic script: it obeys lines in all columns, a column for each valuation of the script's variables.
//!
//! The main type is [`SymbolSession`], a `LineSession` of `symbol_run`: a session over the stage of functions, the names that stand for
//! functions, and the states that are kept under names, as functions too. The layer above uses the trait's contract: in each
//! column a line is obeyed as the line of the plain script that the script is under the column's valuation, and what the columns
//! tell is told together.
//!
//! ```text
//! let symbols = SymbolSession::maker(alloc, keys, variables.len(), bound)?;
//! let mut session = SymbolSession::start(alloc, circuit, symbols, variables, text, false)?;
//! obey_lines(&mut session, text, stop, out, analyst)?
//! ```
//!
//! If vertices run out, the fault tells at which line; what was heard by then is a part of what some run of the lines tells.
//! Between lines the graph of functions is kept small: [`SymbolSession::tidy`].
#![tactic(auto)]

mod defining;
mod keeping;
mod missing;
mod moving;
mod obeying;
mod quiet_start;
mod saving;
mod session;
mod setting;
mod sharing;
mod starting;
mod telling;
mod tidying;
mod turns;
mod values;

pub use quiet_start::SymbolStart;
pub use session::SymbolSession;
