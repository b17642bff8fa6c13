//! The top calls of runs under all valuations, and the law that each answer of the program is one.
//!
//! `symbolic` runs a script under all valuations of its variables in the circuit of a netlist or a deck, and `equiv` compares
//! two circuits by such a run. Each reads its files by their names, as `cosmos_app::run` does, and its contract says which bytes
//! are written. By the law `answers_are_unique` there is one answer to each, as there is to the words, to a dump, and to a talk
//! line by line.
//!
//! ```text
//! symbolic(alloc, "adder.sim", "adder.cmd", files, out)               is SymbolEnd::Ended(End::Done)
//! equiv(alloc, "one.sim", "other.sim", "both.cmd", files, out)        is SymbolEnd::Ended(End::Mismatch) if they differ
//! ```
#![tactic(auto)]

mod comparing;
mod ends;
mod laws;
mod other_net;
mod refusals;
mod symbols;

pub use comparing::equiv;
pub use ends::{SymbolEnd, symbol_status};
pub use laws::answers_are_unique;
pub use symbols::symbolic;
