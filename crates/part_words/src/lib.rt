//! Runs of the parts of a machine that have the same code, up to 64 of them at once.
//!
//! A word has a bit for each part. The states of the nodes that the parts' maps name are gathered into words,
//! the code runs once on words, and the members whose next state differs from their state are noted. The layer
//! above uses the contract of [`run_known`]: what is noted is what the code gives for each part by itself.
//!
//! The last runs of a large code stand in the columns of an array ([`KnownRuns`]). A part that is run alone is looked up
//! among them: its states are compared with all columns at once.
//!
//! ```text
//! two inverters, of the nodes 2, 3 and 4, 5, in the state 3 = 1, 2 = 1, 5 = 0, 4 = 1: the words of the input are
//! hi = 0b01 and lo = 0b10, those of the output hi = 0b10, lo = 0b01; node 2 is noted, which becomes 0
//! ```
//!
//! Parallel-pattern simulation by the bits of a word is an old device; here the bits are groups that are alike.
//! After Bryant, Beatty, Brace, Cho and Sheffler, "COSMOS: A Compiled Simulator for MOS Circuits", 1987.
#![tactic(auto)]

mod change;
mod column;
mod gather;
mod last_runs;
mod note;
mod together;

pub use change::Change;
pub use last_runs::{KnownRuns, is_large, run_known};
pub use together::run_together;
