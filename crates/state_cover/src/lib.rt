//! Which of 0 and 1 each node had during a run.
//!
//! The main type is `Cover`: notes of what each node had, and an onlooker of a run, which at a step
//! looks at those nodes alone that may have changed. `write_cover` writes at the end a line for
//! each node that lacks something, and the counts; its contract, `cover_text`, is what the layer
//! above uses.
//!
//! ```text
//! an inverter a -> out, with a at 0 and then steady:    cover a 1
//!                                                       cover out 0
//!                                                       cover nodes 2 both 0 one 2 none 0
//! ```
//!
//! The proofs of crates above cite `CoverLemmas`, whose head says what it is of.
#![tactic(auto)]

mod cover;
mod had;
mod laws;
mod writing;

pub use cover::Cover;
pub use had::Had;
pub use laws::notes_tell_the_states;
pub use writing::write_cover;
