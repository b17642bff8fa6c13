//! What the program tells on standard error: why a run stopped, the notes on what it refuses, and how far a long list is.
//!
//! `tell_start`, `tell_stop` and `tell_full` tell why a run could not start, or stopped. `Told` is an outlet over another that
//! tells each note that it is given. The layer above uses that it takes what the other takes.
//!
//! ```text
//! tell_stop(rt, ["check", "a.sim"], Status::ReadFault, Some("a.sim"), ..) tells "cosmos: a.sim can't be read: .."
//! ```
#![tactic(auto)]

mod telling;
mod told;

pub use telling::{tell_full, tell_start, tell_stop};
pub use told::Told;
