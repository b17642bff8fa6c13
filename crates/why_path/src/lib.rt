//! Why a node is what it is: reasons for the rails of its steady state.
//!
//! A reason for "may be 1" or "may be 0" of a node is a live path to the node that is unblocked and
//! whose root's state has that rail. `reason` searches the whole graph for one, `near_reason` and
//! `group_reason` the node's group alone, and `unblocked` tells whether a walk is blocked anywhere on
//! its way. The layer above uses that the answer explains the rail: Some is a reason that passes no
//! node twice, and no other one is stronger; None comes exactly if there is no reason, so exactly
//! where the node's steady state hasn't the rail. `reason_line` prints it.
//!
//! ```text
//! reason(alloc, graph, state, out, false)      is the path over the n-channel transistor from Gnd, where
//!     `out` is the output of an inverter whose input is 1
//! reason_line(alloc, circuit, state, false, walk)
//!     is `zero 10 definite Gnd 2 out` and LF
//! ```
//!
//! After Bryant, "Boolean Analysis of MOS Circuits", 1987.
#![tactic(auto)]

mod blocking;
mod ends;
mod grouped;
mod line;
mod near;
mod reasons;
mod search;

pub use blocking::unblocked;
pub use grouped::group_reason;
pub use line::reason_line;
pub use near::near_reason;
pub use reasons::reason;
