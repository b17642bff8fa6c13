//! The two rails of a node's state as formulas, and what a switch does by the rails of its gate.
//!
//! The main type is `Rails` of `bool_pool`: "may be 1" and "may be 0". Local node j has the
//! variables 2j and 2j+1. The layers above use that `closed` and `may_conduct` are true exactly
//! if the switch is closed, and where it isn't open, wherever the rails are those of a state,
//! and that each call takes at most two steps.
//!
//! ```text
//! let gate = var_rails(pool, 3, steps)?;                      variables 6 and 7
//! closed(pool, SwitchKind::NChan, gate, steps)?               is "not may be 0"
//! may_conduct(pool, SwitchKind::NChan, gate, steps)?          is "may be 1"
//! ```
//!
//! After Bryant, "Boolean Analysis of MOS Circuits", 1987.
#![tactic(auto)]

mod conduct;
mod laws;
mod rails;

pub use conduct::{closed, may_conduct};
pub use laws::limits_are_as_stated;
pub use rails::{TOO_MANY_NODES, const_rails, var_rails};
