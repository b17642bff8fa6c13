//! Simulation of many columns at once.
//!
//! The main trait is [`WordStepper`]: the states of up to 64 columns, which move by unit steps together, however
//! these are computed. [`settle_each`] settles them in one run: in each column its contract is `Settles`, that
//! of a single column, with a count and a mark of its own. A column that has settled is at a fixed point, and
//! stays while others go on, also where they join.
//!
//! ```text
//! two columns of an inverter that feeds itself, at 0 and at X, with the limit 4: the first takes 4 steps and a
//! joining one, 5 in all; the second takes none, and didn't join
//! ```
#![tactic(auto)]

mod counting;
mod phases;
mod stepping;

pub use counting::has_bit;
pub use phases::settle_each;
pub use stepping::WordStepper;
