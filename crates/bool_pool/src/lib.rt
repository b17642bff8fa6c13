//! Boolean formulas that share their parts.
//!
//! The main type is `Pool`, an ordered set of gates. A formula is an `Id`, the place of its gate,
//! and a gate that is wanted twice is made once. Gates are only added, so each formula keeps its
//! value and what it reaches.
//!
//! The layers above use one contract of `not`, `and` and `or`: for all values of the variables the
//! answer has the operation's value on its operands' values, it reaches nothing but its own gate
//! and what its operands reach, and making it takes one step.
//!
//! ```text
//! let h = pool.var(0, steps)?;
//! let l = pool.var(1, steps)?;
//! let both = pool.and(h, l, steps)?;
//! pool.and(l, h, steps)?                        is both, and adds no gate
//! pool.value(alloc, both, &[true, true])?       is true
//! pool.value(alloc, both, &[true])?             is false: a variable past the end is false
//! ```
//!
//! `reached_places` lists what formulas reach. `compact` gives formulas a pool of their own, which has
//! the gates that they reach and no other.
//!
//! For the proofs of crates above: `ValueLemmas` (gates that are added leave the values), `ReachLemmas`,
//! `WithinLemmas` (how many gates formulas reach), `MadeLemmas` (formulas that were just made) and
//! `CollectLemmas` (each root reaches its own place, and places that rise).
//!
//! Formulas with shared parts are those of Bryant, "Boolean Analysis of MOS Circuits", 1987.
#![tactic(auto)]

mod choice;
mod compact;
mod gate;
mod pool;
mod reach;

pub use gate::{Gate, Id, Rails};
pub use pool::Pool;
