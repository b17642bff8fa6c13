//! The three states of a node, their two rails, lack of memory alone or in the place of a refusal, and a
//! counter of steps.
//!
//! The main type is `Tern`: 0, 1, or X for what is unknown or between. A state is known by its two
//! rails, "may be 1" and "may be 0". The layers above use that the join of two states has each
//! rail that either of them has.
//!
//! ```text
//! Tern::Zero.join(Tern::One)         is Tern::Unk
//! Tern::from_rails(true, false)      is Some(Tern::One)
//! Tern::from_letter(b'x')            is Some(Tern::Unk)
//! ```
//!
//! For the proofs of crates above: `TernLemmas`, laws of states, their rails and their joins;
//! `CountsLemmas`, laws of counts that stay at the last value of their type.
//!
//! After Bryant, "Boolean Analysis of MOS Circuits", 1987.
#![tactic(auto)]

mod memory;
mod steps;
mod tern;
mod unmade;

pub use memory::NoMemory;
pub use steps::Steps;
pub use tern::Tern;
pub use unmade::Unmade;
