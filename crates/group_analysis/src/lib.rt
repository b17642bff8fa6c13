//! What an analysis of a group is.
//!
//! The main trait is `Analyst`: who makes code of the texts of groups. The layers above use that the code
//! means its text: in every state of the local nodes in which the rails have their constants it gives each
//! member's steady state in the local graph, with no more instructions than the bound of the text. Contracts
//! see the list of the texts that an analyst was given, and the set of those that it holds until they are
//! released.
//!
//! ```text
//! the text of an inverter      code with two inputs and the outputs (not h1, h1), or the like
//! ```
//!
//! For the proofs of crates above: `ResponseLemmas`, the response of a member by its group's code.
//!
//! After Bryant, Beatty, Brace, Cho and Sheffler, "COSMOS: A Compiled Simulator for MOS Circuits",
//! 1987.
#![tactic(auto)]

mod analyst;

pub use analyst::Analyst;
