//! A machine that is led from one graph to another, by the edits between them.
//!
//! `lead_by` leads to another graph by way of a third one, all of as many nodes and places: it follows one edit for each place and each node at which the
//! graphs differ. The machine covers the other graph then (`Led`): the groups that differ wait for a finish, and each other one keeps its part. Where a graph
//! differs from the third one (`Differences`) is found once, when a machine is led there; it goes back by that.
//!
//! ```text
//! a machine of the circuit under one fault, and the circuit under the next one: two edits, whatever the circuit's size
//! ```
//! For the proofs of crates above: `BuildsAgain`, what a build of a graph comes to whose texts are those of the last build.
#![tactic(auto)]

mod comparing;
mod differing;
mod leading;

pub use differing::{Differences, Spot};
pub use leading::lead_by;
