//! What is told at the end of a script whose lines aren't written: the reasons of a node, their summary, or what
//! the script covers.
//!
//! `explain` runs a script and tells why a node may be 1 and why it may be 0 where it ended; `sum_up` runs the
//! script of a sample and adds up what its waveform lines tell as they are told, so none of them is held;
//! `cover_script` tells which of 0 and 1 each node never had while a script ran. The layer above rests on their
//! contracts: `IsReasoned` of `specs/Reasoned`, `IsSampleSummary` of `specs/Answers`, and `IsCovered` of
//! `specs/Covered`. Each answer is the line of the refusal alone if one ended the script.
//!
//! ```text
//! explain(alloc, inverter, b"..", "out", out, analyst)   writes the line of a reason why `out` may be 1, or that
//!                                                        there is none, and that of 0
//! cover_script(alloc, inverter, b"..", out, analyst)     writes `cover a 1`, if `a` was never 1, .. `cover nodes 2 ..`
//! sum_up(alloc, keys, sample, out, analyst)              writes `large nodes 5 switches 4 lines 4 ..`
//! ```
//!
//! The proofs of crates above cite `UniqueAnswers`, whose head says what it is of.
#![tactic(auto)]

mod covering;
mod reasons;
mod summary;
mod unwritten;

pub use covering::cover_script;
pub use reasons::{explain, reasons_text};
pub use summary::sum_up;
