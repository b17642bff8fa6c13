//! The phases of a good run, recorded.
//!
//! The main type is `GoodPhases`: the graph of a good run, the record of what each of its steps changed, and where its phases begin and end in
//! that record, each with its limit. `settle` has a machine settle in the graph, as ever, and notes the phase. The layer above uses that
//! each phase of it is one of the record (`IsBeat`), so that another run can go beside it.
//!
//! ```text
//! an inverter a -> out, a placed at 0    settle: a look with the change of a, with which the phase begins, and one with that of out
//!                                        its phase: Beat { begin: 0, end: 2, limit: 100 }
//! ```
//!
//! After Bryant and Schuster, "Performance Evaluation of FMOSSIM, a Concurrent Switch-Level Fault
//! Simulator", 1985.
#![tactic(auto)]

mod beats;
mod noting;
mod phases;

pub use beats::Beat;
pub use phases::GoodPhases;
