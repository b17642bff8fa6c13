//! A whole run under a fault beside a recorded good run.
//!
//! The main type is `RunBeside`: the good state, and which parts of a machine of the fault's graph are apart from the good run. Between phases nodes are given
//! states (`give`); `settle` then takes the next phase of the record: the nodes that the good run placed and those that were given are
//! placed in both runs, both settle, and the parts go back to following the good run that agree with it. By `SettlesRun` the run under the
//! fault settled in its graph, whatever the good run did.
//!
//! ```text
//! an inverter a -> out whose switch to vdd is open; the record places a at 0, and so does the script: only out's part is evaluated
//! ```
//!
//! After Bryant and Schuster, "Performance Evaluation of FMOSSIM, a Concurrent Switch-Level Fault
//! Simulator", 1985.
#![tactic(auto)]

mod beginning;
mod coming;
mod differing;
mod leaving;
mod phases;
mod running;
mod starting;
mod touching;

pub use leaving::leave;
pub use running::RunBeside;
pub use starting::begin;
pub use touching::later_parts;
