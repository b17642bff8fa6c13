//! A machine beside a good run.
//!
//! A good run goes over a graph, and a machine over the graph with a fault. `FitsBeside` says what the machine keeps: a part that
//! isn't apart is that of a group that stands alike in both graphs, and nothing differs that concerns it; a part that is apart is
//! marked or rests. By the law `StepsFitBeside` a step of the machine beside a step of the good run is a step of the fault's
//! graph, and the machine fits beside the good run again. The layer above uses it, and the laws `PlacingFitsBeside` and
//! `GoingBackFitsBeside`, to take phases beside those of a record (`IsPhaseOf` says which of its steps are a phase).
//!
//! ```text
//! an inverter a -> out whose switch to vdd is open: its part is apart, and marked; all others follow
//! a steps from 1 to 0 in the good run, and out from 0 to 1: under the fault out is evaluated, and stays 0 by its charge
//! ```
//!
//! After Bryant and Schuster, "Performance Evaluation of FMOSSIM, a Concurrent Switch-Level Fault
//! Simulator", 1985.
#![tactic(auto)]

mod laws;
mod placing;

pub use laws::{machines_fit_beside, steps_fit_beside};
pub use placing::{go_back, put_all, put_apart};
