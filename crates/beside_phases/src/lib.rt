//! Phases of a run under a fault beside those of a record.
//!
//! A record of a good run has the states of its phases: by the law `PhasesAreRecorded` those behind the one with which a phase
//! begins are those of a phase under its limit. `settle_counted` takes a phase under the fault beside one of the record, as
//! `beside` does, and also counts its steps, which a waveform line tells, and shows each of them to an onlooker. Where a phase begins,
//! `place_both` gives a node its state in both runs.
//!
//! ```text
//! an inverter a -> out whose switch to vdd is open, a 1 and then 0 in the good run: one step, in which out goes from 0 to 1
//! under the fault out stays 0, so no step changes anything, and the phase has 0 steps
//! ```
//!
//! After Bryant and Schuster, "Performance Evaluation of FMOSSIM, a Concurrent Switch-Level Fault
//! Simulator", 1985.
#![tactic(auto)]

mod counting;
mod laws;
mod placing;

pub use counting::{is_joining, settle_counted, settled};
pub use laws::{phases_are_recorded, placing_in_both_fits_beside};
pub use placing::place_both;
pub use unit_step::show;
