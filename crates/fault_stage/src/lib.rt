//! A stage for judging faults: its first run is recorded, and its later ones go beside it.
//!
//! The main type is `FaultStage`, a `PlainStage` of `column_stage`; so a session over it is one over any stage, and what a
//! run comes to is what the session says. Its first build begins a record (`good_phases`), in which each phase is noted.
//! Started again (`again`) it holds on to the machine and the record: the next build leads the machine to the circuit as it is
//! then, by the edits between both (`edits_between`), and from there on phases go beside those of the record (`beside_run`), as
//! long as these have the same limits. A run may part from the recorded one wherever it likes: then each phase is still a phase
//! of its own graph, and if the record has none for it the machine goes by itself.
//!
//! ```text
//! the first run: build, set a=0, phase      the machine is built, and the phase is noted
//! again, in an inverter whose switch to vdd is open: build, set a=0, phase      two edits; only the part of out is evaluated
//! ```
//!
//! After Bryant and Schuster, "Performance Evaluation of FMOSSIM, a Concurrent Switch-Level Fault
//! Simulator", 1985.
#![tactic(auto)]

mod beginning;
mod building;
mod built;
mod columns;
mod held;
mod leading;
mod moving;
mod passing;
mod placing;
mod plain;
mod settling_beside;
mod stage;
mod waiting;

pub use stage::FaultStage;
