//! The record of a good run: what each of its steps changed.
//!
//! The main type is `Recorder`, an onlooker of a run. It notes the changes of nodes between the states that it is shown, in one
//! list, and where those of each look end. Its room is taken before, and it takes no more: if a run has more changes or more
//! states than there is room for, the record isn't whole, and who made it may run again with more. `changes_at` gives the
//! changes that lead from one state to the next. The layer above uses `RecordsTellThePasses`: a record that is whole has just
//! the states of the steps and phases that were shown.
//!
//! ```text
//! an inverter a -> out, both X    a is placed at 0 and the phase begins: a look with the change of a
//! a unit step: out is 1           a look with the change of out; the phase is over, and nothing is noted
//! ```
//!
//! After Bryant and Schuster, "Performance Evaluation of FMOSSIM, a Concurrent Switch-Level Fault
//! Simulator", 1985.
#![tactic(auto)]

mod laws;
mod look;
mod recorder;

pub use laws::records_tell_the_passes;
pub use recorder::Recorder;
