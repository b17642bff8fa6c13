//! The compiled machine whose states are truths in many columns.
//!
//! The main type is [`TruthMachine`]: the parts of a machine, which of them are marked, and for each node two truths of one
//! maker, where it may be 1 and where it may be 0. Over functions of a decision graph it simulates all valuations of their
//! variables at once. The layer above uses that in each column a step is the unit step of the graph, and that
//! [`TruthMachine::settle`] settles each column as it would settle alone, and tells the greatest count.
//!
//! ```text
//! an inverter a -> out, where a is the variable x: after a step out may be 1 where x is false, and 0 where it is true
//! ```
//!
//! A maker may run out. Then the step in which it did so was not taken, in no column. A machine over functions of variables has its
//! maker make more of them (`MakesMore`), and any machine may go on over another maker ([`TruthMachine::move_to`]), as one whose graph
//! was compacted. What a machine has besides, its gear, is made first, with all memory that it wants ([`gear_for`]);
//! with an empty one it holds states alone.
//!
//! After Bryant, Beatty, Brace, Cho and Sheffler, "COSMOS: A Compiled Simulator for MOS Circuits", 1987; states as two
//! functions of variables after Bryant, "Boolean Analysis of MOS Circuits", 1987.
#![tactic(auto)]

mod gears;
mod machine;
mod rails;
mod symbols;

pub use gears::{Gear, cut_gear, empty_gear, gear_for};
pub use machine::TruthMachine;
