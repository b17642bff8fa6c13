//! Settling: unit steps while they change something, and X where they never stop.
//!
//! The main type is the trait `Stepper`: a state that moves by unit steps, however these are
//! computed. `settle` steps it while that changes something, at most as often as its limit says.
//! Past the limit it takes joining steps, in which each node gets the join of its state and its
//! steady state: a node that oscillates becomes X, and so does what reads it. Its contract,
//! `Settles`, is what the layers above use. `PlainStepper` is the stepper by plain steps.
//!
//! Steps that come back to a state go on in rounds from it to it. A `Recall` remembers a state of a phase to tell,
//! and the rounds that fit below the limit are counted and not taken.
//!
//! `settle_seen` settles under the eyes of an `Observer`, who is shown each state that is passed
//! through (`SettlesThrough`), by a `SeenStepper`: one that lists the nodes which a step changed, so
//! that who looks need look at these alone. An `Onlooker` is shown a whole run: where steps and phases
//! begin and end, and states between them.
//!
//! ```text
//! an inverter that feeds itself, at 0, with the limit 4: four steps change it, and 1 joining step
//! gives X; the answer is 5 steps, and that it joined
//! ```
//!
//! For the proofs of crates above: `SettlingExists`, that every state settles. They cite
//! `KnownStates`, `SettlingLemmas` and `NumbersLemmas` too, whose heads say what they are of.
//!
//! In the manner of MOSSIM II: Bryant, "A Switch-Level Model and Simulator for MOS Digital
//! Systems", 1984. The limit, and that it counts steps of the whole graph, are this project's own.
#![tactic(auto)]

mod laws;
mod moved;
mod observer;
mod observing;
mod onlooker;
mod plain_stepping;
mod recall;
mod seen_stepping;
mod settling;
mod stepping;

pub use laws::{
    every_state_passes, every_state_settles, joining_steps_make_x, limits_are_as_stated,
    passing_is_unique, passing_settles, settling_is_unique, settling_passes,
    states_that_come_back_recur,
};
pub use moved::Moved;
pub use observer::{Blind, Never, Observer};
pub use observing::settle_seen;
pub use onlooker::{Onlooker, unfailing};
pub use plain_stepping::{PlainStepper, moves_after, moves_raised};
pub use recall::Recall;
pub use seen_stepping::SeenStepper;
pub use settling::{MOST_LIMIT, Settled, settle};
pub use stepping::Stepper;
