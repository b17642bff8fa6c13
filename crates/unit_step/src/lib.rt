//! The compiled machine: the code of each group, run only if something touched the group.
//!
//! The main type is `Machine`: parts, for each of them the nodes that it reads and whether it is marked,
//! and a state. `Machine::build` makes one that fits a graph: each distinct text of a group that isn't kept
//! is analysed, once. It is a `Stepper`; `Watched` is a `SeenStepper`, whose steps an observer is shown. The layer
//! above uses that on a graph that the machine fits a step is the unit step of the graph, and that the machine
//! fits the graph again: in each part that isn't marked every member's state is its steady state, so such a part
//! needs no evaluation until a node that it reads changes.
//!
//! Groups that are too large for a text have no code: they are stepped by vicinities, beside the parts that have some. A
//! build and a finish accept such groups up to a bound that is handed in, with 0 none. So are those whose code is long and
//! is that of few parts, unless a build is asked for all codes.
//!
//! ```text
//! an inverter a -> out, both 0, not marked       a is placed at 0 again: the part is marked
//! a step runs its code: out takes 1              the part is not marked, until a is placed anew
//! ```
//!
//! A machine of many columns goes by a `Machine` that doesn't step itself: what it uses of it, up to the codes, which run on
//! words, is in `columns`.
//!
//! What a step reads and runs is in `part_steps`, and the laws are in `machine_laws`, which the proofs of crates
//! above cite, as they do `machine_parts`.
//!
//! After Bryant, Beatty, Brace, Cho and Sheffler, "COSMOS: A Compiled Simulator for MOS Circuits",
//! 1987.
#![tactic(auto)]

mod among;
mod beside;
mod body;
mod columns;
mod editing;
mod finishing;
mod growing;
mod holding;
mod last_texts;
mod laws;
mod listing;
mod long;
mod machine;
mod making_ready;
mod planning;
mod remarking;
mod restarting;
mod seating;
mod waking;
mod watching;

pub use editing::{EditRefused, NEW_NODES};
pub use growing::grow;
pub use laws::limits_are_as_stated;
pub use long::Codes;
pub use machine::Machine;
pub use machine_laws::{
    alike_groups_keep_their_parts, columns_stay_through_edits, columns_step_apart,
    empty_places_are_covered, machines_have_kept_texts, placing_keeps_fits, steps_are_unit_steps,
};
pub use machine_parts::MachinePart;
pub use part_steps::{Needs, needs_of, numbers_below};
pub use watching::{Watched, show};
