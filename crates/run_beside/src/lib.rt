//! Two runs side by side: what is alike in both needs one evaluation.
//!
//! A good run goes over one graph, a run under a fault over another. A group that stands alike in both
//! graphs, and whose members and read nodes have the same states in both runs, moves alike in both. So a
//! run under a fault is the good run but for the groups that the fault touches, that have a member that
//! differs, or that read one.
//!
//! The parts of these groups are apart, and perhaps others. `advance_beside` takes a step: it takes the good run's changes
//! over (`follow`), but for the members of parts that are apart, which are evaluated if they are marked; then it puts apart
//! what differs, and marks the parts that are apart and may move in the next step (`notice`). The nodes are known that are near
//! the parts that are apart (`Near`): of any other one a change is taken over, and that is all. The layers above use
//! `StepsByDifference`: if each node follows, is evaluated or rests, the run under a fault took the step of its graph.
//!
//! ```text
//! an inverter a -> out whose switch to vdd is open: its part is apart from the start, and all others follow
//! out is 1 in the good run and X under the fault: the parts that read out are apart, until it is the same in both
//! ```
//!
//! For the proofs of crates above: `AgreeingGroups` and `DifferenceSteps` (how groups move on which both agree),
//! `NoticingLemmas` (what is noticed of some changes and then of others), `NearLemmas` (what is near some parts), `WritingLemmas`.
//!
//! After Bryant and Schuster, "Performance Evaluation of FMOSSIM, a Concurrent Switch-Level Fault
//! Simulator", 1985.
#![tactic(auto)]

mod following;
mod laws;
mod near;
mod noticing;
mod stepping;

pub use following::{does_follow, follow, write_all};
pub use laws::{
    agreeing_groups_move_alike, replacements_add_up, runs_stay_beside, settled_states_stay,
    steps_by_difference, steps_keep_apart,
};
pub use near::{Near, NearSpan, PARTS_A_CHANGE, is_out, know_near, look_near, near_flags};
pub use noticing::{notice, notice_near};
pub use stepping::advance_beside;
