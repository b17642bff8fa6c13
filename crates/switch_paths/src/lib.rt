//! Switch graphs, live paths over them, and the unit step by unblocked paths.
//!
//! The main type is `Graph`: nodes with levels, and places that hold a switch or none. Its steady
//! states are defined in `specs/` by all live paths over the whole graph, with no table, loop or
//! mark: a path is blocked where a stronger definite path meets some prefix of it, and a node's
//! steady state has each rail that the root of some unblocked path to it has. `plain_step` computes
//! that step; its contract, `IsStep`, is what every faster step is compared with. `strongest` gives the
//! strengths that block, and `Graph::after_hop` leads a path on.
//!
//! ```text
//! graph: nodes Gnd Vdd a out, a p-channel switch Vdd-out and an n-channel switch Gnd-out, gate a
//! plain_step at 0 1 0 X gives 0 1 0 1
//! ```
//!
//! For the proofs of crates above: `PathLemmas`, paths as walks that are cut, joined and raised;
//! `StrongestPaths`, the strengths of the strongest definite paths; `TableMeaning`, what a table of
//! them says; `ReachedNodes`, `ExistingSteps`, `UniqueSteps` and `InputNodes`, the laws of `laws`
//! that other proofs start from. They cite `RestingSteps` and `SameSwitchesLemmas` too, whose heads
//! say what they are of.
//!
//! After Bryant, "A Switch-Level Model and Simulator for MOS Digital Systems", 1984, and "Boolean
//! Analysis of MOS Circuits", 1987.
#![tactic(auto)]

mod compared;
mod graph;
mod laws;
mod plain;
mod spread;
mod switching;
mod walks;

pub use graph::Graph;
pub use laws::{
    cycles_can_be_cut, every_node_is_reached, graphs_are_wired, input_nodes_keep_their_states,
    rails_are_numbered, reaches_on, roots_reach_themselves, step_exists, step_is_unique,
    steps_join, steps_rest,
};
pub use plain::{PlainRoom, plain_step, plain_step_into, response, strongest};
pub use switching::{Switch, SwitchKind, SwitchState, switch_state};
pub use walks::{Walk, WalkFacts};

/// The node of the rail Gnd, whose state is 0.
pub const GND: usize = 0;

/// The node of the rail Vdd, whose state is 1.
pub const VDD: usize = 1;

/// How many rails there are; the other nodes are numbered after them.
pub const RAILS: usize = 2;
