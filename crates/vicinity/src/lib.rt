//! Vicinities: the nodes on which a steady state depends in the present state, and a step that looks at those
//! alone at which something happened.
//!
//! Two storage nodes are near each other if switches that aren't open now join them, end to end, through
//! storage nodes alone. The classes are the vicinities: the groups of the graph without its open switches. A
//! node's steady state depends on its vicinity alone, and a vicinity rests until a switch at it or an input node
//! at its edge changes. So a group of any size needs no text and no code. `LiveLists` has the switches at each
//! node, those in front that aren't open, and `NodeSet` the nodes that a change touched. [`step_awake`] floods
//! from these to what is near them, finds the steady states there, writes what changes, and touches the ends of
//! the switches that turn by it; [`place_awake`] writes a state that a node gets from outside, and touches what that
//! stirs. Neither takes memory.
//!
//! The contract of `step_awake` says what a step of such groups alone comes to: each member of a group takes its steady
//! state, or in a joining step the join with it, and what no touched node is near rests afterwards. The looks that it
//! takes are at most 55 for each node that a touched node is near, and for each switch at it that isn't open. The layer
//! above uses [`Wide`], which has the graph, the lists and the touched nodes of such groups together: it finds changes,
//! and writes them in turns with those of other groups, which share the states.
//!
//! ```text
//! a bit line, and behind pass transistors with gates w0, w1, w2 the cells c0, c1, c2
//! w0, w1 and w2 are 0: four vicinities of one node each
//! w1 becomes 1: the line and c1 are touched, and are one vicinity; a step looks at these two alone
//! ```
//!
//! For the proofs of crates above: `LiveGraphs`, paths without the open switches; `CarriedPaths`, sets of nodes
//! that no switch which isn't open leads out of; `RestingVicinities` and `SleepingNodes`, what rests;
//! `StepLemmas`, a step over a group.
//!
//! After Bryant, "A Switch-Level Model and Simulator for MOS Digital Systems", 1984.
#![tactic(auto)]

mod arms;
mod evaluation;
mod flood;
mod laws;
mod live_list;
mod live_lists;
mod node_set;
mod pass;
mod passes;
mod placing;
mod sources;
mod spots;
mod spread;
mod stepping;
mod touching;
mod turning;
mod wide;

pub use evaluation::{Scratch, evaluate};
pub use laws::{
    asleep_members_rest, unblocked_paths_stay_in_one_vicinity, unstirred_vicinities_rest,
};
pub use live_lists::LiveLists;
pub use node_set::NodeSet;
pub use placing::place_awake;
pub use stepping::step_awake;
pub use touching::take_state;
pub use wide::Wide;
