//! Edits of a graph, taken back on the graph itself.
//!
//! `channel_groups::Change` says how a graph was before one edit. `take_back` makes the graph that again, and `way_back`,
//! asked before, says how it was until then: so whatever followed the edit can follow its way back. Both take no memory.
//! They are for edits that made no nodes.
//!
//! ```text
//! an inverter a -> out, whose second transistor was taken out     Change { nodes: 4, place: (1, it), level: None }
//! take_back puts it at place 1 again; the way back says that place 1 was empty
//! ```
#![tactic(auto)]

mod undoing;

pub use undoing::{take_back, way_back};
