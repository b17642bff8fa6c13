//! Nodes that are looked at: the lines of what there is at a node.
//!
//! The main call is [`tell_node`], which reads the circuit twice. The layers above use its contract: exactly the
//! `node_lines` of `specs/Looks.antt` are told, or at a fault a part of them. [`room_to_look`] has the room of each
//! of them.
//!
//! ```text
//! of the inverter with its gate at 1, tell_node(&circuit, state, 3, out) tells
//! look out 0 size:1
//! at 1 p 2 open gate a 1 end Vdd 1
//! at 2 n 2 closed gate a 1 end Gnd 0
//! ```
//!
//! The proofs of crates above cite `LookLemmas`, whose head says what it is of.
#![tactic(auto)]

mod lines;
mod room;
mod telling;

pub use room::room_to_look;
pub use telling::tell_node;
