//! A step of parts and of groups that are stepped by vicinities, which share the states.
//!
//! Parts without a code have no values to give; if their groups are known to a `vicinity::Wide`, their members take
//! the steady states that it finds. Here are the calls of one that may be there or not, and what a step of both is.
//! The layers above use `MovesIn`: each member of a marked part gets what the part's code gives, each node that is
//! awake its steady state, and every other node stays. Without a `Wide` it is a step of the parts alone.
//!
//! ```text
//! an inverter has code, a bit line with its cells has none: each member of the inverter gets what its code gives,
//! and of the bit line and the cells those that a touched node is near
//! ```
//!
//! [`wide_of`] makes a `Wide` of a graph and the members of such groups: a graph with these nodes alone as storage nodes,
//! in which each of the groups stands alike.
//!
//! Through an edit that leaves these groups as they were they stay known: [`grown`] gives their graph the new nodes, and
//! [`forget_with`] forgets them if one of their members loses its part.
//!
//! For the proofs of crates above: `WideCases`, what holds with a `Wide` and without; `StayingLemmas`, what stays of it
//! through an edit.
//!
//! After Bryant, "A Switch-Level Model and Simulator for MOS Digital Systems", 1984.
#![tactic(auto)]

mod awake;
mod confined;
mod holding;
mod staying;

pub use awake::{calm, evaluate_awake, place, touched_is_listed, write};
pub use holding::wide_of;
pub use staying::{forget_with, grown, holds_any, holds_node, holds_up_to, lower};
