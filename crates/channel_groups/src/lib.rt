//! The channel-connected groups of a switch graph.
//!
//! Two storage nodes are linked where switches join them, end to end, through storage nodes alone;
//! the classes are the groups, which can be analysed one by one. The main type is `Groups`. The
//! layers above use that `Groups::of` finds the groups of a graph, `AreGroups`: each storage node is
//! in one of them, and they stand in the order of their least nodes, which are their ids. And that
//! after an edit `Groups::regroup` makes them those of the graph as it is then, `AreOf`, from the
//! members of the groups that had a changed node and from the changed nodes alone.
//!
//! ```text
//! Gnd, Vdd, an inverter's input in and output a, and a pass switch from a to b with gate in:
//! one group, with the id a, the members a and b and all three switches
//! ```
//!
//! For the proofs of crates above: `ChangeLemmas`, that a graph differs from the graph before an edit
//! at the changed nodes alone; `UntouchedLemmas` and `KeptLemmas`, that a group which the edit
//! doesn't touch is a group of both graphs, with the same switches and levels; `EditLemmas`, the
//! graph before each kind of edit; `HeldLemmas`, which group an id finds. They cite `CountLemmas`,
//! `StoreLemmas` and `TickLemmas` too, whose heads say what they are of.
//!
//! After Bryant, Beatty, Brace, Cho and Sheffler, "COSMOS: A Compiled Simulator for MOS Circuits",
//! 1987.
#![tactic(auto)]

mod change;
mod ends;
mod flood;
mod group;
mod groups;
mod held;
mod laws;
mod regroup;
mod search;

pub use change::{Change, nodes_after, nodes_before};
pub use group::{Group, GroupId, ascending};
pub use groups::Groups;
pub use laws::{empty_places_change_no_group, untouched_groups_are_kept};
