//! The texts of a circuit's groups, in the groups' order, or why there are none.
//!
//! The main type is `GroupTexts`, made by `texts_of`. The layers above use that it has the text of each
//! group and the nodes that the group's local nodes stand for, and that a circuit with a group that is too
//! large has none: the first such group is told. `sizes_at` finds which groups have a text, if some may be too
//! large.
//!
//! ```text
//! an inverter a -> out      one text, over the nodes out, a, Vdd, Gnd
//! a group of 201 members    GroupNodes, with the group's least node and 201
//! ```
//!
//! For the proofs of crates above: `SizeLemmas` (the first group that is refused), `PairedLists`,
//! `PartLemmas` (the part of a group fits the graph), `MemberLemmas` (the members of all parts are
//! the storage nodes). They cite `ReadLemmas` too, whose head says what it is of.
//!
//! After Beatty and Bryant, "Fast Incremental Circuit Analysis Using Extracted Hierarchy", 1988.
#![tactic(auto)]

mod chosen;
mod reads;
mod sizes;
mod texts;

pub use chosen::{reads_at, texts_at};
pub use reads::reads_of;
pub use sizes::{GroupSizes, sizes_at};
pub use texts::{BuildFault, GroupTexts, text_or_fault, texts_of};
