//! The text of a group: all that its analysis depends on, with its nodes and switches numbered anew.
//!
//! The main type is `GroupText`: the local graph of a group, how many of its nodes are members, and
//! which of them are rails. Texts are equal exactly if all three are, so they serve as the keys
//! of what is kept. The layers above use that `text_of` gives the text and the node that each local
//! node stands for, unless the group is too large (`text_of_any_size` makes any), and the law that
//! responses are local: the steady state of a member in the local graph is its steady state in the
//! whole graph.
//!
//! ```text
//! an inverter a -> out: local nodes out, a, Vdd, Gnd; one member; constants none, none, 1, 0
//! text_of(alloc, &graph, &[3], &[0, 1])     gives that text, and the nodes 3, 2, 1, 0
//! ```
//!
//! For the proofs of crates above: `LocalNodes` and `LocalEdges`, the nodes and switches of a local
//! graph beside those that they stand for; `GroupLemmas`, that a group's members and switches are of
//! its graph; `Locality`, the law of local responses. They cite `AlikeNodes`, `LocalHops`,
//! `LocalRanges` and `WellFormedTexts` too, whose heads say what they are of.
//!
//! After Beatty and Bryant, "Fast Incremental Circuit Analysis Using Extracted Hierarchy", 1988.
#![tactic(auto)]

mod compared;
mod laws;
mod local;
mod text;

pub use laws::{limits_are_as_stated, responses_are_local, texts_are_small, texts_are_well_formed};
pub use text::{GroupText, MOST_MEMBERS, MOST_SWITCHES, TextFault, text_of, text_of_any_size};
