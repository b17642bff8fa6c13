//! Listings of whole circuits.
//!
//! The main type is `Listing`: the code of groups, its `Part`s, put together over the nodes of a
//! circuit. Its step moves each member of a part to what the part's code gives, and its text has a
//! line for each node, each instruction and each next state. The layer above uses that `Listing::build`
//! makes such a listing of a graph and its parts, and that `read_listing` reads a text back, and names
//! the first bad line of any other. Code itself is that of `straight_code`, whose surface is passed on.
//!
//! ```text
//! node 0 i in, node 1 s out, t0 = ! h0, next 1 t0 h0      out is the complement of in
//! ```
//!
//! The proofs of crates above cite `TextLemmas`, whose head says what it is of.
//!
//! After Bryant, Beatty, Brace, Cho and Sheffler, "COSMOS: A Compiled Simulator for MOS Circuits",
//! 1987.
#![tactic(auto)]

mod listing;
mod listing_text;
mod reading;

pub use listing::Listing;
pub use listing_text::TextPlace;
pub use reading::{ListingFault, read_listing};
pub use straight_code::{Code, Instruction, Operand, Output, Part};
