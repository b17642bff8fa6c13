//! Which parts of a machine are marked, and which are listed for each node.
//!
//! The main type is [`Agenda`], a mark for each part, with the marked ones in a list, so that a step finds them without
//! a search. [`lists_of`] lists for each node the parts that read it, or those that have it as a member; the layers above
//! use its contract to mark by [`mark_all`] what a node concerns. Nothing here knows what states the nodes have, or how
//! many.
//!
//! ```text
//! two inverters a -> b -> c, parts 0 and 1: for b those that read it are part 1, those that have it are part 0
//! ```
//!
//! For the proofs of crates above: `ListLemmas` (lists that grow, and marks by lists), `AgendaLemmas` (marks that come
//! behind the others).
#![tactic(auto)]

mod agenda;
mod lists;

pub use agenda::{Agenda, add_marked, mark_all};
pub use lists::{lists_of, most_members};
