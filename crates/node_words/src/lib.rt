//! What the words of `vector NAME WORD..` stand for, and the vectors that names stand for.
//!
//! The main type is [`Vectors`], which contracts see as the list of the vectors' names with their
//! nodes. [`Vectors::define`] gives a name to the nodes of words; the layer above uses its contract:
//! the vectors are then exactly `with_vector` of `specs/Vectors.antt`, it is refused exactly by
//! `vector_fault`, and a refusal changes nothing. [`Vectors::named`] is what a name stands for.
//!
//! A word is the name of a node, or else of a vector; or else it has a range `{A:B}` and stands for
//! the words with each number in its place; or else it has a `*` and stands for all nodes but the
//! rails with a name that it matches, by their numbers ([`matches_name`]).
//!
//! ```text
//! nodes 2 to 5 are d1, d0, q1 and q0, and vectors is empty
//! vectors.define(alloc, &circuit, b"d", [d{1:0}])      d is [2, 3]
//! vectors.define(alloc, &circuit, b"all", [d, q*])     all is [2, 3, 4, 5]
//! vectors.define(alloc, &circuit, b"e", [d{0:2}])      is refused: UnknownNode, since no name is d2
//! vectors.define(alloc, &circuit, b"q0", [d])          is refused: NameTaken
//! ```
//!
//! A word is read without going on past the first of its words that is refused. Each word stands for
//! a node at least, where each vector has one, as it has if it was given a word; so no more than one
//! past `MOST_ENTRIES` of a word's words without a range are read.
//!
//! That the refusal is that of the first word with a fault, and that there is none exactly if each
//! word stands for nodes and there is room for them, are laws: `the_first_fault_refuses`.
#![tactic(auto)]

mod fault;
mod laws;
mod patterns;
mod ranges;
mod vectors;
mod words;

pub use fault::VectorFault;
pub use laws::{limits_are_as_stated, ranges_stand_in_braces, the_first_fault_refuses};
pub use patterns::matches_name;
pub use ranges::{Range, first_range};
pub use vectors::{Named, Vectors};

/// The most entries of a vector.
pub const MOST_ENTRIES: usize = 65_536;

/// The most entries of all vectors together.
pub const MOST_IN_ALL: usize = 4_194_304;

/// The most ranges of a word one in another.
pub const MOST_DEPTH: usize = 16;

/// The most that a number of a range may be.
pub const MOST_NUMBER: u64 = 1_000_000;
