//! The values that `set`, `charge` and `expect` give to vectors.
//!
//! [`read_value`] reads a value from its text alone, and [`VectorValue::letters`] gives a letter for
//! each of so many nodes, the first node's first, or tells that the value doesn't fit them. The layer
//! above uses both contracts: the value is exactly `value_of` of the text, and the letters are exactly
//! `letters_for` of the value (`specs/Values.antt`).
//!
//! ```text
//! read_value(alloc, b"%h5", false)     for 4 nodes 0101, for 2 nodes no letters
//! read_value(alloc, b"%d6", false)     for 4 nodes 0110
//! read_value(alloc, b"1", false)       for 4 nodes 1111
//! read_value(alloc, b"0-", true)       for 2 nodes 0 and any state, for 3 nodes no letters
//! read_value(alloc, b"%H1", false)     is no value
//! ```
#![tactic(auto)]

mod laws;
mod reading;
mod values;

pub use laws::bits_write_the_number;
pub use reading::{letter_of, read_value};
pub use values::{Letter, VectorValue};
