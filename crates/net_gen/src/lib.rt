//! Netlists and scripts of any size, in three families, to try a simulator on.
//!
//! The main call is `generate`. The layer above uses that it writes exactly the text that its
//! family, part, seed and number of rows determine, so two runs can be compared.
//!
//! ```text
//! generate(alloc, GenKind::Inverters, GenPart::Net, 1, 1)
//!
//! | units: 1 tech: cosmos format: MIT
//! p w0 Vdd w1
//! n w0 Gnd w1
//! ```
#![tactic(auto)]

mod columns;
mod draws;
mod families;
mod inverters;
mod laws;
mod lines;
mod passes;

pub use families::{GenKind, GenPart, MOST_ROWS, generate};
pub use laws::limits_are_as_stated;
