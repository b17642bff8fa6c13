//! Straight-line code for formulas.
//!
//! `linearise` makes it. The layers above use that the code means its formulas, and has one instruction for each operation that
//! they reach.
//!
//! ```text
//! the formulas (h0 and l1, not h0)      t0 = h0 & l1, t1 = ! h0, and the output (t0, t1)
//! ```
//!
//! After Bryant, Beatty, Brace, Cho and Sheffler, "COSMOS: A Compiled Simulator for MOS Circuits",
//! 1987.
#![tactic(auto)]

mod linear;

pub use linear::linearise;
