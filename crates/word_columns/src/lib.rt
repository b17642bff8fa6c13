//! Runs of straight-line code on many columns at once.
//!
//! A word has a bit for each of 64 columns. The states of a column are its bits in two lists of words, one for
//! each rail: X has both bits. [`run_words`] runs the code of a machine's part, in the same dense form as the
//! machine, on all columns in the time of one. The layer above uses its contract: in each column whose bits are
//! states, the outputs are what the code gives for that column's states. Where the inputs stand in the array already,
//! [`run_steps`] runs the instructions alone, and [`output_words`] reads an output.
//!
//! ```text
//! an inverter's code, on a node whose words are hi = 0b110 and lo = 0b101 (X in column 2, 1 in column 1, 0 in
//! column 0): out_hi = 0b101, out_lo = 0b110
//! ```
//!
//! For the proofs of crates above: `ColumnLemmas` (a column's bit of a word that is made of others).
//! They cite `RunLemmas` too, whose head says what it is of.
//!
//! Parallel-pattern simulation by the bits of a word is an old device; for ternary states by two rails see
//! Bryant, "Boolean Analysis of MOS Circuits", 1987.
#![tactic(auto)]

mod run;
mod word;

pub use run::{output_words, run_steps, run_words};
pub use word::{kind_word, used_columns};
