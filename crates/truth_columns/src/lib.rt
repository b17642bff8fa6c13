//! Truth values in many columns at once, and straight-line code over them.
//!
//! The main type is the trait [`Truths`], a maker of truths: what stands for one has a truth value in each of the maker's
//! columns. The layers above use the contracts of [`fill`], [`run_steps`] and [`write_outputs`], by which code that runs over any
//! maker gives in each column what it means there.
//!
//! ```text
//! fill(&truths, &hi, &lo, nodes, &mut values)           the rails of the inputs, in all columns
//! run_steps(&mut truths, &code, &mut values)?           and behind them the results
//! output(&mut truths, &code, &values, k)?               both rails of an output, in all columns
//! write_outputs(&mut truths, &code, &values, ..)?       those of all outputs
//! ```
//!
//! A maker may run out, and then tells why: it has all truths that it had, and what the fault tells is so of it as it is
//! then (`spent`). For the proofs of crates above:
//! `ColumnLemmas` (what holds of truths in a column).
#![tactic(auto)]

mod outputs;
mod run;
mod truths;

pub use outputs::write_outputs;
pub use run::{fill, output, run_steps};
pub use truths::Truths;
