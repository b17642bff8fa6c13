//! Worked circuits as listings, and what a listing is worth by its text alone.
//!
//! `read_back` says in one clause that what was written is read back as the same listing, and
//! `step_by_text` that whoever has the text alone can make the unit steps of the circuit.
//!
//! The tests show what no clause and no row of the program shows: texts that are read back, those that are
//! no listing, and the states that an engineer expects after a step by a text. Each listing of a row is
//! stepped in all states, beside the netlist's paths, by `tools/step_listing.py`.
//!
//! ```text
//! an inverter a -> out, a = X      step_by_text gives out = X, whatever out was
//! ```
#![tactic(auto)]

mod by_text;
#[cfg(test)]
mod tests;

pub use by_text::{read_back, step_by_text};
