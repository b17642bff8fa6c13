//! What a symbolic script means, which leaves bits open: definitions and laws alone.
//!
//! `Scripts` of `specs/` says what is read of a script before its first line is obeyed, `Readings` what plain script it is under
//! a valuation of its variables, `Merging` what the runs under all valuations tell together, with the texts of `Told`, and
//! `Runs` the answer (`IsSymbolicAnswer`). `Comparing` says what is told of two circuits that such a script compares
//! (`IsEqualAnswer`). The layers above use these definitions in their contracts.
//!
//! ```text
//! set a=$x / phase / expect out=!$x      under $x=0 it is set a=0 / phase / expect out=1
//! ```
//!
//! After Bryant, Beatty, Brace, Cho and Sheffler, "COSMOS: A Compiled Simulator for MOS Circuits", 1987.
#![tactic(auto)]

mod laws;

pub use laws::{
    symbolic_scripts_have_one_answer, valuations_refuse_alike, valuations_run_plain_scripts,
};
