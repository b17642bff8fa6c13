//! The lines that a symbolic script tells of all valuations together, as values, and who hears them.
//!
//! The main type is the trait [`SymbolLines`]: what hears one line after the other. As in `told_lines` its contract has one
//! meaning for each hearer, `hear`, which is what a line more does to what was heard, so what all lines come to is a fold,
//! `hear_all`. [`SymbolPrinter`] writes each line to a sink, by the names of the script's variables, and remembers whether an
//! expectation isn't met; [`Notes`] keep the functions of the nodes that waveform lines show, for who compares them.
//!
//! ```text
//! let mut out = SymbolPrinter::new(LineBuf::new(alloc, 0)?, variables, sink);
//! out.tell(ToldLine::Wave { n: 7, k: 2, mark: true, values: &[Some(Tern::One), None] }, highs, lows)?
//!     writes `7 2* 1?` and LF
//! ```
//!
//! `send_difference` and `send_count` write the lines of two circuits that are compared.
//!
//! A hearer takes the memory for a line as it hears it: how long a valuation's text is goes by the names that a script has, and a
//! run that lacks memory ends there.
//!
//! The proofs of crates above cite `PrintingLemmas` (what a printer wrote of lines, or of a part of them) and `NotingLemmas` (what
//! notes keep of lines).
//!
//! The form of the lines after Bryant, Beatty, Brace, Cho and Sheffler, "COSMOS: A Compiled Simulator for MOS Circuits", 1987.
#![tactic(auto)]

mod differences;
mod laws;
mod lines;
mod notes;
mod printer;
mod putting;
mod sending;
mod valuations;

pub use differences::{DifferenceShown, send_count, send_difference};
pub use laws::{limits_are_as_stated, symbol_lines_are_printed};
pub use lines::{SwitchShown, SymbolLines, ToldLine};
pub use notes::{Notes, WaveNote};
pub use printer::SymbolPrinter;
pub use putting::put_told;
pub use valuations::put_valuation;

/// How many variables are all told.
pub const MOST_TOLD: usize = 64;
