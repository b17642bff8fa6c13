//! The lines that are told while a script runs, as values, and who hears them.
//!
//! The main type is the trait `Lines`: what hears one line after the other. Its contract has one meaning for each
//! hearer, `hear`, which is what a line more does to what was heard: so what all lines come to is a fold, `hear_all`.
//! Who tells lines knows no text of them. `Printer` writes each to a sink, `Notes` keeps the rows of waveform
//! lines, `Sums` counts what these tell, and `Silence` drops all; `Met` goes round another hearer and remembers
//! whether an expectation was not met. A hearer that never fails, as `Sums` and `Silence`, says by `Unfailing` no more
//! than what a line does to it.
//!
//! ```text
//! let mut out = Printer::new(alloc, sink, true)?;
//! out.reserve(COLUMN_ROOM + WAVE_LINE_ROOM)?;
//! out.tell(0, Line::Wave { n: 7, k: 2, mark: true, values: &[Tern::One, Tern::Unk] })?
//!     writes `1 7 2* 1X` and LF
//! ```
//!
//! A row, the waveform lines of all columns, is told as one value too: who writes sends it as one text.
//!
//! The proofs of crates above cite `HearingLemmas`, `RowLemmas`, `PrintingLemmas`, `MetLemmas`, `NotingLemmas` and
//! `SumLemmas`, whose heads say what they are of.
#![tactic(auto)]

mod laws;
mod lines;
mod met;
mod notes;
mod printer;
mod putting;
mod rows;
mod silence;
mod sums;
mod unfailing;

pub use laws::{lines_are_printed, rows_are_noted, sums_are_totals};
pub use lines::{Line, Lines};
pub use met::Met;
pub use notes::{Notes, WaveRow};
pub use printer::Printer;
pub use putting::put_told;
pub use silence::Silence;
pub use sums::Sums;
pub use unfailing::Unfailing;
