//! The verdict on a run, from its lines as they are told: no trace of the run is held.
//!
//! The main type is `Compare`, a hearer that compares the rows of waveform lines with those of a good run, which
//! `told_lines::Notes` kept, and holds the first strong and the first weak difference. A law says that its
//! `verdict` is the one of `fault_sim` on the run's trace, and it takes no memory.
//!
//! ```text
//! let mut out = Compare::new(good.rows());
//! out.tell(0, Line::Wave { n: 1, k: 1, mark: false, values: &[Tern::One] })?
//! out.verdict(None)      is Verdict::Detected { row: 1, entry: 0 }, where the good row has 0 there
//! ```
#![tactic(auto)]

mod compare;
mod entries;
mod laws;

pub use compare::{Compare, Place};
pub use laws::verdicts_are_compared;
