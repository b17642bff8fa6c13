//! What a symbolic script tells of the states of all columns at once: waveform lines, names that are shown, and nodes that are
//! looked at.
//!
//! The main calls are [`tell_wave`], [`show`] and [`look`], over a session whose stage is a `SymbolStage`. The letter of a node
//! is found by its two functions: it is one under all valuations if they are constants. The layer above uses their contracts:
//! the lines that are told are those of the plain scripts under all valuations together, `AreMerged` of `symbol_meaning`; at a
//! fault a front of them was heard. A refusal is the plain command's, and is found before anything is told.
//!
//! ```text
//! let told = session.settle_in_all()?;
//! tell_wave(alloc, &session, n, told, out)?          tells `1 12 ?????` of the five nodes of an adder's sum
//! show(alloc, &session, &names, out)?                tells `show sum ?????`
//! ```
//!
//! For the proofs of crates above: `MergingLemmas` (lines of all columns together), `RailLemmas` (the rails that are told have the
//! states of their nodes) and `ObeyingLemmas` (a line of a symbolic script that shows names or looks at nodes is obeyed in all
//! columns by what was told, or refused in all).
#![tactic(auto)]

mod letters;
mod lines;
mod looking;
mod showing;
mod telling;
mod waves;

pub use looking::look;
pub use showing::show;
pub use waves::tell_wave;
