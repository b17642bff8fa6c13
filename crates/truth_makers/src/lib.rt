//! What stands for truths in many columns: the bits of words, and functions of variables.
//!
//! The main types are [`WordTruths`], a maker whose truths are words, with a column for each of so many bits, and [`Symbols`], one
//! whose truths are functions of a decision graph, with a column for each valuation of its variables. The layers above
//! use that both are makers as `truth_columns` wants them, and of `Symbols` besides the contracts of `first`, the
//! valuation of the first column in which a truth holds, of `missed`, where a node isn't as it is wanted, of
//! `state`, the state that it has in all columns, and of `compact`, which lets go what isn't wanted any more.
//!
//! ```text
//! in column 5 of three variables the first and the last are true
//! symbols.first(alloc, both)?            is the valuation of the least column in which it holds
//! symbols.state(hi, lo)                  is None if the node's state depends on a variable
//! ```
//!
//! Columns are in the order of their valuations, false before true, the first variable counting most.
//!
//! For the proofs of crates above: `SymbolLemmas` (columns are the valuations of the variables), `CompactLemmas` (what was
//! compacted), and `LetterLemmas` (the state that a node has in all columns, or two columns in which it differs).
#![tactic(auto)]

mod compacting;
mod expecting;
mod showing;
mod symbols;
mod words;

pub use symbols::Symbols;
pub use words::{Never, WordTruths};
