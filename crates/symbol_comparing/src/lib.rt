//! Two runs of a symbolic script that are compared: what their waveform lines show, under each valuation, word by word.
//!
//! The main call is [`compare`]. Both runs were noted over one maker of functions, `Symbols`, so two letters are the same under all
//! valuations exactly if their functions are one, and where they aren't the functions in which they differ have a first
//! valuation. The layer above uses its contract: the answer is that of `AreCompared` of `symbol_meaning`, told by
//! `compared_text`; what was written before a fault is a part of it.
//!
//! ```text
//! compare(alloc, &mut symbols, variables, &first, &second, buffer, sink)
//!     writes `equal 3` and ends with End::Done, or writes `differ 1 out 0 X where $a=1`, `different 1`
//! ```
#![tactic(auto)]

mod comparing;
mod fault;
mod rails;
mod words;
mod workspace;

pub use comparing::compare;
pub use fault::{CompareFault, fault_of_graph};
pub use rails::Rails;
