//! Analyses of groups, kept under their texts across edits.
//!
//! The main type is `Kept`: texts with code that groups with the same text share, the most recently used
//! text first, and perhaps a bound on their number. The layers above use that each code means its own text,
//! and that `ensure` has exactly the texts analysed that weren't kept, each once, in order of first
//! appearance; that it moves the present texts to the front, and cuts what is past the bound, but no present
//! text; and that the analyst releases what is cut. Who analyses is an `Analyst` of `group_analysis`, whose
//! surface is passed on.
//!
//! ```text
//! two inverters, then a nor: ensure has two texts analysed, and answers 2
//! a third inverter is added: ensure has none analysed, and answers 0
//! with the bound 1, and the inverters alone: the nor's text is cut, and is new when it comes again
//! ```
//!
//! `fill` and `put_first` are the two halves of `ensure`: if no text is new the second alone serves, and it
//! takes no memory. The laws say that the distinct ones of some present texts serve in their place
//! (`distinct_texts_serve`), and that a further build with the same present texts changes nothing
//! (`builds_settle`).
//!
//! For the proofs of crates above: `NewTextLemmas` (the new texts of a list, from its front on), `UseLemmas` (what
//! is kept once texts were used), `DistinctLemmas` (it is the same for the distinct ones of the texts),
//! `SettleLemmas` (the present ones stand in front of it, and a further build leaves it), `OrderLemmas` (what one build
//! after another leaves, however the present texts are listed, and wherever what is new stands).
//!
//! After Beatty and Bryant, "Fast Incremental Circuit Analysis Using Extracted Hierarchy", 1988.
#![tactic(auto)]

mod kept;
mod laws;
mod recent;

pub use group_analysis::Analyst;
pub use kept::Kept;
pub use laws::{builds_settle, distinct_texts_serve};
