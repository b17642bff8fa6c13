//! Two circuits that are compared by a symbolic script: it runs in both, one after the other, and what their waveform lines show is
//! compared under all valuations.
//!
//! The main call is [`equiv`]. Both runs go over one maker of functions, so a session is a value of the caller that takes a maker
//! and gives it back: a [`SharesMaker`], made by a [`SessionStart`]. The layer above uses that what was written is the answer that
//! `IsEqualAnswer` of `symbol_meaning` says; where memory ran out or the output couldn't be written, a part of it; and where
//! vertices ran out at a line, nothing.
//!
//! ```text
//! equiv(alloc, symbols, first, second, text, None, variables, sink, analyst)
//!     writes `equal 3` and ends with End::Done, or writes `differ 1 out 0 X where $a=1`, `different 1`, or
//!     `first net: script line 2: E1 UnknownNode`
//! ```
//!
//! The lines are obeyed with `Notes` as who hears them. A session tells no hearer which words are watched: so each line is read here
//! too, before it is obeyed, and what it watches is noted once it was. Behind each line the session may let functions go that neither
//! it nor the notes of both runs need.
#![tactic(auto)]

mod comparison;
mod ending;
mod fault;
mod noting;
mod runs;
mod sharing;
mod tidying;
mod words;

pub use comparison::equiv;
pub use fault::EqualFault;
pub use sharing::{SessionStart, SharesMaker};
