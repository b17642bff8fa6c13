//! A text that contracts alone see.
//!
//! The type is `UnseenText`. What holds one keeps for its contracts what it would not keep for itself: all that was put into a
//! writer, or the script whose lines a session obeys. When the program runs there is no text: a value takes no bytes, and what is
//! called on it does nothing. Nothing is proved of a program by it that its own contracts don't say.
//!
//! The proofs of its functions follow the code by hand: they pick the text. `TextWalks` of `proofs/` has what they share, for other
//! values that contracts alone see.
//!
//! ```text
//! UnseenText::new().with(b"set a=1\n").with(b"phase\n")     is the text "set a=1\nphase\n", to contracts
//! ```
#![tactic(auto)]

mod text;

pub use text::UnseenText;
