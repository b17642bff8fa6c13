//! The word that a refusal is about, which its cure names.
//!
//! `net_word`, `card_word`, `script_word`, `symbolic_word` and `list_word` find it in the refused line, by the refusal's
//! code; of a script's line the circuit and the vectors at the refusal are seen besides. `card_at` is a deck's card, whose
//! words may stand on several lines. `help_texts` says at its cures which word each code is about; if the line has
//! no such word, it is the line's first one.
//!
//! A word is for a human alone, and no clause says which one it is: these functions are safe and end, in a time
//! that goes with the text's length. Tests show the words.
//!
//! ```text
//! net_word(FaultCode::N3Format, b"| units: 1 format: UCB")                    is UCB
//! card_word(DeckWhat::NoSubckt, b"x1 a b inv w=1u")                           is inv
//! script_word(FaultCode::S6NotInput, b"set a=1 b=0\n", 1, circuit, vectors, 1)    is b, if a is an input node
//! symbolic_word(alloc, FaultCode::S4BadValue, b"let $x 1\n", 1, circuit, vectors)  is 1
//! ```
#![tactic(auto)]

mod cards;
mod line_parts;
mod lists;
mod nets;
mod scripts;
mod symbols;

pub use cards::{card_at, card_word};
pub use lists::list_word;
pub use nets::net_word;
pub use scripts::script_word;
pub use symbols::symbolic_word;
