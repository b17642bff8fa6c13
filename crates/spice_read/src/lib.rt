//! Reads a SPICE deck: its subcircuits are expanded into one circuit, or its first refused card is told.
//!
//! The one call is `read_deck`. The layer above uses its contract: it gives `circuit_of` of the text, the
//! circuit that the deck's transistors make in the order of the expansion, each call replaced by the cards
//! of its subcircuit, or the first refusal with its line. The cards come from `spice_cards`, which finds the
//! refusals of lines; those of calls and of transistors are found here, in the order of the expansion.
//!
//! The definition is a list of steps: a call that opens, a transistor that is placed, a refusal. What is
//! made is a fold over it, so that the most calls and the limits of the circuit are those of the fold. That
//! the circuit is that of the placed transistors alone is a law: `decks_are_expanded`.
//!
//! ```text
//! read_deck(alloc, keys, b"two gates\n.subckt inv a y\nmn y a 0 0 n\n.ends\nx1 in m inv\nx2 m out inv\n")
//!     is a circuit with nodes Gnd, Vdd, in, m, out
//! read_deck(alloc, keys, b"t\n.subckt s a\nx1 a s\n.ends\nx1 b s\n")      is refused at line 3: Recursion
//! ```
//!
//! Inside a call a name that is neither a port nor fixed stands for a node of that call alone, named by the
//! path of the call, a dot and the name: `x1.x2.n`. A name has no greatest length. It is written down where
//! a transistor has it, and nowhere before: a call keeps no more than where the words of its card stand.
//!
//! For the proofs of crates above: `ReaderLemmas`, that a deck means what its front means.
#![tactic(auto)]

mod expansion;
mod found;
mod frame;
mod laws;
mod lookups;
mod making;
mod names;
mod open_call;
mod ports;
mod reader;

pub use expansion::{MOST_CALLS, MOST_OPEN};
pub use laws::{decks_are_expanded, limits_are_as_stated, the_last_place_of_a_port_counts};
pub use reader::read_deck;
