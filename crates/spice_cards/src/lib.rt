//! Reads the cards of a SPICE deck: its transistors and calls, its subcircuits, models and global names.
//!
//! The main type is `Deck`, made by `read_cards`. The layer above uses the contract of `read_cards`
//! together with that of `folded`: they give `cards_of` of the text, what its cards say in the order of
//! its lines, or the refusal of the first line that has one. A line's refusals stand in the order of
//! `DeckWhat`; those of the expansion, which a layer above finds, come behind. `deck_line` is the line
//! that is printed for either, and `cause_text` its code.
//!
//! ```text
//! let text = folded(alloc, b"two gates\n.subckt inv a y\nm1 y a 0 0 n\n.ends\nx1 in out inv\n")?;
//! let deck = read_cards(alloc, keys, None, &text)?;
//! deck.outside()        one part: a call of inv with the nodes in and out, at line 5
//! deck.find(b"inv")     ports a and y, and one transistor, at line 3
//! read_cards(alloc, keys, None, b"t\nq1 a b c m\n")      is refused at line 2: BadCard
//! ```
//!
//! The words of a deck that count are copied one behind the other. They stand in one list, each by its
//! place among all bytes, and a part has the place of its words in that list, in numbers of 32 bits, so
//! that the cards of a long text take little more than their words; the text itself may be let go.
//!
//! For the proofs of crates above: `VisibleLemmas` says that the words of the parts of a deck that
//! isn't refused are visible names, and that each part has those that it needs; `ReadingLemmas` that
//! what a name stands for is as all entries of its table are; `FrontLemmas` that the cards of a text
//! are those of its front. `Worked` has the text of a worked deck. They cite `PlaceLemmas` too, whose
//! head says what it is of.
//!
//! The cards are those of Nagel and Pederson, "SPICE (Simulation Program with Integrated Circuit
//! Emphasis)", 1973, in this project's profile: docs/FORMATS.md has it whole.
#![tactic(auto)]

mod cards;
mod deck;
mod fault;
mod laws;
mod parts;
mod places;
mod pool;
mod reading;
mod report;
mod sorts;
mod table;
mod words;

pub use cards::TRANSISTOR_WORDS;
pub use deck::{Deck, Subcircuit, folded, read_cards};
pub use fault::{DeckFault, DeckRefusal, DeckWhat};
pub use laws::limits_are_as_stated;
pub use parts::{Part, Parts};
pub use report::{cause_text, deck_line};
pub use sorts::{PartSort, Strength};
pub use words::Words;
