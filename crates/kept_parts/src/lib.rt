//! The parts of texts that are kept: the code of each text, over the nodes of its group.
//!
//! `numbered_texts` finds the texts of all groups and holds each distinct one once; `TextUses` knows the text of each
//! part by its number; `parts_by_number` and `parts_of` make the parts. The layers above use that a part's code
//! means its text, that the number of texts in use is that of the distinct ones, found without comparing texts
//! pair by pair, and that a cut of what is kept takes no text that some part has.
//!
//! ```text
//! two inverters and a nor: three parts, the first two of which share their code
//! TextUses: the inverter's text twice, and the nor's, 2 distinct
//! with the bound 1 both stay, and all other texts that are kept are cut
//! ```
//!
//! For the proofs of crates above: `GroupParts` (the parts of the texts of a graph's groups),
//! `BoundLemmas` (which texts are in use, and what a cut leaves). They cite `NumberLemmas`
//! too, whose head says what it is of.
//!
//! After Beatty and Bryant, "Fast Incremental Circuit Analysis Using Extracted Hierarchy", 1988.
#![tactic(auto)]

mod numbered;
mod parts;
mod uses;

pub use numbered::{NumberedTexts, numbered_at, numbered_texts};
pub use parts::{parts_by_number, parts_of};
pub use uses::TextUses;
