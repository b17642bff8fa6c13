//! Formulas over named variables, as scripts write them.
//!
//! The main type is [`Formula`], the parts of a formula in the order in which they are evaluated, and the main call is
//! [`read_formula`]. The layer above uses its contract: a formula is read exactly from the texts that the grammar
//! `Spells` of `specs/Formulas.antt` allows, and it is theirs.
//!
//! ```text
//! $a&!$b|$c                is ($a & !$b) | $c: `!` binds tightest, then `&`, then `^`, then `|`
//! $a^$b^$c                 is ($a ^ $b) ^ $c: each groups to the left
//! !($x1.q&$a[3])           has the names x1.q and a[3]
//! $a&1                     is no formula: a letter is no part of one
//! ```
//!
//! What waits for an operand stands in a list, so brackets and negations may lie one in another as deep as a text is
//! long.
//!
//! For the proofs of crates above: `GrammarLemmas` (a text writes one formula alone, and that is read), `ReadLemmas`
//! (what the grammar allows is read) and `WrittenLemmas` (what is read the grammar allows).
#![tactic(auto)]

mod bytes;
mod formula;
mod laws;
mod reader;
mod waiting;

pub use bytes::is_name;
pub use formula::{Formula, Part, Sign};
pub use laws::formulas_are_of_the_grammar;
pub use reader::read_formula;
