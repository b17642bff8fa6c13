//! What `set` and `charge` of a symbolic script do: they give nodes letters under all valuations at once.
//!
//! The main call is [`give`], on a session over the stage of a symbolic script, with a table of the functions that names stand for. The
//! layer above uses its contract: in each column it does what the command of a plain script does that the line is under the
//! column's valuation, and is refused as that is; where vertices or memory run out, nothing changed but that the stage's maker made
//! more functions.
//!
//! ```text
//! set a=$x b=1        in each column a is x there, and b is 1
//! set v=$x,$y,0       of a vector of three nodes each has its own letter
//! ```
//!
//! What an assignment gives nodes, `expect` wants of them. Both go in two steps: [`stand_ins`] are assignments of a plain script that
//! are refused as these are under each valuation, so the refusals of plain scripts are found by them, before a function is made;
//! [`letters_of`] then makes what an assignment says of each node, a [`SymbolLetter`].
//!
//! For the proofs of crates above: `StandLemmas` (stand-ins are refused as the assignments of each column are, and if they aren't
//! refused, each gives letters), `LetterLemmas` (letters stay while the stage's maker makes more) and `PlainLemmas` (the
//! assignments of a column by truth values that agree on their names; and what giving comes to beside kept states).
#![tactic(auto)]

mod fault;
mod giving;
mod items;
mod letters;
mod standing;

pub use fault::GivingFault;
pub use giving::give;
pub use items::formula_letters;
pub use letters::{SymbolLetter, letters_of};
pub use standing::stand_ins;
