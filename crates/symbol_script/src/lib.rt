//! The lines of a symbolic script, which leaves bits open and names them: what each asks for.
//!
//! The main type is [`SymbolLine`], and the main call is [`read_symbol_line`]. The layer above uses its contract: a line asks
//! for what `symbol_reading_of` of `specs/Lines.antt` says. `names_of_line` is what a line says of names.
//!
//! ```text
//! set a=$x b=1        values: a formula for a, and the letter 1 for b
//! let $c $a&$b        says of names
//! phase               a command of a plain script
//! report              is refused: it is none here
//! ```
#![tactic(auto)]

mod line;
mod reader;

pub use line::{Assignment, AssignmentList, SymbolLine, ValueVerb};
pub use reader::read_symbol_line;
