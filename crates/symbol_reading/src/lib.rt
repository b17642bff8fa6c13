//! What is read of a symbolic script before its first line is obeyed: its variables, how many vertices there may be, and the first
//! line that is refused by its names.
//!
//! The main call is [`read_script`]. The layer above uses its contract: the answer is what `variables_of`, `bound_of_script` and
//! `stop_of` of `symbol_meaning` say of the script's lines. Definitions are made functions where their lines are obeyed, so no
//! formula is kept.
//!
//! ```text
//! let $c $a&$b / vertices 100 / set x=$c / let $a $b
//!     has the variables a and b, up to 100 vertices, and is refused at line 4: S18 NameDefined
//! ```
#![tactic(auto)]

mod naming;
mod reading;

pub use naming::{defined_name, used_names};
pub use reading::{ScriptRead, read_script};

/// How many vertices there may be if no line says so.
pub const USUAL_BOUND: u32 = 16_777_216;
