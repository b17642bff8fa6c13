//! What the lines of a symbolic script have that those of a plain one don't have: values with formulas in them, the
//! commands that name variables, and the variables themselves.
//!
//! [`read_symbol_value`] reads a value of `set`, `charge` or `expect`, and [`read_symbol_command`] one of the commands
//! `variables`, `let` and `vertices`. The main type is [`ScriptNames`], the names of the lines that were read so far:
//! [`ScriptNames::enter`] takes what a line names, and the layer above uses its contract, by which the variables stand
//! in the order of their first appearance and a line is refused exactly by `names_fault` of `specs/Names.antt`.
//!
//! ```text
//! $b{3:0}            for 4 nodes $b3, $b2, $b1 and $b0
//! 1,$a&!$b,x         for 3 nodes the letter 1, a formula, and the letter X
//! let $c $a&$b       names a and b, and defines c
//! ```
#![tactic(auto)]

mod commands;
mod items;
mod laws;
mod names;
mod values;

pub use commands::{SymbolCommand, read_symbol_command};
pub use items::{Item, read_items};
pub use laws::{limits_are_as_stated, no_variable_is_defined};
pub use names::{NameFault, ScriptNames};
pub use values::{SymbolValue, read_symbol_value};

/// The most items of a list, and the most names that a word of `variables` stands for.
pub const MOST_ITEMS: usize = 65_536;

/// The least and the greatest number of `vertices`.
pub const LEAST_VERTICES: u64 = 2;

/// The greatest number of `vertices`.
pub const MOST_VERTICES: u64 = 4_294_967_295;

/// The most variables of a script.
pub const MOST_VARIABLES: usize = 4_096;
