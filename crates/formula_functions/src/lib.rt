//! Formulas made functions of a decision graph.
//!
//! The main type is [`NamedFunctions`], the names that stand for functions: a variable's name for the variable, a defined
//! name for the function of its formula. The main call is [`function_of`], which makes the function of a formula's
//! parts. The layer above uses its contract: under each valuation the function holds exactly if the formula does, whose
//! names have the truth values of their functions. In columns, a valuation for each, that is so in each column.
//!
//! ```text
//! names a and b stand for the variables 0 and 1; then $a&!$b is the function that holds in column 2 of 4 alone
//! ```
//!
//! What waits for an operand stands in a list, so brackets and negations may lie one in another as deep as a text is
//! long. A graph may have no room for one vertex more; all functions that there were keep what they mean.
//!
//! For the proofs of crates above: `TruthLemmas` (parts have the value of the formula that they are of) and `TableLemmas`
//! (what names stand for in a graph, and in one that extends it).
#![tactic(auto)]

mod laws;
mod making;
mod table;
mod waiting;

pub use laws::truths_are_of_formulas;
pub use making::function_of;
pub use table::NamedFunctions;
