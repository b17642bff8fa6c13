//! What a script for several columns does when it runs, and what is answered of it.
//!
//! The main call is [`run_in_columns`], which obeys the lines of a script in a session over a stage of columns, prints their rows, and tells the
//! line of the refusal that ends it, if one does. The layer above uses that it tells what `IsColumnAnswer` of `specs/`
//! says: in each column the script runs as a plain script, whose values are the column's letters; the columns' lines are
//! written row by row, each after the number of its column; and all columns end at the same refused line, if at any.
//!
//! ```text
//! run_in_columns(alloc, session, "set a=01X\nphase\n", out, analyst)   writes `1 1 1 01`, `2 1 1 10` and `3 1 0 XX`
//! ```
//!
//! The proofs of crates above cite `RunLemmas` and `UniqueColumnAnswers`, whose heads say what they are of.
#![tactic(auto)]

mod columns;
mod laws;

pub use columns::run_in_columns;
pub use laws::columns_have_one_answer;
