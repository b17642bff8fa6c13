//! That each line of a symbolic script has an outcome in all columns: definitions and lemmas alone.
//!
//! `Families` of `specs/` has the data of each column of a session (`data_in`), and says what columns are those of one session
//! (`IsFamily`). The law [`symbolic_lines_run`] says that lines run in all columns of a session, whatever they are: so if a
//! session is broken off, since it lacks memory or vertices, what was heard is a front of what some right run tells.
//!
//! For the proofs of crates above: `BreakLemmas` (what was heard of a line that was broken off), `LineLemmas` (what a line comes
//! to in all columns), `FamilyLemmas` (columns that are those of one session), `MergeLemmas` (lines that can be told
//! together are), `ToldLemmas` (something is told of each assignment of an `expect`).
//!
//! ```text
//! set a=$x / phase      both lines are obeyed in all columns, or the first that isn't is refused in all
//! ```
#![tactic(auto)]

mod laws;

pub use laws::{symbolic_lines_run, symbolic_scripts_have_answers};
