//! A step of a machine's parts whose states are truths in many columns.
//!
//! The main function is [`advance`], over any maker of truths: the codes of the marked parts run once, for all columns, on
//! the old rails, and the nodes that change in some column take their next rails. The layer above uses its contract: in
//! each column whose rails are states it is the step of these parts alone, where the marks serve all columns, and it tells
//! whether some column changed. A maker may run out; then all rails and marks are as before.
//!
//! ```text
//! an inverter a -> out; a is the function x of a variable: a step runs the inverter's code once, and out is "not x"
//! ```
//!
//! Nothing of the changed columns is computed but whether there are any: two rails are compared as a whole, which for
//! words is one comparison and for functions of a decision graph one of their places. Who wants to know which columns
//! changed evaluates by [`evaluate_all`], looks at the changes, and takes them over by [`take_over`].
//!
//! For the proofs of crates above: `ColumnLemmas` (the states of a column and its rails), `KeptLemmas` (what stays when the
//! maker grows), `FittingLemmas` (columns that fit a graph, and what a step is there). They cite `NotingLemmas`,
//! `EvaluationLemmas`, `TakingLemmas` and `StepLemmas` too, whose heads say what they are of.
//!
//! After Bryant, Beatty, Brace, Cho and Sheffler, "COSMOS: A Compiled Simulator for MOS Circuits", 1987.
#![tactic(auto)]

mod evaluation;
mod noting;
mod stepping;
mod taking;
mod workspace;

pub use evaluation::evaluate_all;
pub use stepping::{advance, mark_again};
pub use taking::take_over;
pub use workspace::{TruthChange, Workspace, workspace_for};
