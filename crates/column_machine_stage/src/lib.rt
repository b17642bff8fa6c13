//! The compiled machine of columns as a stage: the states of up to 64 columns, moved by the code of their groups.
//!
//! The main type is `ColumnMachineStage`, a `Stage` of `column_stage`: both rails of each node's states in words, bit i for
//! column i, and the `ColumnMachine` that moves them, if there is one. If each group has a text all columns step together,
//! by code that is run once for all of them; if some group is too large for one, they take turns on one machine. The words
//! are held once, by the machine if there is one.
//!
//! The machine is built at the first command that wants it, over the analyses that are kept. Where columns step together it
//! lives through edits of the circuit, as that of one column does, but that an edit lets it go which makes a group that is too
//! large for a text. Where they take turns the texts of a build stand in front of all others that are kept; the room that is
//! taken for an edit lets that machine go, and a build makes it anew that accepts larger groups or smaller ones than the one
//! before, or goes by a bound on what is kept.
//!
//! The layer above uses a session over it, whose contract says which acts a command does to its stage. What an act does to
//! the columns is `DidAct`: after a step each column took the unit step, and after a phase each settled, with its own count.
//!
//! ```text
//! `set a=01X`, then `phase`, in three columns: a is placed, the machine is built, and settles each column
//! ```
//!
//! The proofs of crates above cite the definitions of `Stages` and no lemma of this one.
//!
//! After Bryant, Beatty, Brace, Cho and Sheffler, "COSMOS: A Compiled Simulator for MOS Circuits", 1987; the columns
//! are the bits of words, an old device of parallel simulation.
#![tactic(auto)]

mod columns;
mod laws;
mod stage;
mod words;

pub use laws::{acts_keep_columns, steps_step_each_column};
pub use stage::ColumnMachineStage;
