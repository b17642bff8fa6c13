//! The stage of a symbolic script: the states under all valuations, and what moves them.
//!
//! The main type is [`SymbolStage`]: for each node two functions of the script's variables, where it may be 1 and where it may
//! be 0, and the code that takes steps of the circuit in these functions, once a build has made it. It is a `TruthStage` of
//! `column_stage`, with a column for each valuation: it may run out of vertices, and nothing in it counts columns. A node is
//! given `Letters`, two functions.
//!
//! ```text
//! start; in = x; a step of an inverter: out may be 1 where x is false, and 0 where it is true
//! ```
//!
//! A build takes all memory before it changes anything, and so does the room for an edit's new nodes. Functions live through
//! steps, phases, edits and builds. Between commands [`SymbolStage::tidy`] has the stage go on over a graph of what is needed alone,
//! once it has grown; what stands for functions outside goes on with the stage. In a session that is the work of [`Outside`].
//!
//! For the proofs of crates above: `StayingLemmas` (what stays of a stage, and of functions where its maker made more),
//! `NameLemmas` (names mean what they meant while the stage moves) and `TidyLemmas` (so do names and letters over another graph).
//!
//! After Bryant, "Boolean Analysis of MOS Circuits", 1987.
#![tactic(auto)]

mod building;
mod columns;
mod compacting;
mod given;
mod growing;
mod making;
mod outside;
mod stage;
mod tidying;

pub use given::Letters;
pub use outside::Outside;
pub use stage::SymbolStage;
