//! A step of a compiled machine's parts: the marked ones are evaluated, and then the changes are taken over.
//!
//! `advance` takes a step, plain or joining, over what it reads, which is in `part_steps`. If a `vicinity::Wide` is handed
//! in, what is awake of its groups takes part in the step. The layer above uses that each member of a marked part gets what
//! its part's code gives, and each node that is awake its steady state, that the parts are marked which read a node that
//! changed, and that no step takes memory.
//!
//! ```text
//! an inverter a -> out whose part is marked, as out is to change: out takes what the code gives, and the mark is gone
//! the parts that read out are marked, and no other
//! ```
//!
//! For the proofs of crates above: `AdvanceLemmas` (what a step does, from what was noted of it).
//!
//! After Bryant, Beatty, Brace, Cho and Sheffler, "COSMOS: A Compiled Simulator for MOS Circuits",
//! 1987.
#![tactic(auto)]

mod stepping;

pub use stepping::{advance, is_any, mark_again};
