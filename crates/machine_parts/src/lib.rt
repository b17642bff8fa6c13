//! The parts of a compiled machine: which nodes they have and read, which of them are marked, and what a step of
//! them is. There is no code: the layers above use the definitions and the lemmas.
//!
//! The main type is `MachinePart`: the code of a group with the nodes that it stands for. A part's members are the
//! nodes whose next states its code gives; a step evaluates the marked parts, all under the same old state. Nothing
//! here speaks of a graph or of its groups.
//!
//! ```text
//! an inverter a -> out: one part, whose map is out, a and the rails; out is its member, and it reads a
//! marked: a step gives out what the code gives, and the part is marked after it if a node that it reads changed
//! ```
//!
//! For the proofs of crates above: `PartLemmas` (what a part has and gives), `SetMarks` and `MarkLemmas` (marks and
//! lists of marked parts), `MakingLemmas` and `MachineLemmas` (what lets parts run), `EditingLemmas`, `OwnerLemmas`,
//! `CaseLemmas` and `NumberLists`.
//!
//! After Bryant, Beatty, Brace, Cho and Sheffler, "COSMOS: A Compiled Simulator for MOS Circuits",
//! 1987.
#![tactic(auto)]

mod part;

pub use part::MachinePart;
