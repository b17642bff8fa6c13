//! What a step of a compiled machine's parts reads, and the evaluation of the marked ones.
//!
//! `Agenda` has the marks and the list of the marked parts, `ReaderLists` the parts that read each node, `DenseParts` the
//! codes and maps of the parts side by side, and `Workspace` the room in which a step works. `evaluate_all` evaluates the
//! marked parts under the old state. The layer above, `part_advance`, uses that it notes a change for each member of a marked
//! part whose code gives another state, and for no other node, and that no step takes memory.
//!
//! ```text
//! 64 inverters with one code, all marked: they wait together and are run as one, a bit of a word for each
//! a change is noted for each out that is to change, and no state is written
//! ```
//!
//! For the proofs of crates above: `DenseLemmas` (seats tell codes and maps), `TakingLemmas` (the changes of a step are taken
//! over), `PuttingLemmas` (what is put in places of a list).
//!
//! After Bryant, Beatty, Brace, Cho and Sheffler, "COSMOS: A Compiled Simulator for MOS Circuits",
//! 1987.
#![tactic(auto)]

mod agenda;
mod bundles;
mod dense;
mod evaluation;
mod laws;
mod making;
mod putting;
mod readers;

pub use agenda::{Agenda, mark_all, numbers_below};
pub use bundles::Bundles;
pub use dense::{DenseParts, Seat};
pub use evaluation::{Workspace, evaluate_all};
pub use laws::{limits_are_as_stated, small_parts_fit};
pub use making::{
    Needs, all_owners, count_held, needs_of, own, parts_with_reads, widen_for_codes,
    widen_for_parts, workspace_for,
};
pub use putting::put_in;
pub use readers::ReaderLists;
