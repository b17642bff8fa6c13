//! A whole circuit as a listing.
//!
//! The one call is `list_circuit`. The layer above uses its contract: the listing is faithful, so its
//! step from each sound state is the unit step of the circuit, by all unblocked paths, and it has no
//! more instructions than the bounds of the groups together, and each distinct text of a group was
//! analysed once. A circuit in which some group is too large has none.
//!
//! ```text
//! an inverter a -> out      node 3 s out, t0 = .., next 3 t0 t1
//! ```
//!
//! After Bryant, Beatty, Brace, Cho and Sheffler, "COSMOS: A Compiled Simulator for MOS Circuits",
//! 1987.
#![tactic(auto)]

mod circuit;

pub use circuit::list_circuit;
pub use circuit_texts::BuildFault;
