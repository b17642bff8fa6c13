//! What an extracted netlist most often has wrong: nine kinds of findings, each a fact of the circuit.
//!
//! The main call is `findings_of`. The layer above uses its contract, `AreFindings` of the circuit: the
//! shortest lists of always closed switches that join the rails, and whole lists of floating nodes, of groups
//! that nothing drives or that have one rail alone, of dead switches, of supplies under other names, of groups
//! that are too large for a text, and of unused nodes. `text_of` writes their lines. Nothing is simulated.
//!
//! ```text
//! d Vdd m Vdd, d Vdd Gnd m, n a Gnd m:     shorted 1 2, floating a 1
//! ```
//!
//! For the proofs of crates above: `UniqueFindings`, that a circuit has one list of findings.
#![tactic(auto)]

mod closed;
mod conducting;
mod counted;
mod dead;
mod distances;
mod findings;
mod lines;
mod lists;
mod nodes;
mod shorts;
mod sides;
mod starts;
mod supplies;

pub use findings::{Findings, findings_of};
pub use lines::text_of;
