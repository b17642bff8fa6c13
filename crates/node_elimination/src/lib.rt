//! Boolean formulas for the steady states of a group's members, by eliminating nodes.
//!
//! The one call that computes is `analyse`: two formulas for each member of a group's text. The layer
//! above uses its clauses: in every state of the local nodes the formulas have the values of the
//! rails of the member's steady state in the local graph, and all formulas together reach no more
//! gates than the text's bound. `SymbolicAnalyst` makes code of them, for whoever keeps analyses.
//!
//! From the strongest level down there are three systems of equations: which members a definite path
//! of some strength reaches, and which an unblocked path drives to 1, or to 0. Each is solved by
//! eliminating one unknown after another, in any order. Two laws carry this: the equations are the
//! paths, and elimination keeps the least solution.
//!
//! ```text
//! x0 = b0 or (a01 and x1), x1 = b1: eliminating x1 gives x0 = b0 or (a01 and b1)
//! ```
//!
//! After Bryant, "Boolean Analysis of MOS Circuits", 1987.
#![tactic(auto)]

mod analysis;
mod analyst;
mod descent;
mod given;
mod held;
mod inputs;
mod laws;
mod level;
mod solve;
mod system;

pub use analysis::analyse;
pub use analyst::SymbolicAnalyst;
pub use laws::{elimination_keeps_the_solution, equations_are_the_paths, largest_texts_fit};
