//! Worked nets that tests share, with their groups' texts and the states in which they are tried.
//!
//! Each net has a few transistors, as an engineer would draw it, and is a netlist. Tests of groups, of their
//! formulas and of listings take their nets from here, read them by `read_netlist`, and go through all states by
//! their numbers.
//!
//! ```text
//! let circuit = read_netlist(alloc, TableKeys::fixed(), SHARED_CHARGE)?;
//! for (text, nodes) in &texts_of(alloc, circuit.graph())? { .. }
//! numbered_state(alloc, &[Some(Tern::Zero), None, None], 5)?      is 0, X, 1: 5 is 12 to the base 3
//! ```
#![tactic(auto)]

mod nets;
mod states;
mod texts;

pub use nets::{
    BLOCKED_IN_THE_MIDDLE, GATED_BY_A_MEMBER, GATED_BY_A_RAIL, INVERTER, INVERTERS,
    RATIOED_INVERTER, RING_AND_TWO_INVERTERS, SHARED_CHARGE,
};
pub use states::{count_states, numbered_state};
pub use texts::texts_of;
