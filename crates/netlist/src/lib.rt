//! A circuit: a switch graph whose nodes have names, and its edits.
//!
//! The main type is `Circuit`. Contracts see it as a `CircuitData`: the graph, the names in use with
//! their nodes, and the profile. Each edit has a function of `specs/Edits.antt` that gives the
//! circuit after it, and one that gives its refusal; the layers above use the edit's contract, that
//! it makes exactly that circuit, that it is refused exactly so, and that a refusal changes nothing.
//! Each circuit is well formed (`IsCircuit` of `specs/Circuits.antt`): so no name stands twice.
//!
//! ```text
//! let mut circuit = Circuit::new(alloc, Profile::One)?;
//! circuit.add_switch(SwitchKind::NChan, 2, b"a", b"Gnd", b"out")?     is 1: nodes a and out are made
//! circuit.find(b"GND!")                                               is Some(0)
//! circuit.alias(b"out", b"y")?                                        y is one more name of out
//! circuit.rewire(1, b"a", b"Gnd", b"y2")?                             its drain is now a new node
//! circuit.del(1)?                                                     1 is never a number again
//! ```
//!
//! A circuit whose names come from a text is made by `Circuit::with_keys`, so that the text's author
//! can't choose names that all fall into one place of the table of names.
//!
//! For the proofs of crates above: `KeptLemmas` and `EditLemmas` say that each edit keeps a circuit
//! well formed, `EditLemmas` also which nodes and places an edit of transistors makes and that the
//! nodes' names stay visible, and `NameLemmas` which node a name stands for as names are added. They
//! cite `NamingLemmas` too, whose heads say what they are of.
//!
//! After Bryant, "A Switch-Level Model and Simulator for MOS Digital Systems", 1984.
#![tactic(auto)]

mod circuit;
mod fault;
mod laws;
mod names;
mod strengths;

pub use circuit::Circuit;
pub use fault::EditFault;
pub use laws::{limits_are_as_stated, removed_numbers_stay_free};
pub use strengths::usual_strength;
pub use switch_paths::{GND, RAILS, VDD};

/// The most nodes of a circuit, the rails included.
pub const MOST_NODES: usize = 1_000_000;

/// The most transistors of a circuit.
pub const MOST_SWITCHES: usize = 2_000_000;
