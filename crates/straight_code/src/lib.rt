//! Straight-line code.
//!
//! The main type is `Code`: instructions, each an And, an Or or a Not of constants, rails of inputs
//! and earlier results, and a pair of operands for each output. The layers above use that
//! `Code::run` gives what the code means, with one step counted for each instruction;
//! `Code::run_mapped` gives the same of the states of nodes, over one array of values. A `Part` is the
//! code of a group over the nodes of a whole circuit. Code for formulas is made in `formula_code`.
//!
//! ```text
//! t0 = h0 & l1, t1 = ! h0, and the output (t0, t1)      hi is whether input 0 may be 1 and input 1 may be 0
//! ```
//!
//! For the proofs of crates above: `ResultLemmas` (the results of instructions), `FlatLemmas` and
//! `RunMappedLemmas` (a run over the array of the dense form).
//!
//! After Bryant, Beatty, Brace, Cho and Sheffler, "COSMOS: A Compiled Simulator for MOS Circuits",
//! 1987.
#![tactic(auto)]

mod code;
mod flat;
mod laws;
mod part;

pub use code::{Code, Instruction, Operand, Output, instruction_value, output_state};
pub use flat::{FlatCode, FlatOutput, FlatStep, StepKind};
pub use laws::limits_are_as_stated;
pub use part::Part;
