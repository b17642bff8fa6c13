//! Faults of a circuit: which a list names, how a script changes under one, and how the waveforms
//! of a run tell that there is one.
//!
//! The main types are `Fault` and `Verdict`. `read_fault` reads a line of a list of faults
//! in the circuit at the start. A fault of a transistor leaves the script as it is; for a node that is
//! stuck at a state, `masked` changes each command.
//! `fault_commands` are obeyed before the script. `first_in_row` compares the values of one waveform line
//! with those of the good run.
//!
//! What a run shows is a `Trace` of `specs/Traces`: the values of its waveform lines, the names of the watch list
//! and the line that was refused. The layers above rest on `IsVerdict` there: the verdict on the trace of a fault's
//! run beside the good one is the first strong difference, else the refused line, else the first weak difference.
//!
//! ```text
//! read_fault(&circuit, b"zero a")        is Ok(Some(Fault::Stuck(2, Tern::Zero)))
//! masked(alloc, &set_a_to_1, &circuit, &vectors, &[], Some((2, Tern::Zero)))
//!                                        is Ok(Left::Other(set a=0)): the node stays as it is
//! first_in_row(true, &[Tern::Zero, Tern::One], &[Tern::Unk, Tern::Zero])
//!                                        is Some(1)
//! ```
//!
//! The proofs of crates above cite `MaskLemmas`, that without a stuck node a command is masked to itself,
//! `UniqueVerdicts`, that a trace has one verdict, and `DifferenceLemmas`, whose head says what it is of.
#![tactic(auto)]

mod commands;
mod differences;
mod fault;
mod masks;
mod verdicts;

pub use commands::{fault_commands, stuck_node};
pub use differences::first_in_row;
pub use fault::{Fault, ListFault, read_fault};
pub use masks::{Left, masked};
pub use verdicts::Verdict;
