//! Reads a .sim netlist: its lines are the entries of a circuit, or the first that isn't is refused.
//!
//! The main call is `read_netlist`. The layer above uses its contract: it gives `netlist_of` of the
//! text, the circuit that the lines' entries give in order from the two rails alone, in profile 2
//! with the sizes that follow from its capacitances, or the refusal of the first line that has one,
//! with its number and its cause. That the refused line is the first one, and that each line before
//! it has its effect, is a law, stated line by line beside the definition:
//! `netlists_are_circuits_or_refused_lines`.
//!
//! `Reader` reads the same from pieces, wherever they fall, and never holds more than one line: it
//! stands for the text so far, `feed` makes it stand for the text followed by the piece, and
//! `finish` answers what `read_netlist` answers for that text. `read_netlist` is one `feed`.
//!
//! ```text
//! read_netlist(alloc, keys, b"p a Vdd out\nn a Gnd out\n")      is a circuit with nodes Gnd, Vdd, a, out
//! read_netlist(alloc, keys, b"n a Gnd out\nq a b c\n")          is refused at line 2: BadRecord
//! ```
//!
//! The format is the .sim format of the MIT and Berkeley circuit extractors, in this project's
//! profile: docs/FORMATS.md has it whole.
//!
//! For the proofs of crates above: `CircuitLemmas` says that a netlist that isn't refused is a circuit
//! with visible names, `MeaningLemmas` that it goes by the prefix of the text alone, and
//! `StandingLemmas` how what readers stand for is joined, piece by piece.
#![tactic(auto)]

mod fault;
mod header;
mod items;
mod laws;
mod pieces;
mod reader;
mod records;
mod sizing;
mod sums;

pub use fault::{NetFault, NetRefusal, NetWhat};
pub use laws::{
    capacitances_add_in_any_order, limits_are_as_stated, netlists_are_circuits_or_refused_lines,
    the_last_strength_counts,
};
pub use pieces::{MOST_HELD, Reader, read_netlist};
