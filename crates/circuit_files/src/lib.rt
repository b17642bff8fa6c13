//! Reading files, and the netlist or the deck that one holds.
//!
//! `read_file` reads a file to its end, or to the first byte too many; `read_circuit` reads a netlist, piece
//! by piece, and `read_deck_file` a SPICE deck. The layer above uses that what they answer is the meaning of
//! the whole file's bytes, a circuit or a first refusal; that a refusal is answered only after the file was
//! read; and which file was started, and how much of it was read. The refused line or card is handed out besides,
//! for the word that the refusal is about.
//!
//! ```text
//! read_circuit(alloc, files, "inverter.sim", refused)   is Ok(Ok(circuit)), or Ok(Err(refusal)) with its line's number
//! read_file(alloc, files, "missing.cmd")                is Err(Stop::Read)
//! ```
//!
//! For the proofs of crates above: `WholeLemmas`, which files were read whole; `LowerLemmas`, that what a
//! netlist gives is a circuit. They cite `FeedingLemmas` and `MeaningLemmas` too, whose heads say what they
//! are of.
#![tactic(auto)]

mod reading;

pub use reading::{read_circuit, read_deck_file, read_file};
