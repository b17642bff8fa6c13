//! The text of a value change dump, for viewers of waveforms.
//!
//! The main type is `Dump`, the writer. The layer above uses `finish`: the sink got `finished` of what was
//! told, or at its one fault a prefix.
//!
//! `dump_of` is the dump of a run, by what the run did: the words that it watched, the states that it
//! set and those that its steps passed through, and the lines that it wrote. The laws say that the codes
//! of its entries are unique and visible, that no comment ends before its line does, and that what a
//! writer tells scene by scene, each step state by state, is this text.
//!
//! ```text
//! an inverter a -> out, watched, a set to 1, and a phase:    $var wire 1 ! a $end .. #0 $dumpvars 1! x" $end #1 0" #2
//! ```
//!
//! IEEE Standard 1364, section 18.
#![tactic(auto)]

mod changes;
mod dump;
mod entries;
mod header;
mod laws;
mod marking;
mod pen;
mod putting;

pub use dump::Dump;
pub use laws::{codes_are_unique, codes_are_visible, comments_end, dumps_are_told};
