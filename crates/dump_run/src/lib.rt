//! A script whose run is written as a value change dump.
//!
//! The main call is `dump_script`, which runs the lines of a script from the start in a circuit and writes a dump of the run as it goes.
//! The layer above rests on its contract: `IsDumped` of `specs/Dumped`, whose `Dumps` says what the lines tell, scene by scene, and
//! which of them is refused; the dump's text is that of `wave_dump`.
//!
//! ```text
//! dump_script(alloc, inverter, b"input a\nwatch a out\nset a=0\nphase\n", out, analyst)
//!     writes the header with the words `a` and `out`, `#0` and their values, `#1` and `1"`, and `#2`
//! ```
//!
//! For the proofs of crates above: `UniqueDumps`, that a script has one dump.
#![tactic(auto)]

mod laws;
mod script;

pub use laws::{dumps_are_those_of_runs, scripts_have_one_dump};
pub use script::dump_script;
