//! The top call: from the words of a command line, and what the named files hold, to a status and
//! the bytes that are written.
//!
//! `run` is the call that the program makes. Its contract is the promise of the whole: where the
//! files and the sink tell their bytes, the status and the bytes written are an answer of the
//! words, that is, the text of the netlist or the deck has its meaning as a circuit or a first refused line, the
//! script's lines have their effects in order from the start, every `step` is the unit step by
//! unblocked paths in the circuit and the state at that point, and every phase settles by such
//! steps. After a fault or lack of memory the bytes are a prefix of such an answer. By the law `answers_are_unique` of
//! `symbol_app` there is one answer, unless the words ask for a listing or for reasons.
//!
//! `talk` holds the talk about a netlist or a deck, by its name; its contract says by turns that each line was answered
//! before the next one was asked for. `dump` writes the value change dump of a script's run, as it goes. Runs under all
//! valuations are in `symbol_app`, which reads their circuits by `read_named` and tells a refusal by `refuse_circuit`.
//!
//! ```text
//! run(alloc, ["sim", "inverter.sim", "inverter.cmd"], files, out)   is Status::Done
//! run(alloc, ["sim-spice", "gates.sp", "gates.cmd"], files, out)    is Status::Done
//! run(alloc, ["check", "inverter.sim"], files, out)                 is Status::Done, and writes
//!     `ok nodes 4 switches 2 names 2`
//! run(alloc, ["lint", "gates.sp"], files, out)                      is Status::Mismatch if it writes a finding
//! run(alloc, ["large", "inverters", "1", "2"], files, out)          is Status::Done, and writes
//!     `large nodes 5 switches 4 lines 4 steps 4 marks 0 zeros 4 ones 4 unknown 0`
//! run(alloc, ["why", "inverter.sim", "inverter.cmd", "out"], files, out) is Status::Done, and writes
//!     the line of a reason why `out` may be 1 at the script's end, or that there is none, and that of 0
//! run(alloc, ["cover", "inverter.sim", "inverter.cmd"], files, out) is Status::Done, and writes
//!     a line for each node that was never 0, or never 1, and one that counts the nodes
//! run(alloc, ["faults", "inverter.sim", "inverter.cmd", "inverter.faults"], files, out) is Status::Done, and writes
//!     a line for the verdict on each fault of the list, and one that counts them
//! run(alloc, ["batch", "inverter.sim", "3", "columns.cmd"], files, out) is Status::Done, and writes
//!     the waveform lines of the three columns row by row, each after the number of its column
//! run(alloc, ["help", "del"], files, out)                           is Status::Done, and writes
//!     what the command `del` of a script does
//! ```
#![tactic(auto)]

mod columns;
mod dumping;
mod faults;
mod named;
mod noting;
mod reports;
mod talking;
mod top;

pub use dumping::dump;
pub use named::{CircuitRefusal, read_named, refuse_circuit};
pub use run_ends::{Status, Stop};
pub use script_meaning::scripts_end_at_their_first_refused_line;
pub use talking::talk;
pub use top::{end_status, run};
