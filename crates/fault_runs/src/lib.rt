//! The answer to a list of faults: how the run of a script under each of them differs from the good one.
//!
//! The main call is `judge_faults`. It reads the list in the circuit that a netlist gives, runs the script
//! without a fault, and then once more under each fault of the list, from the start in a copy of the
//! circuit; the analyses of groups are kept from run to run. The rows of the good run are held (`good`). Each other
//! run is compared with it while its lines are told, by `told_verdicts`, and its verdict is written as soon as it is
//! known. A run ends at its first strong difference, where nothing after it would be analysed or kept (`early`). The
//! lines of the script are read once for all runs but the good one, and a stuck node changes their commands (`lines`).
//!
//! The layer above rests on its contract `told`, which is `AreJudgedFaults` of `fault_meaning`: the first
//! refused line of the list alone, or the line of the script that is refused in the good run alone, or a
//! line for each verdict in order and the line of the counts. All definitions, and the lemmas that the
//! proofs here cite, stand in that crate.
//!
//! ```text
//! judge_faults(alloc, inverter, b"..", b"open 1\nzero a\n", &mut out, &mut analyst)
//!     writes  fault 1 possible 1 out
//!             fault 2 detected 2 a
//!             faults 2 detected 1 possible 1 undetected 0 refused 0
//! ```
#![tactic(auto)]

mod bench;
mod early;
mod good;
mod judging;
mod lines;
mod list;
mod running;

pub use judging::judge_faults;
