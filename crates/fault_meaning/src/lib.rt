//! What the answer to a list of faults is: how the run of a script under each of them differs from the good
//! one.
//!
//! The main definition is `AreJudgedFaults` in `specs/Judging`: the first refused line of the list alone, or
//! the line of the script that is refused in the good run alone, or a line for each verdict in order and the
//! line of the counts. What a run under a fault is stands in `specs/Traces`: the fault's commands have their
//! effects, and then the script runs as the stuck node changes it. `specs/Runnings` says it of a session that
//! goes on from run to run, and `specs/Early` where such a run may end before the script does.
//!
//! The types are plain: `ListedFault` and `ListRefusal`, what a list is read as; `Bearing`, what a line of a
//! script means for what is built; `VerdictCounts`. No session stands here, so the laws and lemmas are proved
//! beside it.
//!
//! ```text
//! the list "open 1\nzero a\n" of an inverter    is the faults Open(1) of line 1, Stuck(a, 0) of line 2
//! its answer    fault 1 possible 1 out
//!               fault 2 detected 2 a
//!               faults 2 detected 1 possible 1 undetected 0 refused 0
//! ```
//!
//! For the proofs of crates above: `ListLemmas`, how far a list was read; `ReadingLemmas`, that a script is
//! read as ever if no node is stuck, and soundly if one is; `BeginLemmas`, that a fault's commands are not
//! refused; `RunLemmas`, what a run under a fault comes to; `BenchLemmas`, that it is one of a bench;
//! `FromLemmas`, `PlaceLemmas` and `EndLemmas`, if it may end early; `JudgingLemmas`, how far the faults were
//! judged; `FrontLemmas`, that the prefixes of a script and a list are all that is read; `UniqueJudging`, that a
//! list has one answer.
#![tactic(auto)]

mod bearing;
mod counts;
mod laws;
mod listed;

pub use bearing::Bearing;
pub use counts::VerdictCounts;
pub use laws::{each_entry_is_named, each_text_is_analysed_once, faults_have_one_answer};
pub use listed::{ListRefusal, ListedFault};
