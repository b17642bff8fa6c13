//! How a run ends, and what is answered of it: below all that answers, whether it runs a script or not.
//!
//! The main types are `End`, how a run ends that meets no fault, `Stop`, what ends it before its answer is
//! written, and `Status`, the exit status of the program. `refuse` writes the line of a refusal, and
//! `refuse_size` that of the first group of a circuit that is too large; both note the cure for a human, as
//! `note_cure` does, which is no part of what is written; `cure_text` is what is noted. `refuse_symbolic` and
//! `refuse_symbolic_named` do the same in a symbolic script, whose cures differ. An `Answer` is a status, a
//! text, and the texts of groups that were analysed; the layers above use that `IsTold` says that a right one was
//! written, or a part of one, and `IsToldBy` that its texts were analysed besides.
//!
//! ```text
//! refuse(alloc, FaultPlace::Script(1), FaultCode::E1UnknownNode, b"b", End::ScriptRefused, out)
//!     writes `script line 1: E1 UnknownNode`, and is Ok(End::ScriptRefused)
//!     notes of the script `:1: E1 UnknownNode: no node is called 'b'; ..`
//! Status::ScriptRefused.code()   is 4
//! ```
//!
//! For the proofs of crates above: `EndLemmas`, what is told in one sense is told in another; `SizeLemmas`,
//! that the first group that is too large has a cause.
#![tactic(auto)]

mod notes;
mod refusal;
mod status;
mod stop;

pub use notes::{cure_text, note_cure};
pub use refusal::{refuse, refuse_named, refuse_size, refuse_symbolic, refuse_symbolic_named};
pub use status::Status;
pub use stop::{End, Stop};
