//! A talk: lines are heard, and something is said behind each of them before the next one is asked for.
//!
//! `Talk` is the port of a talk: its model is the list of the lines that were heard, and of what was said behind
//! each. `Speaker` answers lines. `converse` lets a speaker answer each line as it comes, and its contract says so
//! by turns: what was said behind a line is the answer to it, whatever is heard after it.
//!
//! `LineTalk` is a talk over any reader and any outlet that can hand on what it took: its contract tells the talk by
//! the bytes of these two, and holds no list of turns. `real_talk` is one over standard input and any outlet, with
//! a prompt if a terminal asks. `MemTalk` is a talk in memory, which tells its turns. Of a line no more than a prefix of
//! `KEPT_BYTES` is kept; by the law `kept_prefix_tells_all` that serves.
//!
//! A talk may be given a note besides, for a human, which is nothing that is said.
//!
//! ```text
//! converse(&mut MemTalk::new(alloc, ["a", "b"]), &mut line, &mut echo)   says "a" behind a, and then "b" behind b
//! ```
#![tactic(auto)]

mod ahead;
mod conversing;
mod laws;
mod line_talk;
mod mem_talk;
mod outlet;
mod prompting;
mod real_port;
mod talks;

pub use conversing::{Broken, Speaker, converse};
pub use laws::kept_prefix_tells_all;
pub use line_talk::LineTalk;
pub use mem_talk::MemTalk;
pub use outlet::{Flush, StdWriter};
pub use prompting::Prompting;
pub use real_port::{RealTalk, real_talk};
pub use talks::{KEPT_BYTES, Talk};
