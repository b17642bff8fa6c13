//! A session that is talked to: each line is obeyed when it is heard.
//!
//! The main call is `talk_in`, which lets a session in a circuit answer the lines of a talk, to its end or to `quit`. Its
//! contract is that of `converse`, by turns: what is said behind a line is the answer to it, `IsAnswer` of
//! `specs/Answers`. A line is answered as the script that has this line alone, from the data that the lines before it
//! left; a refused line says so and changes nothing, and the talk goes on. Besides the commands of scripts there are
//! `why NAME`, `echo WORD..` and `quit`, which `asked_of` tells from them.
//!
//! Of a refused line the cure is noted besides, for a human.
//!
//! `Teller` is the hearer of a session's lines: it says each at the port of a talk, which it owns.
//!
//! ```text
//! input a          says nothing
//! set b=1          says `line 2: E1 UnknownNode`
//! why out          says the two lines of `cosmos why`
//! echo a  b        says `echo a b`
//! quit             ends the talk
//! ```
#![tactic(auto)]

mod asking;
mod obeying;
mod reasons;
mod refusals;
mod speaking;
mod teller;

pub use asking::{Asked, asked_of};
pub use speaking::{Obeying, talk_in};
pub use teller::Teller;
