//! What `expect` of a symbolic script does, under all valuations of its variables at once.
//!
//! The main call is [`expect`]: for each assignment the function of the valuations is made under which it isn't met, and of the
//! first of these a line is told. The layer above uses its contract, `ExpectsInAll`: in each column it is refused or isn't, as the
//! command of a plain script; what was heard is what `AreToldOf` of `symbol_meaning` says; and nothing of the session changed but
//! that its maker of functions made more.
//!
//! ```text
//! expect(&mut session, alloc, &table, list, n, &mut out)      for `expect out=!$a`
//!     Ok(false) if out isn't $a under each valuation; or else Ok(true), and it tells `expect out=!$a got 1 after 2 where $a=1`
//! ```
//!
//! [`missed_among`] makes the function of the valuations under which nodes aren't as they are wanted, for who notes it.
//!
//! For the proofs of crates above: `ColumnLemmas` (in each column the command of a plain script does what is told together, also
//! beside what sessions miss or keep), `ToldLemmas` (something is told of any assignments, and the same by sessions that are alike)
//! and `MissingLemmas` (a stage whose maker makes more).
#![tactic(auto)]

mod allowing;
mod expecting;
mod fault;
mod letters;
mod missing;
mod search;
mod telling;

pub use expecting::expect;
pub use fault::ExpectFault;
pub use missing::missed_among;
