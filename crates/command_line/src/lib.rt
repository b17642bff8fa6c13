//! What the words of a command line ask for.
//!
//! The main call is `request_of`: it answers a `Request`, which is a question about a netlist or about a deck,
//! or what needs no file. The layer above rests on its contract, which is the function `request_of` of
//! `specs/Requests`, and answers each case. `is_deck_name` tells decks from netlists if a request takes both.
//! `talk_net` finds `talk NET`, which is no request, since it is answered by turns, and `dump_names` finds `vcd NET SCRIPT`, which
//! is none either, since it is written as it goes. `symbolic_names` finds `symbolic NET SCRIPT`, and `equiv_names` finds
//! `equiv NET1 NET2 SCRIPT`, whose runs may want more vertices than there may be.
//!
//! ```text
//! request_of(["check", "inverter.sim"])                 is About { net: "inverter.sim", question: Report(Check) }
//! request_of(["lint", "gates.sp"])                      is OverDeck { deck: "gates.sp", question: Report(Lint) }
//! request_of(["cover", "gates.sp", "a.cmd"])            is OverDeck { deck: "gates.sp", question: Run { script, purpose: Cover } }
//! request_of(["gen", "net", "inverters", "1", "2"])     is Alone(Generate { part: Net, sample })
//! request_of(["batch", "inverter.sim", "65", "a.cmd"])  is Alone(Unclear)
//! symbolic_names(["symbolic", "adder.sim", "a.cmd"])    is Some(("adder.sim", "a.cmd"))
//! request_of(["help", "del"])                           is Alone(Show("del K\nRemoves transistor K. ..\n"))
//! ```
//!
//! The proofs of crates above cite `ColumnLemmas`, whose head says what it is of.
#![tactic(auto)]

mod column_count;
mod columns;
mod decks;
mod request;
mod sample;
mod symbols;
mod talks;

pub use column_count::ColumnCount;
pub use columns::columns_of;
pub use decks::is_deck_name;
pub use request::{Alone, Purpose, Question, Report, Request, request_of};
pub use sample::Sample;
pub use symbols::{equiv_names, symbolic_names};
pub use talks::{dump_names, talk_net};
