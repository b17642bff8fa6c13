//! What is told of a circuit alone, and where words, a netlist or a deck are refused.
//!
//! `report_check`, `list_groups`, `list_findings` and `write_listing` write what `check`, `groups`, `lint` and
//! `compile` tell of a circuit, `write_part` the text that `gen` makes, `show_text` a text as it stands;
//! `refuse_net`, `refuse_deck` and `refuse_words` write the line of a refusal. None of them runs a script. The layers above use that each
//! one writes the answer that `specs/Answers` has for it, or a part of it where the sink fails.
//!
//! ```text
//! report_check(alloc, &circuit, out)                writes `ok nodes 4 switches 2 names 2`
//! refuse_net(alloc, refusal, out)                   writes `net line 1: N3 Format`, and is Ok(End::NetRefused)
//! refuse_words(out)                                 writes `bad command line`, and is Ok(End::Usage)
//! ```
//!
//! The proofs of crates above cite `UniqueAnswers`, whose head says what it is of.
#![tactic(auto)]

mod codes;
mod compile;
mod generated;
mod lint;
mod refusal;
mod reports;
mod shown;

pub use codes::net_code;
pub use compile::write_listing;
pub use generated::write_part;
pub use lint::list_findings;
pub use refusal::{refuse_deck, refuse_net, refuse_words};
pub use reports::{list_groups, report_check, switches};
pub use shown::show_text;
