//! The report of a circuit's groups: one line for each.
//!
//! The one call is `report_groups`. The layer above uses its contract: it writes `IsReport` of the
//! circuit, a line for each channel-connected group, in order of their least nodes, with the number
//! of the first group that has an equal text.
//!
//! ```text
//! an inverter a -> out, a an input node:     group 1 nodes 1 switches 2 text 1: out
//! ```
//!
//! The proofs of crates above cite `ReportLemmas`, whose head says what it is of.
//!
//! After Beatty and Bryant, "Fast Incremental Circuit Analysis Using Extracted Hierarchy", 1988.
#![tactic(auto)]

mod report;

pub use report::report_groups;
