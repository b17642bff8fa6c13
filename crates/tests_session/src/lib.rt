//! Scripts on a session with its compiled machine.
//!
//! The tests show what no clause and no row of the program shows: the machine's marks and counts after
//! pieces of a script, edits among them, and that a cut of the kept texts gives gates of the analyst's pool
//! back. Groups are analysed by the analyst of `node_elimination`.
#![tactic(auto)]

#[cfg(test)]
mod tests;
