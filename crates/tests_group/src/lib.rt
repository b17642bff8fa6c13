//! Worked groups and their texts, and the paths that are reasons for a state, as tables of tests.
//!
//! They show what no clause and no row of the program shows: that the texts of the nets of `drawn_nets` are
//! those that an engineer would draw, and of `why_path` which paths of small circuits are blocked.
#![tactic(auto)]

#[cfg(test)]
mod reasons;
#[cfg(test)]
mod tests;
