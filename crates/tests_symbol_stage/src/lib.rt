//! The stage of a symbolic script, as tests.
//!
//! They show what no clause says: that a graph that has grown is cut to what is needed.
#![tactic(auto)]

#[cfg(test)]
mod tidying;
