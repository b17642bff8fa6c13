//! Worked groups, compiled, beside the plain step.
//!
//! The test shows what the clauses of an analyst say, on nets of `drawn_nets`: over all states of a group's
//! local nodes, the code of its text gives what the plain step of the local graph gives.
#![tactic(auto)]

#[cfg(test)]
mod tests;
