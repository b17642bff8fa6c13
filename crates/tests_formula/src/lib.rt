//! Formulas of a pool, as a test.
//!
//! It shows what no clause says: that a formula made twice has one gate, and that `Pool::value`, which the
//! program doesn't call, answers with ample memory.
#![tactic(auto)]

#[cfg(test)]
mod pools;
