//! Decision graphs, as tests.
//!
//! They show what no clause says: that a function is made with ample memory and with room for its vertices, that a
//! graph of its own has what is reached alone, and that a graph of as many variables as there may be is gone down
//! to its last one.
#![tactic(auto)]

#[cfg(test)]
mod columns;
#[cfg(test)]
mod graphs;
#[cfg(test)]
mod lines;
#[cfg(test)]
mod reading;
#[cfg(test)]
mod values;
