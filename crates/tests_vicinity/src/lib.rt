//! A bit line with its cells, stepped by vicinities, as a table of tests.
//!
//! It shows what no clause says: that lists, sets and rooms are had with ample memory, and that the states are
//! those that an engineer would work out by hand. The program steps such groups beside others, by a `vicinity::Wide`;
//! here they are stepped alone.
#![tactic(auto)]

#[cfg(test)]
mod bit_line;
