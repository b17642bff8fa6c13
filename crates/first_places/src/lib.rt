//! Facts on the first place of a list that passes a test, as the list grows. There is no code.
//!
//! For the proofs of crates above: `PlaceLemmas`, what is found among a prefix, one item more, and the items up to a
//! place.
#![tactic(auto)]
