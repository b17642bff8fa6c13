//! Facts on lists that the proofs of several crates use, and std doesn't have. There is no code.
//!
//! For the proofs of crates above: `ContainsLemmas`, what lists with one item more, filters and the
//! first numbers contain; `DistinctLemmas`, lists of numbers without repeats; `PlaceLemmas`, what stands
//! at the places of a list that grew; `TakingLemmas`, a number that is taken out of a list.
#![tactic(auto)]
