//! What the words of worked nets stand for, and the letters that values give, as tables of tests.
#![tactic(auto)]

#[cfg(test)]
mod values;
#[cfg(test)]
mod words;
