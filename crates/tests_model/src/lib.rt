//! Worked nets of the model alone, as tables of tests.
//!
//! They show what no clause says: that the plain step and the plain stepper, which the program doesn't call,
//! give the states and the counts that an engineer would work out by hand.
#![tactic(auto)]

#[cfg(test)]
mod drawn;
#[cfg(test)]
mod phases;
#[cfg(test)]
mod plain_steps;
