//! What is read and written, as tests of ports, of lines that are told, and of a dump whose sink fails.
//!
//! They show what no clause says: how many calls a port gets before and after a fault, and that the real
//! ports answer. That each line that is written is the right one to the byte is a clause of its writer, and
//! the rows of the program have each kind of line.
#![tactic(auto)]

#[cfg(test)]
mod dumps;
#[cfg(test)]
mod port_faults;
#[cfg(test)]
mod told;
