//! The lines of a list of faults.

use fault_sim::Fault;
use printed_lines::FaultCode;

/// A fault of a list, with the number of its line.
#[derive(Clone, Copy, PartialEq, Eq)]
pub struct ListedFault {
    /// The number of its line.
    pub line: u64,
    /// The fault.
    pub fault: Fault,
}

/// The first refused line of a list, by its number, and the code of its refusal.
#[derive(Clone, Copy, PartialEq, Eq)]
pub struct ListRefusal {
    /// The number of the line.
    pub line: u64,
    /// The code of its refusal.
    pub code: FaultCode,
}
