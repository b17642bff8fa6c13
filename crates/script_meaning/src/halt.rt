use circuit_texts::BuildFault;
use printed_lines::FaultCode;

/// How the lines of a script ended.
#[derive(Clone, Copy, PartialEq, Eq)]
pub enum Halt {
    /// All were obeyed.
    End,
    /// The line with this number is refused under this code.
    Refused(u64, FaultCode),
    /// It is refused since the circuit can't be built for its command.
    TooLarge(u64, BuildFault),
}
