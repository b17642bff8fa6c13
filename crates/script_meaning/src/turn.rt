use circuit_texts::BuildFault;
use printed_lines::FaultCode;

/// What became of a line of the script.
#[derive(Clone, Copy, PartialEq, Eq)]
pub enum Turn {
    /// It was obeyed, or there was nothing to do.
    Accepted,
    /// It is refused under this code.
    Refused(FaultCode),
    /// It is refused since the circuit can't be built for its command.
    TooLarge(BuildFault),
}
