use session_meaning::Refusal;

/// Why a command that gives nodes letters isn't done.
#[derive(Clone, Copy, Debug, PartialEq, Eq)]
pub enum GivingFault {
    /// It is refused, so under each valuation.
    Refused(Refusal),
    /// One vertex more was wanted than there may be.
    Full,
    /// Memory ran out.
    NoMemory,
}
