//! What a fault's trace tells.

/// How the trace of a fault's run differs from that of the good one.
#[derive(Clone, Copy, PartialEq, Eq)]
pub enum Verdict {
    /// The fault shows for certain, first in the waveform line of this number, counted from 1, at this
    /// entry of the watch list, counted from 0: one run has 0 there and the other 1.
    Detected { row: u64, entry: usize },
    /// The fault shows nowhere for certain, and this line of the script is refused under it.
    Refused { line: u64 },
    /// The fault may show, first in this line at this entry: the good run has 0 or 1 there, the other X.
    Possible { row: u64, entry: usize },
    /// The fault shows nowhere.
    Undetected,
}
