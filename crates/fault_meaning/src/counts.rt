//! How many faults have each verdict.

ghost use Rattle.std.specs.Prelude.{◌≡◌, ◌+◌, ◌<◌, ◌^◌, []};
ghost use Rattle.fault_meaning.specs.Counts as spec;

use fault_sim::Verdict;

/// How many faults have each verdict.
#[derive(Clone, Copy, PartialEq, Eq)]
pub struct VerdictCounts {
    /// Those that show for certain.
    pub detected: u64,
    /// Those that may show.
    pub possible: u64,
    /// Those that show nowhere.
    pub undetected: u64,
    /// Those under which a line of the script is refused.
    pub refused: u64,
}

impl VerdictCounts {
    /// No verdict so far.
    pub fn new() -> VerdictCounts
        ensures { result ≡ spec.counts_of [] }
    {
        VerdictCounts {
            detected: 0,
            possible: 0,
            undetected: 0,
            refused: 0,
        }
    }

    /// Counts one more verdict.
    pub fn add(&mut self, verdict: Verdict)
        requires { spec.total self.old + 1 < 2 ^ 64 }
        ensures { self.new ≡ spec.with_verdict self.old verdict }
    {
        match verdict {
            Verdict::Detected { .. } => self.detected += 1,
            Verdict::Refused { .. } => self.refused += 1,
            Verdict::Possible { .. } => self.possible += 1,
            Verdict::Undetected => self.undetected += 1,
        }
    }
}
