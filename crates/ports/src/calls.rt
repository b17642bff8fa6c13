//! The calls of a port in memory, some of which fail by their number.
ghost use Rattle.std.specs.Prelude.{◌≡◌};
ghost use Rattle.ports.specs.MemPorts as spec;

use std::marker::Model;

// How many calls there were, how many of them failed, and the numbers of those that fail.
#[derive(Drop)]
pub(crate) struct Calls {
    fails: Vec<u64>,
    calls: u64,
    faults: u64,
}

impl Model for Calls {
    ghost use Rattle.ports.specs.MemPorts.{CallsData};

    ghost Value = { CallsData };

    ghost view = { λ calls. record { fails = calls.fails.items; calls = calls.calls; faults = calls.faults } };
}

impl Calls {
    // No calls so far. Those of these numbers fail; the first call has number 1.
    pub(crate) fn new(fails: Vec<u64>) -> Calls
        ensures { result ≡ spec.uncalled fails.items }
    {
        Calls {
            fails,
            calls: 0,
            faults: 0,
        }
    }

    // Whether the next call fails by its number.
    pub(crate) fn fails_next(&self) -> bool
        ensures { result ≡ spec.fails_next self.now }
    {
        let number = self.calls.saturating_add(1);
        self.fails.contains(&number)
    }

    // Counts one call, which failed or not.
    pub(crate) fn count(&mut self, failed: bool)
        ensures { self.new ≡ spec.after_call failed self.old }
    {
        self.calls = self.calls.saturating_add(1);
        if failed {
            self.faults = self.faults.saturating_add(1);
        }
    }
}
