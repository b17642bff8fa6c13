//! A sink in memory that never fails: what it lacks can only be memory.
ghost use Rattle.std.specs.Prelude.{◌≡◌, ◌++◌, Some, IfErr, OnErr, OnOk};
ghost use Rattle.ternary.specs.Counts.{raised};
ghost use Rattle.ports.specs.HonestPorts.{HonestSinkData, unwritten};

use crate::ports::{PortFault, Sink};
use std::alloc::Global;
use std::marker::Model;

/// A sink in memory. It never fails, and tells all its meanings.
#[derive(Drop)]
pub struct HonestSink {
    written: Vec<u8>,
    refusals: u64,
}

impl Model for HonestSink {
    ghost Value = { HonestSinkData };

    ghost view = { λ sink. record { written = sink.written.items; refusals = sink.refusals } };
}

impl HonestSink {
    /// A sink to which nothing was written.
    pub fn new(alloc: Global) -> HonestSink
        ensures { result ≡ unwritten }
    {
        HonestSink {
            written: Vec::new(alloc),
            refusals: 0,
        }
    }

    /// All bytes written so far, in order.
    pub fn written(&self) -> &[u8]
        ensures { result.now ≡ self.now.written }
    {
        &self.written
    }

    // Puts a whole piece after what was written. Where memory is lacking, that is counted.
    pub(crate) fn append(&mut self, piece: &[u8]) -> Result<(), PortFault>
        ensures ok { OnOk result (self.new ≡ record self.old { written = self.old.written ++ piece.now }) }
        ensures err { OnErr result (self.new ≡ record self.old { refusals = raised self.old.refusals 1 }) }
        ensures cause { IfErr result (λ fault. fault ≡ PortFault.NoMemory) }
    {
        if self.written.extend_from_slice(piece).is_err() {
            self.refusals = self.refusals.saturating_add(1);
            return Err(PortFault::NoMemory);
        }
        Ok(())
    }
}

impl Sink for HonestSink {
    ghost written = { λ sink. Some sink.written };

    ghost faults = { λ _. 0 };

    ghost refusals = { λ sink. sink.refusals };

    fn write(&mut self, piece: &[u8]) -> Result<usize, PortFault> {
        if piece.is_empty() {
            return Ok(0);
        }
        self.append(piece)?;
        Ok(piece.len())
    }
}
