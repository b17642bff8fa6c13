//! A sink over any outlet.
ghost use Rattle.std.specs.Prelude.{◌≡◌};
ghost use Rattle.ports.specs.OuterPorts.{sink_counted};

use crate::outer::Outlet;
use crate::ports::{NotedFile, PortFault, Sink};
use std::io;
use std::io::ErrorKind;
use std::marker::Model;

/// A sink over an outlet. A write of which the outlet takes no byte is a fault.
///
/// Contracts see what the outlet tells of the bytes that it took, and both counts: what was written to the
/// sink is what the outlet took.
#[derive(Drop)]
pub struct SinkOver<W: Outlet> {
    outlet: W,
    faults: u64,
    refusals: u64,
    reason: Option<io::Error>,
}

impl<W: Outlet> Model for SinkOver<W> {
    ghost use Rattle.ports.specs.OuterPorts.{SinkOverData};

    ghost Value = { SinkOverData };

    ghost view = { λ sink. record {
      contents = W.contents sink.outlet;
      faults = sink.faults;
      refusals = sink.refusals;
    } };
}

impl<W: Outlet> SinkOver<W> {
    /// A sink over this outlet. No fault and no refusal is counted.
    pub fn new(outlet: W) -> SinkOver<W>
        ensures contents { result.contents ≡ W.contents outlet }
        ensures faults { result.faults ≡ 0 }
        ensures refusals { result.refusals ≡ 0 }
    {
        SinkOver {
            outlet,
            faults: 0,
            refusals: 0,
            reason: None,
        }
    }

    /// The outlet, which took what was written.
    pub fn outlet(&self) -> &W
        ensures { W.contents result.now ≡ self.now.contents }
    {
        &self.outlet
    }

    /// The outlet's reason for the last fault, if there was one.
    pub fn reason(&self) -> Option<io::Error> {
        self.reason
    }

    // The fault that an error is, counted and kept.
    fn fault(&mut self, error: io::Error) -> PortFault
        ensures { self.new ≡ sink_counted self.old result }
    {
        self.reason = Some(error);
        if error.kind() == ErrorKind::OutOfMemory {
            self.refusals = self.refusals.saturating_add(1);
            return PortFault::NoMemory;
        }
        self.faults = self.faults.saturating_add(1);
        PortFault::Failed
    }
}

impl<W: Outlet> Sink for SinkOver<W> {
    ghost written = { λ sink. sink.contents };

    ghost faults = { λ sink. sink.faults };

    ghost refusals = { λ sink. sink.refusals };

    fn write(&mut self, piece: &[u8]) -> Result<usize, PortFault> {
        if piece.is_empty() {
            return Ok(0);
        }
        match self.outlet.write(piece) {
            Ok(0) => Err(self.fault(io::Error::from(ErrorKind::WriteZero))),
            Ok(count) => Ok(count),
            Err(error) => Err(self.fault(error)),
        }
    }

    fn note(&mut self, file: NotedFile, text: &[u8]) {
        self.outlet.note(file, text);
    }
}
