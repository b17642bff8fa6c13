//! A sink that takes everything and keeps nothing.
ghost use Rattle.std.specs.Prelude.{◌≡◌, None, length};

use crate::ports::{PortFault, Sink};

/// A sink that takes every piece whole and keeps nothing of it.
///
/// It tells nothing, never fails and takes no memory: both its counts are 0.
#[derive(Drop)]
pub struct DropSink {}

impl DropSink {
    /// A sink that keeps nothing.
    pub fn new() -> DropSink {
        DropSink {}
    }
}

impl Sink for DropSink {
    ghost written = { λ _. None };

    ghost faults = { λ _. 0 };

    ghost refusals = { λ _. 0 };

    fn write(&mut self, piece: &[u8]) -> Result<usize, PortFault>
        ensures whole { result ≡ Ok (length piece.now) }
        ensures same { self.new ≡ self.old }
    {
        Ok(piece.len())
    }
}
