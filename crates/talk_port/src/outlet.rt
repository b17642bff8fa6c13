//! Outlets that hand on what they took.
ghost use Rattle.std.specs.Prelude.{◌≡◌, ℕ, List, Option, None, Some, OnOk};
ghost use Rattle.std.specs.Io.KnownBytes.{Keeps};

use ports::Outlet;
use std::io;
use std::io::Write;

/// An outlet that hands on what it took when it is told to.
///
/// Contracts see besides those of the bytes that it took which were handed on, if they are told.
pub trait Flush: Outlet {
    ghost handed: { Self → Option (List ℕ) };

    /// Hands on all that was taken.
    fn flush(&mut self) -> io::Result<()>
        ensures bytes { Keeps (Self.contents self.old) (Self.contents self.new) }
        ensures handed { OnOk result (handed self.new ≡ Self.contents self.new) };
}

/// Bytes in memory are handed on as they are taken.
impl Flush for Vec<u8> {
    ghost handed = { λ taken. Some taken.items };

    fn flush(&mut self) -> io::Result<()> {
        Ok(())
    }
}

/// A writer of std as an outlet, which tells nothing.
#[derive(Drop)]
pub struct StdWriter<W: Write + Drop> {
    writer: W,
}

impl<W: Write + Drop> StdWriter<W> {
    /// This writer as an outlet.
    pub fn new(writer: W) -> StdWriter<W>
        ensures { result.writer ≡ writer }
    {
        StdWriter { writer }
    }
}

impl<W: Write + Drop> Outlet for StdWriter<W> {
    ghost contents = { λ _. None };

    fn write(&mut self, bytes: &[u8]) -> io::Result<usize> {
        self.writer.write(bytes)
    }
}

impl<W: Write + Drop> Flush for StdWriter<W> {
    ghost handed = { λ _. None };

    fn flush(&mut self) -> io::Result<()> {
        self.writer.flush()
    }
}
