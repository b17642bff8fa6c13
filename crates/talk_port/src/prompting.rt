//! A reader that prompts.

ghost use Rattle.std.specs.Prelude.{◌≡◌};

use std::io::{self, IsTerminal, Read};

/// A reader over another, which gives the bytes that this gives. If standard input is a terminal it tells a prompt on
/// standard error before it reads.
#[derive(Drop)]
pub struct Prompting<'r, R: Read + Drop> {
    reader: R,
    rt: &'r HostRuntime,
    is_told: bool,
}

impl<'r, R: Read + Drop> Prompting<'r, R> {
    /// This reader, with a prompt.
    pub fn over(reader: R, rt: &'r HostRuntime) -> Prompting<'r, R>
        ensures { result.reader ≡ reader }
    {
        Prompting {
            reader,
            rt,
            is_told: rt.stdin().is_terminal(),
        }
    }
}

impl<R: Read + Drop> Read for Prompting<'_, R> {
    ghost remaining = { λ prompting. R.remaining prompting.reader };

    fn read(&mut self, buf: &mut [u8]) -> io::Result<usize> {
        if self.is_told {
            let _ = eprint!(self.rt; "cosmos> ");
        }
        self.reader.read(buf)
    }
}
