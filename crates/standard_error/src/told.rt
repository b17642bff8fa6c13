//! An outlet that tells on standard error what it is given to note, and how far a long list is.

ghost use Rattle.std.specs.Prelude.{◌≡◌};

use ports::{NotedFile, Outlet};
use std::io::{self, IsTerminal};
use talk_port::Flush;

// After how many lines the next word is told.
const STRIDE: u64 = 100;

/// An outlet over another, which took what that took. A note is told behind the name that the words have for
/// its file; standard input has one if it is a terminal. Under `faults` it tells how many faults were judged, where standard error is a terminal and
/// standard output, whose lines would say it, is none.
#[derive(Drop)]
pub struct Told<'r, 'w, W: Outlet> {
    inner: W,
    rt: &'r HostRuntime,
    words: &'w [String],
    progress: Progress,
}

// How many lines were written, if that is told.
#[derive(Drop)]
struct Progress {
    is_told: bool,
    lines: u64,
}

impl<'r, 'w, W: Outlet> Told<'r, 'w, W> {
    /// This outlet in a run with these words.
    pub fn over(inner: W, rt: &'r HostRuntime, words: &'w [String]) -> Told<'r, 'w, W>
        ensures { result.inner ≡ inner }
    {
        let is_long = begins(words, "faults");
        let is_told = is_long && rt.stderr().is_terminal() && !rt.stdout().is_terminal();
        Told {
            inner,
            rt,
            words,
            progress: Progress { is_told, lines: 0 },
        }
    }

    /// Ends the line on standard error, if one was begun.
    pub fn finish(&self) {
        if self.progress.is_told && self.progress.lines >= STRIDE {
            let _ = eprintln!(self.rt; "");
        }
    }
}

impl<W: Outlet> Outlet for Told<'_, '_, W> {
    ghost contents = { λ told. W.contents told.inner };

    fn write(&mut self, bytes: &[u8]) -> io::Result<usize> {
        let count = self.inner.write(bytes)?;
        self.progress.count(self.rt, &bytes[..count]);
        Ok(count)
    }

    fn note(&mut self, file: NotedFile, text: &[u8]) {
        if let (Some(name), Ok(text)) = (named(self.rt, self.words, file), str::from_utf8(text)) {
            let _ = eprintln!(self.rt; "{name}{text}");
        }
    }
}

impl<W: Flush> Flush for Told<'_, '_, W> {
    ghost handed = { λ told. W.handed told.inner };

    fn flush(&mut self) -> io::Result<()> {
        self.inner.flush()
    }
}

// The name that words have for a file, if they name it: of a sample they name none. The lines of a talk are those of
// standard input. Under `equiv` a note on the second netlist is one on the file that is named behind the first.
fn named<'w>(rt: &HostRuntime, words: &'w [String], file: NotedFile) -> Option<&'w str> {
    if begins(words, "large") {
        return None;
    }
    let place = match file {
        NotedFile::Circuit => 1,
        NotedFile::Script if begins(words, "talk") => return terminal_name(rt),
        NotedFile::Script if begins(words, "batch") || begins(words, "equiv") => 3,
        NotedFile::Script => 2,
        NotedFile::List if begins(words, "equiv") => 2,
        NotedFile::List => 3,
    };
    let name = words.get(place)?;
    Some(name.as_str())
}

// The name of standard input, if it is a terminal: a program at the other end reads the refusals themselves.
fn terminal_name(rt: &HostRuntime) -> Option<&'static str> {
    if rt.stdin().is_terminal() {
        Some("standard input")
    } else {
        None
    }
}

// Whether the words begin with this one.
fn begins(words: &[String], command: &str) -> bool {
    match words.first() {
        Some(word) => word.as_str() == command,
        None => false,
    }
}

impl Progress {
    // Counts the lines of what was taken, and tells each hundredth.
    fn count(&mut self, rt: &HostRuntime, taken: &[u8]) {
        if !self.is_told {
            return;
        }
        for byte in taken {
            if *byte == b'\n' {
                self.end_line(rt);
            }
        }
    }

    // A line more.
    fn end_line(&mut self, rt: &HostRuntime) {
        self.lines = self.lines.saturating_add(1);
        if self.lines % STRIDE == 0 {
            let _ = eprint!(rt; "\rcosmos: {} faults judged", self.lines);
        }
    }
}
