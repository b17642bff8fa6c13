//! What the generic ports are made over: outlets, inlets, and what opens inlets by name.
ghost use Rattle.std.specs.Prelude.{◌≡◌, ℕ, ◌≤◌, List, Option, length, IfOk};
ghost use Rattle.ports.specs.Ports.{Opens, Reads, Writes};

use crate::ports::NotedFile;
use std::io;

/// What takes bytes in order.
///
/// Contracts see the bytes that it took so far, where an implementation tells them. So one that is made over
/// another tells what the inner one tells, and a call that takes a byte twice, or answers of one that wasn't
/// taken, doesn't meet the clause.
pub trait Outlet {
    ghost contents: { Self → Option (List ℕ) };

    /// Takes a prefix of the bytes, and answers of how many. After an error none was taken.
    fn write(&mut self, bytes: &[u8]) -> io::Result<usize>
        ensures bound { IfOk result (λ n. n ≤ length bytes.now) }
        ensures bytes { Writes (contents self.old) (contents self.new) result bytes.now };

    /// Notes for a human what a file has, by a text that follows the file's name.
    ///
    /// A note is none of the bytes that are taken, and may be passed over: nothing else is said of it.
    fn note(&mut self, _file: NotedFile, _text: &[u8])
        ensures { contents self.new ≡ contents self.old }
    {}
}

/// What gives bytes in order.
///
/// Contracts see the bytes that are left, where an implementation tells them.
pub trait Inlet {
    ghost left: { Self → Option (List ℕ) };

    /// Puts the next bytes at the front of the buffer, and answers how many they are: none only at the end,
    /// or where the buffer is empty. After an error all that was left is left still.
    fn read(&mut self, buf: &mut [u8]) -> io::Result<usize>
        ensures bound { IfOk result (λ n. n ≤ length buf.new) }
        ensures bytes { Reads (left self.old) (left self.new) result buf.new };
}

/// What opens inlets by name.
///
/// Contracts see what each name holds, where an implementation tells it.
pub trait Open {
    /// The inlet of one file.
    type File: Inlet + Drop;

    ghost holds: { Self → Option (List ℕ → List ℕ) };

    /// Opens the file of this name. All that the name holds is left of it.
    fn open(&self, name: &str) -> io::Result<Self::File>
        ensures { IfOk result (λ file. Opens (holds self.now) name.now (Self.File.left file)) };
}
