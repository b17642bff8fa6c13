//! What the generic ports are made over, in memory: an outlet, and an opener with its inlets.
ghost use Rattle.std.specs.Prelude.{◌≡◌, Some, drop, length, min, take};
ghost use Rattle.ports.specs.HonestPorts.{held};

use crate::honest_files::{copy_front, entry_bytes, place_of};
use crate::outer::{Inlet, Open, Outlet};
use std::alloc::Global;
use std::io;
use std::io::ErrorKind;
use std::marker::Model;

/// Bytes in memory, which take each piece whole. They tell all that they took.
impl Outlet for Vec<u8> {
    ghost contents = { λ taken. Some taken.items };

    fn write(&mut self, bytes: &[u8]) -> io::Result<usize> {
        self.extend_from_slice(bytes)?;
        Ok(bytes.len())
    }
}

/// An opener in memory: a table of names and bytes. It tells what each name holds.
///
/// A name that isn't in the table isn't opened. Of two entries with one name the first counts.
#[derive(Drop)]
pub struct MemOpener {
    alloc: Global,
    table: Vec<(String, Vec<u8>)>,
}

impl MemOpener {
    /// An opener of what this table says.
    pub fn new(alloc: Global, table: Vec<(String, Vec<u8>)>) -> MemOpener
        ensures { result.table ≡ table }
    {
        MemOpener { alloc, table }
    }

    // What this name holds.
    fn entry(&self, name: &str) -> &[u8]
        ensures { result.now ≡ held self.now.table.items name.now }
    {
        entry_bytes(&self.table, place_of(&self.table, name))
    }
}

impl Open for MemOpener {
    type File = MemInlet;

    ghost holds = { λ opener. Some (held opener.table.items) };

    fn open(&self, name: &str) -> io::Result<MemInlet> {
        if place_of(&self.table, name).is_none() {
            return Err(io::Error::from(ErrorKind::NotFound));
        }
        let bytes = Vec::from_slice(self.alloc, self.entry(name))?;
        Ok(MemInlet { bytes, taken: 0 })
    }
}

/// An inlet in memory. It tells what it has left.
#[derive(Drop)]
pub struct MemInlet {
    bytes: Vec<u8>,
    taken: usize,
}

impl Model for MemInlet {
    ghost use Rattle.std.specs.Prelude.{◌≤◌, ℕ, List, drop, length};

    ghost Value = { List ℕ };

    ghost view = { λ inlet. drop inlet.taken inlet.bytes.items };

    ghost invariant = { λ inlet. inlet.taken ≤ length inlet.bytes.items };
}

impl MemInlet {
    // The bytes that are left.
    fn left(&self) -> &[u8]
        ensures { result.now ≡ self.now }
    {
        &self.bytes[self.taken..]
    }

    // Takes as many bytes as the buffer has room for, puts them at its front, and answers how many they are.
    fn take(&mut self, buf: &mut [u8]) -> usize
        ensures count { result ≡ min (length self.old) (length buf.old) }
        ensures front { take result buf.new ≡ take result self.old }
        ensures rest { self.new ≡ drop result self.old }
    {
        let count = copy_front(self.left(), buf);
        self.taken += count;
        count
    }
}

impl Inlet for MemInlet {
    ghost left = { λ inlet. Some inlet };

    fn read(&mut self, buf: &mut [u8]) -> io::Result<usize> {
        Ok(self.take(buf))
    }
}
