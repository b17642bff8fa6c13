//! Files in memory that never fail: what they lack can only be memory.
ghost use Rattle.std.specs.Prelude.{◌≡◌, ◌≤◌, [], ◌∷◌, ◌++◌, Some, length, drop, map, take, string_bytes, position, min, slice_index, IfOk, IsOk, OnErr, OnOk};
ghost use Rattle.ports.specs.Ports.{faults_after, Reads};
ghost use Rattle.ports.specs.Taken.{more_of_last, taken_after};
ghost use Rattle.ports.specs.HonestPorts.{HonestFilesData, has_name, held, bytes_at, unread};
ghost use Rattle.ports.specs.MemPorts.{is_there};

use crate::ports::{Files, PortFault};
use std::alloc::{AllocError, Global};
use std::marker::Model;
use table_keys::TableKeys;

/// Files in memory: a table of names and bytes. They never fail, and tell all their meanings.
///
/// A name that isn't in the table holds no bytes. Of two entries with one name the first counts.
#[derive(Drop)]
pub struct HonestFiles {
    alloc: Global,
    table: Vec<(String, Vec<u8>)>,
    place: Option<usize>,
    taken: usize,
    started: Vec<String>,
    counts: Vec<usize>,
}

impl Model for HonestFiles {
    ghost Value = { HonestFilesData };

    ghost view = { λ files. record {
      table = files.table.items;
      rest = drop files.taken (bytes_at files.table.items files.place);
      started = map string_bytes files.started.items;
      taken = files.counts.items;
    } };

    // Of the entry no less was taken than since the last start, which may be that of a name that failed.
    ghost invariant = { λ files. (files.taken ≤ length (bytes_at files.table.items files.place))
        × (slice_index files.counts.items 0 ≤ files.taken) };
}

impl HonestFiles {
    /// Files that hold what this table says. None is started.
    pub fn new(alloc: Global, table: Vec<(String, Vec<u8>)>) -> HonestFiles
        ensures { result ≡ unread table.items }
    {
        HonestFiles {
            alloc,
            table,
            place: None,
            taken: 0,
            started: Vec::new(alloc),
            counts: Vec::new(alloc),
        }
    }

    // Whether there is an entry of this name.
    pub(crate) fn has(&self, name: &str) -> bool
        ensures { result ≡ is_there self.now.table name.now }
    {
        self.table.iter().any(|entry| entry.0.as_str() == name)
    }

    // Puts a name after those that were started. Nothing was taken of it so far.
    pub(crate) fn note(&mut self, name: &str) -> Result<(), AllocError>
        ensures ok { OnOk result (self.new ≡ record self.old {
          started = self.old.started ++ name.now ∷ [];
          taken = 0 ∷ self.old.taken;
        }) }
        ensures err { OnErr result (self.new ≡ self.old) }
    {
        let kept = String::from_str(self.alloc, name)?;
        self.counts.reserve(1)?;
        self.started.push(kept)?;
        self.counts.insert(0, 0)?;
        Ok(())
    }

    // Starts the first entry of this name, or none if there is none. Nothing was taken since the name
    // was noted.
    pub(crate) fn open(&mut self, name: &str)
        requires { slice_index self.old.taken 0 ≡ 0 }
        ensures { self.new ≡ record self.old { rest = held self.old.table name.now } }
    {
        let place = place_of(&self.table, name);
        self.place = place;
        self.taken = 0;
    }

    // Takes the next bytes, at most so many and no more than the buffer has room for, puts them at its
    // front, and answers how many they are.
    pub(crate) fn take(&mut self, most: usize, buf: &mut [u8]) -> usize
        ensures count { result ≡ min most (min (length buf.old) (length self.old.rest)) }
        ensures front { take result buf.new ≡ take result self.old.rest }
        ensures rest { self.new ≡ record self.old {
          rest = drop result self.old.rest;
          taken = more_of_last result self.old.taken;
        } }
    {
        let left = self.left();
        let count = copy_front(&left[..left.len().min(most)], buf);
        self.taken += count;
        if !self.counts.is_empty() {
            self.counts[0] += count;
        }
        count
    }

    // What is left of the started entry.
    fn left(&self) -> &[u8]
        ensures { result.now ≡ self.now.rest }
    {
        &entry_bytes(&self.table, self.place)[self.taken..]
    }
}

impl Files for HonestFiles {
    ghost holds = { λ files. Some (held files.table) };

    ghost rest = { λ files. Some files.rest };

    ghost started = { λ files. Some files.started };

    ghost taken = { λ files. Some files.taken };

    ghost faults = { λ _. 0 };

    fn keys(&self) -> TableKeys {
        TableKeys::fixed()
    }

    fn start(&mut self, name: &str) -> Result<(), PortFault> {
        self.note(name)?;
        self.open(name);
        Ok(())
    }

    fn read(&mut self, buf: &mut [u8]) -> Result<usize, PortFault>
        ensures holds { Some (held self.new.table) ≡ Some (held self.old.table) }
        ensures started { Some self.new.started ≡ Some self.old.started }
        ensures empty { length buf.old ≡ 0 → (result ≡ Ok 0) × (self.new ≡ self.old) }
        ensures bound { IfOk result (λ n. n ≤ length buf.new) }
        ensures bytes { Reads (Some self.old.rest) (Some self.new.rest) result buf.new }
        ensures taken { Some self.new.taken ≡ taken_after (Some self.old.taken) result }
        ensures cause { 0 ≡ faults_after 0 result }

        // A read takes no memory, and no file fails.
        ensures always { IsOk result }
    {
        Ok(self.take(buf.len(), buf))
    }
}

// The place of the first entry of this name.
pub(crate) fn place_of(table: &[(String, Vec<u8>)], name: &str) -> Option<usize>
    ensures { result ≡ position (has_name name.now) table.now }
{
    table.iter().position(|entry| entry.0.as_str() == name)
}

// The bytes of the entry at this place, and none if there is no place.
pub(crate) fn entry_bytes(table: &[(String, Vec<u8>)], place: Option<usize>) -> &[u8]
    ensures { result.now ≡ bytes_at table.now place }
{
    let Some(place) = place else {
        return &[];
    };
    match table.get(place) {
        Some(entry) => &entry.1,
        None => &[],
    }
}

// Copies as many of the bytes as the buffer has room for to its front, and answers how many they are.
pub(crate) fn copy_front(bytes: &[u8], buf: &mut [u8]) -> usize
    ensures count { result ≡ min (length bytes.now) (length buf.old) }
    ensures front { take result buf.new ≡ take result bytes.now }
{
    let count = bytes.len().min(buf.len());
    buf[..count].copy_from_slice(&bytes[..count]);
    count
}
