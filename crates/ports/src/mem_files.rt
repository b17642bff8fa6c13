//! Files in memory that give a few bytes at a time, and fail when they are told to.
ghost use Rattle.std.specs.Prelude.{◌≡◌, ◌≢◌, ◌↔◌, ◌⊎◌, ◌<◌, ◌≤◌, Some, length, min, IfOk, IsErrOf, IsTrue, OnErr, OnOk};
ghost use Rattle.ports.specs.Ports.{faults_after, Opens, Reads, started_after};
ghost use Rattle.ports.specs.Taken.{opened_after, taken_after};
ghost use Rattle.ports.specs.HonestPorts.{held};
ghost use Rattle.ports.specs.MemPorts.{MemFilesData, after_call, fails_next, start_fails, uncalled_files};

use crate::calls::Calls;
use crate::honest_files::HonestFiles;
use crate::ports::{Files, PortFault};
use std::alloc::Global;
use std::marker::Model;
use table_keys::TableKeys;

/// Files in memory: a table of names and bytes. Calls of `start` and `read` are numbered together
/// from 1, and those of some numbers fail; a read gives at most so many bytes. They tell all their
/// meanings.
///
/// To start a name that isn't in the table fails. Of two entries with one name the first counts. A
/// read into an empty buffer isn't counted, nor is a start that lacks memory.
#[derive(Drop)]
pub struct MemFiles {
    files: HonestFiles,
    calls: Calls,
    most: usize,
}

impl Model for MemFiles {
    ghost Value = { MemFilesData };

    ghost view = { λ files. record { files = files.files; calls = files.calls; most = files.most } };

    ghost invariant = { λ files. 0 < files.most };
}

impl MemFiles {
    /// Files that hold what this table says. None is started. Their calls of the numbers in `fails`
    /// fail, and each read gives `most` bytes at most.
    pub fn new(
        alloc: Global,
        table: Vec<(String, Vec<u8>)>,
        fails: Vec<u64>,
        most: usize,
    ) -> MemFiles
        requires { 1 ≤ most }
        ensures { result ≡ uncalled_files table.items fails.items most }
    {
        MemFiles {
            files: HonestFiles::new(alloc, table),
            calls: Calls::new(fails),
            most,
        }
    }
}

impl Files for MemFiles {
    ghost holds = { λ files. Some (held files.files.table) };

    ghost rest = { λ files. Some files.files.rest };

    ghost started = { λ files. Some files.files.started };

    ghost taken = { λ files. Some files.files.taken };

    ghost faults = { λ files. files.calls.faults };

    fn keys(&self) -> TableKeys {
        TableKeys::fixed()
    }

    fn start(&mut self, name: &str) -> Result<(), PortFault>
        ensures holds { Some (held self.new.files.table) ≡ Some (held self.old.files.table) }
        ensures opens { OnOk result
            (Opens (Some (held self.old.files.table)) name.now (Some self.new.files.rest)) }
        ensures err { OnErr result (Some self.new.files.rest ≡ Some self.old.files.rest) }
        ensures started { Some self.new.files.started
            ≡ started_after (Some self.old.files.started) name.now result }
        ensures taken { Some self.new.files.taken ≡ opened_after (Some self.old.files.taken) result }
        ensures cause { self.new.calls.faults ≡ faults_after self.old.calls.faults result }

        // Where memory is lacking, nothing changes. Any other start is counted, and fails exactly
        // where its number says so or the name isn't there.
        ensures lacking { IsErrOf result PortFault.NoMemory → self.new ≡ self.old }
        ensures fails { (result ≡ Err PortFault.NoMemory)
            ⊎ ((result ≡ Err PortFault.Failed) ↔ IsTrue (start_fails self.old name.now)) }
        ensures counted { (result ≡ Err PortFault.NoMemory)
            ⊎ (self.new.calls ≡ after_call (start_fails self.old name.now) self.old.calls) }
        ensures most { self.new.most ≡ self.old.most }
    {
        self.files.note(name)?;
        let fails = self.calls.fails_next() || !self.files.has(name);
        self.calls.count(fails);
        if fails {
            return Err(PortFault::Failed);
        }
        self.files.open(name);
        Ok(())
    }

    fn read(&mut self, buf: &mut [u8]) -> Result<usize, PortFault>
        ensures holds { Some (held self.new.files.table) ≡ Some (held self.old.files.table) }
        ensures started { Some self.new.files.started ≡ Some self.old.files.started }
        ensures empty { length buf.old ≡ 0 → (result ≡ Ok 0) × (self.new ≡ self.old) }
        ensures bound { IfOk result (λ n. n ≤ length buf.new) }
        ensures bytes { Reads (Some self.old.files.rest) (Some self.new.files.rest) result buf.new }
        ensures taken { Some self.new.files.taken ≡ taken_after (Some self.old.files.taken) result }
        ensures cause { self.new.calls.faults ≡ faults_after self.old.calls.faults result }

        // A read takes no memory. It fails exactly if its number says so, and each is counted.
        ensures memory { result ≢ Err PortFault.NoMemory }
        ensures fails { 0 < length buf.old
            → ((result ≡ Err PortFault.Failed) ↔ IsTrue (fails_next self.old.calls)) }
        ensures counted { 0 < length buf.old
            → self.new.calls ≡ after_call (fails_next self.old.calls) self.old.calls }
        ensures gives { IfOk result (λ n.
            n ≡ min self.old.most (min (length buf.old) (length self.old.files.rest))) }
        ensures most { self.new.most ≡ self.old.most }
    {
        if buf.is_empty() {
            return Ok(0);
        }
        let fails = self.calls.fails_next();
        self.calls.count(fails);
        if fails {
            return Err(PortFault::Failed);
        }
        Ok(self.files.take(self.most, buf))
    }
}
