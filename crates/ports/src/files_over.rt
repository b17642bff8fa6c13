//! Files over anything that opens inlets by name.
ghost use Rattle.std.specs.Prelude.{◌≡◌, ◌-◌, [], None, Some, length, option_copied, slice_get, string_bytes};
ghost use Rattle.ports.specs.OuterPorts.{files_counted, files_unopened};

use crate::outer::{Inlet, Open};
use crate::ports::{Files, PortFault};
use std::alloc::Global;
use std::io;
use std::io::ErrorKind;
use std::marker::Model;
use table_keys::TableKeys;

/// Files over an opener. A name that it doesn't open is a fault.
///
/// Contracts see the opener, what the inlet of the started file tells of the bytes that it has left, the names
/// that were started, and the count of faults. What a name holds is what the opener tells of it. How much was
/// taken of a file isn't told, since a file may have no end.
#[derive(Drop)]
pub struct FilesOver<O: Open + Drop> {
    alloc: Global,
    opener: O,
    keys: TableKeys,
    file: Option<O::File>,
    names: Vec<String>,
    faults: u64,
    reason: Option<io::Error>,
}

impl<O: Open + Drop> Model for FilesOver<O> {
    ghost use Rattle.std.specs.Prelude.{map, string_bytes};
    ghost use Rattle.ports.specs.OuterPorts.{FilesOverData, files_over_code, rest_of};

    ghost Value = { FilesOverData O };

    ghost coded = { files_over_code O.code };

    ghost view = { λ files. record {
      opener = files.opener;
      rest = rest_of O.File.left files.file;
      started = map string_bytes files.names.items;
      faults = files.faults;
    } };
}

impl<O: Open + Drop> FilesOver<O> {
    /// The files of this opener. None is started, and no fault is counted. Tables whose entries come from
    /// them are hashed with these keys.
    pub fn new(alloc: Global, opener: O, keys: TableKeys) -> FilesOver<O>
        ensures opener { result.opener ≡ opener }
        ensures rest { result.rest ≡ Some [] }
        ensures started { result.started ≡ [] }
        ensures faults { result.faults ≡ 0 }
    {
        FilesOver {
            alloc,
            opener,
            keys,
            file: None,
            names: Vec::new(alloc),
            faults: 0,
            reason: None,
        }
    }

    /// The name that was started last, if one was.
    pub fn name(&self) -> Option<&str>
        ensures { option_copied result ≡ slice_get self.now.started (length self.now.started - 1) }
    {
        match self.names.last() {
            Some(name) => Some(name.as_str()),
            None => None,
        }
    }

    /// The reason for the last fault, if there was one.
    pub fn reason(&self) -> Option<io::Error> {
        self.reason
    }

    // The fault that an error of a read is, kept. A failure is counted.
    fn fault(&mut self, error: io::Error) -> PortFault
        ensures { self.new ≡ files_counted self.old result }
    {
        self.reason = Some(error);
        if error.kind() == ErrorKind::OutOfMemory {
            return PortFault::NoMemory;
        }
        self.faults = self.faults.saturating_add(1);
        PortFault::Failed
    }

    // The fault that an error of a start is, kept. A failure is counted, and the name noted.
    fn unopened(&mut self, name: String, error: io::Error) -> PortFault
        ensures { self.new ≡ files_unopened self.old (string_bytes name) result }
    {
        self.reason = Some(error);
        if error.kind() == ErrorKind::OutOfMemory || self.names.push(name).is_err() {
            return PortFault::NoMemory;
        }
        self.faults = self.faults.saturating_add(1);
        PortFault::Failed
    }
}

impl<O: Open + Drop> Files for FilesOver<O> {
    ghost holds = { λ files. O.holds files.opener };

    ghost rest = { λ files. files.rest };

    ghost started = { λ files. Some files.started };

    ghost taken = { λ _. None };

    ghost faults = { λ files. files.faults };

    fn keys(&self) -> TableKeys {
        self.keys
    }

    // The room for the name is taken first: once the file was asked for, no memory is wanted.
    fn start(&mut self, name: &str) -> Result<(), PortFault> {
        let kept = String::from_str(self.alloc, name)?;
        self.names.reserve(1)?;
        match self.opener.open(name) {
            Ok(file) => {
                self.names.push(kept)?;
                self.file = Some(file);
                Ok(())
            }
            Err(error) => Err(self.unopened(kept, error)),
        }
    }

    fn read(&mut self, buf: &mut [u8]) -> Result<usize, PortFault> {
        if buf.is_empty() {
            return Ok(0);
        }
        let Some(file) = &mut self.file else {
            return Ok(0);
        };
        match file.read(buf) {
            Ok(count) => Ok(count),
            Err(error) => Err(self.fault(error)),
        }
    }
}
