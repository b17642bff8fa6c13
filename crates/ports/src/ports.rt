//! The two traits through which the program reads and writes, and the faults that they answer.
ghost use Rattle.std.specs.Prelude.{◌≡◌, ℕ, ◌<◌, ◌≤◌, List, Option, length, IfOk, OnOk, OnErr};
ghost use Rattle.ports.specs.Ports.{faults_after, refusals_after, started_after, Opens, Reads, Writes};
ghost use Rattle.ports.specs.Taken.{opened_after, taken_after};
ghost use Rattle.ports.specs.declared.ports.PortFault.TheVariants.{NoMemory};

use std::alloc::{AllocError, AllocFailed};
use table_keys::TableKeys;

/// Why a call on a port gave no answer.
#[derive(Clone, Copy, Debug, PartialEq, Eq)]
pub enum PortFault {
    /// The file or the output failed. The port's count of faults rose by one.
    Failed,

    /// Memory was lacking.
    NoMemory,
}

impl From<AllocError> for PortFault {
    ghost from_gives = { λ _ fault. fault ≡ NoMemory };

    fn from(_error: AllocError) -> PortFault {
        PortFault::NoMemory
    }
}

impl<T: Drop> From<AllocFailed<T>> for PortFault {
    ghost from_gives = { λ _ fault. fault ≡ NoMemory };

    fn from(_error: AllocFailed<T>) -> PortFault {
        PortFault::NoMemory
    }
}

/// A file that a note is about, by what it holds.
#[derive(Clone, Copy, PartialEq, Eq)]
pub enum NotedFile {
    /// The netlist, or the deck.
    Circuit,

    /// The script.
    Script,

    /// The list of faults.
    List,
}

/// Files that are read by name, one at a time.
///
/// Contracts see what each name holds, which no call changes; what is left of the started file; the list of
/// the names that were started; how many bytes were taken of each started file, the last one first; and a
/// count of faults, which rises by one where a call fails and at no other call. The first four are there
/// where an implementation tells them. A name that isn't there holds no bytes.
pub trait Files {
    ghost holds: { Self → Option (List ℕ → List ℕ) };

    ghost rest: { Self → Option (List ℕ) };

    ghost started: { Self → Option (List (List ℕ)) };

    ghost taken: { Self → Option (List ℕ) };

    ghost faults: { Self → ℕ };

    /// The keys of the tables whose entries come from these files.
    ///
    /// No contract speaks of them, and nothing that is written depends on them.
    fn keys(&self) -> TableKeys;

    /// Starts the file of this name: from here on `read` gives its bytes.
    ///
    /// On `Ok` and on `Failed` the list of started names grew by this one. On `NoMemory` all is as before.
    fn start(&mut self, name: &str) -> Result<(), PortFault>
        ensures holds { holds self.new ≡ holds self.old }
        ensures opens { OnOk result (Opens (holds self.old) name.now (rest self.new)) }
        ensures err { OnErr result (rest self.new ≡ rest self.old) }
        ensures started { started self.new ≡ started_after (started self.old) name.now result }
        ensures taken { taken self.new ≡ opened_after (taken self.old) result }
        ensures cause { faults self.new ≡ faults_after (faults self.old) result };

    /// Puts the next bytes of the started file at the front of the buffer, and answers how many they are.
    ///
    /// An empty buffer changes nothing. For any other buffer 0 comes only at the file's end. After a fault
    /// all that was left is left still.
    fn read(&mut self, buf: &mut [u8]) -> Result<usize, PortFault>
        ensures holds { holds self.new ≡ holds self.old }
        ensures started { started self.new ≡ started self.old }
        ensures empty { length buf.old ≡ 0 → (result ≡ Ok 0) × (self.new ≡ self.old) }
        ensures bound { IfOk result (λ n. n ≤ length buf.new) }
        ensures bytes { Reads (rest self.old) (rest self.new) result buf.new }
        ensures taken { taken self.new ≡ taken_after (taken self.old) result }
        ensures cause { faults self.new ≡ faults_after (faults self.old) result };
}

/// A sink that takes bytes in order.
///
/// Contracts see the bytes written so far, where an implementation tells them, a count of faults and a count
/// of refused memory. A count rises by one where a call fails, or lacks memory, and at no other call.
pub trait Sink {
    ghost written: { Self → Option (List ℕ) };

    ghost faults: { Self → ℕ };

    ghost refusals: { Self → ℕ };

    /// Writes a prefix of the piece, and answers of how many bytes.
    ///
    /// An empty piece changes nothing. Of any other piece at least one byte is taken. After a fault nothing
    /// was written.
    fn write(&mut self, piece: &[u8]) -> Result<usize, PortFault>
        ensures empty { length piece.now ≡ 0 → (result ≡ Ok 0) × (self.new ≡ self.old) }
        ensures bound { IfOk result (λ n. n ≤ length piece.now) }
        ensures progress { IfOk result (λ n. 0 < length piece.now → 0 < n) }
        ensures bytes { Writes (written self.old) (written self.new) result piece.now }
        ensures cause { faults self.new ≡ faults_after (faults self.old) result }
        ensures memory { refusals self.new ≡ refusals_after (refusals self.old) result };

    /// Notes for a human what a file has, by a text that follows the file's name.
    ///
    /// A note is no part of what is written, and may be passed over: nothing else is said of it.
    fn note(&mut self, _file: NotedFile, _text: &[u8])
        ensures bytes { written self.new ≡ written self.old }
        ensures cause { faults self.new ≡ faults self.old }
        ensures memory { refusals self.new ≡ refusals self.old }
    {}
}
