//! The trusted edge: the files of the system and the standard output. What they hold and take is told nowhere.
ghost use Rattle.std.specs.Prelude.{◌≡◌, ◌≤◌, [], None, length, IfOk};
ghost use Rattle.std.specs.Io.KnownBytes.{ReadConsumes, WriteAppends};
ghost use Rattle.ports.specs.Ports.{Reads, Writes};

use crate::files_over::FilesOver;
use crate::outer::{Inlet, Open, Outlet};
use crate::sink_over::SinkOver;
use std::fs::File;
use std::io;
use std::io::{Read, Write};
use table_keys::TableKeys;

/// The standard output as an outlet.
pub type RealOutlet<'a> = Writer<io::Printer<'a, HostRuntime>>;

/// The standard output.
pub type RealSink<'a> = SinkOver<RealOutlet<'a>>;

/// The files of the system.
pub type RealFiles<'a> = FilesOver<HostFiles<'a>>;

/// A writer of the standard library as an outlet.
///
/// It tells nothing, since such a writer may begin to tell what it holds at any call. If the writer does
/// tell, it grew by the bytes that are answered, and by none at an error.
#[derive(Drop)]
pub struct Writer<W: Write> {
    writer: W,
}

impl<W: Write> Writer<W> {
    /// This writer as an outlet.
    pub fn new(writer: W) -> Writer<W>
        ensures { result.writer ≡ writer }
    {
        Writer { writer }
    }
}

impl<W: Write> Outlet for Writer<W> {
    ghost contents = { λ _. None };

    fn write(&mut self, bytes: &[u8]) -> io::Result<usize>
        ensures bound { IfOk result (λ n. n ≤ length bytes.now) }
        ensures bytes { Writes None None result bytes.now }
        ensures appends { WriteAppends (W.contents self.old.writer) (W.contents self.new.writer) result bytes.now }
    {
        self.writer.write(bytes)
    }
}

/// A reader of the standard library as an inlet.
///
/// It tells nothing, for the same reason. If the reader does tell what it has left, the bytes come from
/// there, none only at its end, and none at an error.
#[derive(Drop)]
pub struct Reader<R: Read> {
    reader: R,
}

impl<R: Read> Reader<R> {
    /// This reader as an inlet.
    pub fn new(reader: R) -> Reader<R>
        ensures { result.reader ≡ reader }
    {
        Reader { reader }
    }
}

impl<R: Read> Inlet for Reader<R> {
    ghost left = { λ _. None };

    fn read(&mut self, buf: &mut [u8]) -> io::Result<usize>
        ensures bound { IfOk result (λ n. n ≤ length buf.new) }
        ensures bytes { Reads None None result buf.new }
        ensures given { ReadConsumes (R.remaining self.old.reader) (R.remaining self.new.reader) result buf.new }
    {
        self.reader.read(buf)
    }
}

/// Opens the files that a runtime reaches.
#[derive(Drop)]
pub struct HostFiles<'a> {
    rt: &'a HostRuntime,
}

impl Open for HostFiles<'_> {
    type File = Reader<File>;

    ghost holds = { λ _. None };

    fn open(&self, name: &str) -> io::Result<Reader<File>> {
        let file = File::open(self.rt, name)?;
        Ok(Reader::new(file))
    }
}

/// The standard output that this runtime reaches, as an outlet.
pub fn real_outlet(rt: &HostRuntime) -> RealOutlet<'_> {
    Writer::new(io::writer(rt))
}

/// The standard output that this runtime reaches. No fault and no refusal is counted.
pub fn real_sink(rt: &HostRuntime) -> RealSink<'_>
    ensures faults { result.faults ≡ 0 }
    ensures refusals { result.refusals ≡ 0 }
{
    SinkOver::new(real_outlet(rt))
}

/// The files that this runtime reaches. None is started, and no fault is counted. Tables whose entries come
/// from them are hashed with these keys.
pub fn real_files(rt: &HostRuntime, keys: TableKeys) -> RealFiles<'_>
    ensures started { result.started ≡ [] }
    ensures faults { result.faults ≡ 0 }
{
    FilesOver::new(rt.alloc(), HostFiles { rt }, keys)
}
