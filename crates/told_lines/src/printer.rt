//! A hearer that writes lines to a sink.
ghost use Rattle.std.specs.Prelude.{◌≡◌, IfOk};

use crate::lines::{Line, Lines};
use crate::putting::{put_row, put_told};
use ports::{NotedFile, PortFault, Sink, send};
use printed_lines::LineBuf;
use settling::Settled;
use std::alloc::Global;
use std::marker::Model;
use ternary::{NoMemory, Tern};

/// A printer: it writes each line to its sink, with its column's number from 1 before it, or without.
///
/// It is a sink itself, for texts that are no lines of a script: they go to its own sink as they are.
#[derive(Drop)]
pub struct Printer<S: Sink + Drop> {
    numbered: bool,
    line: LineBuf,
    sink: S,
}

impl<S: Sink + Drop> Model for Printer<S> {
    ghost use Rattle.std.specs.Prelude.{◌≡◌, []};
    ghost use Rattle.told_lines.specs.Printing.{PrinterData};

    ghost Value = { PrinterData };

    ghost view = { λ printer. record { page = record { numbered = printer.numbered; written = S.written printer.sink }; room = printer.line.spare; faults = S.faults printer.sink; refusals = S.refusals printer.sink } };

    ghost invariant = { λ printer. printer.line.bytes ≡ [] };
}

impl<S: Sink + Drop> Printer<S> {
    /// A printer to this sink.
    pub fn new(alloc: Global, sink: S, numbered: bool) -> Result<Printer<S>, NoMemory>
        ensures page { IfOk result (λ printer. printer.page ≡ record { numbered = numbered; written = S.written sink }) }
        ensures faults { IfOk result (λ printer. printer.faults ≡ S.faults sink) }
        ensures refusals { IfOk result (λ printer. printer.refusals ≡ S.refusals sink) }
    {
        let line = LineBuf::new(alloc, 0)?;
        Ok(Printer {
            numbered,
            line,
            sink,
        })
    }

    /// From here on columns are numbered, or they are not.
    pub fn set_numbered(&mut self, numbered: bool)
        ensures { self.new ≡ record self.old { page = record self.old.page { numbered = numbered } } }
    {
        self.numbered = numbered;
    }

    /// The sink, with all that was printed.
    pub fn into_sink(self) -> S
        ensures written { S.written result ≡ self.page.written }
        ensures faults { S.faults result ≡ self.faults }
        ensures refusals { S.refusals result ≡ self.refusals }
    {
        let Printer { sink, .. } = self;
        sink
    }
}

impl<S: Sink + Drop> Lines for Printer<S> {
    ghost use Rattle.told_lines.specs.Printing.{Page, print, PrintsPart};

    ghost Heard = { Page };

    ghost heard = { λ printer. printer.page };

    ghost hear = { print };

    ghost part = { PrintsPart };

    ghost room = { λ printer. printer.room };

    ghost faults = { λ printer. printer.faults };

    ghost refusals = { λ printer. printer.refusals };

    fn reserve(&mut self, bytes: usize) -> Result<(), NoMemory> {
        self.line.reserve(bytes)
    }

    fn tell(&mut self, column: u32, line: Line) -> Result<(), PortFault> {
        put_told(&mut self.line, self.numbered, column, line);
        let sent = send(&mut self.sink, self.line.bytes());
        self.line.clear();
        sent
    }

    // All lines of the row are sent as one text.
    fn tell_row(
        &mut self,
        n: u64,
        counts: &[Settled],
        width: usize,
        values: &[Tern],
    ) -> Result<(), PortFault> {
        put_row(&mut self.line, self.numbered, n, counts, width, values);
        let sent = send(&mut self.sink, self.line.bytes());
        self.line.clear();
        sent
    }

    fn note(&mut self, file: NotedFile, text: &[u8]) {
        self.sink.note(file, text);
    }
}

impl<S: Sink + Drop> Sink for Printer<S> {
    ghost written = { λ printer. printer.page.written };

    ghost faults = { λ printer. printer.faults };

    ghost refusals = { λ printer. printer.refusals };

    fn write(&mut self, piece: &[u8]) -> Result<usize, PortFault> {
        self.sink.write(piece)
    }

    fn note(&mut self, file: NotedFile, text: &[u8]) {
        self.sink.note(file, text);
    }
}
