//! A hearer that writes lines to a sink.
ghost use Rattle.std.specs.Prelude.{◌≡◌, [], false};
ghost use Rattle.symbol_meaning.specs.Told as spec;
ghost use Rattle.symbol_told.specs.Lines.{told_seen};

use crate::lines::{SymbolLines, ToldLine};
use crate::sending::{Text, send_text};
use decision_graph::Function;
use ports::{NotedFile, PortFault, Sink};
use printed_lines::LineBuf;
use script_lang::{Name, NameList};
use std::marker::Model;

/// A printer: it writes each line to its sink, by the names of the variables, and remembers whether an expectation isn't met.
///
/// It is a sink itself, for texts that are no lines of a script: they go to its own sink as they are.
#[derive(Drop)]
pub struct SymbolPrinter<S: Sink + Drop> {
    variables: NameList,
    missed: bool,
    line: LineBuf,
    sink: S,
}

impl<S: Sink + Drop> Model for SymbolPrinter<S> {
    ghost use Rattle.std.specs.Prelude.{◌≡◌, []};
    ghost use Rattle.symbol_told.specs.Printing.{PrinterData};

    ghost Value = { PrinterData };

    ghost view = { λ printer. record { page = record { variables = printer.variables; written = S.written printer.sink; missed = printer.missed }; faults = S.faults printer.sink; refusals = S.refusals printer.sink } };

    ghost invariant = { λ printer. printer.line.bytes ≡ [] };
}

impl<S: Sink + Drop> SymbolPrinter<S> {
    /// A printer to this sink, by the names of these variables, by way of a buffer without bytes.
    pub fn new(line: LineBuf, variables: NameList, sink: S) -> SymbolPrinter<S>
        requires { line.bytes ≡ [] }
        ensures page { result.page ≡ record { variables = variables; written = S.written sink; missed = false } }
        ensures faults { result.faults ≡ S.faults sink }
        ensures refusals { result.refusals ≡ S.refusals sink }
    {
        SymbolPrinter {
            variables,
            missed: false,
            line,
            sink,
        }
    }

    /// Whether an expectation among the lines isn't met.
    pub fn missed(&self) -> bool
        ensures { result ≡ self.now.page.missed }
    {
        self.missed
    }

    /// The sink, with all that was printed.
    pub fn into_sink(self) -> S
        ensures written { S.written result ≡ self.page.written }
        ensures faults { S.faults result ≡ self.faults }
        ensures refusals { S.refusals result ≡ self.refusals }
    {
        let SymbolPrinter { sink, .. } = self;
        sink
    }
}

impl<S: Sink + Drop> SymbolLines for SymbolPrinter<S> {
    ghost use Rattle.symbol_told.specs.Printing.{Page, print, part_printed};

    ghost Heard = { Page };

    ghost heard = { λ printer. printer.page };

    ghost hear = { print };

    ghost part = { part_printed };

    ghost faults = { λ printer. printer.faults };

    ghost refusals = { λ printer. printer.refusals };

    fn tell(
        &mut self,
        line: ToldLine,
        _highs: &[Function],
        _lows: &[Function],
    ) -> Result<(), PortFault> {
        self.missed |= is_unmet(line);
        send_text(
            &mut self.line,
            self.variables.items(),
            Text::Told(line),
            &mut self.sink,
        )
    }

    fn note(&mut self, file: NotedFile, text: &[u8]) {
        self.sink.note(file, text);
    }
}

impl<S: Sink + Drop> Sink for SymbolPrinter<S> {
    ghost written = { λ printer. printer.page.written };

    ghost faults = { λ printer. printer.faults };

    ghost refusals = { λ printer. printer.refusals };

    fn write(&mut self, piece: &[u8]) -> Result<usize, PortFault> {
        self.sink.write(piece)
    }

    fn note(&mut self, file: NotedFile, text: &[u8]) {
        self.sink.note(file, text);
    }
}

// Whether the line is of an expectation that isn't met.
fn is_unmet(line: ToldLine) -> bool
    ensures { result ≡ spec.is_unmet (told_seen line.entry) }
{
    matches!(line, ToldLine::Unmet { .. })
}
