//! What writes a dump to a sink, and keeps the fault that comes.
ghost use Rattle.std.specs.Prelude.{◌≡◌, [], ◌++◌};
ghost use Rattle.wave_dump.specs.Pens.{IsSent};

use ports::{NotedFile, PortFault, Sink, send};
use std::alloc::Global;
use std::marker::Model;
use std::snapshot::Snapshot;
use unseen_text::UnseenText;

/// A sink, and the line that is sent to it next.
///
/// No call fails. Once a fault came, of the sink or of memory for the line, nothing more is sent; contracts
/// still see all that was put.
#[derive(Drop)]
pub(crate) struct Pen<S: Sink + Drop> {
    sink: S,
    // the sink as it was given, and all that was put since, for contracts alone
    given: Snapshot<S>,
    due: UnseenText,
    // what was put and isn't sent yet
    line: Vec<u8>,
    fault: Option<PortFault>,
}

impl<S: Sink + Drop> Model for Pen<S> {
    ghost use Rattle.wave_dump.specs.Pens.{PenData, Stands};

    ghost Value = { PenData };

    ghost view = { λ pen. record {
      before = record { written = S.written pen.given.value; faults = S.faults pen.given.value; refusals = S.refusals pen.given.value };
      text = pen.due.text;
    } };

    ghost invariant = { λ pen. Stands
        (record { written = S.written pen.given.value; faults = S.faults pen.given.value; refusals = S.refusals pen.given.value }) pen.due.text
        (record { written = S.written pen.sink; faults = S.faults pen.sink; refusals = S.refusals pen.sink }) pen.line.items pen.fault };
}

impl<S: Sink + Drop> Pen<S> {
    // A pen over this sink.
    pub(crate) fn new(alloc: Global, sink: S) -> Pen<S>
        ensures before { result.before ≡ record { written = S.written sink; faults = S.faults sink; refusals = S.refusals sink } }
        ensures text { result.text ≡ [] }
    {
        let given = Snapshot::of(&sink);
        Pen {
            sink,
            given,
            due: UnseenText::new(),
            line: Vec::new(alloc),
            fault: None,
        }
    }

    // The sink, once all that was put is sent; and the fault, if one came.
    pub(crate) fn finish(self) -> (S, Result<(), PortFault>)
        ensures { IsSent self.before self.text (record { written = S.written result.0; faults = S.faults result.0; refusals = S.refusals result.0 }) result.1 }
    {
        let Pen {
            sink,
            line,
            fault,
            ..
        } = self;
        match fault {
            None => {
                let mut sink = sink;
                let sent = send(&mut sink, &line);
                (sink, sent)
            }
            Some(fault) => (sink, Err(fault)),
        }
    }

    // Puts bytes behind what was put.
    pub(crate) fn put(&mut self, bytes: &[u8])
        ensures text { self.new.text ≡ self.old.text ++ bytes.now }
        ensures before { self.new.before ≡ self.old.before }
    {
        self.due = self.due.with(bytes);
        if self.fault.is_some() {
            return;
        }
        if self.line.extend_from_slice(bytes).is_err() {
            self.fault = Some(PortFault::NoMemory);
        }
    }

    // Sends what was put.
    pub(crate) fn send_line(&mut self)
        ensures { self.new ≡ self.old }
    {
        if self.fault.is_some() {
            return;
        }
        let sent = send(&mut self.sink, &self.line);
        self.line.clear();
        match sent {
            Ok(()) => {}
            Err(fault) => self.fault = Some(fault),
        }
    }

    // Notes for a human what a file has, by way of the sink.
    pub(crate) fn note(&mut self, file: NotedFile, text: &[u8])
        ensures { self.new ≡ self.old }
    {
        self.sink.note(file, text);
    }

    // The fault, if one came.
    pub(crate) fn fault(&self) -> Option<PortFault> {
        self.fault
    }
}
