//! A sink in memory that keeps a note.
ghost use Rattle.std.specs.Prelude.{◌≡◌, Some};
ghost use Rattle.ports.specs.HonestPorts.{unwritten};

use ports::{HonestSink, NotedFile, PortFault, Sink};
use std::alloc::Global;
use std::marker::Model;
use talk_port::Talk;

// A sink in memory, and the last note that it was given. Contracts see the sink alone.
#[derive(Drop)]
pub(crate) struct NotingSink {
    alloc: Global,
    sink: HonestSink,
    noted: Option<(NotedFile, Vec<u8>)>,
}

impl Model for NotingSink {
    ghost use Rattle.ports.specs.HonestPorts.{HonestSinkData};

    ghost Value = { HonestSinkData };

    ghost view = { λ noting. noting.sink };
}

impl NotingSink {
    // A sink to which nothing was written.
    pub(crate) fn new(alloc: Global) -> NotingSink
        ensures { result ≡ unwritten }
    {
        NotingSink {
            alloc,
            sink: HonestSink::new(alloc),
            noted: None,
        }
    }

    // All bytes written so far, in order.
    pub(crate) fn written(&self) -> &[u8]
        ensures { result.now ≡ self.now.written }
    {
        self.sink.written()
    }

    // Hands the note on to a port.
    pub(crate) fn note_to<T: Talk>(&self, out: &mut T)
        ensures talk { T.talk out.new ≡ T.talk out.old }
        ensures behind { T.behind out.new ≡ T.behind out.old }
        ensures hearing { T.unheard out.new ≡ T.unheard out.old }
        ensures cause { T.faults out.new ≡ T.faults out.old }
    {
        if let Some((file, text)) = &self.noted {
            out.note(*file, text);
        }
    }
}

impl Sink for NotingSink {
    ghost written = { λ sink. Some sink.written };

    ghost faults = { λ _. 0 };

    ghost refusals = { λ sink. sink.refusals };

    fn write(&mut self, piece: &[u8]) -> Result<usize, PortFault> {
        self.sink.write(piece)
    }

    fn note(&mut self, file: NotedFile, text: &[u8]) {
        if let Ok(text) = Vec::from_slice(self.alloc, text) {
            self.noted = Some((file, text));
        }
    }
}
