//! A sink whose notes on a netlist are on the second one.

use ports::{NotedFile, PortFault, Sink};

// A sink over another, which takes all that is written. A note on the netlist goes on as one on the file that is named behind it.
#[derive(Drop)]
pub(crate) struct OtherNet<S: Sink + Drop> {
    pub(crate) sink: S,
}

impl<S: Sink + Drop> Sink for OtherNet<S> {
    ghost written = { λ own. S.written own.sink };

    ghost faults = { λ own. S.faults own.sink };

    ghost refusals = { λ own. S.refusals own.sink };

    fn write(&mut self, piece: &[u8]) -> Result<usize, PortFault> {
        self.sink.write(piece)
    }

    fn note(&mut self, file: NotedFile, text: &[u8]) {
        let file = match file {
            NotedFile::Circuit => NotedFile::List,
            other => other,
        };
        self.sink.note(file, text);
    }
}
