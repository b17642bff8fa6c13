//! A hearer that says lines at the port of a talk.
ghost use Rattle.std.specs.Prelude.{◌≡◌, IfOk};

use ports::{NotedFile, PortFault};
use printed_lines::LineBuf;
use std::alloc::Global;
use std::marker::Model;
use talk_port::Talk;
use ternary::NoMemory;
use told_lines::{Line, Lines, put_told};

/// A teller: it says each line at its port, behind the last line that was heard there.
///
/// It is a port itself, for what is no line of a script: that goes to its own port as it is.
#[derive(Drop)]
pub struct Teller<T: Talk + Drop> {
    line: LineBuf,
    port: T,
}

impl<T: Talk + Drop> Model for Teller<T> {
    ghost use Rattle.std.specs.Prelude.{◌≡◌, []};
    ghost use Rattle.talk_run.specs.Telling.{TellerData};

    ghost Value = { TellerData };

    ghost view = { λ teller. record {
      spoken = record { talk = T.talk teller.port; unheard = T.unheard teller.port };
      behind = T.behind teller.port;
      room = teller.line.spare;
      faults = T.faults teller.port;
      refusals = T.refusals teller.port;
    } };

    ghost invariant = { λ teller. teller.line.bytes ≡ [] };
}

impl<T: Talk + Drop> Teller<T> {
    /// A teller at this port.
    pub fn new(alloc: Global, port: T) -> Result<Teller<T>, NoMemory>
        ensures talk { IfOk result (λ teller. teller.spoken.talk ≡ T.talk port) }
        ensures unheard { IfOk result (λ teller. teller.spoken.unheard ≡ T.unheard port) }
        ensures faults { IfOk result (λ teller. teller.faults ≡ T.faults port) }
        ensures refusals { IfOk result (λ teller. teller.refusals ≡ T.refusals port) }
    {
        let line = LineBuf::new(alloc, 0)?;
        Ok(Teller { line, port })
    }

    /// The port, with all that was said.
    pub fn into_port(self) -> T
        ensures talk { T.talk result ≡ self.spoken.talk }
        ensures unheard { T.unheard result ≡ self.spoken.unheard }
        ensures faults { T.faults result ≡ self.faults }
        ensures refusals { T.refusals result ≡ self.refusals }
    {
        let Teller { port, .. } = self;
        port
    }
}

impl<T: Talk + Drop> Lines for Teller<T> {
    ghost use Rattle.talk_run.specs.Telling.{Spoken, speak, SpeaksPart};

    ghost Heard = { Spoken };

    ghost heard = { λ teller. teller.spoken };

    ghost hear = { speak };

    ghost part = { SpeaksPart };

    ghost room = { λ teller. teller.room };

    ghost faults = { λ teller. teller.faults };

    ghost refusals = { λ teller. teller.refusals };

    fn reserve(&mut self, bytes: usize) -> Result<(), NoMemory> {
        self.line.reserve(bytes)
    }

    fn tell(&mut self, column: u32, line: Line) -> Result<(), PortFault> {
        put_told(&mut self.line, false, column, line);
        let said = self.port.say(self.line.bytes());
        self.line.clear();
        said
    }

    fn note(&mut self, file: NotedFile, text: &[u8]) {
        self.port.note(file, text);
    }
}

impl<T: Talk + Drop> Talk for Teller<T> {
    ghost talk = { λ teller. teller.spoken.talk };

    ghost behind = { λ teller. teller.behind };

    ghost unheard = { λ teller. teller.spoken.unheard };

    ghost faults = { λ teller. teller.faults };

    ghost refusals = { λ teller. teller.refusals };

    fn hand_on(&mut self) -> Result<(), PortFault> {
        self.port.hand_on()
    }

    fn hear(&mut self, line: &mut Vec<u8>) -> Result<bool, PortFault> {
        self.port.hear(line)
    }

    fn say(&mut self, piece: &[u8]) -> Result<(), PortFault> {
        self.port.say(piece)
    }

    fn note(&mut self, file: NotedFile, text: &[u8]) {
        self.port.note(file, text);
    }
}
