//! Who answers the lines of a talk: a session.
ghost use Rattle.std.specs.Prelude.{◌≡◌, OnOk};
ghost use Rattle.talk_run.specs.Words.{asked_seen, broken_stop, faults_after, faults_read, faults_written, mind_of, raised, Replies, TalksIn};

use crate::asking::{Asked, asked_of, is_quit};
use crate::obeying::obey;
use crate::reasons::{echo, explain};
use crate::refusals::{refuse, word_of};
use crate::teller::Teller;
use column_stage::PlainStage;
use cosmos_session::Session;
use group_analysis::Analyst;
use line_words::{Line, without_return};
use netlist::Circuit;
use ports::PortFault;
use run_ends::{End, Stop};
use script_run::end_of;
use std::alloc::Global;
use talk_port::{Broken, Speaker, Talk, converse};

/// A session that answers the lines of a talk, with its analyst and the number of lines that were heard.
#[derive(Drop)]
pub struct Obeying<M: PlainStage, A: Analyst + Drop> {
    alloc: Global,
    session: Session<M>,
    analyst: A,
    heard: u64,
}

impl<T: Talk + Drop, M: PlainStage, A: Analyst + Drop> Speaker<Teller<T>> for Obeying<M, A> {
    ghost use Rattle.talk_run.specs.Answers.{TalkMind, mind_of, IsAnswer, BreaksAnswer};
    ghost use Rattle.talk_run.specs.Asking.{quits};

    ghost Mind = { TalkMind };

    ghost mind = { λ obeying. mind_of obeying.session.core obeying.heard (A.analysed obeying.analyst) };

    ghost answers = { IsAnswer };

    ghost quits = { quits };

    ghost part = { BreaksAnswer };

    fn answer(&mut self, line: &[u8], port: &mut Teller<T>) -> Result<bool, PortFault> {
        self.heard = next_number(self.heard);
        let bytes = without_return(line);
        let asked = asked_of(bytes);
        let more = !is_quit(&asked);
        match self.reply(asked, bytes, port) {
            Ok(()) => Ok(more),
            Err(fault) => Err(fault),
        }
    }
}

impl<M: PlainStage, A: Analyst + Drop> Obeying<M, A> {
    // Answers the line that was heard last, by what it asks for.
    fn reply<T: Talk + Drop>(
        &mut self,
        asked: Asked<'_>,
        bytes: &[u8],
        port: &mut Teller<T>,
    ) -> Result<(), PortFault>
        ensures said { Replies (asked_seen asked.entry)
            (mind_of self.old.session.core self.old.heard (A.analysed self.old.analyst)) bytes.now
            (mind_of self.new.session.core self.new.heard (A.analysed self.new.analyst))
            port.old.spoken.talk port.new.spoken.talk result }
        ensures hearing { port.new.spoken.unheard ≡ port.old.spoken.unheard }
        ensures faults { port.new.faults ≡ faults_after port.old.faults result }
    {
        let number = self.heard;
        match asked {
            Asked::OfScript => {
                let line = Line { number, bytes };
                obey(self.alloc, &mut self.session, line, port, &mut self.analyst)
            }
            Asked::Why(name) => explain(self.alloc, &self.session, number, name, port),
            Asked::Echo(first, words) => echo(self.alloc, first, words, port),
            Asked::Quit => Ok(()),
            Asked::Refused(code) => {
                let word = word_of(code, bytes, &self.session);
                refuse(self.alloc, number, code, word, port)
            }
        }
    }
}

// The number of the line behind so many.
fn next_number(heard: u64) -> u64
    ensures { result ≡ raised heard 1 }
{
    heard.saturating_add(1)
}

/// Lets a session in this circuit answer the lines of a talk, from its start, until the end is heard or a line quits.
///
/// An expectation that isn't met shows in the end; a refused line doesn't. What stops a talk is a fault of the port, in
/// hearing or in saying, or lack of memory: then each line that was heard is answered, or the last one in part.
pub fn talk_in<M: PlainStage, T: Talk + Drop, A: Analyst + Drop>(
    alloc: Global,
    circuit: Circuit,
    analyst: A,
    port: &mut Teller<T>,
) -> Result<End, Stop>
    ensures told { TalksIn circuit (A.analysed analyst) port.old.spoken.talk port.new.spoken.talk result }
    ensures handed { OnOk result (port.new.behind ≡ 0) }
    ensures hearing { port.new.spoken.unheard ≡ faults_read port.old.spoken.unheard result }
    ensures faults { port.new.faults ≡ faults_written port.old.faults result }
{
    let session = Session::<M>::new(alloc, circuit)?;
    let mut speaker = Obeying {
        alloc,
        session,
        analyst,
        heard: 0,
    };
    let mut line = Vec::new(alloc);
    match converse(port, &mut line, &mut speaker) {
        Ok(()) => Ok(end_of(&speaker.session)),
        Err(broken) => Err(stop_of(broken)),
    }
}

// What stopped a talk that broke off.
fn stop_of(broken: Broken) -> Stop
    ensures { result ≡ broken_stop broken }
{
    match broken {
        Broken::Unheard(fault) => Stop::of_read(fault),
        Broken::Unsaid(fault) => Stop::of_write(fault),
    }
}
