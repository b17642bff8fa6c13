//! A talk in memory.
ghost use Rattle.std.specs.Prelude.{◌≡◌, ◌<◌, true, Some, length, map, take, IfOk, OnErr, OnOk};
ghost use Rattle.ports.specs.Ports.{faults_after};
ghost use Rattle.talk_port.specs.MemTalks.{HearsNext, mem_refused, turn_of, unheard};
ghost use Rattle.talk_port.specs.Talks.{kept_bytes, said_next, Hears};

use crate::talks::{KEPT_BYTES, Talk};
use ports::PortFault;
use std::alloc::{AllocError, Global};
use std::marker::Model;

/// A talk in memory, in which given lines are heard. It never fails, and tells all: what it lacks can only be memory.
#[derive(Drop)]
pub struct MemTalk {
    alloc: Global,
    lines: Vec<Vec<u8>>,
    opening: Vec<u8>,
    // the last turn first
    turns: Vec<(Vec<u8>, Vec<u8>)>,
    ended: bool,
    refusals: u64,
}

impl Model for MemTalk {
    ghost use Rattle.std.specs.Prelude.{map};
    ghost use Rattle.talk_port.specs.MemTalks.{MemTalkData, turn_of};
    ghost use Rattle.talk_port.specs.Talks.{TalkData};

    ghost Value = { MemTalkData };

    ghost view = { λ talk. record {
      left = map (λ line. line.items) talk.lines.items;
      talk = record { opening = talk.opening.items; turns = map turn_of talk.turns.items; ended = talk.ended };
      refusals = talk.refusals;
    } };
}

impl MemTalk {
    /// A talk in which these lines are to be heard.
    pub fn new(alloc: Global, lines: Vec<Vec<u8>>) -> MemTalk
        ensures { result ≡ unheard (map (λ line. line.items) lines.items) }
    {
        MemTalk {
            alloc,
            lines,
            opening: Vec::new(alloc),
            turns: Vec::new(alloc),
            ended: false,
            refusals: 0,
        }
    }

    /// What was said before a line was heard.
    pub fn opening(&self) -> &[u8]
        ensures { result.now ≡ self.now.talk.opening }
    {
        &self.opening
    }

    /// The lines that were heard, each with what was said behind it, the last one first.
    pub fn turns(&self) -> &[(Vec<u8>, Vec<u8>)]
        ensures { map turn_of result.now ≡ self.now.talk.turns }
    {
        &self.turns
    }

    // Begins the turn of the next line, a prefix of which comes to `line`.
    fn begin(&mut self, line: &mut Vec<u8>) -> Result<(), AllocError>
        requires { 0 < length self.old.left }
        ensures ok { OnOk result (HearsNext self.old self.new true line.new.items) }
        ensures err { OnErr result (self.new.talk ≡ self.old.talk) }
        ensures refusals { self.new.refusals ≡ self.old.refusals }
    {
        line.clear();
        let next = &self.lines[0];
        line.extend_from_slice(prefix(next))?;
        let heard = self.lines.remove(0);
        self.turns.insert(0, (heard, Vec::new(self.alloc)))?;
        Ok(())
    }

    // Says a piece behind the last line.
    fn add(&mut self, piece: &[u8]) -> Result<(), AllocError>
        ensures ok { OnOk result (self.new.talk ≡ said_next piece.now self.old.talk) }
        ensures err { OnErr result (self.new.talk ≡ self.old.talk) }
        ensures refusals { self.new.refusals ≡ self.old.refusals }
    {
        if self.turns.is_empty() {
            self.opening.extend_from_slice(piece)
        } else {
            self.turns[0].1.extend_from_slice(piece)
        }
    }

    // Memory was refused.
    fn refused(&mut self) -> PortFault
        ensures counted { self.new ≡ mem_refused self.old }
        ensures fault { result ≡ PortFault.NoMemory }
    {
        self.refusals = self.refusals.saturating_add(1);
        PortFault::NoMemory
    }
}

impl Talk for MemTalk {
    ghost talk = { λ mem. Some mem.talk };

    ghost behind = { λ _. 0 };

    ghost unheard = { λ _. 0 };

    ghost faults = { λ _. 0 };

    ghost refusals = { λ mem. mem.refusals };

    fn hand_on(&mut self) -> Result<(), PortFault> {
        Ok(())
    }

    fn hear(&mut self, line: &mut Vec<u8>) -> Result<bool, PortFault>
        ensures heard { IfOk result (λ more. Hears (Some self.old.talk) (Some self.new.talk) more line.new.items) }
        ensures err { OnErr result (Some self.new.talk ≡ Some self.old.talk) }
        ensures hearing { 0 ≡ faults_after 0 result }
        ensures memory { self.new.refusals ≡ self.old.refusals }

        // The lines are heard in order, and then the end.
        ensures next { IfOk result (λ more. HearsNext self.old self.new more line.new.items) }
    {
        if self.lines.is_empty() {
            self.ended = true;
            return Ok(false);
        }
        match self.begin(line) {
            Ok(()) => Ok(true),
            Err(_) => Err(PortFault::NoMemory),
        }
    }

    fn say(&mut self, piece: &[u8]) -> Result<(), PortFault> {
        match self.add(piece) {
            Ok(()) => Ok(()),
            Err(_) => Err(self.refused()),
        }
    }
}

// The prefix of a line that is kept.
fn prefix(line: &[u8]) -> &[u8]
    ensures { result.now ≡ take kept_bytes line.now }
{
    if line.len() <= KEPT_BYTES {
        line
    } else {
        &line[..KEPT_BYTES]
    }
}
