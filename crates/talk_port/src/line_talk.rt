//! A talk over a reader and an outlet.
ghost use Rattle.std.specs.Prelude.{◌≡◌, [], ℕ, ◌+◌, ◌≤◌, ◌<◌, ◌^◌, None, Some, drop, take, length, vec_len, IfOk, OnOk, OnErr};
ghost use Rattle.std.specs.Io.KnownBytes.{Keeps, Appends, prepend_known};
ghost use Rattle.ports.specs.Ports.{faults_after, refusals_after};
ghost use Rattle.talk_port.specs.LineTalks.{LineTalkData, talk_counted, unheard_counted, HearsKept, TakesByte, kept_more, SaysPrefix};
ghost use Rattle.talk_port.specs.Talks.{Hears, SaysPart};

use crate::ahead::Ahead;
use crate::outlet::Flush;
use crate::talks::{KEPT_BYTES, Talk};
use ports::{NotedFile, PortFault};
use std::alloc::{AllocError, Global};
use std::io;
use std::io::{ErrorKind, Read};
use std::marker::Model;

/// A talk over a reader and an outlet.
///
/// Contracts see what the reader and the outlet tell of their bytes, how many bytes were said since the outlet handed
/// on the last time, and the counts. Layers above see these alone.
#[derive(Drop)]
pub struct LineTalk<R: Read + Drop, W: Flush + Drop> {
    ahead: Ahead<R>,
    outlet: W,
    behind: u64,
    unheard: u64,
    faults: u64,
    refusals: u64,
    reason: Option<io::Error>,
}

impl<R: Read + Drop, W: Flush + Drop> Model for LineTalk<R, W> {
    ghost use Rattle.std.specs.Io.KnownBytes.{prepend_known};
    ghost use Rattle.talk_port.specs.LineTalks.{LineTalkData};

    ghost Value = { LineTalkData };

    ghost view = { λ talk. record {
      left = prepend_known talk.ahead.ready talk.ahead.rest;
      contents = W.contents talk.outlet;
      handed = W.handed talk.outlet;
      behind = talk.behind;
      unheard = talk.unheard;
      faults = talk.faults;
      refusals = talk.refusals;
    } };
}

impl<R: Read + Drop, W: Flush + Drop> LineTalk<R, W> {
    /// A talk over this reader and this outlet. It takes its room here.
    pub fn new(alloc: Global, reader: R, outlet: W) -> Result<LineTalk<R, W>, AllocError>
        ensures left { IfOk result (λ talk. talk.left ≡ R.remaining reader) }
        ensures contents { IfOk result (λ talk. talk.contents ≡ W.contents outlet) }
        ensures behind { IfOk result (λ talk. talk.behind ≡ 0) }
        ensures counts { IfOk result (λ talk. (talk.unheard ≡ 0) × (talk.faults ≡ 0) × (talk.refusals ≡ 0)) }
    {
        Ok(LineTalk {
            ahead: Ahead::new(alloc, reader)?,
            outlet,
            behind: 0,
            unheard: 0,
            faults: 0,
            refusals: 0,
            reason: None,
        })
    }

    /// The reason for the last fault, if there was one.
    pub fn reason(&self) -> Option<io::Error> {
        self.reason
    }

    // The fault that an error is, kept as the reason and not counted yet.
    fn reasoned(&mut self, error: io::Error) -> PortFault
        ensures { self.new ≡ self.old }
    {
        self.reason = Some(error);
        match error.kind() {
            ErrorKind::OutOfMemory => PortFault::NoMemory,
            _ => PortFault::Failed,
        }
    }

    // The fault that an error of the reader is, counted and kept.
    fn deaf(&mut self, error: io::Error) -> PortFault
        ensures { self.new ≡ unheard_counted self.old result }
    {
        let fault = self.reasoned(error);
        if let PortFault::Failed = fault {
            self.unheard = self.unheard.saturating_add(1);
        }
        fault
    }

    // The fault that an error of the outlet is, counted and kept.
    fn fault(&mut self, error: io::Error) -> PortFault
        ensures { self.new ≡ talk_counted self.old result }
    {
        let fault = self.reasoned(error);
        match fault {
            PortFault::Failed => self.faults = self.faults.saturating_add(1),
            PortFault::NoMemory => self.refusals = self.refusals.saturating_add(1),
        }
        fault
    }

    // Says the next bytes of a piece, from this place on, and answers how many they are.
    fn say_next(&mut self, piece: &[u8], at: usize) -> Result<usize, PortFault>
        requires { at < length piece.now }
        ensures some { IfOk result (λ count. 0 < count) }
        ensures bound { IfOk result (λ count. at + count ≤ length piece.now) }
        ensures said { IfOk result (λ count. Appends self.old.contents self.new.contents (take count (drop at piece.now))) }
        ensures err { OnErr result (Appends self.old.contents self.new.contents []) }
        ensures left { self.new.left ≡ self.old.left }
        ensures hearing { self.new.unheard ≡ self.old.unheard }
        ensures cause { self.new.faults ≡ faults_after self.old.faults result }
        ensures memory { self.new.refusals ≡ refusals_after self.old.refusals result }
    {
        match self.outlet.write(&piece[at..]) {
            Ok(0) => Err(self.fault(io::Error::from(ErrorKind::WriteZero))),
            Ok(count) => {
                self.behind = self.behind.saturating_add(count as u64);
                Ok(count)
            }
            Err(error) => Err(self.fault(error)),
        }
    }

    // Takes the next byte of what is left, or none at its end.
    fn take_byte(&mut self) -> Result<Option<u8>, PortFault>
        ensures taken { IfOk result (λ byte. TakesByte self.old.left self.new.left byte) }
        ensures contents { self.new.contents ≡ self.old.contents }
        ensures handed { self.new.handed ≡ self.old.handed }
        ensures behind { self.new.behind ≡ self.old.behind }
        ensures hearing { self.new.unheard ≡ faults_after self.old.unheard result }
        ensures cause { self.new.faults ≡ self.old.faults }
        ensures memory { self.new.refusals ≡ self.old.refusals }
    {
        if self.ahead.is_empty() {
            if let Err(error) = self.ahead.fill() {
                return Err(self.deaf(error));
            }
        }
        Ok(self.ahead.pop())
    }
}

impl<R: Read + Drop, W: Flush + Drop> Talk for LineTalk<R, W> {
    ghost talk = { λ _. None };

    ghost behind = { λ talk. talk.behind };

    ghost unheard = { λ talk. talk.unheard };

    ghost faults = { λ talk. talk.faults };

    ghost refusals = { λ talk. talk.refusals };

    fn hand_on(&mut self) -> Result<(), PortFault>
        ensures handed { OnOk result (self.new.behind ≡ 0) }
        ensures hearing { self.new.unheard ≡ self.old.unheard }
        ensures cause { self.new.faults ≡ faults_after self.old.faults result }
        ensures memory { self.new.refusals ≡ refusals_after self.old.refusals result }

        // All that was said was handed on, and the outlet's bytes stay.
        ensures flushed { OnOk result (self.new.handed ≡ self.new.contents) }
        ensures contents { Keeps self.old.contents self.new.contents }
        ensures left { self.new.left ≡ self.old.left }
    {
        match self.outlet.flush() {
            Ok(()) => {
                self.behind = 0;
                Ok(())
            }
            Err(error) => Err(self.fault(error)),
        }
    }

    fn hear(&mut self, line: &mut Vec<u8>) -> Result<bool, PortFault>
        requires handed { self.old.behind ≡ 0 }
        ensures heard { IfOk result (λ more. Hears None None more line.new.items) }
        ensures behind { self.new.behind ≡ 0 }
        ensures hearing { self.new.unheard ≡ faults_after self.old.unheard result }
        ensures cause { self.new.faults ≡ self.old.faults }
        ensures memory { self.new.refusals ≡ self.old.refusals }

        // The line is what the reader gives up to an LF or its end, and the outlet stays.
        ensures line { IfOk result (λ more. HearsKept self.old.left self.new.left more line.new.items) }
        ensures contents { self.new.contents ≡ self.old.contents }
        ensures handed { self.new.handed ≡ self.old.handed }
    {
        line.clear();
        let mut some = false;
        for _ in 0..u64::MAX {
            let Some(byte) = self.take_byte()? else {
                return Ok(some);
            };
            if byte == b'\n' {
                return Ok(true);
            }
            some = true;
            if keep(line, byte).is_err() {
                return Err(self.deaf(io::Error::from(ErrorKind::OutOfMemory)));
            }
        }
        Err(self.deaf(io::Error::from(ErrorKind::FileTooLarge)))
    }

    fn say(&mut self, piece: &[u8]) -> Result<(), PortFault>
        ensures part { OnErr result (SaysPart None None piece.now) }
        ensures hearing { self.new.unheard ≡ self.old.unheard }
        ensures cause { self.new.faults ≡ faults_after self.old.faults result }
        ensures memory { self.new.refusals ≡ refusals_after self.old.refusals result }

        // The outlet grew by the piece, or by a prefix of it, and the reader stays.
        ensures says { OnOk result (Appends self.old.contents self.new.contents piece.now) }
        ensures says_part { OnErr result (SaysPrefix self.old.contents self.new.contents piece.now) }
        ensures left { self.new.left ≡ self.old.left }
    {
        let mut at = 0;
        while at < piece.len() {
            at += self.say_next(piece, at)?;
        }
        Ok(())
    }

    fn note(&mut self, file: NotedFile, text: &[u8])
        ensures behind { self.new.behind ≡ self.old.behind }
        ensures hearing { self.new.unheard ≡ self.old.unheard }
        ensures cause { self.new.faults ≡ self.old.faults }
        ensures memory { self.new.refusals ≡ self.old.refusals }

        // A note is the outlet's, whose bytes stay, and the reader stays.
        ensures contents { self.new.contents ≡ self.old.contents }
        ensures left { self.new.left ≡ self.old.left }
    {
        self.outlet.note(file, text);
    }
}

// Keeps a byte more of a line, if there is room for it.
fn keep(line: &mut Vec<u8>, byte: u8) -> Result<(), AllocError>
    ensures { OnOk result (line.new.items ≡ kept_more line.old.items byte) }
{
    if line.len() < KEPT_BYTES {
        line.push(byte)?;
    }
    Ok(())
}
