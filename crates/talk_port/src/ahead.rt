//! A reader with the bytes that were read ahead of it.
ghost use Rattle.std.specs.Prelude.{◌≡◌, [], ◌∷◌, drop, take, length, IsTrue, ◌↔◌, IfSome, IfNone, IfOk, OnOk, OnErr, vec_len};
ghost use Rattle.std.specs.Io.KnownBytes.{Keeps, Consumes, IsAtEnd};
ghost use Rattle.talk_port.specs.LineTalks.{AheadData};

use std::alloc::{AllocError, Global};
use std::io;
use std::io::Read;
use std::marker::Model;

// How many bytes are read at a time.
const PIECE: usize = 65_536;

// A reader, and what was read and not taken yet.
#[derive(Drop)]
pub(crate) struct Ahead<R: Read + Drop> {
    reader: R,
    // what was read and not taken yet stands from `at` to `end`
    bytes: Vec<u8>,
    at: usize,
    end: usize,
}

impl<R: Read + Drop> Model for Ahead<R> {
    ghost use Rattle.std.specs.Prelude.{◌≤◌, ◌<◌, drop, take, length};
    ghost use Rattle.talk_port.specs.LineTalks.{AheadData};

    ghost Value = { AheadData };

    ghost view = { λ ahead. record {
      ready = drop ahead.at (take ahead.end ahead.bytes.items);
      rest = R.remaining ahead.reader;
    } };

    ghost invariant = { λ ahead. (ahead.at ≤ ahead.end) × (ahead.end ≤ length ahead.bytes.items) × (0 < length ahead.bytes.items) };
}

impl<R: Read + Drop> Ahead<R> {
    // This reader, of which nothing was read. It takes its room here.
    pub(crate) fn new(alloc: Global, reader: R) -> Result<Ahead<R>, AllocError>
        ensures ready { IfOk result (λ ahead. ahead.ready ≡ []) }
        ensures rest { IfOk result (λ ahead. ahead.rest ≡ R.remaining reader) }
    {
        Ok(Ahead {
            reader,
            bytes: zeros(alloc)?,
            at: 0,
            end: 0,
        })
    }

    // Whether nothing is ready.
    pub(crate) fn is_empty(&self) -> bool
        ensures { IsTrue result ↔ (self.now.ready ≡ []) }
    {
        self.at == self.end
    }

    // Reads what comes, if nothing is ready: nothing only at the end.
    pub(crate) fn fill(&mut self) -> io::Result<()>
        requires { self.old.ready ≡ [] }
        ensures ok { OnOk result (Consumes self.old.rest self.new.rest self.new.ready) }
        ensures end { OnOk result (self.new.ready ≡ [] → IsAtEnd self.new.rest) }
        ensures err { OnErr result (self.new.ready ≡ self.old.ready) }
        ensures keeps { OnErr result (Keeps self.old.rest self.new.rest) }
    {
        let count = self.reader.read(&mut self.bytes)?;
        self.at = 0;
        self.end = count;
        Ok(())
    }

    // Takes the next byte that is ready, if there is one.
    pub(crate) fn pop(&mut self) -> Option<u8>
        ensures some { IfSome result (λ byte. self.old.ready ≡ byte ∷ self.new.ready) }
        ensures none { IfNone result (self.old.ready ≡ []) }
        ensures same { IfNone result (self.new ≡ self.old) }
        ensures rest { self.new.rest ≡ self.old.rest }
    {
        if self.at == self.end {
            return None;
        }
        let byte = self.bytes[self.at];
        self.at += 1;
        Some(byte)
    }
}

// Room for a piece.
fn zeros(alloc: Global) -> Result<Vec<u8>, AllocError>
    ensures { IfOk result (λ bytes. vec_len bytes ≡ 65536) }
{
    vec![in alloc; 0; PIECE]
}
