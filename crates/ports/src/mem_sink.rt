//! A sink in memory that takes a few bytes at a time, and fails when it is told to.
ghost use Rattle.std.specs.Prelude.{◌≡◌, ◌↔◌, ◌<◌, ◌≤◌, Some, length, min, IfOk, IsTrue};
ghost use Rattle.ports.specs.Ports.{faults_after, refusals_after, Writes};
ghost use Rattle.ports.specs.MemPorts.{MemSinkData, after_call, fails_next, uncalled_sink};

use crate::calls::Calls;
use crate::honest_sink::HonestSink;
use crate::ports::{PortFault, Sink};
use std::alloc::Global;
use std::marker::Model;

/// A sink in memory. Its writes are numbered from 1, and those of some numbers fail; the others take
/// at most so many bytes. It tells all its meanings.
///
/// A write of an empty piece isn't counted. A write that lacks memory is.
#[derive(Drop)]
pub struct MemSink {
    sink: HonestSink,
    calls: Calls,
    most: usize,
}

impl Model for MemSink {
    ghost Value = { MemSinkData };

    ghost view = { λ sink. record { sink = sink.sink; calls = sink.calls; most = sink.most } };

    ghost invariant = { λ sink. 0 < sink.most };
}

impl MemSink {
    /// A sink to which nothing was written. Its writes of the numbers in `fails` fail, and each takes
    /// `most` bytes at most.
    pub fn new(alloc: Global, fails: Vec<u64>, most: usize) -> MemSink
        requires { 1 ≤ most }
        ensures { result ≡ uncalled_sink fails.items most }
    {
        MemSink {
            sink: HonestSink::new(alloc),
            calls: Calls::new(fails),
            most,
        }
    }

    /// All bytes written so far, in order.
    pub fn written(&self) -> &[u8]
        ensures { result.now ≡ self.now.sink.written }
    {
        self.sink.written()
    }
}

impl Sink for MemSink {
    ghost written = { λ sink. Some sink.sink.written };

    ghost faults = { λ sink. sink.calls.faults };

    ghost refusals = { λ sink. sink.sink.refusals };

    fn write(&mut self, piece: &[u8]) -> Result<usize, PortFault>
        ensures empty { length piece.now ≡ 0 → (result ≡ Ok 0) × (self.new ≡ self.old) }
        ensures bound { IfOk result (λ n. n ≤ length piece.now) }
        ensures progress { IfOk result (λ n. 0 < length piece.now → 0 < n) }
        ensures bytes { Writes (Some self.old.sink.written) (Some self.new.sink.written) result piece.now }
        ensures cause { self.new.calls.faults ≡ faults_after self.old.calls.faults result }
        ensures memory { self.new.sink.refusals ≡ refusals_after self.old.sink.refusals result }

        // A write fails exactly if its number says so, and each is counted.
        ensures fails { 0 < length piece.now
            → ((result ≡ Err PortFault.Failed) ↔ IsTrue (fails_next self.old.calls)) }
        ensures counted { 0 < length piece.now
            → self.new.calls ≡ after_call (fails_next self.old.calls) self.old.calls }
        ensures takes { IfOk result (λ n. n ≡ min self.old.most (length piece.now)) }
        ensures most { self.new.most ≡ self.old.most }
    {
        if piece.is_empty() {
            return Ok(0);
        }
        let fails = self.calls.fails_next();
        self.calls.count(fails);
        if fails {
            return Err(PortFault::Failed);
        }
        let count = piece.len().min(self.most);
        self.sink.append(&piece[..count])?;
        Ok(count)
    }
}
