//! A hearer round another one, which remembers whether an expectation was not met.
ghost use Rattle.std.specs.Prelude.{◌≡◌};
ghost use Rattle.told_lines.specs.Lines as spec;
ghost use Rattle.told_lines.specs.Lines.{line_seen};

use crate::lines::{Line, Lines};
use ports::{NotedFile, PortFault};
use ternary::NoMemory;

/// A hearer that passes all lines on to an inner one, and remembers whether one of them was of an expectation
/// that isn't met.
#[derive(Drop)]
pub struct Met<L: Lines + Drop> {
    pub inner: L,
    pub missed: bool,
}

impl<L: Lines + Drop> Lines for Met<L> {
    ghost use Rattle.std.specs.Prelude.{Bool};
    ghost use Rattle.told_lines.specs.Meeting.{hear_met, part_met};

    ghost Heard = { L.Heard × Bool };

    ghost heard = { λ met. (L.heard met.inner, met.missed) };

    ghost hear = { hear_met L.hear };

    ghost part = { part_met L.part };

    ghost room = { λ met. L.room met.inner };

    ghost faults = { λ met. L.faults met.inner };

    ghost refusals = { λ met. L.refusals met.inner };

    fn reserve(&mut self, bytes: usize) -> Result<(), NoMemory> {
        self.inner.reserve(bytes)
    }

    fn tell(&mut self, column: u32, line: Line) -> Result<(), PortFault> {
        self.missed |= is_unmet(line);
        self.inner.tell(column, line)
    }

    fn note(&mut self, file: NotedFile, text: &[u8]) {
        self.inner.note(file, text);
    }
}

// Whether the line is of an expectation that isn't met.
fn is_unmet(line: Line) -> bool
    ensures { result ≡ spec.is_unmet (line_seen line.entry) }
{
    matches!(line, Line::Unmet { .. })
}
