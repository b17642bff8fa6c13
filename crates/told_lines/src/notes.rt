//! A hearer that keeps the rows of waveform lines.
ghost use Rattle.std.specs.Prelude.{◌≡◌, ◌^◌, [], ◌∷◌, ◌++◌, List, IfOk, OnOk, OnErr};

use crate::lines::{Line, Lines};
use ports::PortFault;
use std::alloc::{AllocError, Global};
use std::marker::Model;
use ternary::{NoMemory, Tern};

/// What a waveform line tells: its number, how many steps changed something, whether a joining step did, and
/// the watched nodes' states.
#[derive(Drop)]
pub struct WaveRow {
    n: u64,
    k: u64,
    mark: bool,
    values: Vec<Tern>,
}

impl Model for WaveRow {
    ghost use Rattle.told_lines.specs.Noting.{WaveRowData};

    ghost Value = { WaveRowData };

    ghost view = { λ row. record { n = row.n; k = row.k; mark = row.mark; values = row.values.items } };
}

impl WaveRow {
    // The row with these numbers, this mark and these values.
    fn new(
        alloc: Global,
        n: u64,
        k: u64,
        mark: bool,
        values: &[Tern],
    ) -> Result<WaveRow, AllocError>
        ensures { IfOk result (λ row. row ≡ record { n = n; k = k; mark = mark; values = values.now }) }
    {
        let values = Vec::from_slice(alloc, values)?;
        Ok(WaveRow { n, k, mark, values })
    }

    /// The line's number.
    pub fn n(&self) -> u64
        ensures { result ≡ self.now.n }
    {
        self.n
    }

    /// How many steps changed something.
    pub fn k(&self) -> u64
        ensures { result ≡ self.now.k }
    {
        self.k
    }

    /// Whether a joining step did.
    pub fn mark(&self) -> bool
        ensures { result ≡ self.now.mark }
    {
        self.mark
    }

    /// The watched nodes' states.
    pub fn values(&self) -> &[Tern]
        ensures { result.now ≡ self.now.values }
    {
        &self.values
    }
}

/// The rows of the waveform lines that were heard, in memory, and how often memory was refused. Lines of other
/// kinds are passed over.
#[derive(Drop)]
pub struct Notes {
    alloc: Global,
    rows: Vec<WaveRow>,
    refusals: u64,
}

impl Model for Notes {
    ghost use Rattle.told_lines.specs.Noting.{NotesData};

    ghost Value = { NotesData };

    ghost view = { λ notes. record { rows = notes.rows.items; refusals = notes.refusals } };
}

impl Notes {
    /// None yet.
    pub fn new(alloc: Global) -> Notes
        ensures { result ≡ record { rows = []; refusals = 0 } }
    {
        Notes {
            alloc,
            rows: Vec::new(alloc),
            refusals: 0,
        }
    }

    /// The rows, in order.
    pub fn rows(&self) -> &[WaveRow]
        ensures { result.now ≡ self.now.rows }
    {
        &self.rows
    }

    // Notes a row.
    fn push(&mut self, n: u64, k: u64, mark: bool, values: &[Tern]) -> Result<(), AllocError>
        ensures ok { OnOk result (self.new ≡ record self.old { rows = self.old.rows ++ record { n = n; k = k; mark = mark; values = values.now } ∷ [] }) }
        ensures err { OnErr result (self.new ≡ self.old) }
    {
        let row = WaveRow::new(self.alloc, n, k, mark, values)?;
        self.rows.push(row)?;
        Ok(())
    }
}

impl Lines for Notes {
    ghost use Rattle.told_lines.specs.Noting.{WaveRowData, note};

    ghost Heard = { List WaveRowData };

    ghost heard = { λ notes. notes.rows };

    ghost hear = { note };

    ghost part = { λ before _ after. after ≡ before };

    ghost room = { λ _. 2 ^ 64 };

    ghost faults = { λ _. 0 };

    ghost refusals = { λ notes. notes.refusals };

    fn reserve(&mut self, _bytes: usize) -> Result<(), NoMemory> {
        Ok(())
    }

    fn tell(&mut self, _column: u32, line: Line) -> Result<(), PortFault> {
        if let Line::Wave { n, k, mark, values } = line {
            if self.push(n, k, mark, values).is_err() {
                self.refusals = self.refusals.saturating_add(1);
                return Err(PortFault::NoMemory);
            }
        }
        Ok(())
    }
}
