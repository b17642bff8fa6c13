//! A line as a value, and the trait of those who hear lines.

ghost use Rattle.std.specs.Prelude.{◌≡◌, ℕ, ◌+◌, ◌*◌, ◌^◌, ◌<◌, ◌≤◌, length, IsOk, OnOk, OnErr};
ghost use Rattle.ports.specs.Ports.{faults_after, refusals_after};

use crate::rows::wave_at;
use ports::{NotedFile, PortFault};
use printed_lines::{FaultCode, FaultPlace, NodeSort, SwitchTold};
use settling::Settled;
use ternary::{NoMemory, Tern};

/// A line that is told.
#[derive(Clone, Copy)]
pub enum Line<'a> {
    /// A waveform line: its number, how many steps changed something, whether a joining step did, and the
    /// watched nodes' states.
    Wave {
        n: u64,
        k: u64,
        mark: bool,
        values: &'a [Tern],
    },
    /// An expectation that isn't met: the name, for each of its nodes the wanted state, None for any, and the
    /// present one, and the number of waveform lines so far.
    Unmet {
        name: &'a [u8],
        want: &'a [Option<Tern>],
        got: &'a [Tern],
        n: u64,
    },
    /// What is shown of a name: the name, and the states of its nodes.
    Shown {
        name: &'a [u8],
        values: &'a [Tern],
    },
    /// What there is at a node: its name, its state, and what it is.
    Looked {
        name: &'a [u8],
        state: Tern,
        sort: NodeSort,
    },
    /// A transistor with an end at a node that is looked at: the name and the state of its gate, and those of its
    /// other end.
    AtEnd {
        switch: SwitchTold,
        gate: &'a [u8],
        gate_state: Tern,
        end: &'a [u8],
        end_state: Tern,
    },
    /// A transistor that the node is the gate of: the name and the state of its source, and those of its drain.
    AtGate {
        switch: SwitchTold,
        source: &'a [u8],
        source_state: Tern,
        drain: &'a [u8],
        drain_state: Tern,
    },
    /// A report: how many groups and distinct texts there are, and how many texts were analysed since the last
    /// report.
    Reported {
        groups: u64,
        texts: u64,
        fresh: u64,
    },
    /// A refusal: its place and its code, and for a group that is too large its name and its size.
    Refused {
        place: FaultPlace,
        code: FaultCode,
        name: &'a [u8],
        count: u64,
    },
}

/// Who hears lines, each with the column that it is of, counted from 0.
///
/// Contracts see what was heard so far, and what a line more does to it; at a fault a part of the line was
/// heard, or nothing. Two counts are as a sink's. Room for a line is taken before it is told, and it stays:
/// so a hearer that writes lacks no memory of its own once it has its room. A hearer may be given a note besides,
/// for a human, which is no line.
pub trait Lines {
    ghost use Rattle.printed_lines.specs.declared.lines.TheConstants.{COLUMN_ROOM, MOST_VALUES, WAVE_LINE_ROOM};
    ghost use Rattle.told_lines.specs.Lines.{Told, IsShort, room_of, line_seen};
    ghost use Rattle.told_lines.specs.Hearing.{Hears};
    ghost use Rattle.told_lines.specs.Rows.{wave_row};

    ghost Heard: { Type 0 };

    ghost heard: { Self → Self.Heard };

    ghost hear: { Self.Heard → Told → Self.Heard };

    ghost part: { Self.Heard → Told → Self.Heard → Type 0 };

    ghost room: { Self → ℕ };

    ghost faults: { Self → ℕ };

    ghost refusals: { Self → ℕ };

    /// Takes room for lines of at most so many bytes. No room that was there is lost, and where there is
    /// enough it takes no memory.
    fn reserve(&mut self, bytes: usize) -> Result<(), NoMemory>
        ensures ok { OnOk result (bytes ≤ room self.new) }
        ensures enough { bytes ≤ room self.old → IsOk result }
        ensures room { room self.old ≤ room self.new }
        ensures heard { heard self.new ≡ heard self.old }
        ensures faults { faults self.new ≡ faults self.old }
        ensures refusals { refusals self.new ≡ refusals self.old };

    /// Hears a line of a column.
    fn tell(&mut self, column: u32, line: Line) -> Result<(), PortFault>
        requires room { room_of (line_seen line) ≤ room self.old }
        requires short { IsShort (line_seen line) }
        ensures room { room self.new ≡ room self.old }
        ensures ok { OnOk result (heard self.new ≡ hear (heard self.old) (record { column = column; line = line_seen line.entry })) }
        ensures part { OnErr result (part (heard self.old) (record { column = column; line = line_seen line.entry }) (heard self.new)) }
        ensures faults { faults self.new ≡ faults_after (faults self.old) result }
        ensures refusals { refusals self.new ≡ refusals_after (refusals self.old) result };

    /// Hears the waveform lines of all columns, in order: their number, what each column's phase counted, and the
    /// states of each column's watched nodes, column by column, so many of each.
    fn tell_row(
        &mut self,
        n: u64,
        counts: &[Settled],
        width: usize,
        values: &[Tern],
    ) -> Result<(), PortFault>
        requires columns { length counts.now < 2 ^ 32 }
        requires values { length values.now ≡ length counts.now * width }
        requires width { width ≤ MOST_VALUES }
        requires room { length counts.now * (COLUMN_ROOM + WAVE_LINE_ROOM) ≤ room self.old }
        ensures room { room self.new ≡ room self.old }
        ensures heard { Hears hear part (heard self.old) (heard self.new) (wave_row n counts.now width values.now) result }
        ensures faults { faults self.new ≡ faults_after (faults self.old) result }
        ensures refusals { refusals self.new ≡ refusals_after (refusals self.old) result }
    {
        for column in 0..counts.len() {
            self.tell(column as u32, wave_at(n, counts, width, values, column))?;
        }
        Ok(())
    }

    /// Notes for a human what a file has, by a text that follows the file's name.
    ///
    /// A note is no line, and may be passed over: nothing else is said of it.
    fn note(&mut self, _file: NotedFile, _text: &[u8])
        ensures room { room self.new ≡ room self.old }
        ensures heard { heard self.new ≡ heard self.old }
        ensures faults { faults self.new ≡ faults self.old }
        ensures refusals { refusals self.new ≡ refusals self.old }
    {}
}
