//! A line as a value, and the trait of those who hear lines.

ghost use Rattle.std.specs.Prelude.{◌≡◌, ℕ, length, OnOk, OnErr};
ghost use Rattle.ports.specs.Ports.{faults_after, RefusedOnce};

use decision_graph::Function;
use ports::{NotedFile, PortFault};
use printed_lines::NodeSort;
use switch_paths::{SwitchKind, SwitchState};
use ternary::Tern;

/// What is told of a transistor: its number, its kind and strength, and what its switch does under all valuations, if that is one
/// thing.
#[derive(Clone, Copy)]
pub struct SwitchShown {
    pub number: u64,
    pub kind: SwitchKind,
    pub strength: u64,
    pub state: Option<SwitchState>,
}

/// A line that is told of all valuations together. The state of a node is None if two valuations differ in it.
#[derive(Clone, Copy)]
pub enum ToldLine<'a> {
    /// A waveform line: its number, the greatest number of steps of a valuation, whether some valuation joined, and
    /// the watched nodes' states.
    Wave {
        n: u64,
        k: u64,
        mark: bool,
        values: &'a [Option<Tern>],
    },
    /// An expectation that isn't met under some valuation: the name, the value that is told as the wanted one, and
    /// under the first such valuation the states of the name's nodes; the number of waveform lines so far, and the
    /// valuation.
    Unmet {
        name: &'a [u8],
        wanted: &'a [u8],
        got: &'a [Tern],
        n: u64,
        truths: &'a [bool],
    },
    /// What is shown of a name: the name, and the states of its nodes.
    Shown {
        name: &'a [u8],
        values: &'a [Option<Tern>],
    },
    /// What there is at a node: its name, its state, and what it is.
    Looked {
        name: &'a [u8],
        state: Option<Tern>,
        sort: NodeSort,
    },
    /// A transistor with an end at a node that is looked at: the name and the state of its gate, and those of its
    /// other end.
    AtEnd {
        switch: SwitchShown,
        gate: &'a [u8],
        gate_state: Option<Tern>,
        end: &'a [u8],
        end_state: Option<Tern>,
    },
    /// A transistor that the node is the gate of: the name and the state of its source, and those of its drain.
    AtGate {
        switch: SwitchShown,
        source: &'a [u8],
        source_state: Option<Tern>,
        drain: &'a [u8],
        drain_state: Option<Tern>,
    },
}

/// Who hears lines that are told of all valuations together.
///
/// With a waveform line the rails of its nodes are told, where each may be 1 and where it may be 0, for those who keep them;
/// with any other line none are.
///
/// Contracts see what was heard so far, and what a line more does to it; at a fault a part of the line was heard, or nothing.
/// Two counts are as a sink's, but that a hearer may lack memory of its own. A hearer may be given a note besides, for a
/// human, which is no line.
pub trait SymbolLines {
    ghost use Rattle.symbol_told.specs.Lines.{Telling, telling_of};

    ghost Heard: { Type 0 };

    ghost heard: { Self → Self.Heard };

    ghost hear: { Self.Heard → Telling → Self.Heard };

    ghost part: { Self.Heard → Telling → Self.Heard → Type 0 };

    ghost faults: { Self → ℕ };

    ghost refusals: { Self → ℕ };

    /// Hears a line, with the rails of the nodes of a waveform line.
    fn tell(
        &mut self,
        line: ToldLine,
        highs: &[Function],
        lows: &[Function],
    ) -> Result<(), PortFault>
        requires rails { length highs.now ≡ length lows.now }
        ensures ok { OnOk result (heard self.new ≡ hear (heard self.old) (telling_of line.entry highs.now lows.now)) }
        ensures part { OnErr result (part (heard self.old) (telling_of line.entry highs.now lows.now) (heard self.new)) }
        ensures faults { faults self.new ≡ faults_after (faults self.old) result }
        ensures refusals { RefusedOnce (refusals self.old) (refusals self.new) result };

    /// Notes for a human what a file has, by a text that follows the file's name.
    ///
    /// A note is no line, and may be passed over: nothing else is said of it.
    fn note(&mut self, _file: NotedFile, _text: &[u8])
        ensures heard { heard self.new ≡ heard self.old }
        ensures faults { faults self.new ≡ faults self.old }
        ensures refusals { refusals self.new ≡ refusals self.old }
    {}
}
