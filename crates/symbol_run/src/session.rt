//! A session that obeys lines in all columns.

ghost use Rattle.std.specs.Prelude.{◌≡◌, ◌<◌, ◌∷◌, ℕ, Bool, List, Option, Ok, IfErr};

use group_analysis::Analyst;
use line_words::Line;
use netlist::Circuit;
use node_words::Vectors;
use run_ends::Stop;
use script_meaning::Turn;
use symbol_told::SymbolLines;

/// What ends a symbolic run before its answer is written.
#[derive(Clone, Copy, Debug, PartialEq, Eq)]
pub enum SymbolFault {
    /// A file could not be read, the output could not be written, or memory ran out.
    Stopped(Stop),
    /// One vertex more was wanted than there may be, at the line with this number.
    Full(u64),
}

/// Who obeys lines of a symbolic script in all columns, a column for each valuation of its variables.
///
/// Contracts see whether the script is quiet, the valuations, and the data of each column. These are right for the lines that
/// come: which lines may come is said by `serves`, since what a line means goes by the names of those before it.
pub trait LineSession {
    ghost use Rattle.symbol_meaning.specs.Readings.{Valuations};
    ghost use Rattle.session_meaning.specs.Sessions.{SessionData};
    ghost use Rattle.symbol_run.specs.Turns.{faults_stopped, RefusedStopped, StopsAt, TakesTurnInAll};

    ghost quiet: { Self → Bool };

    ghost valuations: { Self → Valuations };

    ghost sessions: { Self → ℕ → SessionData };

    ghost serves: { Self → Option ℕ → List (ℕ × List ℕ) → Type 0 };

    /// The circuit, which is the same in each column.
    fn circuit(&self) -> &Circuit
        ensures { (column : ℕ) → column < (valuations self.now).columns → (sessions self.now column).circuit ≡ result.now };

    /// The vectors, which are the same in each column.
    fn vectors(&self) -> &Vectors
        ensures { (column : ℕ) → column < (valuations self.now).columns → (sessions self.now column).vectors ≡ result.now };

    /// Obeys a line, or tells why it is refused. The one that holds the first byte too many of the script is refused.
    fn obey<L: SymbolLines, A: Analyst>(
        &mut self,
        cut: Option<u64>,
        line: Line<'_>,
        out: &mut L,
        analyst: &mut A,
    ) -> Result<Turn, SymbolFault>
        ensures quiet { quiet self.new ≡ quiet self.old }
        ensures valuations { valuations self.new ≡ valuations self.old }
        ensures turn { (rest : List (ℕ × List ℕ)) → serves self.old cut ((line.entry.number, line.entry.bytes.now) ∷ rest) →
            TakesTurnInAll L.hear L.part (quiet self.old) (valuations self.old) cut (sessions self.old) (line.entry.number, line.entry.bytes.now) rest
            (sessions self.new) (L.heard out.old) (L.heard out.new) (A.analysed analyst.old) (A.analysed analyst.new) result }
        ensures serves { (rest : List (ℕ × List ℕ)) → serves self.old cut ((line.entry.number, line.entry.bytes.now) ∷ rest) →
            result ≡ Ok Turn.Accepted → serves self.new cut rest }
        ensures number { IfErr result (StopsAt line.entry.number) }
        ensures write { L.faults out.new ≡ faults_stopped (L.faults out.old) result }
        ensures refused { RefusedStopped (L.refusals out.old) (L.refusals out.new) result };
}
