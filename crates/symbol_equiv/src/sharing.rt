//! Sessions that go on over one maker of functions.

ghost use Rattle.std.specs.Prelude.{◌≡◌, ◌≢◌, true, ◌<◌, ◌∷◌, ℕ, List, Option, Ok, All, IfErr, IfOk, OnOk};

use decision_graph::{Function, GraphFault};
use group_analysis::Analyst;
use line_words::Line;
use run_ends::Stop;
use script_meaning::Turn;
use symbol_run::{LineSession, SymbolFault};
use symbol_told::SymbolLines;
use truth_makers::Symbols;

/// A session whose states are functions of a maker, which others go on with when it is done.
///
/// Contracts see the maker besides. Functions of it are handed out, so it keeps them: only by [`tidy`](Self::tidy) are some let go.
pub trait SharesMaker: LineSession {
    ghost use Rattle.truth_makers.specs.declared.symbols.Symbols.{Symbols};
    ghost use Rattle.truth_makers.specs.Makers.{IsFunctionOf};
    ghost use Rattle.symbol_run.specs.Turns.{faults_stopped, RefusedStopped, StopsAt};
    ghost use Rattle.symbol_equiv.specs.Sharing.{KeepsFunctions, StandFor};
    ghost use Rattle.symbol_equiv.specs.Waves.{TakesTurnRailed};

    ghost maker: { Self → Symbols };

    /// Obeys a line, as `obey` does, and lets no function go. With each waveform line the rails of its nodes are told.
    fn obey_noted<L: SymbolLines, A: Analyst>(
        &mut self,
        cut: Option<u64>,
        line: Line<'_>,
        out: &mut L,
        analyst: &mut A,
    ) -> Result<Turn, SymbolFault>
        ensures quiet { Self.quiet self.new ≡ Self.quiet self.old }
        ensures valuations { Self.valuations self.new ≡ Self.valuations self.old }
        ensures turn { (rest : List (ℕ × List ℕ)) → Self.serves self.old cut ((line.entry.number, line.entry.bytes.now) ∷ rest) →
            TakesTurnRailed (maker self.new) L.hear (Self.quiet self.old) (Self.valuations self.old) cut (Self.sessions self.old)
            (line.entry.number, line.entry.bytes.now) (Self.sessions self.new) (L.heard out.old) (L.heard out.new)
            (A.analysed analyst.old) (A.analysed analyst.new) result }
        ensures serves { (rest : List (ℕ × List ℕ)) → Self.serves self.old cut ((line.entry.number, line.entry.bytes.now) ∷ rest) →
            result ≡ Ok Turn.Accepted → Self.serves self.new cut rest }
        ensures keeps { OnOk result (KeepsFunctions (maker self.old) (maker self.new)) }
        ensures number { IfErr result (StopsAt line.entry.number) }
        ensures write { L.faults out.new ≡ faults_stopped (L.faults out.old) result }
        ensures refused { RefusedStopped (L.refusals out.old) (L.refusals out.new) result };

    /// Whether there are so many functions that it is worth while to let some go.
    fn has_grown(&self) -> bool;

    /// Lets functions go that neither it nor this list needs, and puts into the list what stands for those that it had.
    fn tidy(&mut self, others: &mut Vec<Function>)
        requires inside { All (IsFunctionOf (maker self.old)) others.old.items }
        ensures quiet { Self.quiet self.new ≡ Self.quiet self.old }
        ensures valuations { Self.valuations self.new ≡ Self.valuations self.old }
        ensures sessions { (column : ℕ) → column < (Self.valuations self.old).columns → Self.sessions self.new column ≡ Self.sessions self.old column }
        ensures serves { (cut : Option ℕ) (lines : List (ℕ × List ℕ)) → Self.serves self.old cut lines → Self.serves self.new cut lines }
        ensures moved { StandFor (maker self.old) (maker self.new) others.old.items others.new.items };

    /// A maker with these functions, for who goes on when the session is done; what stands for them there is put into the list.
    fn leave(&self, others: &mut Vec<Function>) -> Result<Symbols, GraphFault>
        requires { All (IsFunctionOf (maker self.now)) others.old.items }
        ensures { IfOk result (λ symbols. StandFor (maker self.now) symbols others.old.items others.new.items) };
}

/// What a session is started of besides its maker: a circuit, and what was read of a quiet script.
///
/// Contracts see the data with which each column starts, and the script's valuations.
pub trait SessionStart<M: SharesMaker> {
    ghost use Rattle.line_words.specs.Files as file;
    ghost use Rattle.truth_makers.specs.declared.symbols.Symbols.{Symbols};
    ghost use Rattle.session_meaning.specs.Sessions.{SessionData};
    ghost use Rattle.symbol_meaning.specs.Readings.{Valuations, valuations_of};
    ghost use Rattle.symbol_meaning.specs.Scripts.{before_stop, read_of, stop_of};
    ghost use Rattle.symbol_comparing.specs.Told.{AreValuationsOf};
    ghost use Rattle.symbol_run.specs.Halts.{StopsAmong};
    ghost use Rattle.symbol_equiv.specs.Sharing.{KeepsFunctions};

    ghost starts: { Self → SessionData };

    ghost valuations: { Self → Valuations };

    /// Starts the session over a maker that has the script's variables. It is served with the script's lines before the one that is
    /// refused by its names.
    fn start(self, symbols: Symbols) -> Result<M, SymbolFault>
        requires { AreValuationsOf symbols (valuations self) }
        ensures quiet { IfOk result (λ session. M.quiet session ≡ true) }
        ensures valuations { IfOk result (λ session. M.valuations session ≡ valuations self) }
        ensures sessions { IfOk result (λ session. (column : ℕ) → column < (valuations self).columns → M.sessions session column ≡ starts self) }
        ensures serves { IfOk result (λ session. (text : List ℕ) →
            valuations self ≡ valuations_of (read_of true (file.cut_line text) (file.lines_in text)) →
            M.serves session (file.cut_line text) (before_stop (stop_of true (file.cut_line text) (file.lines_in text)) (file.lines_in text))) }
        ensures keeps { IfOk result (λ session. KeepsFunctions symbols (M.maker session)) }
        ensures among { IfErr result (λ fault. (text : List ℕ) →
            valuations self ≡ valuations_of (read_of true (file.cut_line text) (file.lines_in text)) →
            StopsAmong (before_stop (stop_of true (file.cut_line text) (file.lines_in text)) (file.lines_in text)) fault) }
        ensures unwritten { IfErr result (λ fault. fault ≢ SymbolFault.Stopped Stop.Write) };
}
