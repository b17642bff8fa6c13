//! The stage of columns that have numbers: their states are looked at and placed one by one, and their moves never fail.

ghost use Rattle.std.specs.Prelude.{◌≡◌, ℕ, ◌<◌, ◌≤◌, true, is_some, List, length, slice_set, slice_index_or, IfSome};
ghost use Rattle.switch_paths.specs.declared.TheConstants.{RAILS};
ghost use Rattle.switch_paths.specs.Graphs.{nodes};
ghost use Rattle.switch_paths.specs.Step.{IsStep};
ghost use Rattle.switch_paths.specs.Switching.{state_at};
ghost use Rattle.settling.specs.declared.settling.TheConstants.{MOST_LIMIT};
ghost use Rattle.settling.specs.declared.settling.Settled.{Settled};
ghost use Rattle.settling.specs.Passing.{SteppingThrough};
ghost use Rattle.settling.specs.Settling.{Settles};
ghost use Rattle.group_text.specs.Texts.{GroupTextData};
ghost use Rattle.column_stage.specs.Acts.{Placed, Stepped, Rested};
ghost use Rattle.column_stage.specs.Columns.{AreSound, IsLetters, letter_in};
ghost use Rattle.column_stage.specs.Seeing.{PhaseThrough, SeesStates};

use crate::columns::Columns;
use settling::{MOST_LIMIT, Onlooker, Settled};
use switch_paths::Graph;
use ternary::Tern;

/// A stage whose columns have numbers, so many that memory holds an entry for each, and whose moves never fail.
///
/// The state of a node can be looked at in each column, and placed, one letter for all columns or one for each; and of a phase
/// it is told of each column how many steps it took.
///
/// Contracts see one more meaning: whether it shows the states of its first column, also while they move. Then whoever looks
/// on knows them.
pub trait Stage: Columns {
    ghost Shows: { Type 0 };

    /// The state of each node in the first column, if they are shown.
    fn shown(&self) -> Option<&[Tern]>
        ensures value { IfSome result (λ state. Shows × (state.now ≡ Self.states self.now 0)) }
        ensures there { Shows → is_some result ≡ true };

    /// How many columns there are.
    fn columns(&self) -> u32
        ensures value { result ≡ Self.columns self.now }
        ensures some { 1 ≤ result };

    /// The state of a node in a column.
    fn state(&self, node: usize, column: u32) -> Tern
        requires column { column < Self.columns self.now }
        requires node { node < length (Self.states self.now column) }
        ensures { result ≡ state_at (Self.states self.now column) node };

    /// Gives a node that is no rail its states: one letter for all columns, or one for each.
    fn place(&mut self, graph: &Graph, node: usize, letters: &[Tern])
        requires sound { AreSound graph.now (Self.columns self.old) (Self.states self.old) }
        requires inside { node < nodes graph.now }
        requires no_rail { RAILS ≤ node }
        requires letters { IsLetters (Self.columns self.old) letters.now }
        ensures columns { Self.columns self.new ≡ Self.columns self.old }
        ensures states { (column : ℕ) → column < Self.columns self.old → Self.states self.new column ≡ slice_set (Self.states self.old column) node (letter_in column letters.now) }
        ensures last { Self.last self.new ≡ Self.last self.old }
        ensures serves { (kept : List GroupTextData) → Self.serves self.old graph.now kept → Self.serves self.new graph.now kept }
        ensures fits { Self.fits self.old graph.now → Self.fits self.new graph.now }
        ensures did { Self.did (Placed graph.now node letters.now) self.old self.new };

    /// Takes a unit step in each column, and shows the state behind it if it changed.
    fn step<O: Onlooker>(&mut self, graph: &Graph, onlooker: &mut O)
        requires fits { Self.fits self.old graph.now }
        requires knows { Shows → O.knows onlooker.old (Self.states self.old 0) }
        ensures columns { Self.columns self.new ≡ Self.columns self.old }
        ensures steps { (column : ℕ) → column < Self.columns self.old → IsStep graph.now (Self.states self.old column) (Self.states self.new column) }
        ensures last { Self.last self.new ≡ Self.last self.old }
        ensures serves { (kept : List GroupTextData) → Self.serves self.old graph.now kept → Self.serves self.new graph.now kept }
        ensures fits { Self.fits self.new graph.now }
        ensures did { Self.did (Stepped graph.now) self.old self.new }
        ensures seen { Shows → SeesStates O.see (SteppingThrough graph.now 1 (Self.states self.old 0)) (Self.states self.old 0) (Self.states self.new 0) (O.seen onlooker.old) (O.seen onlooker.new) }
        ensures knows { Shows → O.knows onlooker.new (Self.states self.new 0) };

    /// Settles in each column, and tells of each how many steps that took, and whether a joining one was among them. It shows
    /// each state that it passes through.
    fn settle<O: Onlooker>(
        &mut self,
        graph: &Graph,
        limit: u64,
        counts: &mut [Settled],
        onlooker: &mut O,
    )
        requires fits { Self.fits self.old graph.now }
        requires low { 1 ≤ limit }
        requires high { limit ≤ MOST_LIMIT }
        requires counts { length counts.old ≡ Self.columns self.old }
        requires knows { Shows → O.knows onlooker.old (Self.states self.old 0) }
        ensures columns { Self.columns self.new ≡ Self.columns self.old }
        ensures counts { length counts.new ≡ Self.columns self.old }
        ensures settles { (column : ℕ) (past : Settled) → column < Self.columns self.old
            → Settles graph.now (Self.states self.old column) limit (Self.states self.new column) (slice_index_or counts.new column past).steps (slice_index_or counts.new column past).joined }
        ensures last { Self.last self.new ≡ Self.last self.old }
        ensures serves { (kept : List GroupTextData) → Self.serves self.old graph.now kept → Self.serves self.new graph.now kept }
        ensures fits { Self.fits self.new graph.now }
        ensures did { Self.did (Rested graph.now limit counts.new) self.old self.new }
        ensures seen { (past : Settled) → Shows
            → SeesStates O.see (PhaseThrough graph.now limit (Self.states self.old 0) (slice_index_or counts.new 0 past).steps) (Self.states self.old 0) (Self.states self.new 0) (O.seen onlooker.old) (O.seen onlooker.new) }
        ensures knows { Shows → O.knows onlooker.new (Self.states self.new 0) };
}
