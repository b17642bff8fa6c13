//! The stage of a symbolic script: columns that may be too many to be counted, whose moves may run out.

ghost use Rattle.std.specs.Prelude.{◌≡◌, ℕ, ◌<◌, ◌≤◌, List, slice_set, IfErr, IfOk, OnErr, OnOk};
ghost use Rattle.column_stage.specs.Words.{Tern, nodes, IsStep, SettleTogether, GroupTextData, Act, AreSound, MovesColumns, KeepsGiven};
ghost use Rattle.switch_paths.specs.declared.TheConstants.{RAILS};
ghost use Rattle.settling.specs.declared.settling.TheConstants.{MOST_LIMIT};

use crate::columns::Columns;
use settling::{MOST_LIMIT, Settled};
use switch_paths::Graph;
use ternary::Tern;

/// A stage of any number of columns, which are given letters all at once. Its moves may run out, of memory or of what it holds
/// states in, and then tell why.
///
/// Contracts see four more meanings: what is its own of what nodes can be given; which letter that is in each column; how much
/// it may make at most, by a measure of its own; and whether it has run out in such a way that a fault tells of it truly. What an
/// act does to it tells what it does to the states of each column; and what is its own stays so, and the bound, whatever is done.
pub trait TruthStage: Columns {
    /// What a node is given: a letter in each column.
    type Given: Copy;

    /// Why it ran out.
    type Fault: Drop;

    ghost gives: { Self → Self.Given → Type 0 };

    ghost letter_of: { Self → Self.Given → ℕ → Tern };

    ghost bound: { Self → ℕ };

    ghost spent: { Self → Self.Fault → Type 0 };

    /// What gives a node this state in each column.
    fn alike(&self, state: Tern) -> Self::Given
        ensures own { gives self.now result }
        ensures letter { (column : ℕ) → column < Self.columns self.now → letter_of self.now result column ≡ state };

    /// Gives a node that is no rail its letter in each column. It takes no memory.
    fn put(&mut self, graph: &Graph, node: usize, given: Self::Given)
        requires sound { AreSound graph.now (Self.columns self.old) (Self.states self.old) }
        requires inside { node < nodes graph.now }
        requires no_rail { RAILS ≤ node }
        requires own { gives self.old given }
        ensures columns { Self.columns self.new ≡ Self.columns self.old }
        ensures states { (column : ℕ) → column < Self.columns self.old → Self.states self.new column ≡ slice_set (Self.states self.old column) node (letter_of self.old given column) }
        ensures last { Self.last self.new ≡ Self.last self.old }
        ensures serves { (kept : List GroupTextData) → Self.serves self.old graph.now kept → Self.serves self.new graph.now kept }
        ensures fits { Self.fits self.old graph.now → Self.fits self.new graph.now }
        ensures kept { KeepsGiven Self.columns gives letter_of bound self.old self.new };

    /// Takes a unit step in each column.
    ///
    /// If it runs out, no column took one, and what the fault tells is so of the stage as it is then.
    fn step(&mut self, graph: &Graph) -> Result<(), Self::Fault>
        requires { Self.fits self.old graph.now }
        ensures columns { Self.columns self.new ≡ Self.columns self.old }
        ensures steps { OnOk result ((column : ℕ) → column < Self.columns self.old → IsStep graph.now (Self.states self.old column) (Self.states self.new column)) }
        ensures err { OnErr result ((column : ℕ) → column < Self.columns self.old → Self.states self.new column ≡ Self.states self.old column) }
        ensures sound { AreSound graph.now (Self.columns self.new) (Self.states self.new) }
        ensures kept { KeepsGiven Self.columns gives letter_of bound self.old self.new }
        ensures last { Self.last self.new ≡ Self.last self.old }
        ensures serves { (kept : List GroupTextData) → Self.serves self.old graph.now kept → Self.serves self.new graph.now kept }
        ensures fits { Self.fits self.new graph.now }
        ensures spent { IfErr result (spent self.new) };

    /// Settles in each column, as that would alone, and tells the greatest number of steps, and whether a joining one was among
    /// those.
    ///
    /// If it runs out, some steps were taken, and what the fault tells is so of the stage as it is then.
    fn settle(&mut self, graph: &Graph, limit: u64) -> Result<Settled, Self::Fault>
        requires fits { Self.fits self.old graph.now }
        requires low { 1 ≤ limit }
        requires high { limit ≤ MOST_LIMIT }
        ensures columns { Self.columns self.new ≡ Self.columns self.old }
        ensures settles { IfOk result (SettleTogether graph.now (Self.columns self.old) (Self.states self.old) limit (Self.states self.new)) }
        ensures sound { AreSound graph.now (Self.columns self.new) (Self.states self.new) }
        ensures kept { KeepsGiven Self.columns gives letter_of bound self.old self.new }
        ensures last { Self.last self.new ≡ Self.last self.old }
        ensures serves { (kept : List GroupTextData) → Self.serves self.old graph.now kept → Self.serves self.new graph.now kept }
        ensures fits { Self.fits self.new graph.now }
        ensures spent { IfErr result (spent self.new) };

    ghost moves: { (act : Act) (old new : Self) → Self.did act old new → MovesColumns Self.columns Self.states act old new };

    ghost keeps: { (act : Act) (old new : Self) → Self.did act old new → KeepsGiven Self.columns gives letter_of bound old new };
}
