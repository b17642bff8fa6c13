//! The rails of one node, and a machine that goes on over another maker.
ghost use Rattle.std.specs.Prelude.{◌≡◌, ℕ, ◌<◌, length, slice_index_or, All, OnErr, OnOk};
ghost use Rattle.truth_machine.specs.Words.{may_one, may_zero, state_at, GraphData, HasColumn};
ghost use Rattle.truth_machine.specs.Machines.{column_of, FitsInMachine};

use crate::TruthMachine;
use std::alloc::Global;
use ternary::NoMemory;
use truth_columns::Truths;
use truth_parts::workspace_for;

impl<T: Truths + Drop> TruthMachine<T> {
    /// Both rails of a node: where it may be 1, and where it may be 0.
    pub fn rails(&self, node: usize) -> (T::Truth, T::Truth)
        requires { node < length self.now.hi }
        ensures high { slice_index_or self.now.hi node result.0 ≡ result.0 }
        ensures low { slice_index_or self.now.lo node result.1 ≡ result.1 }
        ensures high_has { T.has self.now.maker result.0 }
        ensures low_has { T.has self.now.maker result.1 }
        ensures one { (column : ℕ) → column < T.columns self.now.maker →
            T.holds self.now.maker result.0 column ≡ may_one (state_at (column_of T.holds self.now column) node) }
        ensures zero { (column : ℕ) → column < T.columns self.now.maker →
            T.holds self.now.maker result.1 column ≡ may_zero (state_at (column_of T.holds self.now column) node) }
    {
        (self.hi[node], self.lo[node])
    }

    /// Goes on over another maker, with these rails of the nodes in order, if they have in each column the states that the
    /// nodes have. What it fitted it fits still.
    ///
    /// Lack of memory is the only error: then all is as before, and what was handed in is let go.
    pub fn move_to(
        &mut self,
        alloc: Global,
        truths: T,
        hi: Vec<T::Truth>,
        lo: Vec<T::Truth>,
    ) -> Result<(), NoMemory>
        requires columns { T.columns truths ≡ T.columns self.old.maker }
        requires highs { length hi.items ≡ length self.old.hi }
        requires lows { length lo.items ≡ length hi.items }
        requires high_has { All (T.has truths) hi.items }
        requires low_has { All (T.has truths) lo.items }
        requires same { (column : ℕ) → column < T.columns truths → HasColumn (T.holds truths) column hi.items lo.items (column_of T.holds self.old column) }
        ensures moved { OnOk result (self.new ≡ record self.old { maker = truths; hi = hi.items; lo = lo.items }) }
        ensures err { OnErr result (self.new ≡ self.old) }
        ensures states { OnOk result ((column : ℕ) → column < T.columns truths → column_of T.holds self.new column ≡ column_of T.holds self.old column) }
        ensures fits { OnOk result ((g : GraphData) → FitsInMachine T.columns T.holds g self.old → FitsInMachine T.columns T.holds g self.new) }
    {
        let workspace = workspace_for(alloc, &truths, &self.parts)?;
        self.truths = truths;
        self.hi = hi;
        self.lo = lo;
        self.workspace = workspace;
        Ok(())
    }
}
