//! What steps: the states of several columns that take unit steps and joining steps of a graph.
ghost use Rattle.std.specs.Prelude.{◌≡◌, ◌≢◌, ℕ, ◌^◌, ◌<◌, ◌≤◌, true, false, List, length};
ghost use Rattle.word_settling.specs.Words.{is_in_column, GraphData, IsJoinStep, IsStep, StaysOrBecomesX};
ghost use Rattle.ternary.specs.declared.tern.Tern.{Tern};

use switch_paths::Graph;

/// The states of several columns, which move by unit steps together.
///
/// Contracts see three meanings: the number of columns; the state of each column, by its number from 0; and the
/// graphs that the stepper fits, on which its calls do what they say. No call changes the number of columns or of
/// nodes, takes memory or has a refusal. A call answers with the bits of the columns that it changed.
pub trait WordStepper {
    ghost columns: { Self → ℕ };

    ghost state: { Self → ℕ → List Tern };

    ghost fits: { Self → GraphData → Type 0 };

    /// Takes a unit step of the graph in each column: every node takes its steady state, all under the same old
    /// state of the column.
    ///
    /// Bryant, "Boolean Analysis of MOS Circuits", 1987.
    fn step(&mut self, graph: &Graph) -> u64
        ensures step { fits self.old graph.now → (column : ℕ) → column < columns self.old
            → IsStep graph.now (state self.old column) (state self.new column) }
        ensures fits { fits self.old graph.now → fits self.new graph.now }
        ensures columns { columns self.new ≡ columns self.old }
        ensures nodes { (column : ℕ) → column < columns self.old → length (state self.new column) ≡ length (state self.old column) }
        ensures changed { (column : ℕ) → column < columns self.old → is_in_column column result ≡ true
            → state self.new column ≢ state self.old column }
        ensures same { (column : ℕ) → column < columns self.old → is_in_column column result ≡ false → state self.new column ≡ state self.old column }
        ensures beyond { (column : ℕ) → columns self.old ≤ column → is_in_column column result ≡ false };

    /// Takes a joining step of the graph in each column: every node takes the join of its state and its steady
    /// state. Whether the stepper fits or not, a node that changes becomes X.
    ///
    /// In the manner of MOSSIM II: Bryant, "A Switch-Level Model and Simulator for MOS Digital Systems", 1984.
    fn join_step(&mut self, graph: &Graph) -> u64
        ensures step { fits self.old graph.now → (column : ℕ) → column < columns self.old → IsJoinStep graph.now (state self.old column) (state self.new column) }
        ensures fits { fits self.old graph.now → fits self.new graph.now }
        ensures columns { columns self.new ≡ columns self.old }
        ensures nodes { (column : ℕ) → column < columns self.old → length (state self.new column) ≡ length (state self.old column) }
        ensures few { (column : ℕ) → column < columns self.old → length (state self.new column) < 2 ^ 63 }
        ensures unknown { (column : ℕ) → column < columns self.old → StaysOrBecomesX (state self.old column) (state self.new column) }
        ensures changed { (column : ℕ) → column < columns self.old → is_in_column column result ≡ true
            → state self.new column ≢ state self.old column }
        ensures same { (column : ℕ) → column < columns self.old → is_in_column column result ≡ false → state self.new column ≡ state self.old column }
        ensures beyond { (column : ℕ) → columns self.old ≤ column → is_in_column column result ≡ false };
}
