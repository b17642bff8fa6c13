//! What steps: the states of columns that take unit steps and joining steps of a graph.
ghost use Rattle.std.specs.Prelude.{◌≡◌, ◌≢◌, ℕ, ◌^◌, ◌<◌, ◌≤◌, true, false, List, length, IfErr, IfOk, OnOk, OnErr};
ghost use Rattle.ternary.specs.declared.tern.Tern.{Tern};
ghost use Rattle.switch_paths.specs.Graphs.{GraphData};
ghost use Rattle.switch_paths.specs.Step.{IsStep};
ghost use Rattle.settling.specs.Settling.{IsJoinStep, StaysOrBecomesX};

use switch_paths::Graph;

/// The states of columns, which move by unit steps together. A call answers whether it changed some column, or why the
/// stepper ran out; then each column is as before. Either way it keeps what a step keeps, which is the stepper's own.
///
/// Whether it has run out in such a way that a fault tells of it truly is the stepper's own too.
pub trait ColumnStepper {
    type Fault: Drop;

    ghost columns: { Self → ℕ };

    ghost state: { Self → ℕ → List Tern };

    ghost fits: { Self → GraphData → Type 0 };

    ghost keeps: { Self → Self → Type 0 };

    ghost spent: { Self → Self.Fault → Type 0 };

    /// Takes a unit step of the graph in each column.
    fn step(&mut self, graph: &Graph) -> Result<bool, Self::Fault>
        ensures step { OnOk result (fits self.old graph.now → (column : ℕ) → column < columns self.old
            → IsStep graph.now (state self.old column) (state self.new column)) }
        ensures fits { fits self.old graph.now → fits self.new graph.now }
        ensures columns { columns self.new ≡ columns self.old }
        ensures keeps { keeps self.old self.new }
        ensures moved { IfOk result (λ moved. moved ≡ true → (column : ℕ) × (column < columns self.old) × (state self.new column ≢ state self.old column)) }
        ensures rests { IfOk result (λ moved. moved ≡ false → (column : ℕ) → column < columns self.old → state self.new column ≡ state self.old column) }
        ensures err { OnErr result ((column : ℕ) → column < columns self.old → state self.new column ≡ state self.old column) }
        ensures spent { IfErr result (spent self.new) };

    /// Takes a joining step of the graph in each column.
    fn join_step(&mut self, graph: &Graph) -> Result<bool, Self::Fault>
        ensures step { OnOk result (fits self.old graph.now → (column : ℕ) → column < columns self.old
            → IsJoinStep graph.now (state self.old column) (state self.new column)) }
        ensures fits { fits self.old graph.now → fits self.new graph.now }
        ensures columns { columns self.new ≡ columns self.old }
        ensures keeps { keeps self.old self.new }
        ensures nodes { (column : ℕ) → column < columns self.old → length (state self.new column) ≡ length (state self.old column) }
        ensures few { (column : ℕ) → column < columns self.old → length (state self.new column) < 2 ^ 63 }
        ensures unknown { (column : ℕ) → column < columns self.old → StaysOrBecomesX (state self.old column) (state self.new column) }
        ensures moved { IfOk result (λ moved. moved ≡ true → (column : ℕ) × (column < columns self.old) × (state self.new column ≢ state self.old column)) }
        ensures rests { IfOk result (λ moved. moved ≡ false → (column : ℕ) → column < columns self.old → state self.new column ≡ state self.old column) }
        ensures err { OnErr result ((column : ℕ) → column < columns self.old → state self.new column ≡ state self.old column) }
        ensures spent { IfErr result (spent self.new) };
}
