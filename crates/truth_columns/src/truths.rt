//! What stands for truths.
ghost use Rattle.std.specs.Prelude.{◌≡◌, ◌↔◌, ℕ, ◌<◌, Bool, false, IfErr, IfOk, IsTrue};
ghost use Rattle.straight_code.specs.Flat.{kind_value};
ghost use Rattle.truth_columns.specs.Columns.{AreKept};

use straight_code::StepKind;

/// Where truth values of many columns are made: what stands for one has a truth value in each column.
///
/// Contracts see five meanings: how many columns there are; which truths are those of this maker; whether a truth
/// holds in a column, by its number from 0; how much the maker may make at most, by a measure of its own; and whether it
/// has run out in such a way that a fault tells of it truly. What is made later leaves all truths as they are, and the
/// bound. A maker may run out, and then tells why.
pub trait Truths {
    type Truth: Copy;

    type Fault: Drop;

    ghost columns: { Self → ℕ };

    ghost has: { Self → Self.Truth → Type 0 };

    ghost holds: { Self → Self.Truth → ℕ → Bool };

    ghost bound: { Self → ℕ };

    ghost spent: { Self → Self.Fault → Type 0 };

    /// The truth that holds in all columns, or in none.
    fn constant(&self, value: bool) -> Self::Truth
        ensures has { has self.now result }
        ensures value { (column : ℕ) → column < columns self.now → holds self.now result column ≡ value };

    /// Whether a truth holds in no column.
    fn is_never(&self, truth: Self::Truth) -> bool
        requires { has self.now truth }
        ensures { IsTrue result ↔ ((column : ℕ) → column < columns self.now → holds self.now truth column ≡ false) };

    /// Whether two truths are alike in all columns.
    fn same(&self, a: Self::Truth, b: Self::Truth) -> bool
        requires first { has self.now a }
        requires second { has self.now b }
        ensures { IsTrue result ↔ ((column : ℕ) → column < columns self.now → holds self.now a column ≡ holds self.now b column) };

    /// What an instruction of this kind gives of two truths, in all columns. What a fault tells is so of the maker as it is
    /// then.
    fn perform(
        &mut self,
        kind: StepKind,
        a: Self::Truth,
        b: Self::Truth,
    ) -> Result<Self::Truth, Self::Fault>
        requires first { has self.old a }
        requires second { has self.old b }
        ensures kept { AreKept (columns self.old) (has self.old) (holds self.old) (columns self.new) (has self.new) (holds self.new) }
        ensures has { IfOk result (has self.new) }
        ensures value { IfOk result (λ made. (column : ℕ) → column < columns self.old
            → holds self.new made column ≡ kind_value kind (holds self.old a column) (holds self.old b column)) }
        ensures bound { bound self.new ≡ bound self.old }
        ensures spent { IfErr result (spent self.new) };
}
