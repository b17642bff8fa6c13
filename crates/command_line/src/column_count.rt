//! A number of columns that a run may have.

ghost use Rattle.std.specs.Prelude.{◌≤◌};

/// A number of columns, from 1 to 64.
#[derive(Clone, Copy)]
pub struct ColumnCount {
    /// How many there are.
    pub count: u32,
    ghost some: { 1 ≤ count },
    ghost few: { count ≤ 64 },
}
