//! Samples of generated circuits.

ghost use Rattle.std.specs.Prelude.{◌≤◌};
ghost use Rattle.net_gen.specs.declared.families.TheConstants.{MOST_ROWS};

use net_gen::GenKind;

/// A sample of a family of circuits.
#[derive(Clone, Copy)]
pub struct Sample {
    /// The family.
    pub kind: GenKind,
    /// The seed of its script's draws.
    pub seed: u64,
    /// How many rows it has, from 1 to the most that a text may have.
    pub rows: u64,
    ghost some: { 1 ≤ rows },
    ghost most: { rows ≤ MOST_ROWS },
}
