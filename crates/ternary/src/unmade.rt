//! Why something wasn't made.

use crate::memory::NoMemory;
use std::fmt::Display;
use thiserror::Error;

/// Why something wasn't made: it was refused, or memory ran out.
#[derive(Clone, Copy, Debug, Drop, Error, PartialEq, Eq)]
#[error_bound(R: Display)]
pub enum Unmade<R> {
    /// It is refused, for this.
    #[error("{0}")]
    Refused(R),
    /// Memory ran out.
    #[error("out of memory")]
    NoMemory,
}

impl<R> From<NoMemory> for Unmade<R> {
    ghost use Rattle.std.specs.Prelude.{◌≡◌};
    ghost use Rattle.ternary.specs.declared.unmade.Unmade.TheVariants.{NoMemory};

    ghost from_gives = { λ _ unmade. unmade ≡ NoMemory };

    fn from(_want: NoMemory) -> Unmade<R> {
        Unmade::NoMemory
    }
}
