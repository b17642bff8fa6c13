use ternary::NoMemory;
use thiserror::Error;

/// Why an assignment gives nothing.
#[derive(Clone, Copy, Debug, Drop, Error, PartialEq, Eq)]
pub enum GivenFault {
    /// The name stands for no nodes that the value could go to.
    #[error("no such node")]
    UnknownNode,
    /// The value's letters aren't as many as the vector's nodes nor one alone, or its number doesn't fit them.
    #[error("the value doesn't fit the vector")]
    VectorValue,
    /// Memory ran out.
    #[error("want of memory")]
    NoMemory,
}

impl From<NoMemory> for GivenFault {
    ghost use Rattle.std.specs.Prelude.{◌≡◌};
    ghost use Rattle.node_values.specs.declared.fault.GivenFault.TheVariants.{NoMemory};

    ghost from_gives = { λ _ fault. fault ≡ NoMemory };

    fn from(_want: NoMemory) -> GivenFault {
        GivenFault::NoMemory
    }
}
