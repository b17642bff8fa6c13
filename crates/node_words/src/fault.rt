use ternary::NoMemory;
use thiserror::Error;

/// Why a name isn't given to the nodes of words.
#[derive(Clone, Copy, Debug, Drop, Error, PartialEq, Eq)]
pub enum VectorFault {
    /// The name is in use for a node.
    #[error("the name is in use")]
    NameTaken,
    /// A word stands for no node.
    #[error("no such node")]
    UnknownNode,
    /// There would be more entries than a vector or all vectors may have, or a word has more ranges
    /// one in another than `MOST_DEPTH`.
    #[error("too many nodes")]
    TooMany,
    /// Memory ran out.
    #[error("out of memory")]
    NoMemory,
}

impl From<NoMemory> for VectorFault {
    ghost use Rattle.std.specs.Prelude.{◌≡◌};
    ghost use Rattle.node_words.specs.declared.fault.VectorFault.TheVariants.{NoMemory};

    ghost from_gives = { λ _ fault. fault ≡ NoMemory };

    fn from(_want: NoMemory) -> VectorFault {
        VectorFault::NoMemory
    }
}
