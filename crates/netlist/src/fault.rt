ghost use Rattle.std.specs.Prelude.{◌≡◌};
ghost use Rattle.netlist.specs.declared.fault.EditFault.TheVariants.{NoMemory};

use ternary::NoMemory;
use thiserror::Error;

/// Why an edit of a circuit is refused.
#[derive(Clone, Copy, Debug, Drop, Error, PartialEq, Eq)]
pub enum EditFault {
    /// No transistor has this number: none ever had it, or that one was removed.
    #[error("no such transistor")]
    NoSuchSwitch,
    /// The node is Gnd or Vdd, which stay input nodes.
    #[error("the node is a rail")]
    Rail,
    /// The profile doesn't accept the strength.
    #[error("the strength is out of range")]
    BadStrength,
    /// The profile doesn't accept the size.
    #[error("the size is out of range")]
    BadSize,
    /// Both names are in use, for different nodes.
    #[error("both names are in use")]
    AliasTaken,
    /// There would be more nodes than `MOST_NODES`.
    #[error("too many nodes")]
    TooManyNodes,
    /// There are `MOST_SWITCHES` transistors already.
    #[error("too many transistors")]
    TooManySwitches,
    /// Memory ran out.
    #[error("out of memory")]
    NoMemory,
}

impl From<NoMemory> for EditFault {
    ghost from_gives = { λ _ fault. fault ≡ NoMemory };

    fn from(_want: NoMemory) -> EditFault {
        EditFault::NoMemory
    }
}
