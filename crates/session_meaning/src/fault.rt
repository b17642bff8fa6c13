ghost use Rattle.std.specs.Prelude.{◌≡◌};
ghost use Rattle.session_meaning.specs.Preparing.{fault_of_build, fault_of_edit, fault_of_vector};
ghost use Rattle.session_meaning.specs.Sinks.{fault_of_sink};

use circuit_texts::BuildFault;
use netlist::EditFault;
use node_words::VectorFault;
use ports::PortFault;
use std::alloc::AllocError;
use ternary::NoMemory;

/// Why a command is refused, by the session's data.
#[derive(Clone, Copy, Debug, PartialEq, Eq)]
pub enum Refusal {
    /// A name isn't in use.
    UnknownNode,
    /// No transistor has the number.
    NoSuchSwitch,
    /// The node is Gnd or Vdd, which stay as they are.
    Rail,
    /// The profile doesn't accept the strength.
    BadStrength,
    /// The profile doesn't accept the size.
    BadSize,
    /// The new names would make too many nodes.
    TooManyNodes,
    /// There are as many transistors as there may be.
    TooManySwitches,
    /// A node that should be an input node is a storage node.
    NotInput,
    /// A node that should be a storage node is an input node.
    NotStore,
    /// Two clocks have different numbers of letters.
    ClockLength,
    /// No clock was accepted so far.
    NoClock,
    /// The watch list would have more than `MOST_WATCHED` entries.
    TooManyWatched,
    /// A value that may stand at a vector alone stands at another name.
    BadValue,
    /// A vector's name is that of a node in use.
    NameTaken,
    /// A vector, or all vectors together, would have too many entries, or too many ranges lie one in another.
    TooMany,
    /// A value doesn't fit its vector.
    VectorValue,
    /// As many other names keep states as may: `MOST_SAVES`.
    TooManySaves,
    /// Nothing is kept under the name.
    NoSave,
}

/// Why a command was not done, or not to its end.
#[derive(Clone, Copy, Debug, PartialEq, Eq)]
pub enum ApplyFault {
    /// The command is refused.
    Refused(Refusal),
    /// The circuit can't be built: the group with this least node is the first that is too large, and
    /// has too many members, so many.
    GroupNodes { node: usize, count: u64 },
    /// The circuit can't be built: the group with this least node is the first that is too large, and
    /// has too many switches, so many.
    GroupSwitches { node: usize, count: u64 },
    /// The sink failed.
    WriteFault,
    /// Memory ran out.
    NoMemory,
}

impl ApplyFault {
    /// What ends a command where the sink met a fault.
    pub fn of_sink(fault: PortFault) -> ApplyFault
        ensures { result ≡ fault_of_sink fault }
    {
        match fault {
            PortFault::Failed => ApplyFault::WriteFault,
            PortFault::NoMemory => ApplyFault::NoMemory,
        }
    }

    /// What ends a command whose edit isn't done. An edit of transistors answers no other fault.
    pub fn of_edit(fault: EditFault) -> ApplyFault
        ensures { result ≡ fault_of_edit fault }
    {
        match fault {
            EditFault::NoSuchSwitch => ApplyFault::Refused(Refusal::NoSuchSwitch),
            EditFault::Rail => ApplyFault::Refused(Refusal::Rail),
            EditFault::BadStrength => ApplyFault::Refused(Refusal::BadStrength),
            EditFault::BadSize => ApplyFault::Refused(Refusal::BadSize),
            EditFault::TooManyNodes => ApplyFault::Refused(Refusal::TooManyNodes),
            EditFault::TooManySwitches => ApplyFault::Refused(Refusal::TooManySwitches),
            EditFault::AliasTaken | EditFault::NoMemory => ApplyFault::NoMemory,
        }
    }

    /// What ends a command whose name isn't given to the nodes of its words.
    pub fn of_vector(fault: VectorFault) -> ApplyFault
        ensures { result ≡ fault_of_vector fault }
    {
        match fault {
            VectorFault::NameTaken => ApplyFault::Refused(Refusal::NameTaken),
            VectorFault::UnknownNode => ApplyFault::Refused(Refusal::UnknownNode),
            VectorFault::TooMany => ApplyFault::Refused(Refusal::TooMany),
            VectorFault::NoMemory => ApplyFault::NoMemory,
        }
    }

    /// What ends a command for which the circuit can't be built.
    pub fn of_build(fault: BuildFault) -> ApplyFault
        ensures { result ≡ fault_of_build fault }
    {
        match fault {
            BuildFault::GroupNodes { node, count } => ApplyFault::GroupNodes { node, count },
            BuildFault::GroupSwitches { node, count } => ApplyFault::GroupSwitches { node, count },
            BuildFault::NoMemory => ApplyFault::NoMemory,
        }
    }
}

impl From<NoMemory> for ApplyFault {
    ghost use Rattle.session_meaning.specs.declared.fault.ApplyFault.TheVariants.{NoMemory};

    ghost from_gives = { λ _ fault. fault ≡ NoMemory };

    fn from(_want: NoMemory) -> ApplyFault {
        ApplyFault::NoMemory
    }
}

impl From<AllocError> for ApplyFault {
    ghost use Rattle.session_meaning.specs.declared.fault.ApplyFault.TheVariants.{NoMemory};

    ghost from_gives = { λ _ fault. fault ≡ NoMemory };

    fn from(_error: AllocError) -> ApplyFault {
        ApplyFault::NoMemory
    }
}
