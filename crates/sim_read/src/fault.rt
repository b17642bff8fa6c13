//! What a netlist is refused for.

ghost use Rattle.std.specs.Prelude.{Option};
ghost use Rattle.netlist.specs.Words.{CircuitData, IsAnswered, MakingFault};
ghost use Rattle.sim_read.specs.Words.{edited, IsFault};

use netlist::EditFault;
use ternary::Unmade;
use thiserror::Error;

/// Why a netlist gives no circuit.
pub type NetFault = Unmade<NetRefusal>;

/// The refusal of a netlist: the first line that is refused, and its cause.
#[derive(Clone, Copy, Debug, Drop, Error, PartialEq, Eq)]
#[error("line {line}: {what}")]
pub struct NetRefusal {
    /// The number of the line, from 1.
    pub line: u64,
    /// Why it is refused.
    pub what: NetWhat,
}

/// Why a line of a netlist is refused. If several causes stand together, `TooLong` wins, then
/// the first one in the order here.
#[derive(Clone, Copy, Debug, Drop, Error, PartialEq, Eq)]
pub enum NetWhat {
    /// The line has more bytes than a line may have.
    #[error("the line is too long")]
    LineTooLong,
    /// The line is no comment, and has a byte that is none of tab, space and 0x21 to 0x7e.
    #[error("a byte that may not stand in a line")]
    BadByte,
    /// The first word begins no record.
    #[error("no such record")]
    BadRecord,
    /// There are too few words after the first.
    #[error("too few words")]
    FewWords,
    /// The header names a format that isn't MIT or SU.
    #[error("the format isn't known")]
    Format,
    /// The header says profile 2, and its thresholds aren't one to seven rising numbers.
    #[error("the thresholds don't rise")]
    BadCaps,
    /// The line holds the first byte too many of the text.
    #[error("the text is too long")]
    TooLong,
    /// A strength isn't a decimal that the profile accepts.
    #[error("the strength is out of range")]
    BadStrength,
    /// A size isn't a decimal that the profile accepts.
    #[error("the size is out of range")]
    BadSize,
    /// Both names of an alias are in use, for different nodes.
    #[error("both names are in use")]
    AliasTaken,
    /// There would be too many nodes.
    #[error("too many nodes")]
    TooManyNodes,
    /// There would be too many transistors.
    #[error("too many transistors")]
    TooManySwitches,
}

/// Why the reading stops at a line.
pub(crate) type LineStop = Unmade<NetWhat>;

/// Why the reading stops at a line whose edit answers this fault.
pub(crate) fn edit_stop(fault: EditFault) -> LineStop
    requires { (refusal : Option MakingFault) × IsAnswered refusal fault }
    ensures { (refusal : Option MakingFault) (made : CircuitData)
        → IsAnswered refusal fault → IsFault (edited refusal made) result }
{
    match fault {
        EditFault::BadStrength => Unmade::Refused(NetWhat::BadStrength),
        EditFault::AliasTaken => Unmade::Refused(NetWhat::AliasTaken),
        EditFault::TooManyNodes => Unmade::Refused(NetWhat::TooManyNodes),
        EditFault::TooManySwitches => Unmade::Refused(NetWhat::TooManySwitches),
        EditFault::NoMemory => Unmade::NoMemory,
        EditFault::NoSuchSwitch | EditFault::Rail | EditFault::BadSize => unreachable!(),
    }
}
