//! What a deck is refused for.

use ternary::Unmade;
use thiserror::Error;

/// Why a deck gives no circuit.
pub type DeckFault = Unmade<DeckRefusal>;

/// The refusal of a deck: its first refused line, and the cause.
#[derive(Clone, Copy, Debug, Drop, Error, PartialEq, Eq)]
#[error("line {line}: {what}")]
pub struct DeckRefusal {
    /// The number of the line, from 1; a card's line is its first one.
    pub line: u64,
    /// Why it is refused.
    pub what: DeckWhat,
}

/// Why a line of a deck is refused. If several causes stand together at a line, the first one in
/// the order here wins; those up to `Redefined` come before all others, wherever these stand.
#[derive(Clone, Copy, Debug, Drop, Error, PartialEq, Eq)]
pub enum DeckWhat {
    /// The line holds the first byte too many of the text.
    #[error("the text is too long")]
    TooLong,
    /// The line has more bytes than a line may have.
    #[error("the line is too long")]
    LineTooLong,
    /// The line is no comment, and has a byte that is none of tab, space and 0x21 to 0x7e.
    #[error("a byte that may not stand in a line")]
    BadByte,
    /// The first word begins no card that is read or passed, or a `+` has no card before it.
    #[error("no such card")]
    BadCard,
    /// The card has too few words.
    #[error("too few words")]
    FewWords,
    /// A subcircuit begins inside another one, or is never ended, or an `.ends` ends none.
    #[error("subcircuits don't begin and end in turn")]
    BadNesting,
    /// There is a subcircuit of this name already.
    #[error("the subcircuit is defined already")]
    Redefined,
    /// No subcircuit has the name that is called.
    #[error("no such subcircuit")]
    NoSubckt,
    /// The call has another number of nodes than the subcircuit has ports.
    #[error("another number of nodes than of ports")]
    PortCount,
    /// The subcircuit is called inside itself.
    #[error("the subcircuit calls itself")]
    Recursion,
    /// More calls would be open than may be.
    #[error("too many calls inside one another")]
    TooDeep,
    /// There are as many calls as there may be.
    #[error("too many calls")]
    TooManyCalls,
    /// The model has no kind.
    #[error("no such model")]
    BadModel,
    /// A strength isn't a decimal from 1 to 4.
    #[error("the strength is out of range")]
    BadStrength,
    /// There would be too many nodes.
    #[error("too many nodes")]
    TooManyNodes,
    /// There would be too many transistors.
    #[error("too many transistors")]
    TooManySwitches,
}

/// Why the reading stops at a card.
pub(crate) type CardStop = Unmade<DeckWhat>;
