use crate::lists::{ClockList, Name, NameList, ValueList};
use switch_paths::SwitchKind;
use ternary::NoMemory;
use thiserror::Error;

/// A command of a test script, of one of five families.
#[derive(Drop)]
pub enum Command {
    /// It edits the circuit, and writes nothing.
    Edit(Edit),
    /// It gives nodes states, and writes nothing.
    Give(Give),
    /// It sets what later commands go by, and writes nothing.
    Setup(Setup),
    /// It has the circuit built first, and writes lines.
    Run(Run),
    /// It tells of what is there.
    Tell(Tell),
}

/// A command that edits the circuit.
#[derive(Drop)]
pub enum Edit {
    /// `input NAME..`: makes the nodes input nodes; their states stay.
    Input(NameList),
    /// `store NAME SIZE`: makes the node a storage node of this size; its state stays.
    Store(Name, u64),
    /// `add KIND GATE SOURCE DRAIN [STRENGTH]`: adds a transistor, whose strength is the usual one
    /// of its kind if none is given. New names make storage nodes of size 1.
    Add {
        kind: SwitchKind,
        gate: Name,
        source: Name,
        drain: Name,
        strength: Option<u64>,
    },
    /// `del NUMBER`: removes the transistor of this number.
    Del(u64),
    /// `strength NUMBER STRENGTH`: sets a transistor's strength; its kind and terminals stay.
    Strength(u64, u64),
    /// `type NUMBER KIND`: sets a transistor's kind; its strength and terminals stay.
    Kind(u64, SwitchKind),
    /// `wire NUMBER GATE SOURCE DRAIN`: sets a transistor's terminals; its kind and strength stay.
    /// New names make storage nodes of size 1.
    Wire {
        number: u64,
        gate: Name,
        source: Name,
        drain: Name,
    },
}

/// A command that gives nodes states.
#[derive(Drop)]
pub enum Give {
    /// `set NAME=V..`: sets input nodes, from left to right.
    Set(ValueList),
    /// `charge NAME=V..`: sets storage nodes, from left to right.
    Charge(ValueList),
    /// `back NAME`: gives each node that was there the state that was kept under the name.
    Back(Name),
}

/// A command that sets what later commands go by.
#[derive(Drop)]
pub enum Setup {
    /// `watch NAME..`: appends the nodes to the watch list.
    Watch(NameList),
    /// `limit N`: sets the limit of a phase.
    Limit(u64),
    /// `clock NAME=VV..`: puts these clocks in place of all others.
    Clock(ClockList),
    /// `keep N`: sets the bound on the number of texts whose analyses are kept, from the next build on.
    Keep(u64),
    /// `wide N`: sets how many members a group may have, from the next build on.
    Widen(u64),
    /// `save NAME`: keeps the present states of all nodes under the name.
    Save(Name),
    /// `vector NAME WORD..`: gives the name to the nodes that the words stand for, in the place of those
    /// that it had.
    Vector(Name, NameList),
}

/// A command that has the circuit built first.
#[derive(Drop)]
pub enum Run {
    /// `step`: one unit step, and a waveform line.
    Step,
    /// `phase`: unit steps until nothing changes, past the limit joining ones, and a waveform line.
    Phase,
    /// `cycle N`: so many times, for each place of the clocks in order, sets their nodes and does what `phase` does.
    Cycle(u64),
    /// `report`: a line with the numbers of groups, of distinct texts, and of texts analysed since
    /// the last one.
    Report,
}

/// A command that tells of what is there.
#[derive(Drop)]
pub enum Tell {
    /// `expect NAME=V..`: a line for each name whose nodes aren't all in these states.
    Expect(ValueList),
    /// `show NAME..`: a line for each name, with the states of its nodes.
    Show(NameList),
    /// `look NAME..`: the lines of each node and of the transistors at it.
    Look(NameList),
}

/// Why a line of a script is no command. If several causes stand together, the first here wins;
/// among bad values and numbers, that of the first bad word.
#[derive(Clone, Copy, Debug, Drop, Error, PartialEq, Eq)]
pub enum ScriptFault {
    /// The line has more bytes than a line may have.
    #[error("the line is too long")]
    LineTooLong,
    /// The line is no comment, and has a byte that is none of tab, space and 0x21 to 0x7e.
    #[error("a byte that may not stand in a line")]
    BadByte,
    /// The first word is no command.
    #[error("no such command")]
    BadCommand,
    /// There are too few words after the first.
    #[error("too few words")]
    FewWords,
    /// There are too many words after the first.
    #[error("too many words")]
    ManyWords,
    /// A word that should be an assignment or a transistor's kind is none.
    #[error("the value isn't one")]
    BadValue,
    /// A word that should be a number is none, or is out of range.
    #[error("the number isn't one")]
    BadNumber,
    /// Memory ran out.
    #[error("out of memory")]
    NoMemory,
}

impl From<NoMemory> for ScriptFault {
    ghost use Rattle.std.specs.Prelude.{◌≡◌};
    ghost use Rattle.script_lang.specs.declared.command.ScriptFault.TheVariants.{NoMemory};

    ghost from_gives = { λ _ fault. fault ≡ NoMemory };

    fn from(_want: NoMemory) -> ScriptFault {
        ScriptFault::NoMemory
    }
}
