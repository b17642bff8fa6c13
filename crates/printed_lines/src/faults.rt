ghost use Rattle.std.specs.Prelude.{◌≡◌, ◌+◌, ◌≤◌, ◌++◌, length};
ghost use Rattle.printed_lines.specs.Faults.{text_of, numbered_of, place_of, group_of, detail_of, fault_line_of};

use crate::line_buf::LineBuf;
use crate::lines::{NUMBER_ROOM, append_number};

/// Room for any fault's line, beyond that for its name.
pub const FAULT_LINE_ROOM: usize = 120;

// The most bytes of a fault's place.
const PLACE_ROOM: usize = 34;

// The most bytes of the text of a fault.
const TEXT_ROOM: usize = 20;

/// Where a fault was met.
#[derive(Clone, Copy, PartialEq, Eq)]
pub enum FaultPlace {
    /// A line of the netlist, counted from 1.
    Net(u64),
    /// The netlist as a whole.
    NetWhole,
    /// A line of the script, counted from 1.
    Script(u64),
    /// A line of the list of faults, counted from 1.
    List(u64),
    /// The node that a reason is asked for.
    Node,
    /// A line that was heard in a talk, counted from 1.
    Heard(u64),
}

/// A refusal, by its code and its word, in the order lines, netlist, groups, edits, script, list.
#[derive(Clone, Copy, PartialEq, Eq)]
pub enum FaultCode {
    /// A line has more than 65,536 bytes.
    L1LineTooLong,
    /// A line has a byte that may not stand in it.
    L2BadByte,
    /// The first word of a netlist line is none of the known ones.
    N1BadRecord,
    /// A netlist line has fewer words than its first word asks for.
    N2FewWords,
    /// The header of a netlist names a format other than `MIT` and `SU`.
    N3Format,
    /// A netlist goes past 67,108,864 bytes.
    N4TooLong,
    /// The header of a netlist names thresholds that aren't one to seven rising numbers.
    N5BadCaps,
    /// A group has more nodes than an analysis takes.
    G1GroupNodes,
    /// A group has more switches than an analysis takes.
    G2GroupSwitches,
    /// A name isn't in use.
    E1UnknownNode,
    /// No transistor has this number.
    E2NoSuchSwitch,
    /// The node is Vdd or Gnd.
    E3Rail,
    /// A strength isn't one that the profile accepts.
    E4BadStrength,
    /// A size isn't one that the profile accepts.
    E5BadSize,
    /// An alias joins two names that are in use for different nodes.
    E6AliasTaken,
    /// New names would bring the nodes past 1,000,000.
    E7TooManyNodes,
    /// 2,000,000 transistors were made already.
    E8TooManySwitches,
    /// The first word of a script line is no command.
    S1BadCommand,
    /// A command has too few words.
    S2FewWords,
    /// A command has too many words.
    S3ManyWords,
    /// A word is no assignment or no kind of transistor where one must stand.
    S4BadValue,
    /// A word is no number, or a number that is out of range, where one must stand.
    S5BadNumber,
    /// A storage node stands where an input node must.
    S6NotInput,
    /// An input node stands where a storage node must.
    S7NotStore,
    /// Two clocks have different numbers of letters.
    S8ClockLength,
    /// A cycle comes before any clock.
    S9NoClock,
    /// The watch list would have more than 256 entries.
    S10TooManyWatched,
    /// A script goes past 67,108,864 bytes.
    S11TooLong,
    /// A vector's name is that of a node in use.
    S12NameTaken,
    /// A vector would have more than 65,536 entries, or all vectors more than 4,194,304, or more than 16 ranges lie
    /// one in another.
    S13TooMany,
    /// A value doesn't fit its vector.
    S14VectorValue,
    /// 64 other names keep states.
    S15TooManySaves,
    /// Nothing is kept under the name.
    S16NoSave,
    /// In a dump a word is watched behind the first step, phase or cycle.
    S17LateWatch,
    /// A `let` is of a name that is defined, or is a variable by an earlier line or its own formula.
    S18NameDefined,
    /// A line's names would bring the variables past 4,096.
    S19TooManyVariables,
    /// A line of the list isn't two words that name a fault.
    F1BadFault,
    /// A list goes past 67,108,864 bytes.
    F2TooLong,
}

impl FaultCode {
    /// The printed text: the code and the word, with a space between them.
    pub fn text(self) -> &'static [u8]
        ensures value { result.now ≡ text_of self }
        ensures short { length result.now ≤ TEXT_ROOM }
    {
        match self {
            FaultCode::L1LineTooLong => b"L1 LineTooLong",
            FaultCode::L2BadByte => b"L2 BadByte",
            FaultCode::N1BadRecord => b"N1 BadRecord",
            FaultCode::N2FewWords => b"N2 FewWords",
            FaultCode::N3Format => b"N3 Format",
            FaultCode::N4TooLong => b"N4 TooLong",
            FaultCode::N5BadCaps => b"N5 BadCaps",
            FaultCode::G1GroupNodes => b"G1 GroupNodes",
            FaultCode::G2GroupSwitches => b"G2 GroupSwitches",
            FaultCode::E1UnknownNode => b"E1 UnknownNode",
            FaultCode::E2NoSuchSwitch => b"E2 NoSuchSwitch",
            FaultCode::E3Rail => b"E3 Rail",
            FaultCode::E4BadStrength => b"E4 BadStrength",
            FaultCode::E5BadSize => b"E5 BadSize",
            FaultCode::E6AliasTaken => b"E6 AliasTaken",
            FaultCode::E7TooManyNodes => b"E7 TooManyNodes",
            FaultCode::E8TooManySwitches => b"E8 TooManySwitches",
            FaultCode::S1BadCommand => b"S1 BadCommand",
            FaultCode::S2FewWords => b"S2 FewWords",
            FaultCode::S3ManyWords => b"S3 ManyWords",
            FaultCode::S4BadValue => b"S4 BadValue",
            FaultCode::S5BadNumber => b"S5 BadNumber",
            FaultCode::S6NotInput => b"S6 NotInput",
            FaultCode::S7NotStore => b"S7 NotStore",
            FaultCode::S8ClockLength => b"S8 ClockLength",
            FaultCode::S9NoClock => b"S9 NoClock",
            FaultCode::S10TooManyWatched => b"S10 TooManyWatched",
            FaultCode::S11TooLong => b"S11 TooLong",
            FaultCode::S12NameTaken => b"S12 NameTaken",
            FaultCode::S13TooMany => b"S13 TooMany",
            FaultCode::S14VectorValue => b"S14 VectorValue",
            FaultCode::S15TooManySaves => b"S15 TooManySaves",
            FaultCode::S16NoSave => b"S16 NoSave",
            FaultCode::S17LateWatch => b"S17 LateWatch",
            FaultCode::S18NameDefined => b"S18 NameDefined",
            FaultCode::S19TooManyVariables => b"S19 TooManyVariables",
            FaultCode::F1BadFault => b"F1 BadFault",
            FaultCode::F2TooLong => b"F2 TooLong",
        }
    }
}

/// Appends the line of a fault, as `net line 3: E4 BadStrength` and LF.
///
/// `name` and `count` say which group is too large and how large it is. They are printed for
/// `G1GroupNodes` and `G2GroupSwitches` alone, as `net: G1 GroupNodes s1 201` and LF.
pub fn fault_line(out: &mut LineBuf, place: FaultPlace, code: FaultCode, name: &[u8], count: u64)
    requires room { FAULT_LINE_ROOM + length name.now ≤ out.old.spare }
    ensures bytes { out.new.bytes ≡ out.old.bytes ++ fault_line_of place code name.now count }
    ensures spare { out.new.spare + length (fault_line_of place code name.now count) ≡ out.old.spare }
    ensures short { length (fault_line_of place code name.now count) ≤ FAULT_LINE_ROOM + length name.now }
{
    append_place(out, place);
    out.append(code.text());
    append_detail(out, code, name, count);
    out.append(b"\n");
}

// Appends the place of a fault.
fn append_place(out: &mut LineBuf, place: FaultPlace)
    requires room { PLACE_ROOM ≤ out.old.spare }
    ensures bytes { out.new.bytes ≡ out.old.bytes ++ place_of place }
    ensures spare { out.new.spare + length (place_of place) ≡ out.old.spare }
    ensures short { length (place_of place) ≤ PLACE_ROOM }
{
    match place {
        FaultPlace::Net(line) => append_line_number(out, b"net line ", line),
        FaultPlace::NetWhole => out.append(b"net: "),
        FaultPlace::Script(line) => append_line_number(out, b"script line ", line),
        FaultPlace::List(line) => append_line_number(out, b"list line ", line),
        FaultPlace::Node => out.append(b"node: "),
        FaultPlace::Heard(line) => append_line_number(out, b"line ", line),
    }
}

// Appends words and the number of a line.
fn append_line_number(out: &mut LineBuf, words: &[u8], line: u64)
    requires room { length words.now + NUMBER_ROOM + 2 ≤ out.old.spare }
    ensures bytes { out.new.bytes ≡ out.old.bytes ++ numbered_of words.now line }
    ensures spare { out.new.spare + length (numbered_of words.now line) ≡ out.old.spare }
    ensures short { length (numbered_of words.now line) ≤ length words.now + NUMBER_ROOM + 2 }
{
    out.append(words);
    append_number(out, line);
    out.append(b": ");
}

// Appends which group is too large and how large it is, after a code that says so.
fn append_detail(out: &mut LineBuf, code: FaultCode, name: &[u8], count: u64)
    requires room { length name.now + NUMBER_ROOM + 2 ≤ out.old.spare }
    ensures bytes { out.new.bytes ≡ out.old.bytes ++ detail_of code name.now count }
    ensures spare { out.new.spare + length (detail_of code name.now count) ≡ out.old.spare }
    ensures short { length (detail_of code name.now count) ≤ length name.now + NUMBER_ROOM + 2 }
{
    match code {
        FaultCode::G1GroupNodes | FaultCode::G2GroupSwitches => append_group(out, name, count),
        _ => {}
    }
}

// Appends the name and the size of a group.
fn append_group(out: &mut LineBuf, name: &[u8], count: u64)
    requires room { length name.now + NUMBER_ROOM + 2 ≤ out.old.spare }
    ensures bytes { out.new.bytes ≡ out.old.bytes ++ group_of name.now count }
    ensures spare { out.new.spare + length (group_of name.now count) ≡ out.old.spare }
    ensures short { length (group_of name.now count) ≤ length name.now + NUMBER_ROOM + 2 }
{
    out.append(b" ");
    out.append(name);
    out.append(b" ");
    append_number(out, count);
}
