//! What each refusal means, and its cure.

ghost use Rattle.std.specs.Prelude.{◌≡◌, ◌++◌, option_map};
ghost use Rattle.help_texts.specs.Texts as spec;

use crate::finding::text_of;

/// Each code as it is printed, and what it means with the most common cure.
///
/// Each `{}` stands for the word concerned. For N1, N2, S1, S2, S3, P1, P2 and P3 it is the first word
/// of the line; for N3 the format, for N5 the word that begins with `caps:`; for E1, E3, S6 and S7 the
/// node's name as the line has it, or the vector's that has the node, for S12 the vector's, for S14 the
/// assignment, for E6 the second name; for S16 the name, for S18 that of the `let`; for E2 and S5 the word in
/// the place of the number, for S4 that in the place of the assignment, the kind, the variable or the formula; for E4 and E5 the
/// strength and the size; for G1 and G2 the name that the refusal has; for P4 to P8 the subcircuit's
/// name, for P10 the model's. The others have none.
pub const CURES: [(&str, &str); 48] = [
    (
        "L1 LineTooLong",
        "the line has more than 65,536 bytes; write it as several shorter ones",
    ),
    (
        "L2 BadByte",
        "the line has a byte that is no visible ASCII; rename the label, or remove the byte",
    ),
    (
        "N1 BadRecord",
        "'{}' begins no .sim record; remove the line, or use sim-spice if the file is a deck",
    ),
    (
        "N2 FewWords",
        "'{}' needs more words than the line has; write the file again if it was cut off",
    ),
    (
        "N3 Format",
        "the format '{}' isn't read; write the file again by 'ext2sim format MIT'",
    ),
    (
        "N4 TooLong",
        "the file has more than 67,108,864 bytes; leave out comments, resistors and unused cells",
    ),
    (
        "N5 BadCaps",
        "'{}' isn't one to seven rising numbers; sort them, as in caps:10,100, without a blank",
    ),
    (
        "E1 UnknownNode",
        "no node is called '{}'; look it up in the netlist, with its capital and small letters",
    ),
    (
        "E2 NoSuchSwitch",
        "no transistor has the number '{}'; count transistors from 1, not the lines of the file",
    ),
    (
        "E3 Rail",
        "'{}' is a rail, which stays as it is; take it out of the line",
    ),
    (
        "E4 BadStrength",
        "'{}' is no strength; use 1 to 4, or in profile 2 1 to 7: only the order counts",
    ),
    (
        "E5 BadSize",
        "'{}' is no size; use 1 to 3, or in profile 2 1 to 8: only the order counts",
    ),
    (
        "E6 AliasTaken",
        "'{}' is a node of its own by now; put the '=' lines before the transistors",
    ),
    (
        "E7 TooManyNodes",
        "there would be more than 1,000,000 nodes; simulate a part of the circuit",
    ),
    (
        "E8 TooManySwitches",
        "there would be more than 2,000,000 transistors; simulate a part of the circuit",
    ),
    (
        "S1 BadCommand",
        "'{}' is no command here; 'cosmos help' lists the commands",
    ),
    (
        "S2 FewWords",
        "'{}' needs more words; 'cosmos help {}' shows its form",
    ),
    (
        "S3 ManyWords",
        "'{}' takes fewer words; 'cosmos help {}' shows its form",
    ),
    (
        "S4 BadValue",
        "'{}' doesn't fit; write NAME=0, NAME=1 or NAME=X, or for a kind n, e, p or d",
    ),
    (
        "S5 BadNumber",
        "'{}' is no number that fits; write digits, from 1 to 1000000 for limit, cycle and keep, from 200 for wide",
    ),
    (
        "S6 NotInput",
        "'{}' is a storage node; 'input {}' makes it an input",
    ),
    (
        "S7 NotStore",
        "'{}' is an input node; use 'set', or make it a storage node by 'store {} 1'",
    ),
    (
        "S8 ClockLength",
        "the clocks differ in their numbers of letters; give every clock as many",
    ),
    (
        "S9 NoClock",
        "no clock was given so far; put a line such as 'clock phi=01' before this one",
    ),
    (
        "S10 TooManyWatched",
        "the list would have more than 256 entries; watch the other nodes in a second run",
    ),
    (
        "S11 TooLong",
        "the script has more than 67,108,864 bytes; use 'cycle' for what repeats, or cut it in two",
    ),
    (
        "S12 NameTaken",
        "'{}' is a node; give the vector another name",
    ),
    (
        "S13 TooMany",
        "a vector takes 65,536 nodes, all of them 4,194,304, and a word 16 ranges in one another",
    ),
    (
        "S14 VectorValue",
        "'{}' doesn't fit; write one letter, or one for each node, or a number that they can hold",
    ),
    (
        "S15 TooManySaves",
        "64 other names keep states; save under one of these",
    ),
    (
        "S16 NoSave",
        "nothing is kept under '{}'; put a line 'save {}' before this one",
    ),
    (
        "S17 LateWatch",
        "a dump's words are told at its head; put 'watch' before the first step, phase or cycle",
    ),
    (
        "S18 NameDefined",
        "'{}' is defined, or is a variable by now; give this one another name, or put its 'let' before its uses",
    ),
    (
        "S19 TooManyVariables",
        "there would be more than 4,096 variables; leave fewer bits open, or give some of them letters",
    ),
    (
        "F1 BadFault",
        "the line names no fault; write 'open K', 'closed K', 'zero NAME' or 'one NAME'",
    ),
    (
        "F2 TooLong",
        "the list has more than 67,108,864 bytes; cut it into parts, and run each",
    ),
    (
        "G1 GroupNodes",
        "the group of '{}' has too many nodes; join supplies to rails by '='; 'wide N' in a script allows up to N",
    ),
    (
        "G2 GroupSwitches",
        "the group of '{}' has over 800 switches; join supplies to rails by '='; 'wide N' in a script allows it",
    ),
    (
        "P1 BadCard",
        "'{}' begins no card that is read; put an included text in its place, or remove the line",
    ),
    (
        "P2 FewWords",
        "'{}' needs more words; give a transistor its drain, gate, source, bulk and model",
    ),
    (
        "P3 BadNesting",
        "'{}' has no partner; put a title on line 1, and end each '.subckt' before the next",
    ),
    (
        "P4 Redefined",
        "there is a subcircuit '{}' already; rename this one, or remove it",
    ),
    (
        "P5 NoSubckt",
        "no subcircuit is called '{}'; define it, and write no blanks round '=' on the call",
    ),
    (
        "P6 PortCount",
        "the call hasn't as many nodes as '{}' has ports; count both, and remove a '/' before '{}'",
    ),
    (
        "P7 Recursion",
        "'{}' is called inside itself; take the inner call out",
    ),
    (
        "P8 TooDeep",
        "more than 32 calls would be open; put the cards of '{}' in the place of its call",
    ),
    (
        "P9 TooManyCalls",
        "the deck has more than 1,000,000 calls; simulate a part of it",
    ),
    (
        "P10 BadModel",
        "the model '{}' has no kind; add a card '.model {} nmos' or '.model {} pmos'",
    ),
];

/// The codes whose cure is another one in a symbolic script, each with what it says there.
///
/// `{}` stands for the same words as in `CURES`.
pub const SYMBOLIC_CURES: [(&str, &str); 5] = [
    (
        "S4 BadValue",
        "'{}' doesn't fit; write NAME=0, NAME=1, NAME=X or NAME=FORMULA, a variable as $x, a formula as $x&!$y, or a kind n, e, p or d",
    ),
    (
        "S5 BadNumber",
        "'{}' is no number that fits; write digits, from 1 to 1000000 for limit and cycle, from 2 to 4294967295 for vertices",
    ),
    (
        "S14 VectorValue",
        "'{}' doesn't fit; write one letter, or a letter or a formula for each node, or a number that they can hold",
    ),
    (
        "G1 GroupNodes",
        "the group of '{}' has over 200 nodes; join supplies to rails by '=', or use 'sim', which takes more by 'wide N'",
    ),
    (
        "G2 GroupSwitches",
        "the group of '{}' has over 800 switches; join supplies to rails by '=', or use 'sim', which takes more by 'wide N'",
    ),
];

/// What the first cure with this code says, if there is one; a code is as it is printed, as `S6 NotInput`.
pub fn cure(code: &[u8]) -> Option<&'static str>
    ensures { option_map (λ text. text.now) result ≡ spec.text_of spec.cures code.now }
{
    text_of(all_cures(), code)
}

/// The same for a line of a symbolic script: what its own cure with this code says, or else what the cure for all says.
#[tactic(auto, using(crate::proofs::TopicLemmas::text_first, crate::proofs::TopicLemmas::text_later))]
pub fn symbolic_cure(code: &[u8]) -> Option<&'static str>
    ensures { option_map (λ text. text.now) result ≡ spec.text_of (spec.symbolic_cures ++ spec.cures) code.now }
{
    match text_of(all_symbolic_cures(), code) {
        Some(text) => Some(text),
        None => text_of(all_cures(), code),
    }
}

// All cures.
fn all_cures() -> &'static [(&'static str, &'static str)]
    ensures { spec.entries_of result.now ≡ spec.cures }
{
    &CURES
}

// The cures of a symbolic script's own.
fn all_symbolic_cures() -> &'static [(&'static str, &'static str)]
    ensures { spec.entries_of result.now ≡ spec.symbolic_cures }
{
    &SYMBOLIC_CURES
}
