ghost use Rattle.std.specs.Prelude.{◌≡◌, ◌+◌, ◌≤◌, ◌++◌, length, map, codes, decimal};
ghost use Rattle.ternary.specs.Tern.{letter};
ghost use Rattle.printed_lines.specs.Lines.{mark_of, values_of, wave_line_of, report_line_of, expect_line_of, show_line_of, column_start_of, check_line_of, text_number_of, group_start_of, circuit_of, waves_of, states_of, summary_line_of, wanted_letter};

use crate::line_buf::LineBuf;
use itoa::Buffer;
use ternary::Tern;

/// What a whole run comes to: its circuit's nodes and transistors, and what its waveform lines tell
/// together. A count that is at the last value of its type may stand for more.
#[derive(Clone, Copy, PartialEq, Eq)]
pub struct Summary {
    /// How many nodes the circuit has.
    pub nodes: u64,
    /// How many transistors it has.
    pub switches: u64,
    /// How many waveform lines there are.
    pub lines: u64,
    /// How many steps changed something, in all lines together.
    pub steps: u64,
    /// How many lines have the mark.
    pub marks: u64,
    /// How many values are 0.
    pub zeros: u64,
    /// How many are 1.
    pub ones: u64,
    /// How many are X.
    pub unknown: u64,
}

/// The most values of one waveform line.
pub const MOST_VALUES: usize = 256;

/// Room for any waveform line of at most `MOST_VALUES` values: two numbers, the mark and the values.
pub const WAVE_LINE_ROOM: usize = 300;

/// Room for any report line.
pub const REPORT_LINE_ROOM: usize = 300;

/// Room for any expect line, beyond that for its name and its states.
pub const EXPECT_LINE_ROOM: usize = 60;

/// Room for any show line, beyond that for its name and its states.
pub const SHOW_LINE_ROOM: usize = 60;

/// Room for the start of any column's line.
pub const COLUMN_ROOM: usize = 21;

/// Room for any check line.
pub const CHECK_LINE_ROOM: usize = 300;

/// Room for the start of any group line.
pub const GROUP_START_ROOM: usize = 300;

/// Room for any summary line.
pub const SUMMARY_LINE_ROOM: usize = 300;

/// Room for any number.
pub const NUMBER_ROOM: usize = 20;

/// Appends the summary line `large nodes <nodes> switches <switches> lines <lines> steps <steps> marks
/// <marks> zeros <zeros> ones <ones> unknown <unknown>` and LF.
pub fn summary_line(out: &mut LineBuf, summary: Summary)
    requires room { SUMMARY_LINE_ROOM ≤ out.old.spare }
    ensures bytes { out.new.bytes ≡ out.old.bytes ++ summary_line_of summary }
    ensures spare { out.new.spare + length (summary_line_of summary) ≡ out.old.spare }
    ensures short { length (summary_line_of summary) ≤ SUMMARY_LINE_ROOM }
{
    out.append(b"large");
    append_circuit(out, summary.nodes, summary.switches);
    append_waves(out, summary);
    out.append(b"\n");
}

/// Appends the waveform line `<n> <k><mark> <values>` and LF.
///
/// `n` is the line's number, `k` the number of steps that changed something. The mark `*` says that
/// a joining step changed something. The values are one letter for each state, and `-` where there
/// is none.
pub fn wave_line(out: &mut LineBuf, n: u64, k: u64, mark: bool, values: &[Tern])
    requires count { length values.now ≤ MOST_VALUES }
    requires room { WAVE_LINE_ROOM ≤ out.old.spare }
    ensures bytes { out.new.bytes ≡ out.old.bytes ++ wave_line_of n k mark values.now }
    ensures spare { out.new.spare + length (wave_line_of n k mark values.now) ≡ out.old.spare }
    ensures short { length (wave_line_of n k mark values.now) ≤ WAVE_LINE_ROOM }
{
    append_number(out, n);
    out.append(b" ");
    append_number(out, k);
    append_mark(out, mark);
    out.append(b" ");
    append_values(out, values);
    out.append(b"\n");
}

/// Appends the line of an `expect` that wasn't met, `expect <name>=<want> got <got> after <n>` and
/// LF.
///
/// `want` is the wanted states, None for any state, and `got` the present ones; `n` is the number of
/// waveform lines so far.
pub fn expect_line(out: &mut LineBuf, name: &[u8], want: &[Option<Tern>], got: &[Tern], n: u64)
    requires room { EXPECT_LINE_ROOM + (length name.now + (length want.now + length got.now)) ≤ out.old.spare }
    ensures bytes { out.new.bytes ≡ out.old.bytes ++ expect_line_of name.now want.now got.now n }
    ensures spare { out.new.spare + length (expect_line_of name.now want.now got.now n) ≡ out.old.spare }
    ensures short { length (expect_line_of name.now want.now got.now n)
        ≤ EXPECT_LINE_ROOM + (length name.now + (length want.now + length got.now)) }
{
    out.append(b"expect ");
    out.append(name);
    out.append(b"=");
    append_wanted(out, want);
    out.append(b" got ");
    append_letters(out, got);
    append_count(out, b" after ", n);
    out.append(b"\n");
}

/// Appends the line of a `show`, `show <name> <values>` and LF: one letter for each state, and `-` where there
/// is none.
pub fn show_line(out: &mut LineBuf, name: &[u8], values: &[Tern])
    requires room { SHOW_LINE_ROOM + (length name.now + length values.now) ≤ out.old.spare }
    ensures bytes { out.new.bytes ≡ out.old.bytes ++ show_line_of name.now values.now }
    ensures spare { out.new.spare + length (show_line_of name.now values.now) ≡ out.old.spare }
    ensures short { length (show_line_of name.now values.now) ≤ SHOW_LINE_ROOM + (length name.now + length values.now) }
{
    out.append(b"show ");
    out.append(name);
    out.append(b" ");
    append_values(out, values);
    out.append(b"\n");
}

/// Appends the start of a column's line, the column's number and a blank.
pub fn column_start(out: &mut LineBuf, number: u64)
    requires room { COLUMN_ROOM ≤ out.old.spare }
    ensures bytes { out.new.bytes ≡ out.old.bytes ++ column_start_of number }
    ensures spare { out.new.spare + length (column_start_of number) ≡ out.old.spare }
    ensures short { length (column_start_of number) ≤ COLUMN_ROOM }
{
    append_number(out, number);
    out.append(b" ");
}

/// Appends the check line `ok nodes <nodes> switches <switches> names <names>` and LF.
pub fn check_line(out: &mut LineBuf, nodes: u64, switches: u64, names: u64)
    requires room { CHECK_LINE_ROOM ≤ out.old.spare }
    ensures bytes { out.new.bytes ≡ out.old.bytes ++ check_line_of nodes switches names }
    ensures spare { out.new.spare + length (check_line_of nodes switches names) ≡ out.old.spare }
    ensures short { length (check_line_of nodes switches names) ≤ CHECK_LINE_ROOM }
{
    out.append(b"ok");
    append_circuit(out, nodes, switches);
    append_count(out, b" names ", names);
    out.append(b"\n");
}

/// Appends the start of a group line, `group <number> nodes <nodes> switches <switches> text
/// <text>:`, with `-` for the text of a group that is too large to have one.
///
/// The names of the members follow, each by `group_name`, and the line's end by `line_end`.
pub fn group_start(out: &mut LineBuf, number: u64, nodes: u64, switches: u64, text: Option<u64>)
    requires room { GROUP_START_ROOM ≤ out.old.spare }
    ensures bytes { out.new.bytes ≡ out.old.bytes ++ group_start_of number nodes switches text }
    ensures spare { out.new.spare + length (group_start_of number nodes switches text) ≡ out.old.spare }
    ensures short { length (group_start_of number nodes switches text) ≤ GROUP_START_ROOM }
{
    append_count(out, b"group ", number);
    append_circuit(out, nodes, switches);
    out.append(b" text ");
    append_text_number(out, text);
    out.append(b":");
}

/// Appends a blank and the name of a member to a group line.
pub fn group_name(out: &mut LineBuf, name: &[u8])
    requires room { 1 + length name.now ≤ out.old.spare }
    ensures bytes { out.new.bytes ≡ out.old.bytes ++ codes " " ++ name.now }
    ensures spare { out.new.spare + (1 + length name.now) ≡ out.old.spare }
{
    out.append(b" ");
    out.append(name);
}

/// Appends the report line `groups <groups> texts <texts> new <new>` and LF.
pub fn report_line(out: &mut LineBuf, groups: u64, texts: u64, new: u64)
    requires room { REPORT_LINE_ROOM ≤ out.old.spare }
    ensures bytes { out.new.bytes ≡ out.old.bytes ++ report_line_of groups texts new }
    ensures spare { out.new.spare + length (report_line_of groups texts new) ≡ out.old.spare }
    ensures short { length (report_line_of groups texts new) ≤ REPORT_LINE_ROOM }
{
    append_count(out, b"groups ", groups);
    append_count(out, b" texts ", texts);
    append_count(out, b" new ", new);
    out.append(b"\n");
}

/// Appends LF, which ends a line.
pub fn line_end(out: &mut LineBuf)
    requires room { 1 ≤ out.old.spare }
    ensures bytes { out.new.bytes ≡ out.old.bytes ++ codes "\n" }
    ensures spare { out.new.spare + 1 ≡ out.old.spare }
{
    out.append(b"\n");
}

// Appends how many nodes and transistors there are, ` nodes <nodes> switches <switches>`.
fn append_circuit(out: &mut LineBuf, nodes: u64, switches: u64)
    requires room { 60 ≤ out.old.spare }
    ensures bytes { out.new.bytes ≡ out.old.bytes ++ circuit_of nodes switches }
    ensures spare { out.new.spare + length (circuit_of nodes switches) ≡ out.old.spare }
    ensures short { length (circuit_of nodes switches) ≤ 60 }
{
    append_count(out, b" nodes ", nodes);
    append_count(out, b" switches ", switches);
}

// Appends what a summary tells of the waveform lines and their values.
fn append_waves(out: &mut LineBuf, summary: Summary)
    requires room { 180 ≤ out.old.spare }
    ensures bytes { out.new.bytes ≡ out.old.bytes ++ waves_of summary }
    ensures spare { out.new.spare + length (waves_of summary) ≡ out.old.spare }
    ensures short { length (waves_of summary) ≤ 180 }
{
    append_count(out, b" lines ", summary.lines);
    append_count(out, b" steps ", summary.steps);
    append_count(out, b" marks ", summary.marks);
    append_states(out, summary.zeros, summary.ones, summary.unknown);
}

// Appends how many values have each state, ` zeros <zeros> ones <ones> unknown <unknown>`.
fn append_states(out: &mut LineBuf, zeros: u64, ones: u64, unknown: u64)
    requires room { 90 ≤ out.old.spare }
    ensures bytes { out.new.bytes ≡ out.old.bytes ++ states_of zeros ones unknown }
    ensures spare { out.new.spare + length (states_of zeros ones unknown) ≡ out.old.spare }
    ensures short { length (states_of zeros ones unknown) ≤ 90 }
{
    append_count(out, b" zeros ", zeros);
    append_count(out, b" ones ", ones);
    append_count(out, b" unknown ", unknown);
}

// Appends the number of a group's text, or `-`.
fn append_text_number(out: &mut LineBuf, text: Option<u64>)
    requires room { NUMBER_ROOM ≤ out.old.spare }
    ensures bytes { out.new.bytes ≡ out.old.bytes ++ text_number_of text }
    ensures spare { out.new.spare + length (text_number_of text) ≡ out.old.spare }
    ensures short { length (text_number_of text) ≤ NUMBER_ROOM }
{
    match text {
        Some(number) => append_number(out, number),
        None => out.append(b"-"),
    }
}

/// Appends a text and a number behind it.
pub(crate) fn append_count(out: &mut LineBuf, text: &[u8], n: u64)
    requires room { length text.now + NUMBER_ROOM ≤ out.old.spare }
    ensures bytes { out.new.bytes ≡ out.old.bytes ++ text.now ++ decimal n }
    ensures spare { out.new.spare + length text.now + length (decimal n) ≡ out.old.spare }
    ensures short { length (decimal n) ≤ NUMBER_ROOM }
{
    out.append(text);
    append_number(out, n);
}

/// Appends a number as a decimal without leading zeros.
pub fn append_number(out: &mut LineBuf, n: u64)
    requires room { NUMBER_ROOM ≤ out.old.spare }
    ensures bytes { out.new.bytes ≡ out.old.bytes ++ decimal n }
    ensures spare { out.new.spare + length (decimal n) ≡ out.old.spare }
    ensures short { length (decimal n) ≤ NUMBER_ROOM }
{
    let mut buffer = Buffer::new();
    out.append(buffer.format(n).as_bytes());
}

// Appends the mark of a phase, or nothing.
fn append_mark(out: &mut LineBuf, mark: bool)
    requires room { 1 ≤ out.old.spare }
    ensures bytes { out.new.bytes ≡ out.old.bytes ++ mark_of mark }
    ensures spare { out.new.spare + length (mark_of mark) ≡ out.old.spare }
    ensures short { length (mark_of mark) ≤ 1 }
{
    if mark {
        out.append(b"*");
    }
}

// Appends one letter for each state, or `-`.
fn append_values(out: &mut LineBuf, values: &[Tern])
    requires room { 1 + length values.now ≤ out.old.spare }
    ensures bytes { out.new.bytes ≡ out.old.bytes ++ values_of values.now }
    ensures spare { out.new.spare + length (values_of values.now) ≡ out.old.spare }
    ensures short { length (values_of values.now) ≤ 1 + length values.now }
{
    if values.is_empty() {
        out.append(b"-");
    } else {
        append_letters(out, values);
    }
}

// Appends one letter for each wanted state.
fn append_wanted(out: &mut LineBuf, want: &[Option<Tern>])
    requires room { length want.now ≤ out.old.spare }
    ensures bytes { out.new.bytes ≡ out.old.bytes ++ map wanted_letter want.now }
    ensures spare { out.new.spare + length want.now ≡ out.old.spare }
{
    for value in want {
        out.push(letter_wanted(*value));
    }
}

// The letter of a wanted state, `-` for any state.
fn letter_wanted(state: Option<Tern>) -> u8
    ensures { result ≡ wanted_letter state }
{
    match state {
        Some(state) => state.letter(),
        None => b'-',
    }
}

// Appends one letter for each state.
fn append_letters(out: &mut LineBuf, values: &[Tern])
    requires room { length values.now ≤ out.old.spare }
    ensures bytes { out.new.bytes ≡ out.old.bytes ++ map letter values.now }
    ensures spare { out.new.spare + length values.now ≡ out.old.spare }
{
    for value in values {
        out.push(value.letter());
    }
}
