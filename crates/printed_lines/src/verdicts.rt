//! The lines of a list of faults.
ghost use Rattle.std.specs.Prelude.{◌≡◌, ◌+◌, ◌≤◌, ◌++◌, length, codes, decimal};
ghost use Rattle.printed_lines.specs.Verdicts.{detected_line_of, faults_line_of, possible_line_of, refused_line_of, undetected_line_of};

use crate::line_buf::LineBuf;
use crate::lines::{append_count, append_number};

/// Room for any verdict's line, beyond that for its name.
pub const VERDICT_LINE_ROOM: usize = 60;

/// Room for any line that counts verdicts.
pub const FAULTS_LINE_ROOM: usize = 160;

/// Appends `fault <line> detected <row> <name>` and LF: the fault of this line of the list differs
/// for certain, first in this waveform line at the node of this name.
pub fn detected_line(out: &mut LineBuf, line: u64, row: u64, name: &[u8])
    requires room { VERDICT_LINE_ROOM + length name.now ≤ out.old.spare }
    ensures bytes { out.new.bytes ≡ out.old.bytes ++ detected_line_of line row name.now }
    ensures spare { out.new.spare + length (detected_line_of line row name.now) ≡ out.old.spare }
    ensures short { length (detected_line_of line row name.now) ≤ VERDICT_LINE_ROOM + length name.now }
{
    append_fault(out, line, b" detected ");
    append_number(out, row);
    out.append(b" ");
    out.append(name);
    out.append(b"\n");
}

/// Appends `fault <line> possible <row> <name>` and LF: the fault of this line of the list may
/// differ, first in this waveform line at the node of this name.
pub fn possible_line(out: &mut LineBuf, line: u64, row: u64, name: &[u8])
    requires room { VERDICT_LINE_ROOM + length name.now ≤ out.old.spare }
    ensures bytes { out.new.bytes ≡ out.old.bytes ++ possible_line_of line row name.now }
    ensures spare { out.new.spare + length (possible_line_of line row name.now) ≡ out.old.spare }
    ensures short { length (possible_line_of line row name.now) ≤ VERDICT_LINE_ROOM + length name.now }
{
    append_fault(out, line, b" possible ");
    append_number(out, row);
    out.append(b" ");
    out.append(name);
    out.append(b"\n");
}

/// Appends `fault <line> refused <at>` and LF: under the fault of this line of the list, this line
/// of the script is refused.
pub fn refused_line(out: &mut LineBuf, line: u64, at: u64)
    requires room { VERDICT_LINE_ROOM ≤ out.old.spare }
    ensures bytes { out.new.bytes ≡ out.old.bytes ++ refused_line_of line at }
    ensures spare { out.new.spare + length (refused_line_of line at) ≡ out.old.spare }
    ensures short { length (refused_line_of line at) ≤ VERDICT_LINE_ROOM }
{
    append_fault(out, line, b" refused ");
    append_number(out, at);
    out.append(b"\n");
}

/// Appends `fault <line> undetected` and LF: the fault of this line of the list shows nowhere.
pub fn undetected_line(out: &mut LineBuf, line: u64)
    requires room { VERDICT_LINE_ROOM ≤ out.old.spare }
    ensures bytes { out.new.bytes ≡ out.old.bytes ++ undetected_line_of line }
    ensures spare { out.new.spare + length (undetected_line_of line) ≡ out.old.spare }
    ensures short { length (undetected_line_of line) ≤ VERDICT_LINE_ROOM }
{
    append_fault(out, line, b" undetected\n");
}

/// Appends the last line of a list of faults, `faults <faults> detected <detected> possible
/// <possible> undetected <undetected> refused <refused>` and LF.
pub fn faults_line(
    out: &mut LineBuf,
    faults: u64,
    detected: u64,
    possible: u64,
    undetected: u64,
    refused: u64,
)
    requires room { FAULTS_LINE_ROOM ≤ out.old.spare }
    ensures bytes { out.new.bytes
        ≡ out.old.bytes ++ faults_line_of faults detected possible undetected refused }
    ensures spare { out.new.spare + length (faults_line_of faults detected possible undetected refused)
        ≡ out.old.spare }
    ensures short { length (faults_line_of faults detected possible undetected refused) ≤ FAULTS_LINE_ROOM }
{
    append_count(out, b"faults ", faults);
    append_count(out, b" detected ", detected);
    append_count(out, b" possible ", possible);
    append_count(out, b" undetected ", undetected);
    append_count(out, b" refused ", refused);
    out.append(b"\n");
}

// Appends `fault`, the number of a line of the list, and a text behind it.
fn append_fault(out: &mut LineBuf, line: u64, text: &[u8])
    requires room { 26 + length text.now ≤ out.old.spare }
    ensures bytes { out.new.bytes ≡ out.old.bytes ++ codes "fault " ++ decimal line ++ text.now }
    ensures spare { out.new.spare + 6 + length (decimal line) + length text.now ≡ out.old.spare }
    ensures short { length (decimal line) ≤ 20 }
{
    append_count(out, b"fault ", line);
    out.append(text);
}
