//! The text of a line, in room that is there.

ghost use Rattle.std.specs.Prelude.{◌≡◌, ◌<◌, ◌≤◌, ◌+◌, ◌*◌, ◌^◌, ◌++◌, length};
ghost use Rattle.printed_lines.specs.declared.lines.TheConstants.{COLUMN_ROOM, MOST_VALUES, WAVE_LINE_ROOM};
ghost use Rattle.told_lines.specs.Lines.{IsShort, room_of, line_seen, line_text};
ghost use Rattle.told_lines.specs.Printing.{printed, start_of, text_printed};
ghost use Rattle.told_lines.specs.Rows.{wave_row};

use crate::lines::Line;
use crate::rows::wave_at;
use printed_lines::{
    COLUMN_ROOM, LineBuf, column_start, end_line, expect_line, fault_line, gate_line, look_line,
    report_line, show_line, wave_line,
};
use settling::Settled;
use ternary::Tern;

/// Puts the line of a column, with the column's number before it or without.
pub fn put_told(out: &mut LineBuf, numbered: bool, column: u32, line: Line)
    requires room { room_of (line_seen line) ≤ out.old.spare }
    requires short { IsShort (line_seen line) }
    ensures bytes { out.new.bytes ≡ out.old.bytes ++ printed numbered (record { column = column; line = line_seen line.entry }) }
    ensures spare { out.new.spare + length (printed numbered (record { column = column; line = line_seen line.entry })) ≡ out.old.spare }
    ensures short { length (printed numbered (record { column = column; line = line_seen line.entry })) ≤ room_of (line_seen line.entry) }
{
    if numbered {
        put_start(out, column, line);
    }
    put_line(out, line);
}

/// Puts the waveform lines of all columns, in order.
pub(crate) fn put_row(
    out: &mut LineBuf,
    numbered: bool,
    n: u64,
    counts: &[Settled],
    width: usize,
    values: &[Tern],
)
    requires columns { length counts.now < 2 ^ 32 }
    requires values { length values.now ≡ length counts.now * width }
    requires width { width ≤ MOST_VALUES }
    requires room { length counts.now * (COLUMN_ROOM + WAVE_LINE_ROOM) ≤ out.old.spare }
    ensures bytes { out.new.bytes ≡ out.old.bytes ++ text_printed numbered (wave_row n counts.now width values.now) }
    ensures spare { out.new.spare + length (text_printed numbered (wave_row n counts.now width values.now)) ≡ out.old.spare }
{
    for column in 0..counts.len() {
        let line = wave_at(n, counts, width, values, column);
        put_told(out, numbered, column as u32, line);
    }
}

// Puts what stands before a column's line.
fn put_start(out: &mut LineBuf, column: u32, line: Line)
    requires room { COLUMN_ROOM ≤ out.old.spare }
    ensures bytes { out.new.bytes ≡ out.old.bytes ++ start_of column (line_seen line.entry) }
    ensures spare { out.new.spare + length (start_of column (line_seen line.entry)) ≡ out.old.spare }
    ensures short { length (start_of column (line_seen line.entry)) ≤ COLUMN_ROOM }
{
    match line {
        Line::Wave { .. } | Line::Unmet { .. } | Line::Shown { .. } | Line::Reported { .. } => {
            column_start(out, u64::from(column) + 1)
        }
        Line::Looked { .. } | Line::AtEnd { .. } | Line::AtGate { .. } => {
            column_start(out, u64::from(column) + 1)
        }
        Line::Refused { .. } => {}
    }
}

// Puts the text of a line.
fn put_line(out: &mut LineBuf, line: Line)
    requires room { room_of (line_seen line) ≤ out.old.spare + COLUMN_ROOM }
    requires short { IsShort (line_seen line) }
    ensures bytes { out.new.bytes ≡ out.old.bytes ++ line_text (line_seen line.entry) }
    ensures spare { out.new.spare + length (line_text (line_seen line.entry)) ≡ out.old.spare }
    ensures short { length (line_text (line_seen line.entry)) + COLUMN_ROOM ≤ room_of (line_seen line.entry) }
{
    match line {
        Line::Wave { n, k, mark, values } => wave_line(out, n, k, mark, values),
        Line::Unmet { name, want, got, n } => expect_line(out, name, want, got, n),
        Line::Shown { name, values } => show_line(out, name, values),
        Line::Looked { name, state, sort } => look_line(out, name, state, sort),
        Line::AtEnd {
            switch,
            gate,
            gate_state,
            end,
            end_state,
        } => end_line(out, switch, gate, gate_state, end, end_state),
        Line::AtGate {
            switch,
            source,
            source_state,
            drain,
            drain_state,
        } => gate_line(out, switch, source, source_state, drain, drain_state),
        Line::Reported {
            groups,
            texts,
            fresh,
        } => report_line(out, groups, texts, fresh),
        Line::Refused {
            place,
            code,
            name,
            count,
        } => fault_line(out, place, code, name, count),
    }
}
