//! A column's waveform line in a row of all columns.

ghost use Rattle.std.specs.Prelude.{◌≡◌, ◌<◌, ◌≤◌, ◌+◌, ◌*◌, length};
ghost use Rattle.printed_lines.specs.declared.lines.TheConstants.{COLUMN_ROOM, MOST_VALUES, WAVE_LINE_ROOM};
ghost use Rattle.told_lines.specs.Lines.{IsShort, room_of, line_seen};
ghost use Rattle.told_lines.specs.Rows as spec;

use crate::lines::Line;
use settling::Settled;
use ternary::Tern;

/// The waveform line of a column, of so many values each.
pub(crate) fn wave_at<'a>(
    n: u64,
    counts: &[Settled],
    width: usize,
    values: &'a [Tern],
    column: usize,
) -> Line<'a>
    requires column { column < length counts.now }
    requires values { length values.now ≡ length counts.now * width }
    requires width { width ≤ MOST_VALUES }
    ensures line { line_seen result ≡ spec.wave_at n counts.now width values.now column }
    ensures room { room_of (line_seen result) ≡ COLUMN_ROOM + WAVE_LINE_ROOM }
    ensures short { IsShort (line_seen result) }
{
    let Settled { steps, joined } = counts[column];
    let start = column * width;
    Line::Wave {
        n,
        k: steps,
        mark: joined,
        values: &values[start..start + width],
    }
}
