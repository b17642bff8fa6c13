//! The word that tells how many columns a run has.

ghost use Rattle.std.specs.Prelude.{◌≡◌};
ghost use Rattle.std.specs.Option.{option_map};
ghost use Rattle.command_line.specs.Columns as spec;

use crate::column_count::ColumnCount;
use line_words::decimal;

/// The number of columns that a word writes, from 1 to 64; none if it writes no such number.
pub fn columns_of(word: &str) -> Option<ColumnCount>
    ensures { option_map spec.columns_seen result ≡ spec.columns_of word.now }
{
    let count = decimal(word.as_bytes())?;
    if 1 <= count && count <= 64 {
        Some(ColumnCount {
            count: count as u32,
        })
    } else {
        None
    }
}
