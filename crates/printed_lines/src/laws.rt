//! The limits of this crate, as numbers.

ghost use Rattle.std.specs.Prelude.{◌≡◌};
ghost use Rattle.printed_lines.specs.declared.lines.TheConstants.{MOST_VALUES};

/// A law: a waveform line has up to 256 values.
pub fn limits_are_as_stated()
    ensures { MOST_VALUES ≡ 256 }
{}
