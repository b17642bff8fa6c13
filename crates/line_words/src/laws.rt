//! The limits of this crate, as numbers.

ghost use Rattle.std.specs.Prelude.{◌≡◌};
ghost use Rattle.line_words.specs.declared.files.TheConstants.{MOST_FILE_BYTES};
ghost use Rattle.line_words.specs.declared.line_check.TheConstants.{LONGEST_LINE};
ghost use Rattle.line_words.specs.declared.points.TheConstants.{MOST_THOUSANDTHS};

/// A law: a file is read to 67,108,864 bytes, a line has up to 65,536 bytes, and a number with a point counts up to
/// 1,000,000,000, in thousandths.
pub fn limits_are_as_stated()
    ensures file { MOST_FILE_BYTES ≡ 67108864 }
    ensures line { LONGEST_LINE ≡ 65536 }
    ensures thousandths { MOST_THOUSANDTHS ≡ 1000000000000 }
{}
