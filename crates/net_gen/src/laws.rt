//! The limits of this crate, as numbers.

ghost use Rattle.std.specs.Prelude.{◌≡◌};
ghost use Rattle.net_gen.specs.declared.families.TheConstants.{MOST_ROWS};

/// A law: a generated text has up to 10,000 rows.
pub fn limits_are_as_stated()
    ensures { MOST_ROWS ≡ 10000 }
{}
