//! The limits of this crate, as numbers.

ghost use Rattle.std.specs.Prelude.{◌≡◌, ◌^◌};
ghost use Rattle.straight_code.specs.declared.flat.TheConstants.{MOST};

/// A law: code has up to 2^30 inputs, and up to 2^30 instructions.
pub fn limits_are_as_stated()
    ensures { MOST ≡ 2 ^ 30 }
{}
