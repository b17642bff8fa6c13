//! The limits of this crate, as numbers.

ghost use Rattle.std.specs.Prelude.{◌≡◌};
ghost use Rattle.dual_rail.specs.declared.rails.TheConstants.{TOO_MANY_NODES};

/// A law: local nodes below 2^31 have variables.
pub fn limits_are_as_stated()
    ensures { TOO_MANY_NODES ≡ 2147483648 }
{}
