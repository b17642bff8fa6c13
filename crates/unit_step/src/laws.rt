//! The limits of this crate, as numbers.

ghost use Rattle.std.specs.Prelude.{◌≡◌};
ghost use Rattle.unit_step.specs.declared.editing.TheConstants.{NEW_NODES};

/// A law: an edit makes up to 3 new nodes.
pub fn limits_are_as_stated()
    ensures { NEW_NODES ≡ 3 }
{}
