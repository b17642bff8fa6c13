//! The limits of this crate, as numbers.

ghost use Rattle.std.specs.Prelude.{◌≡◌};
ghost use Rattle.spice_cards.specs.declared.cards.TheConstants.{TRANSISTOR_WORDS};

/// A law: a transistor's card has at least 6 words, its name among them.
pub fn limits_are_as_stated()
    ensures { TRANSISTOR_WORDS ≡ 6 }
{}
