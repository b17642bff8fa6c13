//! A text, for contracts alone.
ghost use Rattle.std.specs.Prelude.{◌≡◌, ℕ, List, [], ◌++◌};
ghost use Rattle.std.specs.Coded.{coded_list, coded_ℕ};
ghost use base.Fml.{ftrue};

use std::marker::Model;

/// A text that only contracts see.
#[derive(Drop)]
pub struct UnseenText {
    pub ghost text: { List ℕ } by { coded_list coded_ℕ },
}

impl Model for UnseenText {
    ghost also_owns = { λ _. ftrue };
}

impl UnseenText {
    /// This text.
    pub fn of(text: &[u8]) -> UnseenText
        ensures { result.text ≡ text.now }
    {
        let none = UnseenText::new();
        none.with(text)
    }

    /// No text.
    pub fn new() -> UnseenText
        ensures { result.text ≡ [] }
    {
        UnseenText {}
    }

    /// This text, and then these bytes.
    pub fn with(&self, bytes: &[u8]) -> UnseenText
        ensures { result.text ≡ self.now.text ++ bytes.now }
    {
        UnseenText {}
    }
}
