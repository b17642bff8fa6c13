//! The texts that an analyst was given, for contracts alone.
ghost use Rattle.std.specs.Prelude.{◌≡◌, List, [], ◌∷◌, ◌++◌};
ghost use Rattle.std.specs.Coded.{coded_list};
ghost use base.Fml.{ftrue};
ghost use Rattle.group_text.specs.Texts.{GroupTextData};
ghost use Rattle.group_text.specs.contracts.text.GroupText.{the_row};

use group_text::GroupText;
use std::marker::Model;

/// The texts that an analyst was given, in order.
///
/// Only contracts see the list. When the program runs there is none: a value takes no bytes, and what is
/// called on it does nothing.
#[derive(Drop)]
pub(crate) struct GivenTexts {
    ghost texts: { List GroupTextData } by { coded_list the_row.coded },
}

impl Model for GivenTexts {
    ghost also_owns = { λ _. ftrue };
}

impl GivenTexts {
    /// No text.
    pub(crate) fn new() -> GivenTexts
        ensures { result.texts ≡ [] }
    {
        GivenTexts {}
    }

    /// These texts, and then this one.
    pub(crate) fn with(&self, text: &GroupText) -> GivenTexts
        ensures { result.texts ≡ self.now.texts ++ text.now ∷ [] }
    {
        GivenTexts {}
    }
}
