//! How a text is found by its name.

ghost use Rattle.std.specs.Prelude.{◌≡◌, option_map};
ghost use Rattle.help_texts.specs.Texts as spec;

/// The text of the first entry with this name, if there is one.
pub(crate) fn text_of(table: &[(&'static str, &'static str)], name: &[u8]) -> Option<&'static str>
    ensures { option_map (λ text. text.now) result ≡ spec.text_of (spec.entries_of table.now) name.now }
{
    for entry in table {
        if entry.0.as_bytes() == name {
            return Some(entry.1);
        }
    }
    None
}
