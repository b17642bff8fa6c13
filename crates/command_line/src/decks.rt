//! Which files are read as decks, by their names.

ghost use Rattle.std.specs.Prelude.{◌≡◌};
ghost use Rattle.command_line.specs.Decks as spec;

/// Whether a name is that of a SPICE deck, in requests that take a netlist or a deck: it ends in `.sp`, `.spi`,
/// `.spice`, `.cir` or `.ckt`, in these letters.
pub fn is_deck_name(name: &str) -> bool
    ensures { result ≡ spec.is_deck_name name.now }
{
    let name = name.as_bytes();
    name.ends_with(b".sp")
        || name.ends_with(b".spi")
        || name.ends_with(b".spice")
        || name.ends_with(b".cir")
        || name.ends_with(b".ckt")
}
