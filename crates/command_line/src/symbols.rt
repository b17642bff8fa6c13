//! The words that ask for a run under all valuations, or for a comparison of two circuits.

ghost use Rattle.std.specs.Prelude.{◌≡◌};
ghost use Rattle.std.specs.Option.{option_map};
ghost use Rattle.command_line.specs.Requests.{names_of};
ghost use Rattle.command_line.specs.Symbols as spec;

/// The names of the netlist, or the deck, and of the script for whose run under all valuations of its variables the words ask:
/// `symbolic NET SCRIPT`. NET is a deck if its name is that of one.
pub fn symbolic_names(words: &[String]) -> Option<(&str, &str)>
    ensures { option_map (λ names. (names.0.now, names.1.now)) result ≡ spec.symbolic_names (names_of words.now) }
{
    if let [command, net, script] = words {
        if command.as_str() == "symbolic" {
            return Some((net, script));
        }
    }
    None
}

/// The names of the two netlists, or decks, and of the script by which the words ask to compare them: `equiv NET1 NET2
/// SCRIPT`. Each of NET1 and NET2 is a deck if its name is that of one.
pub fn equiv_names(words: &[String]) -> Option<(&str, &str, &str)>
    ensures { option_map (λ names. (names.0.now, names.1.now, names.2.now)) result ≡ spec.equiv_names (names_of words.now) }
{
    if let [command, one, other, script] = words {
        if command.as_str() == "equiv" {
            return Some((one, other, script));
        }
    }
    None
}
