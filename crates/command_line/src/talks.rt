//! The words that ask for a talk, or for a dump.

ghost use Rattle.std.specs.Prelude.{◌≡◌};
ghost use Rattle.std.specs.Option.{option_map};
ghost use Rattle.command_line.specs.Requests.{names_of};
ghost use Rattle.command_line.specs.Talks as spec;

/// The name of the netlist, or the deck, of which the words ask for a talk: `talk NET`. NET is a deck if its name is
/// that of one.
pub fn talk_net(words: &[String]) -> Option<&str>
    ensures { option_map (λ net. net.now) result ≡ spec.talk_net (names_of words.now) }
{
    if let [command, net] = words {
        if command.as_str() == "talk" {
            return Some(net);
        }
    }
    None
}

/// The names of the netlist, or the deck, and of the script for whose run the words ask for a dump: `vcd NET SCRIPT`. NET
/// is a deck if its name is that of one.
pub fn dump_names(words: &[String]) -> Option<(&str, &str)>
    ensures { option_map (λ names. (names.0.now, names.1.now)) result ≡ spec.dump_names (names_of words.now) }
{
    if let [command, net, script] = words {
        if command.as_str() == "vcd" {
            return Some((net, script));
        }
    }
    None
}
