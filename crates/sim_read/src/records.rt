ghost use Rattle.std.specs.Prelude.{◌≡◌};
ghost use Rattle.sim_read.specs.Records as spec;

use switch_paths::SwitchKind;

/// What a line of a netlist is, by its first word.
#[derive(Clone, Copy, PartialEq, Eq)]
pub(crate) enum Record {
    /// `n`, `e`, `p`, `d`: a transistor.
    Transistor(SwitchKind),
    /// `=`: two names of one node.
    Alias,
    /// `A`: attributes of a node.
    Attributes,
    /// `C`: a capacitance between two nodes, passed unread in profile 1.
    Capacitance,
    /// `c`, `R`, `r`, `N`: passed unread.
    Passed,
}

/// The record that a first word begins.
pub(crate) fn record_named(word: &[u8]) -> Option<Record>
    ensures { result ≡ spec.record_of word.now }
{
    match word {
        b"n" | b"e" => Some(Record::Transistor(SwitchKind::NChan)),
        b"p" => Some(Record::Transistor(SwitchKind::PChan)),
        b"d" => Some(Record::Transistor(SwitchKind::Always)),
        b"=" => Some(Record::Alias),
        b"A" => Some(Record::Attributes),
        b"C" => Some(Record::Capacitance),
        b"c" | b"R" | b"r" | b"N" => Some(Record::Passed),
        _ => None,
    }
}
