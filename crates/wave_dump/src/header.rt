//! The header of a dump.
ghost use Rattle.std.specs.Prelude.{◌≡◌, ◌++◌, All, length};
ghost use Rattle.wave_dump.specs.Dumps.{header, entry_lines};
ghost use Rattle.wave_dump.specs.Entries.{IsInside, entries_of, shown_of};
ghost use Rattle.wave_dump.specs.Values.{value_lines, values_in};

use crate::entries::Entry;
use crate::pen::Pen;
use crate::putting::{write_entry, write_value};
use ports::Sink;
use ternary::Tern;

// Takes the values of all entries in this state.
pub(crate) fn refresh_all(entries: &mut [Entry], states: &[Tern])
    requires { All (IsInside (length states.now)) (entries_of entries.old) }
    ensures entries { entries_of entries.new ≡ entries_of entries.old }
    ensures shown { shown_of entries.new ≡ values_in states.now (entries_of entries.old) }
{
    for number in 0..entries.len() {
        entries[number].refresh(states);
    }
}

// Writes the header with these entries, and their values at the time 0.
pub(crate) fn write_header<S: Sink + Drop>(pen: &mut Pen<S>, entries: &[Entry])
    ensures text { pen.new.text ≡ pen.old.text ++ header (entries_of entries.now) (shown_of entries.now) }
    ensures before { pen.new.before ≡ pen.old.before }
{
    pen.put(b"$version Cosmos $end\n$timescale 1 ns $end\n$scope module net $end\n");
    write_entries(pen, entries);
    pen.put(b"$upscope $end\n$enddefinitions $end\n#0\n$dumpvars\n");
    write_values(pen, entries);
    pen.put(b"$end\n");
    pen.send_line();
}

// Writes the lines of the entries.
fn write_entries<S: Sink + Drop>(pen: &mut Pen<S>, entries: &[Entry])
    ensures text { pen.new.text ≡ pen.old.text ++ entry_lines 0 (entries_of entries.now) }
    ensures before { pen.new.before ≡ pen.old.before }
{
    for number in 0..entries.len() {
        write_entry(pen, number, &entries[number]);
    }
}

// Writes the lines of the values.
fn write_values<S: Sink + Drop>(pen: &mut Pen<S>, entries: &[Entry])
    ensures text { pen.new.text ≡ pen.old.text ++ value_lines 0 (shown_of entries.now) }
    ensures before { pen.new.before ≡ pen.old.before }
{
    for number in 0..entries.len() {
        write_value(pen, number, entries[number].shown());
    }
}
