//! The lines of the values that changed.
ghost use Rattle.std.specs.Prelude.{◌≡◌, ◌++◌, All, length};
ghost use Rattle.std.specs.List.Sorted.{IsStrictlyIncreasing};
ghost use Rattle.wave_dump.specs.Changes.{TakesValue};
ghost use Rattle.wave_dump.specs.Dumps.{change_text, time_due};
ghost use Rattle.wave_dump.specs.Entries.{AreMarked, IsInside, entries_of, shown_of};
ghost use Rattle.wave_dump.specs.Values.{change_lines, value_line, values_in};

use crate::entries::Entry;
use crate::pen::Pen;
use crate::putting::{write_time, write_value};
use ports::Sink;
use ternary::Tern;

// Takes the values of the marked entries in this state, and writes those that are other ones than before, in the
// order of the entries: behind the line of the time if that isn't told yet.
pub(crate) fn write_changes<S: Sink + Drop>(
    pen: &mut Pen<S>,
    entries: &mut [Entry],
    marked: &[usize],
    states: &[Tern],
    time: u64,
    is_told: bool,
)
    requires ascending { IsStrictlyIncreasing marked.now }
    requires inside { All (IsInside (length states.now)) (entries_of entries.old) }
    requires marked { AreMarked entries.old states.now marked.now }
    ensures entries { entries_of entries.new ≡ entries_of entries.old }
    ensures shown { shown_of entries.new ≡ values_in states.now (entries_of entries.old) }
    ensures text { pen.new.text
        ≡ pen.old.text ++ change_text is_told time (change_lines 0 (shown_of entries.old) (values_in states.now (entries_of entries.old))) }
    ensures before { pen.new.before ≡ pen.old.before }
{
    let mut told = is_told;
    for &number in marked {
        told = write_change(pen, entries, number, states, time, told);
    }
}

// The same of all entries, without marks.
pub(crate) fn write_changes_of_all<S: Sink + Drop>(
    pen: &mut Pen<S>,
    entries: &mut [Entry],
    states: &[Tern],
    time: u64,
    is_told: bool,
)
    requires { All (IsInside (length states.now)) (entries_of entries.old) }
    ensures entries { entries_of entries.new ≡ entries_of entries.old }
    ensures shown { shown_of entries.new ≡ values_in states.now (entries_of entries.old) }
    ensures text { pen.new.text
        ≡ pen.old.text ++ change_text is_told time (change_lines 0 (shown_of entries.old) (values_in states.now (entries_of entries.old))) }
    ensures before { pen.new.before ≡ pen.old.before }
{
    let mut told = is_told;
    for number in 0..entries.len() {
        told = write_change(pen, entries, number, states, time, told);
    }
}

// Takes the value of an entry in this state, if there is one, and writes it if it is another one than before:
// behind the line of the time if that isn't told yet. Answers whether the time is told now.
fn write_change<S: Sink + Drop>(
    pen: &mut Pen<S>,
    entries: &mut [Entry],
    number: usize,
    states: &[Tern],
    time: u64,
    is_told: bool,
) -> bool
    requires { All (IsInside (length states.now)) (entries_of entries.old) }
    ensures takes { TakesValue states.now number time is_told result entries.old entries.new pen.old.text pen.new.text }
    ensures before { pen.new.before ≡ pen.old.before }
{
    if number >= entries.len() {
        return is_told;
    }
    if !entries[number].refresh(states) {
        return is_told;
    }
    tell_value(pen, number, entries[number].shown(), time, is_told);
    true
}

// Writes the line of a value, behind that of the time if that isn't told yet.
fn tell_value<S: Sink + Drop>(
    pen: &mut Pen<S>,
    number: usize,
    value: &[Tern],
    time: u64,
    is_told: bool,
)
    ensures text { pen.new.text ≡ pen.old.text ++ (time_due is_told time ++ value_line number value.now) }
    ensures before { pen.new.before ≡ pen.old.before }
{
    tell_time(pen, time, is_told);
    write_value(pen, number, value)
}

// Writes the line of a time if that isn't told yet.
fn tell_time<S: Sink + Drop>(pen: &mut Pen<S>, time: u64, is_told: bool)
    ensures text { pen.new.text ≡ pen.old.text ++ time_due is_told time }
    ensures before { pen.new.before ≡ pen.old.before }
{
    if is_told {
        return;
    }
    write_time(pen, time)
}
