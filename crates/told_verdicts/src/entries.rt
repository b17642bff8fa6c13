//! Where two rows differ first.
ghost use Rattle.std.specs.Prelude.{◌≡◌};
ghost use Rattle.told_verdicts.specs.Comparing as spec;

use crate::compare::Place;
use fault_sim::first_in_row;
use ternary::Tern;

/// The place that was found before, or else where two rows of this number differ first, if they do.
pub(crate) fn place_or(
    found: Option<Place>,
    strong: bool,
    row: u64,
    good: &[Tern],
    bad: &[Tern],
) -> Option<Place>
    ensures { result ≡ spec.place_or found (spec.place_in row (spec.first_entry strong good.now bad.now)) }
{
    match found {
        Some(place) => Some(place),
        None => place_in(row, first_entry(strong, good, bad)),
    }
}

// The place of an entry in the row of this number.
fn place_in(row: u64, entry: Option<usize>) -> Option<Place>
    ensures { result ≡ spec.place_in row entry }
{
    match entry {
        Some(entry) => Some(Place { row, entry }),
        None => None,
    }
}

// The first entry at which two rows differ, strongly or weakly, if they do.
fn first_entry(strong: bool, good: &[Tern], bad: &[Tern]) -> Option<usize>
    ensures { result ≡ spec.first_entry strong good.now bad.now }
{
    first_in_row(strong, good, bad)
}
