//! A hearer that compares a run with a good one.
ghost use Rattle.std.specs.Prelude.{◌≡◌};
ghost use Rattle.told_verdicts.specs.Comparing as spec;

use crate::entries::place_or;
use fault_sim::Verdict;
use std::marker::Model;
use ternary::Tern;
use told_lines::{Line, Unfailing, WaveRow};

/// A place in the rows of a run: the number of the row, counted from 1, and an entry of the watch list, counted
/// from 0.
#[derive(Clone, Copy, PartialEq, Eq)]
pub struct Place {
    pub row: u64,
    pub entry: usize,
}

/// A run beside a good one: the rows of the good one that are left to be compared, how many were, and where the
/// rows that were compared differ first, strongly and weakly. It never fails, and takes no memory.
#[derive(Drop)]
pub struct Compare<'a> {
    left: &'a [WaveRow],
    row: u64,
    strong: Option<Place>,
    weak: Option<Place>,
}

impl<'a> Model for Compare<'a> {
    ghost use Rattle.std.specs.Prelude.{◌+◌, ◌<◌, ◌^◌, length};
    ghost use Rattle.told_verdicts.specs.Comparing.{CompareData};

    ghost Value = { CompareData };

    ghost view = { λ compare. record { left = compare.left.now; row = compare.row; strong = compare.strong; weak = compare.weak } };

    ghost invariant = { λ compare. compare.row + length compare.left.now < 2 ^ 64 };
}

impl<'a> Compare<'a> {
    /// A run of which nothing was heard, beside a good one with these rows.
    pub fn new(good: &'a [WaveRow]) -> Compare<'a>
        ensures { result ≡ spec.uncompared good.now }
    {
        Compare {
            left: good,
            row: 0,
            strong: None,
            weak: None,
        }
    }

    /// The first strong difference so far, if there is one: no later line changes it.
    pub fn strong(&self) -> Option<Place>
        ensures { result ≡ self.now.strong }
    {
        self.strong
    }

    /// The verdict on what was heard, where this line of the script was refused, if one was.
    pub fn verdict(&self, refused: Option<u64>) -> Verdict
        ensures { result ≡ spec.verdict_by self.now.strong refused self.now.weak }
    {
        match (self.strong, refused, self.weak) {
            (Some(Place { row, entry }), _, _) => Verdict::Detected { row, entry },
            (None, Some(line), _) => Verdict::Refused { line },
            (None, None, Some(Place { row, entry })) => Verdict::Possible { row, entry },
            (None, None, None) => Verdict::Undetected,
        }
    }

    // Compares a row with the next one of those that are left.
    fn compare(&mut self, values: &[Tern])
        ensures { self.new ≡ spec.with_row self.old.left self.old values.now }
    {
        if let Some((good, left)) = self.left.split_first() {
            let row = self.row + 1;
            let good = good.values();
            self.left = left;
            self.row = row;
            self.strong = place_or(self.strong, true, row, good, values);
            self.weak = place_or(self.weak, false, row, good, values);
        }
    }
}

impl<'a> Unfailing for Compare<'a> {
    ghost use Rattle.told_verdicts.specs.Comparing.{CompareData, compared};

    ghost Notion = { CompareData };

    ghost known = { λ compare. compare };

    ghost learn = { compared };

    fn hear_line(&mut self, _column: u32, line: Line) {
        if let Line::Wave { values, .. } = line {
            self.compare(values);
        }
    }
}
