//! A hearer that counts what waveform lines tell.
ghost use Rattle.std.specs.Prelude.{◌≡◌, count_by};
ghost use Rattle.printed_lines.specs.declared.lines.Summary.{Summary};
ghost use Rattle.told_lines.specs.Sums as spec;

use crate::lines::Line;
use crate::unfailing::Unfailing;
use printed_lines::Summary;
use ternary::Tern;

/// The counts of the waveform lines that were heard. It never fails, and takes no memory.
#[derive(Drop)]
pub struct Sums {
    pub summary: Summary,
}

impl Unfailing for Sums {
    ghost use Rattle.told_lines.specs.Sums.{counted};

    ghost Notion = { Summary };

    ghost known = { λ sums. sums.summary };

    ghost learn = { counted };

    fn hear_line(&mut self, _column: u32, line: Line) {
        if let Line::Wave {
            k,
            mark,
            values,
            ..
        } = line
        {
            count_wave(&mut self.summary, k, mark, values);
        }
    }
}

// Counts a waveform line, by its steps, its mark and its values.
fn count_wave(summary: &mut Summary, k: u64, mark: bool, values: &[Tern])
    ensures { summary.new ≡ spec.with_wave summary.old k mark values.now }
{
    summary.lines = summary.lines.saturating_add(1);
    summary.steps = summary.steps.saturating_add(k);
    summary.marks = summary.marks.saturating_add(u64::from(mark));
    summary.zeros = summary
        .zeros
        .saturating_add(count_state(values, Tern::Zero));
    summary.ones = summary.ones.saturating_add(count_state(values, Tern::One));
    summary.unknown = summary
        .unknown
        .saturating_add(count_state(values, Tern::Unk));
}

// How many values are this state.
fn count_state(values: &[Tern], state: Tern) -> u64
    ensures { result ≡ count_by (spec.is_state state) values.now }
{
    values
        .iter()
        .filter(|&&value| is_state(state, value))
        .count() as u64
}

// Whether both states are the same.
fn is_state(left: Tern, right: Tern) -> bool
    ensures { result ≡ spec.is_state left right }
{
    left == right
}
