//! Hearers that never fail.
ghost use Rattle.std.specs.Prelude.{◌≡◌, ◌^◌};

use crate::lines::{Line, Lines};
use ports::PortFault;
use ternary::NoMemory;

/// Who hears lines, each with the column that it is of, never fails, and takes no memory.
///
/// Each such hearer is one of [`Lines`]: it has room for each line, hears each as a whole, and its two counts stay 0.
pub trait Unfailing {
    ghost use Rattle.told_lines.specs.Lines.{Told, line_seen};

    ghost Notion: { Type 0 };

    ghost known: { Self → Self.Notion };

    ghost learn: { Self.Notion → Told → Self.Notion };

    /// Hears a line of a column.
    fn hear_line(&mut self, column: u32, line: Line)
        ensures { known self.new ≡ learn (known self.old) (record { column = column; line = line_seen line.entry }) };
}

impl<U: Unfailing> Lines for U {
    ghost Heard = { U.Notion };

    ghost heard = { U.known };

    ghost hear = { U.learn };

    ghost part = { λ _ _ _. ⊥ };

    ghost room = { λ _. 2 ^ 64 };

    ghost faults = { λ _. 0 };

    ghost refusals = { λ _. 0 };

    fn reserve(&mut self, _bytes: usize) -> Result<(), NoMemory> {
        Ok(())
    }

    fn tell(&mut self, column: u32, line: Line) -> Result<(), PortFault> {
        self.hear_line(column, line);
        Ok(())
    }
}
