//! A hearer that drops all lines.

use crate::lines::Line;
use crate::unfailing::Unfailing;

/// A hearer that drops all lines: it never fails, and takes no memory.
#[derive(Drop)]
pub struct Silence {}

impl Silence {
    /// One that has heard nothing.
    pub fn new() -> Silence {
        Silence {}
    }
}

impl Unfailing for Silence {
    ghost Notion = { Unit {0} };

    ghost known = { λ _. tt };

    ghost learn = { λ _ _. tt };

    fn hear_line(&mut self, _column: u32, _line: Line) {}
}
