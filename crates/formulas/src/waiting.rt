//! What waits while a formula is read.
ghost use Rattle.std.specs.Prelude.{◌≡◌, ◌∷◌, [], OnOk};
ghost use Rattle.formulas.specs.Reading as spec;

use crate::bytes::rank_of;
use crate::formula::{Part, Sign};
use std::alloc::{AllocError, Global};
use std::marker::Model;
use ternary::NoMemory;

/// What waits for an operand behind it.
#[derive(Clone, Copy, PartialEq, Eq)]
pub(crate) enum Waiting {
    /// A bracket that was opened.
    Bracket,
    /// A negation.
    Not,
    /// A sign, whose first operand was read.
    Join(Sign),
}

/// What waits, the last that came first.
#[derive(Drop)]
pub(crate) struct Stack {
    items: Vec<Waiting>,
}

impl Model for Stack {
    ghost use Rattle.std.specs.Prelude.{List, reverse};
    ghost use Rattle.formulas.specs.declared.waiting.Waiting.{Waiting};

    ghost Value = { List Waiting };

    ghost view = { λ stack. reverse stack.items.items };
}

impl Stack {
    /// Nothing waits.
    pub(crate) fn new(alloc: Global) -> Stack
        ensures { result ≡ [] }
    {
        Stack {
            items: Vec::new(alloc),
        }
    }

    /// This waits too.
    pub(crate) fn push(&mut self, waiting: Waiting) -> Result<(), NoMemory>
        ensures { OnOk result (self.new ≡ waiting ∷ self.old) }
    {
        self.items.push(waiting).map_err(AllocError::from)?;
        Ok(())
    }

    /// Takes what came last, if something waits.
    pub(crate) fn pop(&mut self) -> Option<Waiting>
        ensures first { result ≡ spec.first_waiting self.old }
        ensures others { self.new ≡ spec.but_first self.old }
    {
        self.items.pop()
    }

    /// Takes what came last, if it binds at least so tightly, and gives its part.
    pub(crate) fn release(&mut self, bound: u32) -> Option<Part>
        ensures first { result ≡ spec.first_part bound self.old }
        ensures others { self.new ≡ spec.without_first bound self.old }
    {
        let part = part_of(bound, self.last()?)?;
        self.items.pop();
        Some(part)
    }

    // What came last, if something waits.
    fn last(&self) -> Option<Waiting>
        ensures { result ≡ spec.first_waiting self.now }
    {
        self.items.last().copied()
    }
}

// The part of what waits, if it binds at least so tightly.
fn part_of(bound: u32, waiting: Waiting) -> Option<Part>
    ensures { result ≡ spec.part_of bound waiting }
{
    match waiting {
        Waiting::Bracket => None,
        Waiting::Not => Some(Part::Not),
        Waiting::Join(sign) if bound <= rank_of(sign) => Some(Part::Join(sign)),
        Waiting::Join(_) => None,
    }
}
