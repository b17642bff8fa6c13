//! Formulas as their parts.
ghost use Rattle.std.specs.Prelude.{◌≡◌};
ghost use Rattle.formulas.specs.Formulas.{IsPostfix};

use script_lang::Name;
use std::marker::Model;

/// A sign that joins two formulas.
#[derive(Clone, Copy, PartialEq, Eq)]
pub enum Sign {
    /// `&`: both hold.
    And,
    /// `^`: exactly one of both holds.
    Differ,
    /// `|`: at least one of both holds.
    Or,
}

/// A part of a formula.
#[derive(Drop)]
pub enum Part {
    /// A variable's name.
    Name(Name),
    /// The negation of what stands before it.
    Not,
    /// Two formulas that stand before it, joined by this sign.
    Join(Sign),
}

/// A formula: its parts in the order in which they are evaluated, each operand before what it is an operand of.
#[derive(Drop)]
pub struct Formula {
    parts: Vec<Part>,
}

impl Model for Formula {
    ghost use Rattle.std.specs.Prelude.{List};
    ghost use Rattle.formulas.specs.declared.formula.Part.{Part};
    ghost use Rattle.formulas.specs.Formulas.{IsPostfix};

    ghost Value = { List Part };

    ghost view = { λ formula. formula.parts.items };

    ghost invariant = { λ formula. IsPostfix formula.parts.items };
}

impl Formula {
    // The formula with these parts.
    pub(crate) fn of_parts(parts: Vec<Part>) -> Formula
        requires { IsPostfix parts.items }
        ensures { result ≡ parts.items }
    {
        Formula { parts }
    }

    /// All parts, in order.
    pub fn parts(&self) -> &[Part]
        ensures all { result.now ≡ self.now }
        ensures postfix { IsPostfix result.now }
    {
        &self.parts
    }
}
