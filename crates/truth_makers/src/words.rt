//! The bits of words: up to 64 columns.
ghost use Rattle.std.specs.Prelude.{◌≡◌, ◌↔◌, ℕ, ◌<◌, ◌≤◌, Bool, true, false, IfOk, IsTrue};
ghost use Rattle.word_columns.specs.Columns.{is_in_column, AreUsed};
ghost use Rattle.truth_columns.specs.Columns.{AreKept};

use std::marker::Model;
use straight_code::StepKind;
use truth_columns::Truths;
use word_columns::{kind_word, used_columns};

/// No fault: words don't run out.
#[derive(Drop)]
pub enum Never {}

/// The maker of words: bit i of a word is its truth value in column i. There are up to 64 columns, and a word's other
/// bits say nothing.
#[derive(Drop)]
pub struct WordTruths {
    columns: u32,
    // the bits of the columns
    used: u64,
}

impl Model for WordTruths {
    ghost use Rattle.std.specs.Prelude.{ℕ, ◌≤◌};
    ghost use Rattle.word_columns.specs.Columns.{AreUsed};

    ghost Value = { ℕ };

    ghost view = { λ words. words.columns };

    ghost invariant = { λ words. (words.columns ≤ 64) × AreUsed words.columns words.used };
}

impl WordTruths {
    /// The maker of words with so many columns. Contracts see it as their number.
    pub fn new(columns: u32) -> WordTruths
        requires some { 1 ≤ columns }
        requires few { columns ≤ 64 }
        ensures { result ≡ columns }
    {
        WordTruths {
            columns,
            used: used_columns(columns),
        }
    }

    /// The bits of the columns.
    pub fn used(&self) -> u64
        ensures used { AreUsed self.now result }
        ensures few { self.now ≤ 64 }
    {
        self.used
    }
}

impl Truths for WordTruths {
    type Truth = u64;

    type Fault = Never;

    ghost columns = { λ columns. columns };

    ghost has = { λ columns word. word < 18446744073709551616 };

    ghost holds = { λ columns word column. is_in_column column word };

    ghost bound = { λ columns. 64 };

    ghost spent = { λ columns never. ⊥ };

    fn constant(&self, value: bool) -> u64 {
        self.used();
        all_or_none(value)
    }

    fn is_never(&self, truth: u64) -> bool {
        agree(self.used(), truth, 0)
    }

    fn same(&self, a: u64, b: u64) -> bool {
        agree(self.used(), a, b)
    }

    fn perform(&mut self, kind: StepKind, a: u64, b: u64) -> Result<u64, Never> {
        self.used();
        Ok(kind_word(kind, a, b))
    }
}

// All bits, or none.
fn all_or_none(value: bool) -> u64
    ensures { (column : ℕ) → column < 64 → is_in_column column result ≡ value }
{
    if value { u64::MAX } else { 0 }
}

// Whether two words agree in the columns whose bits are used.
fn agree(used: u64, a: u64, b: u64) -> bool
    ensures { IsTrue result ↔ ((column : ℕ) → column < 64 → is_in_column column used ≡ true → is_in_column column a ≡ is_in_column column b) }
{
    (a ^ b) & used == 0
}
