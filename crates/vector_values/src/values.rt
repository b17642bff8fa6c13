//! Values, and the letters that they give.
ghost use Rattle.std.specs.Prelude.{◌≡◌, ◌-◌, ◌≤◌, ◌++◌, ◌∷◌, length, replicate, option_map, IfOk, OnOk, Some};
ghost use Rattle.std.specs.List.{list_all};
ghost use Rattle.ternary.specs.declared.tern.Tern.TheVariants.{Zero};
ghost use Rattle.vector_values.specs.Values as spec;

use std::alloc::Global;
use std::marker::Model;
use ternary::{NoMemory, Tern};

/// A letter: a state, or None for any state.
pub type Letter = Option<Tern>;

/// A value that is given to a vector: letters, or a number.
#[derive(Drop)]
pub struct VectorValue {
    // the letters, or the bits of the number, the highest first
    letters: Vec<Letter>,
    number: bool,
}

impl Model for VectorValue {
    ghost use Rattle.vector_values.specs.Values.{ValueData};

    ghost Value = { ValueData };

    ghost view = { λ value. record { letters = value.letters.items; number = value.number } };
}

impl VectorValue {
    /// These letters.
    pub fn of_letters(letters: Vec<Letter>) -> VectorValue
        ensures { result ≡ spec.plain_value letters.items }
    {
        VectorValue {
            letters,
            number: false,
        }
    }

    /// The number with these bits, the highest first.
    pub(crate) fn of_bits(letters: Vec<Letter>) -> VectorValue
        ensures { result ≡ spec.number_value letters.items }
    {
        VectorValue {
            letters,
            number: true,
        }
    }

    /// The same value once more.
    pub fn copied(&self, alloc: Global) -> Result<VectorValue, NoMemory>
        ensures { IfOk result (λ value. value ≡ self.now) }
    {
        Ok(VectorValue {
            letters: Vec::from_slice(alloc, &self.letters)?,
            number: self.number,
        })
    }

    /// The state that the value gives to a node that stands for itself, or None exactly if the value
    /// isn't one letter of a state.
    pub fn state(&self) -> Option<Tern>
        ensures { result ≡ spec.state_of self.now }
    {
        if self.number {
            return None;
        }
        only_state(&self.letters)
    }

    /// A letter for each of so many nodes, or None exactly if the number of letters is neither that of
    /// the nodes nor one, or the number has more bits than there are nodes. A number's highest bit is
    /// the first node's.
    pub fn letters(&self, alloc: Global, count: usize) -> Result<Option<Vec<Letter>>, NoMemory>
        ensures { IfOk result (λ letters.
            option_map (λ list. list.items) letters ≡ spec.letters_for count self.now) }
    {
        if self.number {
            fitted(alloc, count, &self.letters)
        } else {
            spread(alloc, count, &self.letters)
        }
    }
}

// The state of a letter alone.
fn only_state(letters: &[Letter]) -> Option<Tern>
    ensures { result ≡ spec.state_in letters.now }
{
    match letters {
        [letter] => *letter,
        _ => None,
    }
}

// A letter for each of so many nodes: the letters as they are, or the one letter for all.
fn spread(alloc: Global, count: usize, letters: &[Letter]) -> Result<Option<Vec<Letter>>, NoMemory>
    ensures { IfOk result (λ list. option_map (λ list. list.items) list ≡ spec.spread count letters.now) }
{
    if letters.len() == count {
        return Ok(Some(Vec::from_slice(alloc, letters)?));
    }
    match letters {
        [letter] => Ok(Some(vec![in alloc; *letter; count]?)),
        _ => Ok(None),
    }
}

// A bit for each of so many nodes, the first the highest.
fn fitted(alloc: Global, count: usize, bits: &[Letter]) -> Result<Option<Vec<Letter>>, NoMemory>
    ensures { IfOk result (λ list. option_map (λ list. list.items) list ≡ spec.fitted count bits.now) }
{
    if bits.len() <= count {
        return Ok(Some(padded(alloc, count - bits.len(), bits)?));
    }
    let past = bits.len() - count;
    if !are_zeros(&bits[..past]) {
        return Ok(None);
    }
    Ok(Some(Vec::from_slice(alloc, &bits[past..])?))
}

// So many zeros and then the bits.
fn padded(alloc: Global, zeros: usize, bits: &[Letter]) -> Result<Vec<Letter>, NoMemory>
    ensures { IfOk result (λ list. list.items ≡ replicate zeros (Some Zero) ++ bits.now) }
{
    let mut list = vec![in alloc; Some(Tern::Zero); zeros]?;
    list.extend_from_slice(bits)?;
    Ok(list)
}

// Whether all bits are 0.
fn are_zeros(bits: &[Letter]) -> bool
    ensures { result ≡ list_all spec.is_zero bits.now }
{
    bits.iter().all(is_zero)
}

// Whether the bit is 0.
fn is_zero(bit: &Letter) -> bool
    ensures { result ≡ spec.is_zero bit.now }
{
    matches!(bit, Some(Tern::Zero))
}
