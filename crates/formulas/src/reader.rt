//! Reading a formula, byte by byte.
ghost use Rattle.std.specs.Prelude.{◌≡◌, IfOk, IfSome, IfNone, OnOk, option_map};
ghost use Rattle.formulas.specs.Formulas as grammar;
ghost use Rattle.formulas.specs.Reading as spec;

use crate::bytes::{is_name_byte, rank_of, sign_of};
use crate::formula::{Formula, Part, Sign};
use crate::waiting::{Stack, Waiting};
use script_lang::Name;
use std::alloc::{AllocError, Global};
use std::marker::Model;
use ternary::NoMemory;

/// Reads the formula that a text writes, or None exactly if it writes none.
///
/// Brackets and negations may lie one in another as deep as the text is long: what waits for an operand stands in a
/// list.
pub fn read_formula(alloc: Global, text: &[u8]) -> Result<Option<Formula>, NoMemory>
    ensures value { IfOk result (λ found. found ≡ spec.formula_of text.now) }
    ensures some { IfOk result (λ found. IfSome found (grammar.IsWritten text.now)) }
    ensures none { IfOk result (λ found. IfNone found ((f : grammar.Formula) → grammar.Spells 1 text.now f → ⊥)) }
{
    match read_parts(alloc, text)? {
        Some(parts) => Ok(Some(Formula::of_parts(parts))),
        None => Ok(None),
    }
}

// The parts of the formula that a text writes.
fn read_parts(alloc: Global, text: &[u8]) -> Result<Option<Vec<Part>>, NoMemory>
    ensures { IfOk result (λ found. option_map (λ parts. parts.items) found ≡ spec.formula_of text.now) }
{
    let mut reader = Reader::new(alloc);
    for &byte in text {
        if !reader.take(alloc, byte)? {
            return Ok(None);
        }
    }
    reader.finish(alloc)
}

/// What may come next in a formula.
#[derive(Clone, Copy, PartialEq, Eq)]
pub(crate) enum Next {
    /// An operand.
    Operand,
    /// A byte of a name, or what comes behind the name.
    Name,
    /// A sign or a closing bracket.
    Sign,
}

// What was read of a formula so far.
#[derive(Drop)]
struct Reader {
    next: Next,
    // the bytes of a name that isn't at its end
    name: Vec<u8>,
    waiting: Stack,
    parts: Vec<Part>,
}

impl Model for Reader {
    ghost use Rattle.formulas.specs.Reading.{ReaderData};

    ghost Value = { ReaderData };

    ghost view = { λ reader. record { next = reader.next; name = reader.name.items; waiting = reader.waiting; parts = reader.parts.items } };
}

impl Reader {
    // Nothing was read.
    fn new(alloc: Global) -> Reader
        ensures { result ≡ spec.start }
    {
        Reader {
            next: Next::Operand,
            name: Vec::new(alloc),
            waiting: Stack::new(alloc),
            parts: Vec::new(alloc),
        }
    }

    // Takes a byte, if it may come next.
    fn take(&mut self, alloc: Global, byte: u8) -> Result<bool, NoMemory>
        ensures { IfOk result (λ taken. spec.if_taken taken self.new ≡ spec.taken self.old byte) }
    {
        match self.next {
            Next::Operand => self.begin(byte),
            Next::Sign => self.go_on(byte),
            Next::Name if is_name_byte(byte) => {
                self.add_to_name(byte)?;
                Ok(true)
            }
            Next::Name => {
                if !self.end_name(alloc)? {
                    return Ok(false);
                }
                self.go_on(byte)
            }
        }
    }

    // Takes a byte of a name.
    fn add_to_name(&mut self, byte: u8) -> Result<(), NoMemory>
        ensures { OnOk result (self.new ≡ spec.with_name_byte self.old byte) }
    {
        self.name.push(byte).map_err(AllocError::from)?;
        Ok(())
    }

    // The name is at its end, if it has a byte.
    fn end_name(&mut self, alloc: Global) -> Result<bool, NoMemory>
        ensures { IfOk result (λ ended. spec.if_taken ended self.new ≡ spec.with_name self.old) }
    {
        if self.name.is_empty() {
            return Ok(false);
        }
        let name = Name::from_slice(alloc, &self.name)?;
        self.parts.push(Part::Name(name)).map_err(AllocError::from)?;
        self.name.clear();
        self.next = Next::Sign;
        Ok(true)
    }

    // Takes a byte with which an operand begins.
    fn begin(&mut self, byte: u8) -> Result<bool, NoMemory>
        ensures { IfOk result (λ taken. spec.if_taken taken self.new ≡ spec.begun self.old byte) }
    {
        match byte {
            b'$' => {
                self.name.clear();
                self.next = Next::Name;
                Ok(true)
            }
            b'!' => {
                self.waiting.push(Waiting::Not)?;
                Ok(true)
            }
            b'(' => {
                self.waiting.push(Waiting::Bracket)?;
                Ok(true)
            }
            _ => Ok(false),
        }
    }

    // Takes a byte that comes behind an operand.
    fn go_on(&mut self, byte: u8) -> Result<bool, NoMemory>
        ensures { IfOk result (λ taken. spec.if_taken taken self.new ≡ spec.gone_on self.old byte) }
    {
        if byte == b')' {
            return self.close();
        }
        match sign_of(byte) {
            Some(sign) => {
                self.join(sign)?;
                Ok(true)
            }
            None => Ok(false),
        }
    }

    // Takes a sign.
    fn join(&mut self, sign: Sign) -> Result<(), NoMemory>
        ensures { OnOk result (self.new ≡ spec.with_sign self.old sign) }
    {
        self.release(rank_of(sign))?;
        self.waiting.push(Waiting::Join(sign))?;
        self.next = Next::Operand;
        Ok(())
    }

    // Takes a closing bracket, if one was opened.
    fn close(&mut self) -> Result<bool, NoMemory>
        ensures { IfOk result (λ taken. spec.if_taken taken self.new ≡ spec.closed self.old) }
    {
        self.release(1)?;
        match self.waiting.pop() {
            Some(Waiting::Bracket) => {
                self.next = Next::Sign;
                Ok(true)
            }
            _ => Ok(false),
        }
    }

    // Puts what waits and binds at least so tightly behind the parts.
    fn release(&mut self, bound: u32) -> Result<(), NoMemory>
        ensures { OnOk result (self.new ≡ spec.released bound self.old) }
    {
        while let Some(part) = self.waiting.release(bound) {
            self.parts.push(part).map_err(AllocError::from)?;
        }
        Ok(())
    }

    // The parts of what was read, if it is a formula.
    fn finish(mut self, alloc: Global) -> Result<Option<Vec<Part>>, NoMemory>
        ensures { IfOk result (λ found. option_map (λ parts. parts.items) found ≡ spec.finished self) }
    {
        match self.next {
            Next::Operand => Ok(None),
            Next::Sign => self.end(),
            Next::Name => {
                if self.end_name(alloc)? {
                    self.end()
                } else {
                    Ok(None)
                }
            }
        }
    }

    // The parts, if nothing waits for more.
    fn end(mut self) -> Result<Option<Vec<Part>>, NoMemory>
        ensures { IfOk result (λ found. option_map (λ parts. parts.items) found ≡ spec.ended self) }
    {
        self.release(1)?;
        match self.waiting.pop() {
            Some(_) => Ok(None),
            None => Ok(Some(self.parts)),
        }
    }
}
