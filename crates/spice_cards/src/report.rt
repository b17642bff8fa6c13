//! The printed line of a refusal.

ghost use Rattle.std.specs.Prelude.{◌≡◌, ◌++◌, decimal, IfOk, OnOk};
ghost use Rattle.spice_cards.specs.Reports as spec;

use crate::fault::DeckWhat;
use itoa::Buffer;
use std::alloc::Global;
use ternary::NoMemory;

/// The line that is printed for a refused line of a deck, ended by LF: `deck line <number>: <cause>`.
pub fn deck_line(alloc: Global, line: u64, what: DeckWhat) -> Result<Vec<u8>, NoMemory>
    ensures { IfOk result (λ text. text.items ≡ spec.deck_line_of line what) }
{
    let mut text = Vec::new(alloc);
    append(&mut text, b"deck line ")?;
    append_number(&mut text, line)?;
    append(&mut text, b": ")?;
    append(&mut text, cause_text(what))?;
    append(&mut text, b"\n")?;
    Ok(text)
}

/// The code and the name of a cause, as `P5 NoSubckt`.
pub fn cause_text(what: DeckWhat) -> &'static [u8]
    ensures { result.now ≡ spec.cause_text what }
{
    match what {
        DeckWhat::TooLong => b"N4 TooLong",
        DeckWhat::LineTooLong => b"L1 LineTooLong",
        DeckWhat::BadByte => b"L2 BadByte",
        DeckWhat::BadCard => b"P1 BadCard",
        DeckWhat::FewWords => b"P2 FewWords",
        DeckWhat::BadNesting => b"P3 BadNesting",
        DeckWhat::Redefined => b"P4 Redefined",
        DeckWhat::NoSubckt => b"P5 NoSubckt",
        DeckWhat::PortCount => b"P6 PortCount",
        DeckWhat::Recursion => b"P7 Recursion",
        DeckWhat::TooDeep => b"P8 TooDeep",
        DeckWhat::TooManyCalls => b"P9 TooManyCalls",
        DeckWhat::BadModel => b"P10 BadModel",
        DeckWhat::BadStrength => b"E4 BadStrength",
        DeckWhat::TooManyNodes => b"E7 TooManyNodes",
        DeckWhat::TooManySwitches => b"E8 TooManySwitches",
    }
}

// Appends a number as a decimal without leading zeros.
fn append_number(line: &mut Vec<u8>, number: u64) -> Result<(), NoMemory>
    ensures { OnOk result (line.new.items ≡ line.old.items ++ decimal number) }
{
    let mut buffer = Buffer::new();
    append(line, buffer.format(number).as_bytes())
}

// Appends these bytes.
fn append(line: &mut Vec<u8>, piece: &[u8]) -> Result<(), NoMemory>
    ensures { OnOk result (line.new.items ≡ line.old.items ++ piece.now) }
{
    line.extend_from_slice(piece)?;
    Ok(())
}
