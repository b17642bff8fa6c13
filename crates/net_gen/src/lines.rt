ghost use Rattle.std.specs.Prelude.{◌≡◌, ◌++◌, OnOk};
ghost use Rattle.std.specs.List.{flat_map};
ghost use Rattle.net_gen.specs.Lines.{text_of};

use itoa::Buffer;
use ternary::NoMemory;

/// A piece of a line: a word as it is, or a number in decimals.
#[derive(Clone, Copy)]
pub enum Piece {
    Word(&'static str),
    Number(u64),
}

/// Appends the pieces to the text, from left to right.
pub fn put(text: &mut Vec<u8>, pieces: &[Piece]) -> Result<(), NoMemory>
    ensures { OnOk result (text.new.items ≡ text.old.items ++ flat_map text_of pieces.now) }
{
    for piece in pieces {
        put_piece(text, *piece)?;
    }
    Ok(())
}

// Appends one piece.
fn put_piece(text: &mut Vec<u8>, piece: Piece) -> Result<(), NoMemory>
    ensures { OnOk result (text.new.items ≡ text.old.items ++ text_of piece) }
{
    match piece {
        Piece::Word(word) => text.extend_from_slice(word.as_bytes())?,
        Piece::Number(number) => {
            let mut buffer = Buffer::new();
            text.extend_from_slice(buffer.format(number).as_bytes())?;
        }
    }
    Ok(())
}
