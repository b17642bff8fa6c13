ghost use Rattle.std.specs.Prelude.{◌≡◌, ◌+◌, ◌≤◌, [], ◌∷◌, ◌++◌, length, IsOk, IfOk, OnOk, OnErr};

use std::alloc::Global;
use std::marker::Model;
use ternary::NoMemory;

/// Bytes of printed lines, with room for more of them.
///
/// Contracts see its `bytes`, and as `spare` the number of bytes that can be added without memory.
#[derive(Drop)]
pub struct LineBuf {
    bytes: Vec<u8>,
}

impl Model for LineBuf {
    ghost use Rattle.std.specs.Prelude.{◌-◌, ◌≤◌, vec_len, vec_capacity};
    ghost use Rattle.printed_lines.specs.LineBuf.{LineBufData};

    ghost Value = { LineBufData };

    ghost view = { λ a. record { bytes = a.bytes.items; spare = vec_capacity a.bytes - vec_len a.bytes } };

    ghost invariant = { λ a. vec_len a.bytes ≤ vec_capacity a.bytes };
}

impl LineBuf {
    /// A buffer without bytes and with at least this room.
    pub fn new(alloc: Global, room: usize) -> Result<LineBuf, NoMemory>
        ensures bytes { IfOk result (λ buffer. buffer.bytes ≡ []) }
        ensures spare { IfOk result (λ buffer. room ≤ buffer.spare) }
    {
        let bytes = Vec::with_capacity(alloc, room)?;
        Ok(LineBuf { bytes })
    }

    /// Makes room for at least this many bytes beyond those that are there.
    ///
    /// It takes no memory where that room is there already.
    pub fn reserve(&mut self, room: usize) -> Result<(), NoMemory>
        ensures bytes { self.new.bytes ≡ self.old.bytes }
        ensures ok { OnOk result (room ≤ self.new.spare) }
        ensures spare { self.old.spare ≤ self.new.spare }
        ensures enough { room ≤ self.old.spare → IsOk result }
        ensures err { OnErr result (self.new ≡ self.old) }
    {
        self.bytes.reserve(room)?;
        Ok(())
    }

    /// The bytes that were added since the buffer was made or cleared.
    pub fn bytes(&self) -> &[u8]
        ensures { result.now ≡ self.now.bytes }
    {
        self.bytes.as_slice()
    }

    /// Takes all bytes out. Their room is free again.
    pub fn clear(&mut self)
        ensures bytes { self.new.bytes ≡ [] }
        ensures spare { self.new.spare ≡ self.old.spare + length self.old.bytes }
    {
        self.bytes.clear();
    }

    /// Adds one byte.
    pub fn push(&mut self, byte: u8)
        requires room { 1 ≤ self.old.spare }
        ensures bytes { self.new.bytes ≡ self.old.bytes ++ byte ∷ [] }
        ensures spare { self.new.spare + 1 ≡ self.old.spare }
    {
        self.bytes.push_reserved(byte);
    }

    /// Adds these bytes.
    pub fn append(&mut self, piece: &[u8])
        requires room { length piece.now ≤ self.old.spare }
        ensures bytes { self.new.bytes ≡ self.old.bytes ++ piece.now }
        ensures spare { self.new.spare + length piece.now ≡ self.old.spare }
    {
        for byte in piece {
            self.push(*byte);
        }
    }
}
