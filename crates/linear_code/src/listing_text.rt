//! The text of a listing.

ghost use Rattle.std.specs.Prelude.{◌≡◌, ◌++◌, ◌≤◌, [], length, OnErr, OnOk, IfOk, IsTrue, IsFalse, codes, decimal};
ghost use Rattle.std.specs.List.{flat_map};
ghost use Rattle.linear_code.specs.Listing.{ListingData, IsListing};
ghost use Rattle.linear_code.specs.ListingText.{operand_text, node_line, instruction_line, next_line, listing_text, WritesFront};
ghost use Rattle.linear_code.specs.Pieces.{text_of, IsLeft, Writes};
ghost use Rattle.linear_code.specs.TextPlaces.{IsPlace, Passes, text_from};

use crate::listing::{ListedNode, Listing};
use Piece::{Number, Read, Word};
use itoa::Buffer;
use std::alloc::AllocError;
use straight_code::{Instruction, Operand, Output};
use ternary::NoMemory;

// A piece of a line: a word as it is, a number in decimal, or what an instruction or an output
// reads.
#[derive(Clone, Copy)]
enum Piece<'a> {
    Word(&'a [u8]),
    Number(usize),
    Read(Operand),
}

/// A place in the text of a listing, between two of its lines.
#[derive(Clone, Copy)]
pub struct TextPlace {
    // how many lines of nodes and of instructions stand before it
    nodes: usize,
    instructions: usize,
    // how many nodes were passed in the lines of next states, and how many of them are storage nodes
    passed: usize,
    moved: usize,
}

impl Listing {
    /// Appends the text of the listing: a line for each node, for each instruction, and for the next
    /// state of each storage node.
    ///
    /// No other listing has this text. Out of memory a part of the text, from its start, was
    /// appended.
    pub fn write(&self, out: &mut Vec<u8>) -> Result<(), NoMemory>
        ensures listing { IsListing self.now }
        ensures ok { OnOk result (out.new.items ≡ out.old.items ++ listing_text self.now) }
        ensures only { OnOk result ((other : ListingData) → IsListing other → listing_text other ≡ listing_text self.now → other ≡ self.now) }
        ensures part { OnErr result (WritesFront out.old.items out.new.items (listing_text self.now)) }
    {
        let mut place = self.text_start();
        loop {
            if !self.write_line(&mut place, out)? {
                return Ok(());
            }
        }
    }

    /// The place before the first line of the text.
    pub fn text_start(&self) -> TextPlace
        ensures place { IsPlace self.now result }
        ensures text { text_from self.now result ≡ listing_text self.now }
        ensures listing { IsListing self.now }
    {
        let _nodes = self.listed();
        TextPlace {
            nodes: 0,
            instructions: 0,
            passed: 0,
            moved: 0,
        }
    }

    /// Appends lines of the text from the place on, and moves the place behind them: until at least so
    /// many bytes stand in `out`, or the text ends. The answer is false where it ended.
    ///
    /// So a text is sent in pieces, and need not be held whole. Out of memory a part of the text
    /// that is left, from its start, was appended.
    pub fn write_some(
        &self,
        place: &mut TextPlace,
        room: usize,
        out: &mut Vec<u8>,
    ) -> Result<bool, NoMemory>
        requires { IsPlace self.now place.old }
        ensures place { OnOk result (IsPlace self.now place.new) }
        ensures ok { OnOk result (IsLeft out.old.items out.new.items (text_from self.now place.old) (text_from self.now place.new)) }
        ensures filled { IfOk result (λ more. IsTrue more → room ≤ length out.new.items) }
        ensures end { IfOk result (λ more. IsFalse more → text_from self.now place.new ≡ []) }
        ensures part { OnErr result (WritesFront out.old.items out.new.items (text_from self.now place.old)) }
    {
        while out.len() < room {
            if !self.write_line(place, out)? {
                return Ok(false);
            }
        }
        Ok(true)
    }

    // Appends the next line and moves the place behind it. At an input node among the next states
    // there is no line, and the node is passed. The answer is whether anything was left.
    fn write_line(&self, place: &mut TextPlace, out: &mut Vec<u8>) -> Result<bool, AllocError>
        requires { IsPlace self.now place.old }
        ensures ok { IfOk result (λ more. Passes self.now place.old place.new out.old.items out.new.items more) }
        ensures part { OnErr result (WritesFront out.old.items out.new.items (text_from self.now place.old)) }
    {
        let nodes = self.listed();
        if place.nodes < nodes.len() {
            put_node(out, place.nodes, &nodes[place.nodes])?;
            place.nodes += 1;
            return Ok(true);
        }
        let instructions = self.instructions();
        if place.instructions < instructions.len() {
            let number = place.instructions;
            put_instruction(out, number, instructions[number])?;
            place.instructions += 1;
            return Ok(true);
        }
        if place.passed >= nodes.len() {
            return Ok(false);
        }
        if nodes[place.passed].is_storage {
            put_next(out, place.passed, self.nexts()[place.moved])?;
            place.passed += 1;
            place.moved += 1;
            return Ok(true);
        }
        place.passed += 1;
        Ok(true)
    }
}

// Appends the line of a node.
fn put_node(out: &mut Vec<u8>, number: usize, node: &ListedNode) -> Result<(), AllocError>
    ensures { Writes out.old.items out.new.items (node_line number (record { is_storage = node.now.is_storage; name = node.now.name.items })) result }
{
    let kind = if node.is_storage { b" s " } else { b" i " };
    put(
        out,
        &[
            Word(b"node "),
            Number(number),
            Word(kind),
            Word(&node.name),
            Word(b"\n"),
        ],
    )
}

// Appends the line of an instruction.
fn put_instruction(
    out: &mut Vec<u8>,
    number: usize,
    instruction: Instruction,
) -> Result<(), AllocError>
    ensures { Writes out.old.items out.new.items (instruction_line number instruction) result }
{
    match instruction {
        Instruction::Not(a) => put(
            out,
            &[
                Word(b"t"),
                Number(number),
                Word(b" = ! "),
                Read(a),
                Word(b"\n"),
            ],
        ),
        Instruction::And(a, b) => put_pair(out, number, a, b" & ", b),
        Instruction::Or(a, b) => put_pair(out, number, a, b" | ", b),
    }
}

// Appends the line of an instruction of two operands with this between them.
fn put_pair(
    out: &mut Vec<u8>,
    number: usize,
    a: Operand,
    between: &[u8],
    b: Operand,
) -> Result<(), AllocError>
    ensures { Writes out.old.items out.new.items (codes "t" ++ decimal number ++ codes " = " ++ (operand_text a ++ between.now ++ operand_text b) ++ codes "\n") result }
{
    put(
        out,
        &[
            Word(b"t"),
            Number(number),
            Word(b" = "),
            Read(a),
            Word(between),
            Read(b),
            Word(b"\n"),
        ],
    )
}

// Appends the line of the next state of a node.
fn put_next(out: &mut Vec<u8>, number: usize, output: Output) -> Result<(), AllocError>
    ensures { Writes out.old.items out.new.items (next_line number output) result }
{
    put(
        out,
        &[
            Word(b"next "),
            Number(number),
            Word(b" "),
            Read(output.hi),
            Word(b" "),
            Read(output.lo),
            Word(b"\n"),
        ],
    )
}

// Appends the pieces, from left to right.
fn put(out: &mut Vec<u8>, pieces: &[Piece<'_>]) -> Result<(), AllocError>
    ensures { Writes out.old.items out.new.items (flat_map text_of pieces.now) result }
{
    for piece in pieces {
        put_piece(out, *piece)?;
    }
    Ok(())
}

// Appends a piece.
fn put_piece(out: &mut Vec<u8>, piece: Piece<'_>) -> Result<(), AllocError>
    ensures { Writes out.old.items out.new.items (text_of piece.entry) result }
{
    match piece {
        Word(word) => out.extend_from_slice(word),
        Number(number) => put_number(out, number),
        Read(Operand::Constant(false)) => out.extend_from_slice(b"0"),
        Read(Operand::Constant(true)) => out.extend_from_slice(b"1"),
        Read(Operand::High(j)) => put_lettered(out, b"h", j),
        Read(Operand::Low(j)) => put_lettered(out, b"l", j),
        Read(Operand::Earlier(k)) => put_lettered(out, b"t", k),
    }
}

// Appends a letter and a number.
fn put_lettered(out: &mut Vec<u8>, letter: &[u8], number: usize) -> Result<(), AllocError>
    ensures { Writes out.old.items out.new.items (letter.now ++ decimal number) result }
{
    out.extend_from_slice(letter)?;
    put_number(out, number)
}

// Appends a number in decimal.
fn put_number(out: &mut Vec<u8>, number: usize) -> Result<(), AllocError>
    ensures { Writes out.old.items out.new.items (decimal number) result }
{
    let mut buffer = Buffer::new();
    out.extend_from_slice(buffer.format(number).as_bytes())
}
