//! Listings read from their texts.

ghost use Rattle.std.specs.Prelude.{◌≡◌, ◌≢◌, ℕ, ◌<◌, ◌^◌, Bool, List, [], ◌∷◌, ◌++◌, length, codes, decimal, All, IfOk, IfErr, OnOk, IsTrue, ◌↔◌, MatchOption, slice_get, count_by, position};
ghost use Rattle.straight_code.specs.Code.{IsAllowed, AreAllowed, IsOutput};
ghost use Rattle.linear_code.specs.Listing.{ListingData, IsListing};
ghost use Rattle.line_words.specs.Visible.{IsVisibleName};
ghost use Rattle.linear_code.specs.ListingText.{kind_letter, operand_text, instruction_text, storage_nodes, listing_text};
ghost use Rattle.linear_code.specs.Reading.{IsPartial, line_count, Refuses};
ghost use Rattle.linear_code.specs.Adding.{Fits, with_added, output_text, added_of, IsReadBack, IsReadAs, IsNodeReadAs, IsInstructionReadAs, IsNextReadAs, AddsLine, HasNoLine};

use crate::listing::{ListedNode, Listing};
use itoa::Buffer;
use std::alloc::{AllocError, Global};
use std::marker::Model;
use straight_code::{Instruction, Operand, Output};

/// Why a text is no listing.
#[derive(Clone, Copy, Debug, PartialEq, Eq)]
pub enum ListingFault {
    /// This line is the first that no listing with the lines before it can have. Where all lines are
    /// good but next states are missing, it is the number after the last line.
    BadListing { line: u64 },
    /// Memory ran out.
    NoMemory,
}

impl From<AllocError> for ListingFault {
    ghost use Rattle.linear_code.specs.declared.reading.ListingFault.TheVariants.{NoMemory};

    ghost from_gives = { λ _ fault. fault ≡ NoMemory };

    fn from(_want: AllocError) -> ListingFault {
        ListingFault::NoMemory
    }
}

/// The listing that a text is.
///
/// The text is read byte by byte: each line ends at LF, single spaces stand between its words, and
/// numbers have no leading zeros. An empty text is the listing without nodes. A text is that of one
/// listing at most, so what `write` appended is read back with the same meaning.
pub fn read_listing(alloc: Global, text: &[u8]) -> Result<Listing, ListingFault>
    ensures ok { IfOk result (λ listing. listing_text listing ≡ text.now) }
    ensures listing { IfOk result (λ listing. IsListing listing) }
    ensures only { IfOk result (λ listing. (other : ListingData) → IsListing other → listing_text other ≡ text.now → other ≡ listing) }
    ensures refused { IfErr result (λ fault. Refuses text.now fault) }
{
    let mut reader = Reader::new(alloc);
    let mut rest = text;
    let mut line = 1;
    while !rest.is_empty() {
        match reader.read_line(alloc, rest)? {
            Some(more) => rest = more,
            None => return Err(ListingFault::BadListing { line }),
        }
        line += 1;
    }
    match reader.listing() {
        Some(listing) => Ok(listing),
        None => Err(ListingFault::BadListing { line }),
    }
}

// A line: a node, an instruction, or the next state of the node with this number.
#[derive(Clone, Copy)]
enum Line<'a> {
    Node { is_storage: bool, name: &'a [u8] },
    Code(Instruction),
    Next { node: usize, output: Output },
}

// A listing of which some lines were read.
#[derive(Drop)]
struct Reader {
    nodes: Vec<ListedNode>,
    instructions: Vec<Instruction>,
    nexts: Vec<Output>,
    // each storage node before this one has its next state, and no other one
    seen: usize,
}

impl Model for Reader {
    ghost use Rattle.std.specs.Prelude.{◌≡◌, ◌≤◌, length, map};
    ghost use Rattle.linear_code.specs.Listing.{ListingData, storage_before};

    ghost Value = { ListingData };

    ghost view = { λ reader. record { entries = map (λ node. record { is_storage = node.is_storage; name = node.name.items }) reader.nodes.items; instructions = reader.instructions.items; nexts = reader.nexts.items } };

    ghost invariant = { λ reader. (reader.seen ≤ length reader.nodes.items) × (storage_before (map (λ node. record { is_storage = node.is_storage; name = node.name.items }) reader.nodes.items) reader.seen ≡ length reader.nexts.items) };
}

impl Reader {
    // Before the first line.
    fn new(alloc: Global) -> Reader
        ensures { result ≡ record { entries = []; instructions = []; nexts = [] } }
    {
        Reader {
            nodes: Vec::new(alloc),
            instructions: Vec::new(alloc),
            nexts: Vec::new(alloc),
            seen: 0,
        }
    }

    // Adds the first line of the text and gives the rest, if the line may follow those before it.
    fn read_line<'a>(
        &mut self,
        alloc: Global,
        text: &'a [u8],
    ) -> Result<Option<&'a [u8]>, AllocError>
        requires small { line_count self.old < 2 ^ 64 }
        ensures { IfOk result (λ read. MatchOption read (HasNoLine self.old text.now) (λ rest. AddsLine self.old self.new text.now rest.now)) }
    {
        let Some((bytes, rest)) = cut(text, b'\n') else {
            return Ok(None);
        };
        let Some(line) = self.line_of(bytes) else {
            return Ok(None);
        };
        self.put(alloc, line)?;
        Ok(Some(rest))
    }

    // The line that these bytes are, if it may follow.
    fn line_of<'a>(&self, bytes: &'a [u8]) -> Option<Line<'a>>
        ensures { IsReadAs self.now bytes.now result }
    {
        if let Some(line) = self.node_line(bytes) {
            return Some(line);
        }
        if let Some(line) = self.instruction_line(bytes) {
            return Some(line);
        }
        self.next_line(bytes)
    }

    // The node that the line adds, if it adds one.
    fn node_line<'a>(&self, bytes: &'a [u8]) -> Option<Line<'a>>
        ensures { IsNodeReadAs self.now bytes.now result }
    {
        if !self.instructions.is_empty() || !self.nexts.is_empty() {
            return None;
        }
        let rest = after(bytes, b"node ", self.node_count(), b" ")?;
        let (is_storage, name) = kind_and_name(rest)?;
        Some(Line::Node { is_storage, name })
    }

    // The instruction that the line adds, if it adds one.
    fn instruction_line<'a>(&self, bytes: &'a [u8]) -> Option<Line<'a>>
        ensures { IsInstructionReadAs self.now bytes.now result }
    {
        if !self.nexts.is_empty() {
            return None;
        }
        let count = self.instruction_count();
        let rest = after(bytes, b"t", count, b" = ")?;
        let instruction = read_instruction(rest, self.node_count(), count)?;
        Some(Line::Code(instruction))
    }

    // The next state that the line adds, if it adds one.
    fn next_line<'a>(&self, bytes: &'a [u8]) -> Option<Line<'a>>
        ensures { IsNextReadAs self.now bytes.now result }
    {
        let node = self.next_node()?;
        let rest = after(bytes, b"next ", node, b" ")?;
        let output = read_output(rest, self.node_count(), self.instruction_count())?;
        Some(Line::Next { node, output })
    }

    // How many nodes there are so far.
    fn node_count(&self) -> usize
        ensures { result ≡ length self.now.entries }
    {
        self.nodes.len()
    }

    // How many instructions there are so far.
    fn instruction_count(&self) -> usize
        ensures { result ≡ length self.now.instructions }
    {
        self.instructions.len()
    }

    // The first storage node without a next state.
    fn next_node(&self) -> Option<usize>
        ensures { result ≡ slice_get (storage_nodes self.now.entries) (length self.now.nexts) }
    {
        let place = first_storage(&self.nodes[self.seen..])?;
        Some(self.seen + place)
    }

    // Adds a line.
    fn put(&mut self, alloc: Global, line: Line<'_>) -> Result<(), AllocError>
        requires { Fits self.old (added_of line) }
        ensures { OnOk result (self.new ≡ with_added self.old (added_of line.entry)) }
    {
        match line {
            Line::Node { is_storage, name } => {
                let name = Vec::from_slice(alloc, name)?;
                self.nodes.push(ListedNode { is_storage, name })?;
            }
            Line::Code(instruction) => self.instructions.push(instruction)?,
            Line::Next { node, output } => {
                self.nexts.push(output)?;
                self.seen = node + 1;
            }
        }
        Ok(())
    }

    // The listing, if each storage node has its next state.
    fn listing(self) -> Option<Listing>
        requires { IsPartial self }
        ensures { MatchOption result (length self.nexts < count_by (λ entry. entry.is_storage) self.entries) (λ listing. (listing ≡ self) × IsListing listing) }
    {
        if self.next_node().is_some() {
            return None;
        }
        Some(Listing::from_parts(self.nodes, self.instructions, self.nexts))
    }
}

// The place of the first storage node.
fn first_storage(nodes: &[ListedNode]) -> Option<usize>
    ensures { result ≡ position (λ node. node.is_storage) nodes.now }
{
    nodes.iter().position(|node| node.is_storage)
}

// What stands before the first such byte, and what stands behind it.
fn cut(bytes: &[u8], stop: u8) -> Option<(&[u8], &[u8])>
    ensures { MatchOption result (All (λ byte. byte ≢ stop) bytes.now) (λ parts. (bytes.now ≡ parts.0.now ++ stop ∷ parts.1.now) × All (λ byte. byte ≢ stop) parts.0.now) }
{
    let place = bytes.iter().position(|byte| *byte == stop)?;
    Some((&bytes[..place], &bytes[place + 1..]))
}

// What stands behind a word, a number and a gap.
fn after<'a>(bytes: &'a [u8], word: &[u8], number: usize, gap: &[u8]) -> Option<&'a [u8]>
    ensures { MatchOption result ((rest : List ℕ) → bytes.now ≢ word.now ++ (decimal number ++ (gap.now ++ rest))) (λ rest. bytes.now ≡ word.now ++ (decimal number ++ (gap.now ++ rest.now))) }
{
    let mut buffer = Buffer::new();
    let number = buffer.format(number).as_bytes();
    bytes
        .strip_prefix(word)?
        .strip_prefix(number)?
        .strip_prefix(gap)
}

// The kind and the name of a node.
fn kind_and_name(bytes: &[u8]) -> Option<(bool, &[u8])>
    ensures { MatchOption result ((is_storage : Bool) (name : List ℕ) → IsVisibleName name → bytes.now ≢ kind_letter is_storage ++ (codes " " ++ name)) (λ node. IsVisibleName node.1.now × (bytes.now ≡ kind_letter node.0 ++ (codes " " ++ node.1.now))) }
{
    if let Some(name) = bytes.strip_prefix(b"s ") {
        return is_name(name).then_some((true, name));
    }
    let name = bytes.strip_prefix(b"i ")?;
    is_name(name).then_some((false, name))
}

// Whether a node in a listing may have this name.
fn is_name(name: &[u8]) -> bool
    ensures { IsTrue result ↔ IsVisibleName name.now }
{
    !name.is_empty() && name.iter().all(|byte| 33 <= *byte && *byte <= 126)
}

// What an instruction does, over so many nodes and so many earlier results.
fn read_instruction(bytes: &[u8], nodes: usize, results: usize) -> Option<Instruction>
    ensures { IsReadBack (AreAllowed nodes results) instruction_text bytes.now result }
{
    if let Some(word) = bytes.strip_prefix(b"! ") {
        return Some(Instruction::Not(read_operand(word, nodes, results)?));
    }
    let (word, rest) = cut(bytes, b' ')?;
    let first = read_operand(word, nodes, results)?;
    if let Some(word) = rest.strip_prefix(b"& ") {
        let second = read_operand(word, nodes, results)?;
        return Some(Instruction::And(first, second));
    }
    let second = read_operand(rest.strip_prefix(b"| ")?, nodes, results)?;
    Some(Instruction::Or(first, second))
}

// Both rails of a next state.
fn read_output(bytes: &[u8], nodes: usize, results: usize) -> Option<Output>
    ensures { IsReadBack (IsOutput nodes results) output_text bytes.now result }
{
    let (first, second) = cut(bytes, b' ')?;
    Some(Output {
        hi: read_operand(first, nodes, results)?,
        lo: read_operand(second, nodes, results)?,
    })
}

// An operand, over so many nodes and so many results.
fn read_operand(word: &[u8], nodes: usize, results: usize) -> Option<Operand>
    ensures { IsReadBack (IsAllowed nodes results) operand_text word.now result }
{
    match word {
        b"0" => Some(Operand::Constant(false)),
        b"1" => Some(Operand::Constant(true)),
        [b'h', digits @ ..] => Some(Operand::High(below(digits, nodes)?)),
        [b'l', digits @ ..] => Some(Operand::Low(below(digits, nodes)?)),
        [b't', digits @ ..] => Some(Operand::Earlier(below(digits, results)?)),
        _ => None,
    }
}

// The number that digits write without a leading zero, if it is below a limit.
fn below(digits: &[u8], limit: usize) -> Option<usize>
    ensures { IsReadBack (λ number. number < limit) decimal digits.now result }
{
    let number = line_words::decimal(digits)? as usize;
    let mut buffer = Buffer::new();
    let is_plain = buffer.format(number).as_bytes() == digits;
    (is_plain && number < limit).then_some(number)
}
