//! The reader of a netlist that comes in pieces, and of a whole one.

ghost use Rattle.std.specs.Prelude.{◌≡◌, ◌≤◌, ◌<◌, ◌+◌, ◌*◌, ◌^◌, ◌++◌, ◌∷◌, [], List, ℕ, length, take, Ok, Err, Some, None, IsSome, IsErr, IfOk, IfErr, OnOk, OnErr};
ghost use Rattle.line_words.specs.Bytes.{line_feed};
ghost use Rattle.line_words.specs.Lines.{HasNoFeed, without_return};
ghost use Rattle.netlist.specs.Circuits.{HasVisibleNames};
ghost use Rattle.sim_read.specs.Words.{all_added, sized, line_meaning, netlist_of, IsFault, counted, too_far, GoesOn, IsRead, LacksMemory, StandsFor};

use crate::fault::{NetFault, NetRefusal, NetWhat};
use crate::reader::{Draft, read_line};
use line_words::{MOST_FILE_BYTES, MOST_THOUSANDTHS, line_end};
use netlist::Circuit;
use std::alloc::{AllocError, Global};
use std::marker::Model;
use table_keys::TableKeys;
use ternary::{NoMemory, Unmade};

/// The most bytes that a reader holds of a line that hasn't ended: those of the longest line, a CR,
/// and one byte too many.
pub const MOST_HELD: usize = 65_538;

/// A reader of a netlist that comes in pieces.
///
/// It stands for the text that the pieces are, one after the other, wherever they fall. It holds
/// what the lines before gave, the sums of their capacitances by name included, and at most
/// `MOST_HELD` bytes of the line that hasn't ended, or the refusal of the text's first refused
/// line, and that line. Each byte is looked at for LF once, and copied once at most, those of a
/// refused line twice; after a refusal a piece is only counted.
#[derive(Drop)]
pub struct Reader {
    draft: Draft,
    // How many lines were ended by an LF.
    ended: u64,
    // How many bytes came, up to the first byte too many.
    bytes: usize,
    held: Vec<u8>,
    fault: Option<NetFault>,
    // The first refused line that an LF ended, as far as there was memory.
    refused: Vec<u8>,
}

impl Model for Reader {
    ghost use Rattle.std.specs.Prelude.{◌+◌, ◌*◌, ◌≤◌, length};
    ghost use Rattle.line_words.specs.declared.files.TheConstants.{MOST_FILE_BYTES};
    ghost use Rattle.line_words.specs.declared.points.TheConstants.{MOST_THOUSANDTHS};
    ghost use Rattle.sim_read.specs.Capacitances.{all_added};
    ghost use Rattle.sim_read.specs.Standing.{ReaderData};
    ghost use Rattle.sim_read.specs.declared.pieces.TheConstants.{MOST_HELD};

    ghost Value = { ReaderData };

    ghost view = { λ reader. record {
      draft = reader.draft;
      ended = reader.ended;
      bytes = reader.bytes;
      held = reader.held.items;
      fault = reader.fault;
    } };

    ghost invariant = { λ reader. (length reader.held.items ≤ MOST_HELD)
        × (reader.bytes ≤ MOST_FILE_BYTES + 1) × (reader.ended ≤ reader.bytes)
        × (4 * all_added reader.draft.sums + MOST_THOUSANDTHS * length reader.held.items ≤ MOST_THOUSANDTHS * reader.bytes) };
}

impl Reader {
    /// A reader of the empty text. Names are hashed from the keys, which the text's author must not
    /// know.
    pub fn new(alloc: Global, keys: TableKeys) -> Result<Reader, NoMemory>
        ensures { IfOk result (λ reader. StandsFor reader []) }
    {
        Ok(Reader {
            draft: Draft::new(alloc, keys)?,
            ended: 0,
            bytes: 0,
            held: Vec::new(alloc),
            fault: None,
            refused: Vec::new(alloc),
        })
    }

    /// Reads one more piece: the reader stands for the text that it stood for, followed by the
    /// piece.
    ///
    /// After lack of memory it stands for no text, and each further call answers lack of memory.
    pub fn feed(&mut self, piece: &[u8]) -> Result<(), NoMemory>
        ensures ok { OnOk result (GoesOn self.old self.new piece.now) }
        ensures err { OnErr result (LacksMemory self.new) }
        ensures stays { LacksMemory self.old → IsErr result }
    {
        if self.fault == Some(Unmade::NoMemory) {
            return Err(NoMemory);
        }
        let taken = self.take(piece);
        if taken.is_err() {
            self.fault = Some(Unmade::NoMemory);
        }
        taken
    }

    /// Ends the text: its circuit, or the refusal of its first refused line, as [`read_netlist`]
    /// answers it.
    pub fn finish(mut self) -> Result<Circuit, NetFault>
        ensures ok { IfOk result (λ circuit.
            (text : List ℕ) → StandsFor self text → netlist_of text ≡ Ok circuit) }
        ensures refused { IfErr result (λ fault.
            (text : List ℕ) → StandsFor self text → IsFault (netlist_of text) fault) }
        ensures visible { IfOk result (λ circuit.
            (text : List ℕ) → StandsFor self text → HasVisibleNames circuit) }
        ensures lacks { LacksMemory self → result ≡ Err Unmade.NoMemory }
    {
        if let Some(fault) = self.fault {
            return Err(fault);
        }
        if self.held.is_empty() {
            return finish_draft(self.draft);
        }
        match read_held(
            &mut self.draft,
            self.ended + 1,
            &self.held,
            &mut self.refused,
        )? {
            Some(fault) => Err(fault),
            None => finish_draft(self.draft),
        }
    }

    /// How many bytes it holds of the line that hasn't ended.
    pub fn held(&self) -> usize
        ensures bytes { result ≡ length self.now.held }
        ensures bound { result ≤ MOST_HELD }
    {
        self.held.len()
    }

    /// The line that is refused, if the text is refused as it stands: the first one that was refused,
    /// or else the one that hasn't ended. For lack of memory there are no bytes; no clause says what
    /// line it is.
    pub fn refused_line(&self) -> &[u8] {
        match self.fault {
            Some(_) => &self.refused,
            None => &self.held,
        }
    }

    // Reads the lines that end in the piece, and holds what is left of it.
    fn take(&mut self, piece: &[u8]) -> Result<(), NoMemory>
        ensures { OnOk result (GoesOn self.old self.new piece.now) }
    {
        let mut left = piece;
        'lines: while self.fault.is_none() {
            let Some(end) = line_end(left) else {
                return self.hold(left);
            };
            self.end_line(&left[..end])?;
            left = &left[end + 1..];
        }
        self.pass(left);
        Ok(())
    }

    // Ends the line that is held with these bytes and an LF, and reads it.
    fn end_line(&mut self, part: &[u8]) -> Result<(), NoMemory>
        requires open { self.old.fault ≡ None }
        requires unended { HasNoFeed part.now }
        ensures { OnOk result (GoesOn self.old self.new (part.now ++ line_feed ∷ [])) }
    {
        self.count(part.len() + 1);
        if self.bytes > MOST_FILE_BYTES {
            self.refuse_rest();
            return Ok(());
        }
        self.append(part)?;
        self.ended += 1;
        let read = read_held(&mut self.draft, self.ended, &self.held, &mut self.refused);
        self.held.clear();
        self.fault = read?;
        Ok(())
    }

    // Holds these bytes of a line that goes on.
    fn hold(&mut self, part: &[u8]) -> Result<(), NoMemory>
        requires open { self.old.fault ≡ None }
        requires unended { HasNoFeed part.now }
        ensures { OnOk result (GoesOn self.old self.new part.now) }
    {
        self.count(part.len());
        if self.bytes > MOST_FILE_BYTES {
            self.refuse_rest();
            return Ok(());
        }
        self.append(part)?;
        Ok(())
    }

    // Passes a piece of a text that is refused.
    fn pass(&mut self, piece: &[u8])
        requires { IsSome self.old.fault }
        ensures { GoesOn self.old self.new piece.now }
    {
        self.count(piece.len());
    }

    // Counts so many bytes, up to the first byte too many.
    fn count(&mut self, more: usize)
        ensures counts { self.new ≡ record self.old { bytes = counted self.old.bytes more } }
        ensures room { self.new.bytes ≤ MOST_FILE_BYTES → self.new.ended + more ≤ self.new.bytes }
        ensures space { self.new.bytes ≤ MOST_FILE_BYTES → 4 * all_added self.new.draft.sums
            + MOST_THOUSANDTHS * (length self.new.held + more) ≤ MOST_THOUSANDTHS * self.new.bytes }
    {
        self.bytes = self.bytes.saturating_add(more).min(MOST_FILE_BYTES + 1);
    }

    // Refuses the text at the line that hasn't ended, which holds the first byte too many.
    fn refuse_rest(&mut self)
        ensures { self.new ≡ record self.old { fault = Some (Unmade.Refused (too_far self.old.ended)) } }
    {
        self.fault = Some(Unmade::Refused(NetRefusal {
            line: self.ended + 1,
            what: NetWhat::TooLong,
        }));
    }

    // Holds as many of these bytes more as there is room for.
    fn append(&mut self, part: &[u8]) -> Result<(), AllocError>
        requires { 4 * all_added self.old.draft.sums
            + MOST_THOUSANDTHS * (length self.old.held + length part.now) ≤ MOST_THOUSANDTHS * self.old.bytes }
        ensures { OnOk result
            (self.new ≡ record self.old { held = take MOST_HELD (self.old.held ++ part.now) }) }
    {
        let room = part.len().min(MOST_HELD - self.held.len());
        self.held.extend_from_slice(&part[..room])
    }
}

// Reads a line that was held, with this number, into the draft: its refusal, if it has one. A refused line is kept,
// as far as there is memory.
fn read_held(
    draft: &mut Draft,
    number: u64,
    held: &[u8],
    refused: &mut Vec<u8>,
) -> Result<Option<NetFault>, NoMemory>
    requires { all_added draft.old.sums + 2 * MOST_THOUSANDTHS < 2 ^ 64 }
    ensures reads { IfOk result (λ fault.
        IsRead (line_meaning None draft.old (number, without_return held.now)) number draft.new fault) }
    ensures bound { 4 * all_added draft.new.sums ≤ 4 * all_added draft.old.sums + MOST_THOUSANDTHS * (1 + length held.now) }
{
    match read_line(draft, number, line_words::without_return(held)) {
        Ok(()) => Ok(None),
        Err(Unmade::Refused(what)) => {
            let _ = refused.extend_from_slice(held);
            Ok(Some(Unmade::Refused(NetRefusal { line: number, what })))
        }
        Err(Unmade::NoMemory) => Err(NoMemory),
    }
}

// The circuit of a draft whose lines all have their effect.
fn finish_draft(draft: Draft) -> Result<Circuit, NetFault>
    requires { all_added draft.sums < 2 ^ 64 }
    ensures ok { IfOk result (λ circuit. circuit ≡ sized draft) }
    ensures err { IfErr result (λ fault. fault ≡ Unmade.NoMemory) }
{
    Ok(draft.into_circuit()?)
}

/// Reads a netlist: the circuit of its lines in order, or the first line that is refused. Names are
/// hashed from the keys, which the text's author must not know.
///
/// Within a line the first of these causes wins: the line holds the first byte too many of the
/// text; it is too long; it has a bad byte; line 1 names a format that isn't known; it says profile 2
/// with thresholds that are none; its first word begins no record; it has too few words; a strength
/// or size isn't accepted; then what the edit itself refuses.
pub fn read_netlist(alloc: Global, keys: TableKeys, text: &[u8]) -> Result<Circuit, NetFault>
    ensures ok { IfOk result (λ circuit. netlist_of text.now ≡ Ok circuit) }
    ensures refused { IfErr result (IsFault (netlist_of text.now)) }
    ensures visible { IfOk result HasVisibleNames }
{
    let mut reader = Reader::new(alloc, keys)?;
    reader.feed(text)?;
    reader.finish()
}
