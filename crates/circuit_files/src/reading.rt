//! Reading files, and the netlist or the deck that one holds.

ghost use Rattle.std.specs.Prelude.{◌≡◌, ◌≢◌, ◌+◌, ◌<◌, ◌≤◌, ℕ, List, [], ◌∷◌, length, IfSome, IfOk, IfErr, OnOk, OnErr, vec_len};
ghost use Rattle.ports.specs.Ports.{Opens};
ghost use Rattle.ports.specs.Taken.{TakesAtMost, TakesFiles, with_files, with_more};
ghost use Rattle.line_words.specs.Files as file;
ghost use Rattle.netlist.specs.Circuits.{IsCircuit, HasVisibleNames};
ghost use Rattle.sim_read.specs.Meaning.{netlist_of};
ghost use Rattle.sim_read.specs.Standing.{StandsFor};
ghost use Rattle.spice_read.specs.Making.{circuit_of};
ghost use Rattle.run_ends.specs.Stops.{faults_read};
ghost use Rattle.circuit_files.specs.Words.{FeedsFile, FeedsFront, FeedsPiece, ReadsWhole, StartsFile};

use line_words::MOST_FILE_BYTES;
use netlist::Circuit;
use ports::{Files, read_front};
use refusal_words::card_at;
use run_ends::Stop;
use sim_read::{NetRefusal, Reader};
use spice_cards::DeckRefusal;
use spice_read::read_deck;
use std::alloc::Global;
use table_keys::TableKeys;
use ternary::{NoMemory, Unmade};

// How many bytes of a netlist are read at a time.
const PIECE: usize = 65_536;

/// Reads a file to its end, or to the first byte too many.
pub fn read_file<F: Files>(alloc: Global, files: &mut F, name: &str) -> Result<Vec<u8>, Stop>
    ensures bytes { IfOk result (λ text.
        IfSome (F.holds files.old) (λ holds. text.items ≡ file.front_of (holds name.now))) }
    ensures bound { IfOk result (λ text. vec_len text ≤ MOST_FILE_BYTES + 1) }
    ensures holds { F.holds files.new ≡ F.holds files.old }
    ensures started { StartsFile (F.started files.old) (F.started files.new) name.now result }
    ensures whole { IfOk result (λ text.
        F.taken files.new ≡ with_files (F.taken files.old) (length text.items ∷ [])) }
    ensures taken { TakesFiles (F.taken files.old) (F.taken files.new) (MOST_FILE_BYTES + 1) }
    ensures read { F.faults files.new ≡ faults_read (F.faults files.old) result }
    ensures no_write { IfErr result (λ stop. stop ≢ Stop.Write) }
{
    match read_front(alloc, files, name, MOST_FILE_BYTES + 1) {
        Ok(text) => Ok(text),
        Err(fault) => Err(Stop::of_read(fault)),
    }
}

/// Reads the netlist with this name: its circuit, or the refusal of its first refused line.
///
/// Each piece of the file is let go once it is read. A refusal is answered after the file was read
/// to its end, or to the first byte too many. The refused line is put behind what `refused` holds, as far as
/// there is memory; no clause says so.
pub fn read_circuit<F: Files>(
    alloc: Global,
    files: &mut F,
    name: &str,
    refused: &mut Vec<u8>,
) -> Result<Result<Circuit, NetRefusal>, Stop>
    ensures means { IfOk result (λ meaning.
        IfSome (F.holds files.old) (λ holds. netlist_of (holds name.now) ≡ meaning)) }
    ensures circuit { IfOk result (λ meaning. IfOk meaning IsCircuit) }
    ensures visible { IfOk result (λ meaning. IfOk meaning HasVisibleNames) }
    ensures holds { F.holds files.new ≡ F.holds files.old }
    ensures started { StartsFile (F.started files.old) (F.started files.new) name.now result }
    ensures whole { IfOk result (λ _. IfSome (F.holds files.old) (λ holds.
        ReadsWhole (F.taken files.old) (F.taken files.new) holds (name.now ∷ []))) }
    ensures taken { TakesFiles (F.taken files.old) (F.taken files.new) (MOST_FILE_BYTES + 1) }
    ensures read { F.faults files.new ≡ faults_read (F.faults files.old) result }
    ensures no_write { IfErr result (λ stop. stop ≢ Stop.Write) }
{
    let mut reader = Reader::new(alloc, files.keys())?;
    feed_file(alloc, files, name, &mut reader)?;
    keep(reader.refused_line(), refused);
    finish(reader)
}

// Puts a refused line behind what is held, as far as there is memory.
fn keep(line: &[u8], refused: &mut Vec<u8>) {
    let _ = refused.extend_from_slice(line);
}

/// Reads the deck with this name: its circuit, or its first refusal.
///
/// A refusal is answered after the file was read to its end, or to the first byte too many. The refused card is put
/// behind what `refused` holds, as far as there is memory; no clause says so.
#[tactic(auto, using(crate::proofs::FeedingLemmas::memory_no_write, crate::proofs::FeedingLemmas::read_whole, crate::proofs::FeedingLemmas::started_whole))]
pub fn read_deck_file<F: Files>(
    alloc: Global,
    files: &mut F,
    name: &str,
    refused: &mut Vec<u8>,
) -> Result<Result<Circuit, DeckRefusal>, Stop>
    ensures means { IfOk result (λ meaning.
        IfSome (F.holds files.old) (λ holds. circuit_of (holds name.now) ≡ meaning)) }
    ensures circuit { IfOk result (λ meaning. IfOk meaning IsCircuit) }
    ensures visible { IfOk result (λ meaning. IfOk meaning HasVisibleNames) }
    ensures holds { F.holds files.new ≡ F.holds files.old }
    ensures started { StartsFile (F.started files.old) (F.started files.new) name.now result }
    ensures whole { IfOk result (λ _. IfSome (F.holds files.old) (λ holds.
        ReadsWhole (F.taken files.old) (F.taken files.new) holds (name.now ∷ []))) }
    ensures taken { TakesFiles (F.taken files.old) (F.taken files.new) (MOST_FILE_BYTES + 1) }
    ensures read { F.faults files.new ≡ faults_read (F.faults files.old) result }
    ensures no_write { IfErr result (λ stop. stop ≢ Stop.Write) }
{
    let text = read_file(alloc, files, name)?;
    deck_in(alloc, files.keys(), &text, refused)
}

// The circuit of a deck's text, or its refusal; the refused card is put behind what is held.
fn deck_in(
    alloc: Global,
    keys: TableKeys,
    text: &[u8],
    refused: &mut Vec<u8>,
) -> Result<Result<Circuit, DeckRefusal>, Stop>
    ensures means { IfOk result (λ meaning. circuit_of text.now ≡ meaning) }
    ensures circuit { IfOk result (λ meaning. IfOk meaning IsCircuit) }
    ensures visible { IfOk result (λ meaning. IfOk meaning HasVisibleNames) }
    ensures memory { IfErr result (λ stop. stop ≡ Stop.Memory) }
{
    match read_deck(alloc, keys, text) {
        Ok(circuit) => Ok(Ok(circuit)),
        Err(Unmade::Refused(refusal)) => {
            keep_card(alloc, text, refusal.line, refused);
            Ok(Err(refusal))
        }
        Err(Unmade::NoMemory) => Err(Stop::Memory),
    }
}

// Puts the card that begins on the line with this number behind what is held, as far as there is memory.
fn keep_card(alloc: Global, text: &[u8], number: u64, refused: &mut Vec<u8>) {
    if let Ok(card) = card_at(alloc, text, number) {
        keep(&card, refused);
    }
}

// Ends the text of a netlist: its circuit, or its refusal.
fn finish(reader: Reader) -> Result<Result<Circuit, NetRefusal>, Stop>
    ensures means { IfOk result (λ meaning.
        (text : List ℕ) → StandsFor reader text → netlist_of text ≡ meaning) }
    ensures visible { IfOk result (λ meaning.
        (text : List ℕ) → StandsFor reader text → IfOk meaning HasVisibleNames) }
    ensures memory { IfErr result (λ stop. stop ≡ Stop.Memory) }
{
    match reader.finish() {
        Ok(circuit) => Ok(Ok(circuit)),
        Err(Unmade::Refused(refusal)) => Ok(Err(refusal)),
        Err(Unmade::NoMemory) => Err(Stop::Memory),
    }
}

// Starts the file of this name and feeds it to the reader, to its end or to the first byte too many.
fn feed_file<F: Files>(
    alloc: Global,
    files: &mut F,
    name: &str,
    reader: &mut Reader,
) -> Result<(), Stop>
    ensures fed { OnOk result (FeedsFile (F.holds files.old) name.now
        (F.taken files.old) (F.taken files.new) reader.old reader.new) }
    ensures holds { F.holds files.new ≡ F.holds files.old }
    ensures started { StartsFile (F.started files.old) (F.started files.new) name.now result }
    ensures taken { TakesFiles (F.taken files.old) (F.taken files.new) (MOST_FILE_BYTES + 1) }
    ensures read { F.faults files.new ≡ faults_read (F.faults files.old) result }
    ensures no_write { IfErr result (λ stop. stop ≢ Stop.Write) }
{
    let mut buffer = zeros(alloc, PIECE)?;
    start_file(files, name)?;
    feed_rest(files, &mut buffer, reader)
}

// So many zeros.
fn zeros(alloc: Global, count: usize) -> Result<Vec<u8>, NoMemory>
    ensures { IfOk result (λ bytes. vec_len bytes ≡ count) }
{
    Ok(vec![in alloc; 0; count]?)
}

// Starts the file of this name.
fn start_file<F: Files>(files: &mut F, name: &str) -> Result<(), Stop>
    ensures opens { OnOk result (Opens (F.holds files.old) name.now (F.rest files.new)) }
    ensures opened { OnOk result (F.taken files.new ≡ with_files (F.taken files.old) (0 ∷ [])) }
    ensures taken { OnErr result (TakesFiles (F.taken files.old) (F.taken files.new) 0) }
    ensures holds { F.holds files.new ≡ F.holds files.old }
    ensures started { StartsFile (F.started files.old) (F.started files.new) name.now result }
    ensures read { F.faults files.new ≡ faults_read (F.faults files.old) result }
    ensures no_write { IfErr result (λ stop. stop ≢ Stop.Write) }
{
    match files.start(name) {
        Ok(()) => Ok(()),
        Err(fault) => Err(Stop::of_read(fault)),
    }
}

// Feeds the started file to the reader, to its end or to the first byte too many.
fn feed_rest<F: Files>(files: &mut F, buffer: &mut [u8], reader: &mut Reader) -> Result<(), Stop>
    requires { 0 < length buffer.old }
    ensures fed { OnOk result (FeedsFront (F.rest files.old) (F.rest files.new)
        (F.taken files.old) (F.taken files.new) (MOST_FILE_BYTES + 1) reader.old reader.new) }
    ensures holds { F.holds files.new ≡ F.holds files.old }
    ensures started { F.started files.new ≡ F.started files.old }
    ensures taken { TakesAtMost (F.taken files.old) (F.taken files.new) (MOST_FILE_BYTES + 1) }
    ensures read { F.faults files.new ≡ faults_read (F.faults files.old) result }
    ensures no_write { IfErr result (λ stop. stop ≢ Stop.Write) }
{
    let mut left = MOST_FILE_BYTES + 1;
    while left > 0 {
        let count = feed_piece(files, buffer, left, reader)?;
        if count == 0 {
            return Ok(());
        }
        left -= count;
    }
    Ok(())
}

// Reads one more piece, as far as the buffer and `most` have room, and feeds it to the reader.
fn feed_piece<F: Files>(
    files: &mut F,
    buffer: &mut [u8],
    most: usize,
    reader: &mut Reader,
) -> Result<usize, Stop>
    requires room { 0 < length buffer.old }
    requires some { 0 < most }
    ensures fed { IfOk result (FeedsPiece (F.rest files.old) (F.rest files.new) reader.old reader.new) }
    ensures bound { IfOk result (λ count. count ≤ most) }
    ensures counted { IfOk result (λ count. F.taken files.new ≡ with_more (F.taken files.old) count) }
    ensures holds { F.holds files.new ≡ F.holds files.old }
    ensures started { F.started files.new ≡ F.started files.old }
    ensures taken { TakesAtMost (F.taken files.old) (F.taken files.new) most }
    ensures read { F.faults files.new ≡ faults_read (F.faults files.old) result }
    ensures no_write { IfErr result (λ stop. stop ≢ Stop.Write) }
{
    let room = buffer.len().min(most);
    let piece = &mut buffer[..room];
    match files.read(piece) {
        Ok(count) => {
            reader.feed(&piece[..count])?;
            Ok(count)
        }
        Err(fault) => Err(Stop::of_read(fault)),
    }
}
