//! The circuit that a name stands for: that of a deck if it is the name of one, and else that of a netlist.

ghost use Rattle.std.specs.Prelude.{◌≡◌, ◌≢◌, ◌+◌, [], ◌∷◌, IfErr, IfOk, IfSome};
ghost use Rattle.cosmos_app.specs.Words.{TakesFiles, HasVisibleNames, IsCircuit, StartsFile, ReadsWhole, IsTold};
ghost use Rattle.cosmos_app.specs.Words.{faults_read, faults_written, IsRefusedOnce};
ghost use Rattle.cosmos_app.specs.Named as spec;
ghost use Rattle.cosmos_app.specs.Named.{circuit_by, circuit_named, IsCircuitRefusal};

use circuit_files::{read_circuit, read_deck_file};
use circuit_reports::{refuse_deck, refuse_net};
use command_line::is_deck_name;
use line_words::MOST_FILE_BYTES;
use netlist::Circuit;
use ports::{Files, Sink};
use run_ends::{End, Stop};
use sim_read::NetRefusal;
use spice_cards::DeckRefusal;
use std::alloc::Global;

/// The refusal of a netlist or of a deck.
#[derive(Clone, Copy, Debug, PartialEq, Eq)]
pub enum CircuitRefusal {
    /// That of a netlist.
    Net(NetRefusal),
    /// That of a deck.
    Deck(DeckRefusal),
}

/// Reads the netlist with this name, or the deck if the name is that of one: its circuit, or its first refusal.
///
/// A refusal is answered after the file was read to its end, or to the first byte too many. The refused line or card is put
/// behind what `refused` holds, as far as there is memory; no clause says so.
pub fn read_named<F: Files>(
    alloc: Global,
    files: &mut F,
    name: &str,
    refused: &mut Vec<u8>,
) -> Result<Result<Circuit, CircuitRefusal>, Stop>
    ensures means { IfOk result (λ meaning.
        IfSome (F.holds files.old) (λ holds. circuit_named name.now (holds name.now) ≡ meaning)) }
    ensures circuit { IfOk result (λ meaning. IfOk meaning IsCircuit) }
    ensures holds { F.holds files.new ≡ F.holds files.old }
    ensures started { StartsFile (F.started files.old) (F.started files.new) name.now result }
    ensures whole { IfOk result (λ _. IfSome (F.holds files.old) (λ holds.
        ReadsWhole (F.taken files.old) (F.taken files.new) holds (name.now ∷ []))) }
    ensures taken { TakesFiles (F.taken files.old) (F.taken files.new) (MOST_FILE_BYTES + 1) }
    ensures read { F.faults files.new ≡ faults_read (F.faults files.old) result }
    ensures no_write { IfErr result (λ stop. stop ≢ Stop.Write) }
{
    read_by(alloc, files, is_deck_name(name), name, refused)
}

/// Reads the deck with this name, or else the netlist, as `read_named` does.
pub(crate) fn read_by<F: Files>(
    alloc: Global,
    files: &mut F,
    deck: bool,
    name: &str,
    refused: &mut Vec<u8>,
) -> Result<Result<Circuit, CircuitRefusal>, Stop>
    ensures means { IfOk result (λ meaning.
        IfSome (F.holds files.old) (λ holds. circuit_by deck (holds name.now) ≡ meaning)) }
    ensures circuit { IfOk result (λ meaning. IfOk meaning IsCircuit) }
    ensures visible { IfOk result (λ meaning. IfOk meaning HasVisibleNames) }
    ensures holds { F.holds files.new ≡ F.holds files.old }
    ensures started { StartsFile (F.started files.old) (F.started files.new) name.now result }
    ensures whole { IfOk result (λ _. IfSome (F.holds files.old) (λ holds.
        ReadsWhole (F.taken files.old) (F.taken files.new) holds (name.now ∷ []))) }
    ensures taken { TakesFiles (F.taken files.old) (F.taken files.new) (MOST_FILE_BYTES + 1) }
    ensures read { F.faults files.new ≡ faults_read (F.faults files.old) result }
    ensures no_write { IfErr result (λ stop. stop ≢ Stop.Write) }
{
    if deck {
        let cards = read_deck_file(alloc, files, name, refused)?;
        Ok(of_deck(cards))
    } else {
        let lines = read_circuit(alloc, files, name, refused)?;
        Ok(of_net(lines))
    }
}

// What a deck means, with its refusal as one of a netlist or a deck.
fn of_deck(read: Result<Circuit, DeckRefusal>) -> Result<Circuit, CircuitRefusal>
    ensures { result ≡ spec.of_deck read }
{
    match read {
        Ok(circuit) => Ok(circuit),
        Err(refusal) => Err(CircuitRefusal::Deck(refusal)),
    }
}

// What a netlist means, with its refusal as one of a netlist or a deck.
fn of_net(read: Result<Circuit, NetRefusal>) -> Result<Circuit, CircuitRefusal>
    ensures { result ≡ spec.of_net read }
{
    match read {
        Ok(circuit) => Ok(circuit),
        Err(refusal) => Err(CircuitRefusal::Net(refusal)),
    }
}

/// Writes the line of the refusal of a netlist or a deck. The cure is noted besides, with a word of the refused line or card,
/// which is passed for that alone.
pub fn refuse_circuit<S: Sink>(
    alloc: Global,
    refusal: CircuitRefusal,
    line: &[u8],
    out: &mut S,
) -> Result<End, Stop>
    ensures told { IsTold (IsCircuitRefusal refusal) (S.written out.old) (S.written out.new) result }
    ensures no_read { IfErr result (λ stop. stop ≢ Stop.Read) }
    ensures write { S.faults out.new ≡ faults_written (S.faults out.old) result }
    ensures refused { IsRefusedOnce (S.refusals out.old) (S.refusals out.new) result }
{
    match refusal {
        CircuitRefusal::Net(refusal) => refuse_net(alloc, refusal, line, out),
        CircuitRefusal::Deck(refusal) => refuse_deck(alloc, refusal.line, refusal.what, line, out),
    }
}
