//! What the text that the program writes for `compile NET` is worth to whoever has it alone.

ghost use Rattle.std.specs.Prelude.{◌≡◌, length, IfOk, MatchOption};
ghost use Rattle.ports.specs.HonestPorts.{held};
ghost use Rattle.switch_paths.specs.Step.{IsStep};
ghost use Rattle.netlist.specs.Circuits.{CircuitData};
ghost use Rattle.linear_code.specs.Listing.{ListingData, IsListing, IsListingStep};
ghost use Rattle.linear_code.specs.ListingText.{listing_text};
ghost use Rattle.command_line.specs.Requests.{names_of};
ghost use Rattle.tests_cosmos.specs.Written.{AskForListing, IsStateOf};

use crate::run_in_memory;
use cosmos_app::Status;
use group_analysis::Analyst;
use linear_code::{ListingFault, read_listing};
use ports::{HonestFiles, HonestSink};
use std::alloc::Global;
use ternary::{NoMemory, Tern};
use told_lines::Printer;

/// The states after a unit step of a netlist's circuit, by the text alone that the program writes for the
/// words `compile NET`.
///
/// None only if the words ask for something else, the netlist is refused, a group is too large, or
/// there isn't one state for each node.
pub fn step_by_program<A: Analyst>(
    alloc: Global,
    words: &[String],
    files: &mut HonestFiles,
    state: &[Tern],
    analyst: &mut A,
) -> Result<Option<Vec<Tern>>, NoMemory>
    ensures { (circuit : CircuitData) → AskForListing (names_of words.now) (held files.old.table) circuit → IsStateOf circuit state.now
        → IfOk result (λ told. MatchOption told ⊥ (λ next. IsStep circuit.graph state.now next.items)) }
{
    let unwritten = HonestSink::new(alloc);
    let out = Printer::new(alloc, unwritten, false)?;
    let (status, sink) = run_in_memory(alloc, words, files, out, analyst);
    if status == Status::NoMemory {
        return Err(NoMemory);
    }
    step_of_text(alloc, sink.written(), state)
}

// The states after a step of the listing that a text is; none only if it is no listing, or there isn't
// one state for each node.
fn step_of_text(alloc: Global, text: &[u8], state: &[Tern]) -> Result<Option<Vec<Tern>>, NoMemory>
    ensures { (listing : ListingData) → IsListing listing → listing_text listing ≡ text.now → length state.now ≡ length listing.entries
        → IfOk result (λ told. MatchOption told ⊥ (λ next. IsListingStep listing state.now next.items)) }
{
    match read_listing(alloc, text) {
        Ok(listing) => {
            if listing.nodes() == state.len() {
                let next = listing.step(alloc, state)?;
                return Ok(Some(next));
            }
            Ok(None)
        }
        Err(ListingFault::BadListing { .. }) => Ok(None),
        Err(ListingFault::NoMemory) => Err(NoMemory),
    }
}
