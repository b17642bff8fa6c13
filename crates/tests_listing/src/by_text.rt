//! What a listing is worth to whoever has its text alone.

ghost use Rattle.std.specs.Prelude.{◌≡◌, length, IfOk};
ghost use Rattle.switch_paths.specs.Graphs.{nodes};
ghost use Rattle.switch_paths.specs.Rails.{IsSound};
ghost use Rattle.switch_paths.specs.Step.{IsStep};
ghost use Rattle.netlist.specs.Circuits.{HasVisibleNames};

use circuit_listing::{BuildFault, list_circuit};
use group_analysis::Analyst;
use linear_code::{Listing, ListingFault, read_listing};
use netlist::Circuit;
use std::alloc::Global;
use table_keys::TableKeys;
use ternary::{NoMemory, Tern};

/// Writes a listing and reads its text: what is read back is the same listing, so it means the same.
///
/// The reader refuses no text that was written: lack of memory is the only error.
pub fn read_back(alloc: Global, listing: &Listing) -> Result<Listing, NoMemory>
    ensures { IfOk result (λ read. read ≡ listing.now) }
{
    let mut text = Vec::new(alloc);
    listing.write(&mut text)?;
    match read_listing(alloc, &text) {
        Ok(read) => Ok(read),
        Err(ListingFault::BadListing { .. }) => unreachable!(),
        Err(ListingFault::NoMemory) => Err(NoMemory),
    }
}

/// The states after a unit step of a circuit, by the text of its listing alone: the circuit is
/// compiled, its listing is written, and what is read back of the text makes the step.
///
/// A circuit with a group that is too large has no listing.
pub fn step_by_text<A: Analyst>(
    alloc: Global,
    keys: TableKeys,
    circuit: &Circuit,
    state: &[Tern],
    analyst: &mut A,
) -> Result<Vec<Tern>, BuildFault>
    requires visible { HasVisibleNames circuit.now }
    requires states { length state.now ≡ nodes circuit.now.graph }
    requires sound { IsSound state.now }
    ensures { IfOk result (λ next. IsStep circuit.now.graph state.now next.items) }
{
    let listing = list_circuit(alloc, keys, circuit, analyst)?;
    let read = read_back(alloc, &listing)?;
    Ok(read.step(alloc, state)?)
}
