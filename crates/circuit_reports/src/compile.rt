//! What `compile` writes of a circuit.

ghost use Rattle.std.specs.Prelude.{◌≡◌, ◌≢◌, IfOk, IfErr, OnErr};
ghost use Rattle.ports.specs.Sending.{WritesPart};
ghost use Rattle.netlist.specs.Circuits.{IsCircuit, HasVisibleNames};
ghost use Rattle.linear_code.specs.Listing.{IsListing};
ghost use Rattle.linear_code.specs.TextPlaces.{IsPlace, text_from};
ghost use Rattle.circuit_reports.specs.Sendings.{SendsSome, IsTextOf};
ghost use Rattle.circuit_reports.specs.Answers.{IsCompiled};
ghost use Rattle.run_ends.specs.Ends.{IsTold, IsToldBy};
ghost use Rattle.run_ends.specs.Stops.{faults_written, IsRefusedOnce};

use circuit_listing::list_circuit;
use group_analysis::Analyst;
use linear_code::{Listing, TextPlace};
use netlist::Circuit;
use ports::{Sink, send};
use printed_lines::FaultPlace;
use run_ends::{End, Stop, refuse_size};
use std::alloc::Global;
use table_keys::TableKeys;

// How many bytes of a listing are sent at a time, or the last of a line more.
const PIECE: usize = 65_536;

/// Writes the listing of a circuit, or the line of the first group that is too large.
pub fn write_listing<S: Sink, A: Analyst>(
    alloc: Global,
    keys: TableKeys,
    circuit: &Circuit,
    out: &mut S,
    analyst: &mut A,
) -> Result<End, Stop>
    requires circuit { IsCircuit circuit.now }
    requires visible { HasVisibleNames circuit.now }
    ensures told { IsToldBy (IsCompiled circuit.now)
        (S.written out.old) (S.written out.new) (A.analysed analyst.old) (A.analysed analyst.new) result }
    ensures no_read { IfErr result (λ stop. stop ≢ Stop.Read) }
    ensures write { S.faults out.new ≡ faults_written (S.faults out.old) result }
    ensures refused { IsRefusedOnce (S.refusals out.old) (S.refusals out.new) result }
{
    match list_circuit(alloc, keys, circuit, analyst) {
        Ok(listing) => send_listing(alloc, &listing, out),
        Err(fault) => {
            let place = FaultPlace::NetWhole;
            refuse_size(alloc, place, circuit, fault, End::NetRefused, out)
        }
    }
}

// Writes the text of a listing, in pieces.
fn send_listing<S: Sink>(alloc: Global, listing: &Listing, out: &mut S) -> Result<End, Stop>
    ensures told { IsTold (IsTextOf listing.now) (S.written out.old) (S.written out.new) result }
    ensures listing { IsListing listing.now }
    ensures no_read { IfErr result (λ stop. stop ≢ Stop.Read) }
    ensures write { S.faults out.new ≡ faults_written (S.faults out.old) result }
    ensures refused { IsRefusedOnce (S.refusals out.old) (S.refusals out.new) result }
{
    let mut place = listing.text_start();
    let mut more = true;
    while more {
        more = send_some(alloc, listing, &mut place, out)?;
    }
    Ok(End::Done)
}

// Writes the next piece of a listing's text and moves the place behind it, and answers whether any is
// left.
fn send_some<S: Sink>(
    alloc: Global,
    listing: &Listing,
    place: &mut TextPlace,
    out: &mut S,
) -> Result<bool, Stop>
    requires { IsPlace listing.now place.old }
    ensures sent { IfOk result (λ more. SendsSome listing.now
        place.old place.new (S.written out.old) (S.written out.new) more) }
    ensures part { OnErr result
        (WritesPart (S.written out.old) (S.written out.new) (text_from listing.now place.old)) }
    ensures no_read { IfErr result (λ stop. stop ≢ Stop.Read) }
    ensures write { S.faults out.new ≡ faults_written (S.faults out.old) result }
    ensures refused { IsRefusedOnce (S.refusals out.old) (S.refusals out.new) result }
{
    let mut piece = Vec::new(alloc);
    let more = listing.write_some(place, PIECE, &mut piece)?;
    match send(out, &piece) {
        Ok(()) => Ok(more),
        Err(fault) => Err(Stop::of_write(fault)),
    }
}
