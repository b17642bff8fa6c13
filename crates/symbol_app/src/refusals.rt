//! The line of the refusal of a netlist or a deck, behind a text and in the place of a run under all valuations.

ghost use Rattle.std.specs.Prelude.{◌≡◌, ◌≢◌, List, IfErr};
ghost use Rattle.cosmos_app.specs.Named.{IsCircuitRefusal};
ghost use Rattle.group_text.specs.Texts.{GroupTextData};
ghost use Rattle.run_ends.specs.Ends.{IsTold};
ghost use Rattle.run_ends.specs.Stops.{faults_written, IsRefusedOnce};
ghost use Rattle.symbol_app.specs.InTurn.{IsBehind};
ghost use Rattle.symbol_app.specs.Symbolic.{IsNever, IsToldInAll};

use crate::ends::SymbolEnd;
use cosmos_app::{CircuitRefusal, refuse_circuit};
use ports::{Sink, send};
use run_ends::{End, Stop};
use std::alloc::Global;

// Writes a text, and behind it the line of the refusal of a netlist or a deck.
fn refuse_behind<S: Sink>(
    alloc: Global,
    front: &[u8],
    refusal: CircuitRefusal,
    line: &[u8],
    out: &mut S,
) -> Result<End, Stop>
    ensures told { IsTold (IsBehind front.now (IsCircuitRefusal refusal)) (S.written out.old) (S.written out.new) result }
    ensures no_read { IfErr result (λ stop. stop ≢ Stop.Read) }
    ensures write { S.faults out.new ≡ faults_written (S.faults out.old) result }
    ensures refused { IsRefusedOnce (S.refusals out.old) (S.refusals out.new) result }
{
    match send(out, front) {
        Ok(()) => refuse_circuit(alloc, refusal, line, out),
        Err(fault) => Err(Stop::of_write(fault)),
    }
}

/// Writes a text, and behind it the line of the refusal of a netlist or a deck, in the place of a run under all valuations. It
/// hands back the sink.
pub(crate) fn refuse_in_all<S: Sink + Drop>(
    alloc: Global,
    front: &[u8],
    refusal: CircuitRefusal,
    line: &[u8],
    out: S,
) -> (S, Result<SymbolEnd, Stop>)
    ensures told { (asked : List GroupTextData) → IsToldInAll (IsBehind front.now (IsCircuitRefusal refusal)) IsNever
        (S.written out) (S.written result.0) asked asked result.1 }
    ensures no_read { IfErr result.1 (λ stop. stop ≢ Stop.Read) }
    ensures write { S.faults result.0 ≡ faults_written (S.faults out) result.1 }
    ensures refused { IsRefusedOnce (S.refusals out) (S.refusals result.0) result.1 }
{
    let mut sink = out;
    match refuse_behind(alloc, front, refusal, line, &mut sink) {
        Ok(end) => (sink, Ok(SymbolEnd::Ended(end))),
        Err(stop) => (sink, Err(stop)),
    }
}
