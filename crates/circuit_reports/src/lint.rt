//! What `lint` writes of a circuit.

ghost use Rattle.std.specs.Prelude.{◌≡◌, ◌≢◌, IfErr};
ghost use Rattle.run_ends.specs.Ends.{IsTold, status_of};
ghost use Rattle.run_ends.specs.Stops.{faults_written, IsRefusedOnce};
ghost use Rattle.circuit_reports.specs.Answers.{IsLinted, lint_status};

use circuit_lint::{Findings, findings_of, text_of};
use netlist::Circuit;
use ports::{Sink, send};
use run_ends::{End, Stop};
use std::alloc::Global;
use table_keys::TableKeys;

/// Writes the lines of a circuit's findings, and the line of their numbers. All memory that this needs is taken before
/// the first byte is written.
pub fn list_findings<S: Sink>(
    alloc: Global,
    keys: TableKeys,
    circuit: &Circuit,
    out: &mut S,
) -> Result<End, Stop>
    ensures told { IsTold (IsLinted circuit.now) (S.written out.old) (S.written out.new) result }
    ensures no_read { IfErr result (λ stop. stop ≢ Stop.Read) }
    ensures write { S.faults out.new ≡ faults_written (S.faults out.old) result }
    ensures refused { IsRefusedOnce (S.refusals out.old) (S.refusals out.new) result }
{
    let found = findings_of(alloc, circuit, keys)?;
    let text = text_of(alloc, circuit, &found)?;
    match send(out, &text) {
        Ok(()) => Ok(end_of(&found)),
        Err(fault) => Err(Stop::of_write(fault)),
    }
}

// How a run ends that told these findings.
fn end_of(found: &Findings) -> End
    ensures { status_of result ≡ lint_status found.now }
{
    if found.is_clean() {
        End::Done
    } else {
        End::Mismatch
    }
}
