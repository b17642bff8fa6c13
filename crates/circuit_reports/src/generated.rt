//! What `gen` writes.

ghost use Rattle.std.specs.Prelude.{◌≡◌, ◌≢◌, IfErr};
ghost use Rattle.command_line.specs.Samples.{sample_seen};
ghost use Rattle.circuit_reports.specs.Answers.{IsGenerated};
ghost use Rattle.run_ends.specs.Ends.{IsTold};
ghost use Rattle.run_ends.specs.Stops.{faults_written, IsRefusedOnce};

use command_line::Sample;
use net_gen::{GenPart, generate};
use ports::{Sink, send};
use run_ends::{End, Stop};
use std::alloc::Global;

/// Writes a part of a sample.
pub fn write_part<S: Sink>(
    alloc: Global,
    part: GenPart,
    sample: Sample,
    out: &mut S,
) -> Result<End, Stop>
    ensures told { IsTold
        (IsGenerated part (sample_seen sample)) (S.written out.old) (S.written out.new) result }
    ensures no_read { IfErr result (λ stop. stop ≢ Stop.Read) }
    ensures write { S.faults out.new ≡ faults_written (S.faults out.old) result }
    ensures refused { IsRefusedOnce (S.refusals out.old) (S.refusals out.new) result }
{
    let text = generate(alloc, sample.kind, part, sample.seed, sample.rows)?;
    match send(out, &text) {
        Ok(()) => Ok(End::Done),
        Err(fault) => Err(Stop::of_write(fault)),
    }
}
