//! What `help` and `version` write.

ghost use Rattle.std.specs.Prelude.{◌≡◌, ◌≢◌, IfErr};
ghost use Rattle.circuit_reports.specs.Answers.{IsShown};
ghost use Rattle.run_ends.specs.Ends.{IsTold};
ghost use Rattle.run_ends.specs.Stops.{faults_written, IsRefusedOnce};

use ports::{Sink, send};
use run_ends::{End, Stop};

/// Writes a text as it stands.
pub fn show_text<S: Sink>(text: &str, out: &mut S) -> Result<End, Stop>
    ensures told { IsTold (IsShown text.now) (S.written out.old) (S.written out.new) result }
    ensures no_read { IfErr result (λ stop. stop ≢ Stop.Read) }
    ensures write { S.faults out.new ≡ faults_written (S.faults out.old) result }
    ensures refused { IsRefusedOnce (S.refusals out.old) (S.refusals out.new) result }
{
    match send(out, text.as_bytes()) {
        Ok(()) => Ok(End::Done),
        Err(fault) => Err(Stop::of_write(fault)),
    }
}
