//! Where the lines of a comparison are written, and counted.
ghost use Rattle.std.specs.Prelude.{◌≡◌, ◌≢◌, ◌+◌, [], IfErr, IfOk, OnErr, OnOk};
ghost use Rattle.std.specs.Io.KnownBytes.{append_known};
ghost use Rattle.ports.specs.Sending.{WritesPart};
ghost use Rattle.run_ends.specs.Stops.{write_stop_of};
ghost use Rattle.symbol_meaning.specs.Comparing.{difference_text};
ghost use Rattle.symbol_told.specs.Differences.{counted_text, difference_seen};
ghost use Rattle.symbol_comparing.specs.Workspaces.{ending_by};
ghost use Rattle.symbol_comparing.specs.Told.{faults_compared, RefusedCompared};

use crate::fault::CompareFault;
use ports::{PortFault, Sink};
use printed_lines::LineBuf;
use run_ends::{End, Stop};
use script_lang::Name;
use std::marker::Model;
use symbol_told::{DifferenceShown, send_count, send_difference};

/// A sink for the lines of a comparison, with the number of those that were written.
#[derive(Drop)]
pub(crate) struct Workspace<S: Sink + Drop> {
    buffer: LineBuf,
    count: u64,
    sink: S,
}

impl<S: Sink + Drop> Model for Workspace<S> {
    ghost use Rattle.std.specs.Prelude.{◌≡◌, []};
    ghost use Rattle.symbol_comparing.specs.Workspaces.{WorkspaceData};

    ghost Value = { WorkspaceData };

    ghost view = { λ workspace. record { written = S.written workspace.sink; count = workspace.count; faults = S.faults workspace.sink; refusals = S.refusals workspace.sink } };

    ghost invariant = { λ workspace. workspace.buffer.bytes ≡ [] };
}

impl<S: Sink + Drop> Workspace<S> {
    // No line yet, by way of a buffer without bytes.
    pub(crate) fn new(buffer: LineBuf, sink: S) -> Workspace<S>
        requires { buffer.bytes ≡ [] }
        ensures { result ≡ record { written = S.written sink; count = 0; faults = S.faults sink; refusals = S.refusals sink } }
    {
        Workspace {
            buffer,
            count: 0,
            sink,
        }
    }

    // Writes the line of a difference.
    #[tactic(auto, using(crate::proofs::FaultLemmas::write_counts, crate::proofs::FaultLemmas::write_refused, ports::proofs::SendingLemmas::part_none))]
    pub(crate) fn tell(
        &mut self,
        variables: &[Name],
        own: DifferenceShown,
    ) -> Result<(), CompareFault>
        ensures ok { OnOk result (self.new.written ≡ append_known self.old.written (difference_text variables.now (difference_seen own.entry))) }
        ensures part { OnErr result (WritesPart self.old.written self.new.written (difference_text variables.now (difference_seen own.entry))) }
        ensures count { OnOk result (self.new.count ≡ self.old.count + 1) }
        ensures write { self.new.faults ≡ faults_compared self.old.faults result }
        ensures refused { RefusedCompared self.old.refusals self.new.refusals result }
        ensures stopped { IfErr result (λ why. why ≢ CompareFault.Full) }
    {
        let Some(count) = self.count.checked_add(1) else {
            return Err(CompareFault::Stopped(Stop::Memory));
        };
        match send_difference(&mut self.buffer, variables, own, &mut self.sink) {
            Ok(()) => {
                self.count = count;
                Ok(())
            }
            Err(fault) => Err(of_write(fault)),
        }
    }

    // Writes the last line, and tells how the comparison ends.
    #[tactic(auto, using(crate::proofs::FaultLemmas::write_counts, crate::proofs::FaultLemmas::write_refused))]
    pub(crate) fn end(&mut self, waves: u64) -> Result<End, CompareFault>
        ensures ok { OnOk result (self.new.written ≡ append_known self.old.written (counted_text waves self.old.count)) }
        ensures part { OnErr result (WritesPart self.old.written self.new.written (counted_text waves self.old.count)) }
        ensures ends { IfOk result (λ ended. ended ≡ ending_by self.old.count) }
        ensures write { self.new.faults ≡ faults_compared self.old.faults result }
        ensures refused { RefusedCompared self.old.refusals self.new.refusals result }
        ensures stopped { IfErr result (λ why. why ≢ CompareFault.Full) }
    {
        match send_count(&mut self.buffer, waves, self.count, &mut self.sink) {
            Ok(()) => Ok(ending_with(self.count)),
            Err(fault) => Err(of_write(fault)),
        }
    }

    // The sink, with all that was written.
    pub(crate) fn into_sink(self) -> S
        ensures written { S.written result ≡ self.written }
        ensures faults { S.faults result ≡ self.faults }
        ensures refusals { S.refusals result ≡ self.refusals }
    {
        let Workspace { sink, .. } = self;
        sink
    }
}

// How a comparison with so many differences ends.
fn ending_with(count: u64) -> End
    ensures { result ≡ ending_by count }
{
    if count == 0 { End::Done } else { End::Mismatch }
}

// What a fault of writing ends it with.
fn of_write(fault: PortFault) -> CompareFault
    ensures { result ≡ CompareFault.Stopped (write_stop_of fault) }
{
    CompareFault::Stopped(Stop::of_write(fault))
}
