//! What `cover` writes: which of 0 and 1 each node never had while a script ran.

ghost use Rattle.std.specs.Prelude.{◌≡◌, ◌≢◌, length, IfErr};
ghost use Rattle.script_reports.specs.Words.{faults_written, IsCircuit, IsCovered, IsHaltCovered, TellsNotes, IsRefusedOnce, IsTold, IsToldBy, TellsSize};

use crate::unwritten::{refuse_at, run_unwritten};
use column_stage::PlainStage;
use cosmos_session::Session;
use group_analysis::Analyst;
use netlist::Circuit;
use ports::Sink;
use run_ends::{End, Stop};
use script_meaning::Halt;
use state_cover::{Cover, write_cover};
use std::alloc::Global;
use told_lines::Printer;

/// Runs the lines of a script from the start in a circuit, none of which is written, and tells of each node that is
/// there at their end which of 0 and 1 it never had; or writes the line of the refusal that ended them.
pub fn cover_script<M: PlainStage, S: Sink + Drop, A: Analyst>(
    alloc: Global,
    circuit: Circuit,
    text: &[u8],
    out: &mut Printer<S>,
    analyst: &mut A,
) -> Result<End, Stop>
    requires { IsCircuit circuit }
    ensures told { IsToldBy (IsCovered text.now circuit)
        out.old.page.written out.new.page.written (A.analysed analyst.old) (A.analysed analyst.new) result }
    ensures no_read { IfErr result (λ stop. stop ≢ Stop.Read) }
    ensures write { out.new.faults ≡ faults_written out.old.faults result }
    ensures refused { IsRefusedOnce out.old.refusals out.new.refusals result }
{
    let mut session = Session::<M>::new(alloc, circuit)?;
    let mut cover = Cover::new(alloc);
    cover.note_all(session.state())?;
    let halt = run_unwritten(alloc, &mut session, text, analyst, &mut cover)?;
    cover_at(alloc, &session, halt, text, &cover, out)
}

// Tells the cover where the lines of a script ended, or writes the line of the refusal that ended them.
fn cover_at<M: PlainStage, S: Sink + Drop>(
    alloc: Global,
    session: &Session<M>,
    halt: Halt,
    text: &[u8],
    cover: &Cover,
    out: &mut Printer<S>,
) -> Result<End, Stop>
    requires size { TellsSize session.now.core halt }
    requires noted { halt ≡ Halt.End → length cover.now ≡ length session.now.core.state }
    ensures told { IsTold (IsHaltCovered cover.now session.now.core halt) out.old.page.written out.new.page.written result }
    ensures no_read { IfErr result (λ stop. stop ≢ Stop.Read) }
    ensures write { out.new.faults ≡ faults_written out.old.faults result }
    ensures refused { IsRefusedOnce out.old.refusals out.new.refusals result }
{
    match halt {
        Halt::End => tell_cover(alloc, session, cover, out),
        _ => refuse_at(alloc, session, halt, text, out),
    }
}

// Writes the cover of the session's circuit.
fn tell_cover<M: PlainStage, S: Sink>(
    alloc: Global,
    session: &Session<M>,
    cover: &Cover,
    out: &mut S,
) -> Result<End, Stop>
    requires { length cover.now ≡ length session.now.core.state }
    ensures told { IsTold (TellsNotes cover.now session.now.core) (S.written out.old) (S.written out.new) result }
    ensures no_read { IfErr result (λ stop. stop ≢ Stop.Read) }
    ensures write { S.faults out.new ≡ faults_written (S.faults out.old) result }
    ensures refused { IsRefusedOnce (S.refusals out.old) (S.refusals out.new) result }
{
    match write_cover(alloc, session.circuit(), cover, out) {
        Ok(()) => Ok(End::Done),
        Err(fault) => Err(Stop::of_write(fault)),
    }
}
