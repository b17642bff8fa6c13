//! Obeying a line as a script's.
ghost use Rattle.std.specs.Prelude.{◌≡◌};
ghost use Rattle.talk_run.specs.Words.{mind_of, said_fault, faults_after, IsObeyed, Speaks, TalkMind};

use crate::refusals::{refuse, refuse_named, word_of};
use crate::teller::Teller;
use column_stage::PlainStage;
use cosmos_session::Session;
use group_analysis::Analyst;
use line_words::Line;
use ports::PortFault;
use run_ends::Stop;
use script_meaning::Turn;
use script_run::{Plain, run_line, size_cause};
use std::alloc::Global;
use talk_port::Talk;

/// Obeys a line as a script's, and says what it writes, or the line of its refusal.
pub(crate) fn obey<M: PlainStage, T: Talk + Drop, A: Analyst>(
    alloc: Global,
    session: &mut Session<M>,
    line: Line<'_>,
    out: &mut Teller<T>,
    analyst: &mut A,
) -> Result<(), PortFault>
    ensures said { Speaks
        (λ text. IsObeyed (mind_of session.old.core line.entry.number (A.analysed analyst.old)) line.entry.bytes.now text
        (mind_of session.new.core line.entry.number (A.analysed analyst.new)))
        (λ text. (end : TalkMind) × IsObeyed (mind_of session.old.core line.entry.number (A.analysed analyst.old)) line.entry.bytes.now text end)
        out.old.spoken.talk out.new.spoken.talk result }
    ensures hearing { out.new.spoken.unheard ≡ out.old.spoken.unheard }
    ensures faults { out.new.faults ≡ faults_after out.old.faults result }
{
    match run_line(alloc, session, None, line, &Plain, out, analyst) {
        Ok(Turn::Accepted) => Ok(()),
        Ok(Turn::Refused(code)) => {
            let word = word_of(code, line.bytes, session);
            refuse(alloc, line.number, code, word, out)
        }
        Ok(Turn::TooLarge(size)) => {
            let (code, name, count) = size_cause(session.circuit(), size);
            refuse_named(alloc, line.number, code, name, count, name, out)
        }
        Err(stop) => Err(fault_of(stop)),
    }
}

// The fault of a port that stopped a line.
fn fault_of(stop: Stop) -> PortFault
    ensures { result ≡ said_fault stop }
{
    match stop {
        Stop::Memory => PortFault::NoMemory,
        Stop::Read | Stop::Write => PortFault::Failed,
    }
}
