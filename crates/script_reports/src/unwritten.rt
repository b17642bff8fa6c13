//! Obeying the lines of a script that aren't written, and the line of the refusal that ended them.

ghost use Rattle.std.specs.Prelude.{◌≡◌, ◌≢◌, Ok, IfErr, IfOk};
ghost use Rattle.script_reports.specs.Words.{faults_written, hear_nothing, plain_reading, HaltsAt, IsHaltRefused, IsReady, IsRefusedOnce, IsTold, SeesAll, TellsSize};
ghost use Rattle.line_words.specs.Files as file;

use column_stage::PlainStage;
use cosmos_session::Session;
use group_analysis::Analyst;
use ports::Sink;
use run_ends::{End, Stop};
use script_meaning::Halt;
use script_run::{Plain, obey_seen, refuse_halt};
use settling::Onlooker;
use std::alloc::Global;
use told_lines::{Printer, Silence};

/// Obeys the lines of a script, which nobody hears, under the eyes of an onlooker, who knows the session's state.
pub(crate) fn run_unwritten<M: PlainStage, A: Analyst, O: Onlooker>(
    alloc: Global,
    session: &mut Session<M>,
    text: &[u8],
    analyst: &mut A,
    onlooker: &mut O,
) -> Result<Halt, Stop>
    requires ready { IsReady session.old.core }
    requires knows { O.knows onlooker.old session.old.core.state }
    ensures halts { IfOk result (HaltsAt hear_nothing plain_reading
        (file.cut_line text.now) session.old.core (file.lines_in text.now) session.new.core
        tt tt (A.analysed analyst.old) (A.analysed analyst.new)) }
    ensures memory { IfErr result (λ stop. stop ≡ Stop.Memory) }
    ensures seen { result ≡ Ok Halt.End → SeesAll O.begin O.see O.rest plain_reading
        (file.cut_line text.now) session.old.core (file.lines_in text.now) session.new.core (O.seen onlooker.old) (O.seen onlooker.new) }
    ensures knows { result ≡ Ok Halt.End → O.knows onlooker.new session.new.core.state }
{
    let mut nobody = Silence::new();
    obey_seen(alloc, session, text, &Plain, &mut nobody, analyst, onlooker)
}

/// Writes the line of the refusal that ended the lines of a script.
pub(crate) fn refuse_at<M: PlainStage, S: Sink + Drop>(
    alloc: Global,
    session: &Session<M>,
    halt: Halt,
    text: &[u8],
    out: &mut Printer<S>,
) -> Result<End, Stop>
    requires short { halt ≢ Halt.End }
    requires size { TellsSize session.now.core halt }
    ensures told { IsTold (IsHaltRefused session.now.core halt) out.old.page.written out.new.page.written result }
    ensures no_read { IfErr result (λ stop. stop ≢ Stop.Read) }
    ensures write { out.new.faults ≡ faults_written out.old.faults result }
    ensures refused { IsRefusedOnce out.old.refusals out.new.refusals result }
{
    let vectors = session.vectors();
    refuse_halt(alloc, session.circuit(), vectors, halt, text, 1, out)
}
