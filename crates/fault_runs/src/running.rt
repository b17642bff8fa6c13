//! The start of a run under a fault.

ghost use Rattle.std.specs.Prelude.{◌≡◌, [], None, Some, All, OnOk};
ghost use Rattle.fault_runs.specs.Words.{commands_in, commands_under, refusal_of, AreDone, Does, HasVisibleNames, IsFault, IsFormed};
ghost use Rattle.fault_meaning.specs.Runnings as spec;

use column_stage::PlainStage;
use cosmos_session::{ApplyFault, Session};
use fault_sim::{Fault, fault_commands};
use group_analysis::Analyst;
use netlist::Circuit;
use script_lang::Command;
use std::alloc::Global;
use ternary::NoMemory;
use told_lines::Silence;

/// Puts a fault into the circuit of a session, by its commands.
pub(crate) fn put_fault<M: PlainStage, A: Analyst>(
    alloc: Global,
    session: &mut Session<M>,
    start: &Circuit,
    fault: Fault,
    analyst: &mut A,
) -> Result<(), NoMemory>
    requires stands { spec.StandsAtStart start.now session.old.core }
    requires visible { HasVisibleNames start.now }
    requires fault { IsFault start.now fault }
    ensures done { OnOk result (AreDone session.old.core (commands_under start.now (Some fault)) session.new.core) }
    ensures analysed { OnOk result (A.analysed analyst.new ≡ A.analysed analyst.old) }
{
    // for its contract alone: a circuit keeps itself well formed
    let _graph = start.graph();
    let commands = fault_commands(alloc, start, fault)?;
    do_commands(session, commands, analyst)
}

// Does the commands of a fault.
fn do_commands<M: PlainStage, A: Analyst>(
    session: &mut Session<M>,
    commands: (Command, Option<Command>),
    analyst: &mut A,
) -> Result<(), NoMemory>
    requires formed { All IsFormed (commands_in commands) }
    requires quiet { All spec.IsQuiet (commands_in commands) }
    requires allowed { spec.AreAllowed session.old.core (commands_in commands) }
    ensures done { OnOk result (AreDone session.old.core (commands_in commands) session.new.core) }
    ensures analysed { OnOk result (A.analysed analyst.new ≡ A.analysed analyst.old) }
{
    match commands {
        (first, Some(second)) => {
            do_command(session, &first, analyst)?;
            do_command(session, &second, analyst)
        }
        (first, None) => do_command(session, &first, analyst),
    }
}

// Does a command that is not refused, and builds and tells nothing: memory alone can be lacking.
fn do_command<M: PlainStage, A: Analyst>(
    session: &mut Session<M>,
    command: &Command,
    analyst: &mut A,
) -> Result<(), NoMemory>
    requires formed { IsFormed command.now }
    requires quiet { spec.IsQuiet command.now }
    requires allowed { refusal_of session.old.core command.now ≡ None }
    ensures done { OnOk result (Does session.old.core command.now session.new.core []) }
    ensures analysed { OnOk result (A.analysed analyst.new ≡ A.analysed analyst.old) }
{
    let mut out = Silence::new();
    match session.apply(command, analyst, &mut out) {
        Ok(()) => Ok(()),
        Err(fault) => Err(want_of_memory(fault)),
    }
}

// The fault of a command that nothing but lack of memory can end.
fn want_of_memory(fault: ApplyFault) -> NoMemory
    requires { fault ≡ ApplyFault.NoMemory }
{
    match fault {
        ApplyFault::NoMemory => NoMemory,
        _ => unreachable!(),
    }
}
