//! The good run of a script.

ghost use Rattle.std.specs.Prelude.{◌≡◌, None, map, IfOk};
ghost use Rattle.fault_runs.specs.Words.{called, named_entry, states_of, IsReady};
ghost use Rattle.fault_meaning.specs.Runnings as spec;

use column_stage::PlainStage;
use cosmos_session::Session;
use group_analysis::Analyst;
use script_lang::{Name, NameList};
use script_meaning::Halt;
use script_run::{Plain, obey_lines};
use std::alloc::Global;
use std::marker::Model;
use ternary::NoMemory;
use told_lines::{Notes, WaveRow};

/// The good run: what its waveform lines told, what the nodes of the watch list are called at its end, and the line
/// of the script that was refused, if one was. Contracts see its trace.
#[derive(Drop)]
pub(crate) struct GoodRun {
    notes: Notes,
    names: NameList,
    refused: Option<u64>,
}

impl Model for GoodRun {
    ghost use Rattle.told_lines.specs.Noting.{states_of};
    ghost use Rattle.fault_sim.specs.Traces.{Trace};

    ghost Value = { Trace };

    ghost view = { λ good. record { rows = states_of good.notes.rows; names = good.names; refused = good.refused } };
}

impl GoodRun {
    // What a run comes to that ended so in a session, and of which this was noted.
    fn new<M: PlainStage>(
        alloc: Global,
        session: &Session<M>,
        halt: Halt,
        notes: Notes,
    ) -> Result<GoodRun, NoMemory>
        ensures { IfOk result (spec.TellsTrace session.now.core halt notes.rows) }
    {
        let names = watched_names(alloc, session)?;
        Ok(GoodRun {
            notes,
            names,
            refused: refused_line(halt),
        })
    }

    /// The rows of its waveform lines, in order.
    pub(crate) fn rows(&self) -> &[WaveRow]
        ensures { self.now.rows ≡ states_of result.now }
    {
        self.notes.rows()
    }

    /// The name of an entry of the watch list, and no byte if there is none.
    pub(crate) fn entry_name(&self, entry: usize) -> &[u8]
        ensures { result.now ≡ named_entry self.now entry }
    {
        match self.names.items().get(entry) {
            Some(name) => name.items(),
            None => b"",
        }
    }
}

/// Runs a script in a session that stands at the start, and answers what that comes to and how it ended.
pub(crate) fn run_good<M: PlainStage, A: Analyst>(
    alloc: Global,
    session: &mut Session<M>,
    script: &[u8],
    analyst: &mut A,
) -> Result<(GoodRun, Halt), NoMemory>
    requires { spec.StandsAtStart session.old.core.circuit session.old.core }
    ensures { IfOk result (λ ran. spec.RunsTo session.old.core.circuit script.now session.old.core.kept None session.new.core
        (A.analysed analyst.old) (A.analysed analyst.new) ran.0 ran.1) }
{
    is_ready(session);
    let mut notes = Notes::new(alloc);
    let Ok(halt) = obey_lines(alloc, session, script, &Plain, &mut notes, analyst) else {
        return Err(NoMemory);
    };
    let good = GoodRun::new(alloc, session, halt, notes)?;
    Ok((good, halt))
}

/// Each session's data are ready: a call of this is for its contract alone.
pub(crate) fn is_ready<M: PlainStage>(session: &Session<M>)
    ensures { IsReady session.now.core }
{
    let _circuit = session.circuit();
    let _nodes = session.state().len();
}

// The first names of the watched nodes.
fn watched_names<M: PlainStage>(alloc: Global, session: &Session<M>) -> Result<NameList, NoMemory>
    ensures { IfOk result (λ names. names ≡ map (called session.now.core.circuit) session.now.core.watched) }
{
    let circuit = session.circuit();
    let mut names = NameList::new(alloc);
    for node in session.watched() {
        names.push(Name::from_slice(alloc, circuit.name_of(*node))?)?;
    }
    Ok(names)
}

// The line of the script that was refused, where one ended the run.
fn refused_line(halt: Halt) -> Option<u64>
    ensures { result ≡ spec.line_of halt }
{
    match halt {
        Halt::End => None,
        Halt::Refused(line, _) | Halt::TooLarge(line, _) => Some(line),
    }
}
