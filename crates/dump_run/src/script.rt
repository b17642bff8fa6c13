//! Running the lines of a script, and writing what they tell as a dump.

ghost use Rattle.std.specs.Prelude.{◌≡◌, ◌≢◌, false, None, true, IfErr, OnErr, OnOk};
ghost use Rattle.line_words.specs.Files as file;
ghost use Rattle.dump_run.specs.Words.{IsCircuit, IsFormed, first_sheet, IsHeldSession, IsReady, IsToldBy, IsRefusedOnce, faults_written};
ghost use Rattle.script_lang.specs.declared.command.Command.TheVariants as family;
ghost use Rattle.script_lang.specs.declared.command.Setup.TheVariants as setup;
ghost use Rattle.wave_dump.specs.Writing as writing;
ghost use Rattle.dump_run.specs.Dumped.{IsDumpFrom, IsDumped, entry_of, is_move, is_watch};
ghost use Rattle.dump_run.specs.Turns.{ClosesDump, DumpsAll, DumpsCommand, DumpsRun, DumpsTurn, EndsDump, Rests, watched_in};

use column_stage::PlainStage;
use cosmos_session::Session;
use group_analysis::Analyst;
use line_words::{Line, cut_line, front, lines};
use netlist::Circuit;
use node_words::Named;
use ports::Sink;
use printed_lines::{FaultCode, LineBuf};
use run_ends::{End, Stop};
use script_lang::{Command, Name, NameList, Run, Setup};
use script_meaning::{Halt, Turn};
use script_run::{LineReader, Plain, end_of, refuse_halt, script_code, turn_of};
use std::alloc::Global;
use ternary::NoMemory;
use told_lines::Silence;
use wave_dump::{Dump, dumps_are_told};

/// Runs the lines of a script from the start in a circuit, and writes the run to the sink as a value change dump. It hands back
/// the sink.
///
/// The dump is written as the run goes. A fault of the sink ends the run, behind the command at which it came at the latest.
pub fn dump_script<M: PlainStage, S: Sink + Drop, A: Analyst>(
    alloc: Global,
    circuit: Circuit,
    text: &[u8],
    out: S,
    analyst: &mut A,
) -> (S, Result<End, Stop>)
    requires { IsCircuit circuit }
    ensures told { IsToldBy (IsDumped text.now circuit) (S.written out) (S.written result.0)
        (A.analysed analyst.old) (A.analysed analyst.new) result.1 }
    ensures no_read { IfErr result.1 (λ stop. stop ≢ Stop.Read) }
    ensures write { S.faults result.0 ≡ faults_written (S.faults out) result.1 }
    ensures refused { IsRefusedOnce (S.refusals out) (S.refusals result.0) result.1 }
{
    let raw = LineBuf::new(alloc, 0);
    let session = Session::<M>::new(alloc, circuit);
    match (raw, session) {
        (Ok(raw), Ok(session)) => dump_in(
            alloc,
            session,
            text,
            Dump::new(alloc, raw, out),
            analyst,
        ),
        _ => (out, Err(Stop::Memory)),
    }
}

// Runs the lines of a script in a session that is at its start, with a writer to which nothing was told yet.
fn dump_in<M: PlainStage, S: Sink + Drop, A: Analyst>(
    alloc: Global,
    session: Session<M>,
    text: &[u8],
    out: Dump<S>,
    analyst: &mut A,
) -> (S, Result<End, Stop>)
    requires ready { IsReady session.core }
    requires first { out.sheet ≡ first_sheet out.sheet.before }
    ensures told { IsToldBy (IsDumpFrom text.now session.core) out.sheet.before.written (S.written result.0)
        (A.analysed analyst.old) (A.analysed analyst.new) result.1 }
    ensures no_read { IfErr result.1 (λ stop. stop ≢ Stop.Read) }
    ensures write { S.faults result.0 ≡ faults_written out.sheet.before.faults result.1 }
    ensures refused { IsRefusedOnce out.sheet.before.refusals (S.refusals result.0) result.1 }
{
    dumps_are_told();
    let (mut session, mut out) = (session, out);
    match run_lines(alloc, &mut session, text, &mut out, analyst) {
        Ok(end) => finish(&session, end, out),
        Err(_) => close(out),
    }
}

// Ends the dump in the session's state, after a run that ended so.
fn finish<M: PlainStage, S: Sink + Drop>(
    session: &Session<M>,
    end: End,
    out: Dump<S>,
) -> (S, Result<End, Stop>)
    requires { Rests out.sheet session.now.core.state }
    ensures { EndsDump session.now.core.state out.sheet end
        (record { written = S.written result.0; faults = S.faults result.0; refusals = S.refusals result.0 }) result.1 }
{
    let (sink, finished) = out.finish(session.state());
    match finished {
        Ok(()) => (sink, Ok(end)),
        Err(fault) => (sink, Err(Stop::of_write(fault))),
    }
}

// Leaves the dump off after a run that was stopped: by a fault of the sink, or else for lack of memory.
fn close<S: Sink + Drop>(out: Dump<S>) -> (S, Result<End, Stop>)
    ensures { ClosesDump out.sheet
        (record { written = S.written result.0; faults = S.faults result.0; refusals = S.refusals result.0 }) result.1 }
{
    let (sink, closed) = out.close();
    match closed {
        Ok(()) => (sink, Err(Stop::Memory)),
        Err(fault) => (sink, Err(Stop::of_write(fault))),
    }
}

// Runs the lines of a script, and tells the refusal that ended them, if one did.
fn run_lines<M: PlainStage, S: Sink + Drop, A: Analyst>(
    alloc: Global,
    session: &mut Session<M>,
    text: &[u8],
    out: &mut Dump<S>,
    analyst: &mut A,
) -> Result<End, Stop>
    requires ready { IsReady session.old.core }
    requires rests { Rests out.old.sheet session.old.core.state }
    requires unrefused { out.old.sheet.refused ≡ None }
    ensures told { DumpsRun (file.cut_line text.now) session.old.core (file.lines_in text.now) session.new.core
        out.old.sheet out.new.sheet (A.analysed analyst.old) (A.analysed analyst.new) result }
    ensures rests { OnOk result (Rests out.new.sheet session.new.core.state) }
{
    let halt = obey_dumped(alloc, session, text, out, analyst)?;
    match halt {
        Halt::End => Ok(end_of(session)),
        _ => {
            let vectors = session.vectors();
            refuse_halt(alloc, session.circuit(), vectors, halt, text, 1, out)
        }
    }
}

// Obeys the lines of a script, and dumps what they tell.
fn obey_dumped<M: PlainStage, S: Sink + Drop, A: Analyst>(
    alloc: Global,
    session: &mut Session<M>,
    text: &[u8],
    out: &mut Dump<S>,
    analyst: &mut A,
) -> Result<Halt, Stop>
    requires ready { IsReady session.old.core }
    requires rests { Rests out.old.sheet session.old.core.state }
    ensures told { DumpsAll (file.cut_line text.now) session.old.core (file.lines_in text.now) session.new.core
        out.old.sheet out.new.sheet (A.analysed analyst.old) (A.analysed analyst.new) result }
    ensures rests { OnOk result (Rests out.new.sheet session.new.core.state) }
{
    let cut = cut_line(text);
    for line in lines(front(text)) {
        match dump_line(alloc, session, cut, line, out, analyst)? {
            Turn::Accepted => {}
            Turn::Refused(code) => return Ok(Halt::Refused(line.number, code)),
            Turn::TooLarge(fault) => return Ok(Halt::TooLarge(line.number, fault)),
        }
    }
    Ok(Halt::End)
}

// Obeys one line, and dumps what it tells.
fn dump_line<M: PlainStage, S: Sink + Drop, A: Analyst>(
    alloc: Global,
    session: &mut Session<M>,
    cut: Option<u64>,
    line: Line<'_>,
    out: &mut Dump<S>,
    analyst: &mut A,
) -> Result<Turn, Stop>
    requires { Rests out.old.sheet session.old.core.state }
    ensures turn { DumpsTurn cut (line.entry.number, line.entry.bytes.now) session.old.core session.new.core
        out.old.sheet out.new.sheet (A.analysed analyst.old) (A.analysed analyst.new) result }
    ensures rests { OnOk result (Rests out.new.sheet session.new.core.state) }
{
    if cut == Some(line.number) {
        return Ok(Turn::Refused(FaultCode::S11TooLong));
    }
    match Plain.read(alloc, line.bytes, session.circuit(), session.vectors()) {
        Ok(Some(command)) => dump_command(session, &command, out, analyst),
        Ok(None) => Ok(Turn::Accepted),
        Err(fault) => match script_code(fault) {
            Some(code) => Ok(Turn::Refused(code)),
            None => Err(Stop::Memory),
        },
    }
}

// Obeys a command, and dumps what it tells.
#[tactic(auto, using(crate::proofs::CommandLemmas::still_by, crate::proofs::CommandLemmas::moving_run, crate::proofs::CommandLemmas::wordless_by, crate::proofs::CommandLemmas::wordless_setup))]
fn dump_command<M: PlainStage, S: Sink + Drop, A: Analyst>(
    session: &mut Session<M>,
    command: &Command,
    out: &mut Dump<S>,
    analyst: &mut A,
) -> Result<Turn, Stop>
    requires formed { IsFormed command.now }
    requires session { IsHeldSession M.columns M.states M.serves session.old }
    requires rests { Rests out.old.sheet session.old.core.state }
    ensures turn { DumpsCommand command.now session.old.core session.new.core
        out.old.sheet out.new.sheet (A.analysed analyst.old) (A.analysed analyst.new) result }
    ensures rests { OnOk result (Rests out.new.sheet session.new.core.state) }
{
    match command {
        Command::Setup(setup) => match setup {
            Setup::Watch(names) => watch(session, command, names, out, analyst),
            _ => tell_lines(session, command, out, analyst),
        },
        Command::Run(run) => match run {
            Run::Report => tell_lines(session, command, out, analyst),
            _ => move_on(session, command, out, analyst),
        },
        _ => tell_lines(session, command, out, analyst),
    }
}

// Obeys a command that takes no step and watches nothing, and dumps its lines.
fn tell_lines<M: PlainStage, S: Sink + Drop, A: Analyst>(
    session: &mut Session<M>,
    command: &Command,
    out: &mut Dump<S>,
    analyst: &mut A,
) -> Result<Turn, Stop>
    requires formed { IsFormed command.now }
    requires still { is_move command.now ≡ false }
    requires other { is_watch command.now ≡ false }
    requires rests { Rests out.old.sheet session.old.core.state }
    ensures turn { DumpsCommand command.now session.old.core session.new.core
        out.old.sheet out.new.sheet (A.analysed analyst.old) (A.analysed analyst.new) result }
    ensures rests { OnOk result (Rests out.new.sheet session.new.core.state) }
{
    turn_of(session.apply(command, analyst, out))
}

// Obeys a `step`, `phase` or `cycle`, at which the dump looks on.
fn move_on<M: PlainStage, S: Sink + Drop, A: Analyst>(
    session: &mut Session<M>,
    command: &Command,
    out: &mut Dump<S>,
    analyst: &mut A,
) -> Result<Turn, Stop>
    requires formed { IsFormed command.now }
    requires moves { is_move command.now ≡ true }
    requires session { IsHeldSession M.columns M.states M.serves session.old }
    requires rests { Rests out.old.sheet session.old.core.state }
    ensures turn { DumpsCommand command.now session.old.core session.new.core
        out.old.sheet out.new.sheet (A.analysed analyst.old) (A.analysed analyst.new) result }
    ensures rests { OnOk result (Rests out.new.sheet session.new.core.state) }
{
    let mut silence = Silence::new();
    let turn = turn_of(session.apply_seen(command, analyst, &mut silence, out))?;
    match out.answer() {
        Ok(()) => Ok(turn),
        Err(fault) => Err(Stop::of_write(fault)),
    }
}

// Obeys a `watch`, whose words are told at the dump's head: behind it there are no more.
fn watch<M: PlainStage, S: Sink + Drop, A: Analyst>(
    session: &mut Session<M>,
    command: &Command,
    names: &NameList,
    out: &mut Dump<S>,
    analyst: &mut A,
) -> Result<Turn, Stop>
    requires formed { IsFormed command.now }
    requires is { command.now ≡ family.Setup (setup.Watch names.now) }
    requires session { IsHeldSession M.columns M.states M.serves session.old }
    requires rests { Rests out.old.sheet session.old.core.state }
    ensures turn { DumpsCommand command.now session.old.core session.new.core
        out.old.sheet out.new.sheet (A.analysed analyst.old) (A.analysed analyst.new) result }
    ensures rests { OnOk result (Rests out.new.sheet session.new.core.state) }
{
    if out.is_begun() {
        return Ok(Turn::Refused(FaultCode::S17LateWatch));
    }
    match turn_of(session.apply(command, analyst, out))? {
        Turn::Accepted => {
            watch_all(session, names.items(), out)?;
            Ok(Turn::Accepted)
        }
        turn => Ok(turn),
    }
}

// Has the dump watch these words, which stand for nodes.
fn watch_all<M: PlainStage, S: Sink + Drop>(
    session: &Session<M>,
    names: &[Name],
    out: &mut Dump<S>,
) -> Result<(), NoMemory>
    requires { out.old.sheet.page.shown ≡ None }
    ensures ok { OnOk result (out.new.sheet ≡ watched_in session.now.core names.now out.old.sheet) }
    ensures due { out.new.sheet.due ≡ out.old.sheet.due }
    ensures sink { out.new.sheet.before ≡ out.old.sheet.before }
{
    for name in names {
        watch_word(session, name.items(), out)?;
    }
    Ok(())
}

// Has the dump watch a word, which stands for nodes.
fn watch_word<M: PlainStage, S: Sink + Drop>(
    session: &Session<M>,
    name: &[u8],
    out: &mut Dump<S>,
) -> Result<(), NoMemory>
    requires { out.old.sheet.page.shown ≡ None }
    ensures ok { OnOk result (out.new.sheet ≡ writing.watch out.old.sheet (entry_of session.now.core.circuit session.now.core.vectors name.now)) }
    ensures err { OnErr result (out.new.sheet ≡ out.old.sheet) }
{
    match session.vectors().named(session.circuit(), name) {
        Named::Node(node) => out.watch(name, &[node]),
        Named::Vector(nodes) => out.watch(name, nodes),
        Named::Nothing => out.watch(name, &[]),
    }
}
