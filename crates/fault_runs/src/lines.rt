//! The lines of a script, each of which is read once for all runs, and how they run while a node may be stuck.

ghost use Rattle.std.specs.Prelude.{◌≡◌, ℕ, List, Ok, Option, Some, false, IfOk, IfSome};
ghost use Rattle.line_words.specs.Files.{is_cut};
ghost use Rattle.script_lang.specs.Commands.{reading_of};
ghost use Rattle.fault_runs.specs.Lines.{AreRead, WasRead};
ghost use Rattle.fault_runs.specs.Words.{masked_reading, IsFormed, TakesTurn};

use column_stage::PlainStage;
use cosmos_session::Session;
use fault_sim::{Left, masked};
use group_analysis::Analyst;
use line_words::{front, lines};
use printed_lines::FaultCode;
use run_ends::Stop;
use script_lang::{Command, ItemList, ScriptFault, read_command};
use script_meaning::Turn;
use script_run::{run_command, script_code};
use std::alloc::Global;
use ternary::{NoMemory, Tern};
use told_lines::Lines;

/// A line of a script as it is read: its number, and the command that it asks for, None if there is nothing to do, or why it is no command.
#[derive(Drop)]
pub(crate) struct ReadLine {
    pub(crate) number: u64,
    pub(crate) asked: Result<Option<Command>, ScriptFault>,
}

/// The lines of a script as they are read, which contracts see as a list.
pub(crate) type ReadLines = ItemList<ReadLine>;

/// Reads the lines of a script.
pub(crate) fn read_lines(alloc: Global, script: &[u8]) -> Result<ReadLines, NoMemory>
    ensures { IfOk result (AreRead script.now) }
{
    let mut read = ReadLines::new(alloc);
    for line in lines(front(script)) {
        let asked = asked_by(alloc, line.bytes)?;
        let number = line.number;
        read.push(ReadLine { number, asked })?;
    }
    Ok(read)
}

// What a line asks for.
fn asked_by(alloc: Global, line: &[u8]) -> Result<Result<Option<Command>, ScriptFault>, NoMemory>
    ensures { IfOk result (λ asked. reading_of line.now ≡ asked) }
{
    match read_command(alloc, line) {
        Ok(asked) => Ok(Ok(asked)),
        Err(ScriptFault::NoMemory) => Err(NoMemory),
        Err(fault) => Ok(Err(fault)),
    }
}

/// Runs a line of a script as it was read, while a node may be stuck; the one that holds the first byte too many of the script is refused.
pub(crate) fn run_read<M: PlainStage, L: Lines, A: Analyst>(
    alloc: Global,
    session: &mut Session<M>,
    cut: Option<u64>,
    line: &ReadLine,
    stuck: Option<(usize, Tern)>,
    out: &mut L,
    analyst: &mut A,
) -> Result<Turn, Stop>
    requires { WasRead line.now }
    ensures { (text : List ℕ) → reading_of text ≡ line.now.asked → TakesTurn L.hear L.part (masked_reading stuck)
        cut (line.now.number, text) session.old.core session.new.core
        (L.heard out.old) (L.heard out.new) (A.analysed analyst.old) (A.analysed analyst.new) result }
{
    if cut == Some(line.number) {
        return Ok(Turn::Refused(FaultCode::S11TooLong));
    }
    match &line.asked {
        Ok(asked) => run_asked(alloc, session, asked, stuck, out, analyst),
        Err(fault) => match script_code(*fault) {
            Some(code) => Ok(Turn::Refused(code)),
            None => Err(Stop::Memory),
        },
    }
}

// Runs the command that a line asks for, if it does, while a node may be stuck.
fn run_asked<M: PlainStage, L: Lines, A: Analyst>(
    alloc: Global,
    session: &mut Session<M>,
    asked: &Option<Command>,
    stuck: Option<(usize, Tern)>,
    out: &mut L,
    analyst: &mut A,
) -> Result<Turn, Stop>
    requires { IfSome asked.now IsFormed }
    ensures { (cut : Option ℕ) (line : ℕ × List ℕ) → is_cut cut line.0 ≡ false → reading_of line.1 ≡ Ok asked.now →
        TakesTurn L.hear L.part (masked_reading stuck) cut line session.old.core session.new.core
        (L.heard out.old) (L.heard out.new) (A.analysed analyst.old) (A.analysed analyst.new) result }
{
    match asked {
        Some(command) => run_masked(alloc, session, command, stuck, out, analyst),
        None => Ok(Turn::Accepted),
    }
}

// Runs what is left of a command while a node may be stuck.
fn run_masked<M: PlainStage, L: Lines, A: Analyst>(
    alloc: Global,
    session: &mut Session<M>,
    command: &Command,
    stuck: Option<(usize, Tern)>,
    out: &mut L,
    analyst: &mut A,
) -> Result<Turn, Stop>
    requires { IsFormed command.now }
    ensures { (cut : Option ℕ) (line : ℕ × List ℕ) → is_cut cut line.0 ≡ false → reading_of line.1 ≡ Ok (Some command.now) →
        TakesTurn L.hear L.part (masked_reading stuck) cut line session.old.core session.new.core
        (L.heard out.old) (L.heard out.new) (A.analysed analyst.old) (A.analysed analyst.new) result }
{
    let (circuit, vectors) = (session.circuit(), session.vectors());
    let Ok(left) = masked(alloc, command, circuit, vectors, session.guesses(), stuck) else {
        return Err(Stop::Memory);
    };
    match &left {
        Left::Same => run_command(session, command, out, analyst),
        Left::Other(other) => run_command(session, other, out, analyst),
        Left::Nothing => Ok(Turn::Accepted),
    }
}
