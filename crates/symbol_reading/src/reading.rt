//! Reading all lines, up to the first that is refused.
ghost use Rattle.std.specs.Prelude.{◌≡◌, ◌≢◌, IfOk};
ghost use Rattle.line_words.specs.Files as file;
ghost use Rattle.symbol_meaning.specs.Scripts.{asked_lines, bound_in, bound_of_command};
ghost use Rattle.symbol_reading.specs.Reading.{ended, number_or, read_data, rest_read, Reads, Takes};

use crate::USUAL_BOUND;
use crate::naming::{defined_name, used_names};
use line_words::{Line, cut_line, front, lines};
use script_lang::{NameList, ScriptFault};
use std::alloc::Global;
use symbol_lines::{NameFault, ScriptNames, SymbolCommand};
use symbol_script::{SymbolLine, read_symbol_line};
use table_keys::TableKeys;
use ternary::NoMemory;

/// What is read of a symbolic script before its first line is obeyed.
#[derive(Drop)]
pub struct ScriptRead {
    /// The variables, in the order of their first appearance.
    pub variables: NameList,
    /// How many vertices there may be.
    pub bound: u32,
    /// The first line that is refused by its names, if none before it is refused otherwise by its words, and why.
    pub stop: Option<(u64, NameFault)>,
}

// What comes of reading a line.
#[derive(Clone, Copy)]
pub(crate) enum Next {
    // The next line is read.
    Line,
    // The line is refused by its words, and reading ends before it.
    End,
    // The line is refused by its names.
    Stop(NameFault),
}

/// Reads the lines of a symbolic script, quiet or not, from the top up to the first that is refused by its words or its names.
///
/// Tables of names are hashed from these keys.
pub fn read_script(
    alloc: Global,
    keys: TableKeys,
    text: &[u8],
    quiet: bool,
) -> Result<ScriptRead, NoMemory>
    ensures { IfOk result (λ read. read ≡ read_data quiet (file.cut_line text.now) (file.lines_in text.now)) }
{
    let mut names = ScriptNames::new(alloc, keys);
    let mut bound = USUAL_BOUND;
    let stop = read_lines(alloc, text, quiet, &mut names, &mut bound)?;
    let variables = names.variable_names(alloc)?;
    Ok(ScriptRead {
        variables,
        bound,
        stop,
    })
}

// Reads the lines, and answers which is refused by its names, if one is.
fn read_lines(
    alloc: Global,
    text: &[u8],
    quiet: bool,
    names: &mut ScriptNames,
    bound: &mut u32,
) -> Result<Option<(u64, NameFault)>, NoMemory>
    ensures { IfOk result (λ stop. ended names.new bound.new stop
        ≡ rest_read names.old bound.old (asked_lines quiet (file.cut_line text.now) (file.lines_in text.now))) }
{
    let cut = cut_line(text);
    for line in lines(front(text)) {
        match read_line(alloc, cut, line, quiet, names, bound)? {
            Next::Line => {}
            Next::End => return Ok(None),
            Next::Stop(fault) => return Ok(Some((line.number, fault))),
        }
    }
    Ok(None)
}

// Reads one line.
fn read_line(
    alloc: Global,
    cut: Option<u64>,
    line: Line<'_>,
    quiet: bool,
    names: &mut ScriptNames,
    bound: &mut u32,
) -> Result<Next, NoMemory>
    ensures { IfOk result (Reads quiet cut names.old bound.old (line.entry.number, line.entry.bytes.now) names.new bound.new) }
{
    if cut == Some(line.number) {
        return Ok(Next::End);
    }
    match read_symbol_line(alloc, line.bytes, quiet) {
        Ok(asked) => take_line(alloc, &asked, names, bound),
        Err(fault) => unread(fault),
    }
}

// What comes of a line that is no command.
fn unread(fault: ScriptFault) -> Result<Next, NoMemory>
    ensures { IfOk result (λ next. (next ≡ Next.End) × (fault ≢ ScriptFault.NoMemory)) }
{
    match fault {
        ScriptFault::NoMemory => Err(NoMemory),
        _ => Ok(Next::End),
    }
}

// Takes the names of a line, and its bound.
fn take_line(
    alloc: Global,
    asked: &Option<SymbolLine>,
    names: &mut ScriptNames,
    bound: &mut u32,
) -> Result<Next, NoMemory>
    ensures { IfOk result (Takes names.old bound.old asked.now names.new bound.new) }
{
    let used = used_names(alloc, asked)?;
    let defines = defined_name(asked);
    match names.enter(alloc, used.items(), defines) {
        Ok(()) => {
            take_bound(asked, bound);
            Ok(Next::Line)
        }
        Err(fault) => refused(fault),
    }
}

// What comes of a line that is refused by its names.
fn refused(fault: NameFault) -> Result<Next, NoMemory>
    ensures { IfOk result (λ next. (next ≡ Next.Stop fault) × (fault ≢ NameFault.NoMemory)) }
{
    match fault {
        NameFault::NoMemory => Err(NoMemory),
        NameFault::TooManyVariables | NameFault::NameDefined => Ok(Next::Stop(fault)),
    }
}

// Takes the bound that a line gives, if it is a `vertices`.
fn take_bound(asked: &Option<SymbolLine>, bound: &mut u32)
    ensures { bound.new ≡ number_or (bound_in asked.now) bound.old }
{
    if let Some(number) = given_bound(asked) {
        *bound = number;
    }
}

// The bound that a line gives.
fn given_bound(asked: &Option<SymbolLine>) -> Option<u32>
    ensures { result ≡ bound_in asked.now }
{
    match asked {
        Some(SymbolLine::Names(command)) => bound_of(command),
        Some(SymbolLine::Values(..)) | Some(SymbolLine::Plain(_)) | None => None,
    }
}

// The number of a `vertices`.
fn bound_of(command: &SymbolCommand) -> Option<u32>
    ensures { result ≡ bound_of_command command.now }
{
    match command {
        SymbolCommand::Vertices(number) => Some(*number),
        SymbolCommand::Variables(_) | SymbolCommand::Let(..) => None,
    }
}
