//! The words that a line watches.

ghost use Rattle.std.specs.Prelude.{◌≡◌, ◌≢◌, [], ◌++◌, true, length, IfOk, OnOk};
ghost use Rattle.session_meaning.specs.Refusals.{nodes_named};
ghost use Rattle.symbol_script.specs.Lines.{symbol_reading_of};
ghost use Rattle.symbol_equiv.specs.Words as spec;
ghost use Rattle.symbol_equiv.specs.Words.{counted_words, names_read};

use netlist::Circuit;
use node_words::{Named, Vectors};
use script_lang::{Command, Name, ScriptFault, Setup};
use std::alloc::{AllocError, Global};
use symbol_script::{SymbolLine, read_symbol_line};
use symbol_told::Notes;
use ternary::NoMemory;

/// The words that a line of a quiet script watches, each with how many nodes it stands for.
pub(crate) fn watched_words(
    alloc: Global,
    circuit: &Circuit,
    vectors: &Vectors,
    bytes: &[u8],
) -> Result<Vec<(Name, usize)>, NoMemory>
    ensures { IfOk result (λ words. words.items ≡ counted_words circuit.now vectors.now (names_read (symbol_reading_of true bytes.now))) }
{
    match read_symbol_line(alloc, bytes, true) {
        Ok(asked) => count_words(alloc, circuit, vectors, names_asked(&asked)),
        Err(fault) => unread(alloc, fault),
    }
}

// None, if the line is no command.
fn unread(alloc: Global, fault: ScriptFault) -> Result<Vec<(Name, usize)>, NoMemory>
    ensures known { IfOk result (λ words. fault ≢ ScriptFault.NoMemory) }
    ensures none { IfOk result (λ words. words.items ≡ []) }
{
    match fault {
        ScriptFault::NoMemory => Err(NoMemory),
        _ => Ok(Vec::new(alloc)),
    }
}

// The names that a line watches which asks for this.
fn names_asked(asked: &Option<SymbolLine>) -> &[Name]
    ensures { result.now ≡ spec.names_asked asked.now }
{
    match asked {
        Some(SymbolLine::Plain(command)) => names_in_command(command),
        Some(SymbolLine::Values(..)) | Some(SymbolLine::Names(_)) | None => &[],
    }
}

// Those that a command watches.
fn names_in_command(command: &Command) -> &[Name]
    ensures { result.now ≡ spec.names_in_command command.now }
{
    match command {
        Command::Setup(setup) => names_in_setup(setup),
        Command::Edit(_) | Command::Give(_) | Command::Run(_) | Command::Tell(_) => &[],
    }
}

fn names_in_setup(setup: &Setup) -> &[Name]
    ensures { result.now ≡ spec.names_in_setup setup.now }
{
    match setup {
        Setup::Watch(names) => names.items(),
        Setup::Limit(_)
        | Setup::Clock(_)
        | Setup::Keep(_)
        | Setup::Widen(_)
        | Setup::Save(_)
        | Setup::Vector(..) => &[],
    }
}

// These words, each with how many nodes it stands for.
fn count_words(
    alloc: Global,
    circuit: &Circuit,
    vectors: &Vectors,
    names: &[Name],
) -> Result<Vec<(Name, usize)>, NoMemory>
    ensures { IfOk result (λ words. words.items ≡ counted_words circuit.now vectors.now names.now) }
{
    let mut words = Vec::new(alloc);
    for name in names {
        let count = count_of(circuit, vectors, name.items());
        let word = Name::from_slice(alloc, name.items())?;
        words.push((word, count)).map_err(AllocError::from)?;
    }
    Ok(words)
}

// How many nodes a word stands for.
fn count_of(circuit: &Circuit, vectors: &Vectors, name: &[u8]) -> usize
    ensures { result ≡ length (nodes_named circuit.now vectors.now name.now) }
{
    match vectors.named(circuit, name) {
        Named::Node(_) => 1,
        Named::Vector(nodes) => nodes.len(),
        Named::Nothing => 0,
    }
}

/// Notes that these words are watched from here on.
pub(crate) fn watch_all(notes: &mut Notes, words: &[(Name, usize)]) -> Result<(), NoMemory>
    ensures { OnOk result (notes.new ≡ record notes.old { words = notes.old.words ++ words.now }) }
{
    for (word, nodes) in words {
        notes.watch(word.items(), *nodes)?;
    }
    Ok(())
}
