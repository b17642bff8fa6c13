//! Reading a line of a script.
ghost use Rattle.std.specs.Prelude.{◌≡◌, ◌⊎◌, Err, Ok, IfErr, IfOk, IfSome};
ghost use Rattle.script_lang.specs.Parts.{all_of, assignment_of, beats_of};
ghost use Rattle.script_lang.specs.Commands.{alone, assignments_given, clocks_given, command_by, name_given, names_given, reading_of, reading_of_words, store_by, ranged_given, vector_by};
ghost use Rattle.script_lang.specs.Forms.{IsFormed};

use crate::LEAST_WIDE;
use crate::command::{Command, Edit, Give, Run, ScriptFault, Setup, Tell};
use crate::edits::{read_add, read_del, read_kind, read_strength, read_wire};
use crate::lists::{ClockList, Name, NameList, ValueList};
use crate::parts::{assignment, beats, number_from};
use crate::verb::{Verb, verb_named};
use line_words::{LineFault, Words, check_line, decimal, is_comment, words};
use std::alloc::Global;
use ternary::NoMemory;

/// Reads a line of a script: its command, or None exactly if it is no longer than a line may be
/// and has no words or is a comment.
///
/// The refusals are those of `ScriptFault`, in its order.
pub fn read_command(alloc: Global, bytes: &[u8]) -> Result<Option<Command>, ScriptFault>
    ensures ok { IfOk result (λ found. reading_of bytes.now ≡ Ok found) }
    ensures refused { IfErr result (λ fault.
        (fault ≡ ScriptFault.NoMemory) ⊎ (reading_of bytes.now ≡ Err fault)) }
    ensures formed { IfOk result (λ found. IfSome found IsFormed) }
{
    match check_line(bytes) {
        Err(LineFault::TooLong) => Err(ScriptFault::LineTooLong),
        Err(LineFault::BadByte) => Err(ScriptFault::BadByte),
        Ok(()) if is_comment(bytes) => Ok(None),
        Ok(()) => read_words(alloc, words(bytes)),
    }
}

// Reads the words of a line: the first is the verb.
fn read_words(alloc: Global, mut words: Words<'_>) -> Result<Option<Command>, ScriptFault>
    ensures ok { IfOk result (λ found. reading_of_words words.entry ≡ Ok found) }
    ensures refused { IfErr result (λ fault.
        (fault ≡ ScriptFault.NoMemory) ⊎ (reading_of_words words.entry ≡ Err fault)) }
{
    let Some(word) = words.next() else {
        return Ok(None);
    };
    Ok(Some(read_verb(alloc, verb_named(word), words)??))
}

// Reads the command of a verb with the words after it.
fn read_verb(
    alloc: Global,
    verb: Option<Verb>,
    words: Words<'_>,
) -> Result<Result<Command, ScriptFault>, NoMemory>
    ensures { IfOk result (λ answer. answer ≡ command_by verb words.entry) }
{
    match verb {
        Some(Verb::Input) => Ok(
            read_names(alloc, words)?
                .map(Edit::Input)
                .map(Command::Edit),
        ),
        Some(Verb::Store) => Ok(read_store(alloc, words)?.map(Command::Edit)),
        Some(Verb::Set) => {
            let list = read_assignments(alloc, words, false)?;
            Ok(list.map(Give::Set).map(Command::Give))
        }
        Some(Verb::Charge) => {
            let list = read_assignments(alloc, words, false)?;
            Ok(list.map(Give::Charge).map(Command::Give))
        }
        Some(Verb::Watch) => Ok(
            read_names(alloc, words)?
                .map(Setup::Watch)
                .map(Command::Setup),
        ),
        Some(Verb::Limit) => Ok(read_number(words, 1).map(Setup::Limit).map(Command::Setup)),
        Some(Verb::Step) => Ok(read_alone(Command::Run(Run::Step), words)),
        Some(Verb::Phase) => Ok(read_alone(Command::Run(Run::Phase), words)),
        Some(Verb::Clock) => Ok(
            read_clocks(alloc, words)?
                .map(Setup::Clock)
                .map(Command::Setup),
        ),
        Some(Verb::Cycle) => Ok(read_number(words, 1).map(Run::Cycle).map(Command::Run)),
        Some(Verb::Expect) => {
            let list = read_assignments(alloc, words, true)?;
            Ok(list.map(Tell::Expect).map(Command::Tell))
        }
        Some(Verb::Show) => Ok(read_names(alloc, words)?.map(Tell::Show).map(Command::Tell)),
        Some(Verb::Look) => Ok(read_names(alloc, words)?.map(Tell::Look).map(Command::Tell)),
        Some(Verb::Add) => Ok(read_add(alloc, words)?.map(Command::Edit)),
        Some(Verb::Del) => Ok(read_del(words).map(Command::Edit)),
        Some(Verb::Strength) => Ok(read_strength(words).map(Command::Edit)),
        Some(Verb::Kind) => Ok(read_kind(words).map(Command::Edit)),
        Some(Verb::Wire) => Ok(read_wire(alloc, words)?.map(Command::Edit)),
        Some(Verb::Report) => Ok(read_alone(Command::Run(Run::Report), words)),
        Some(Verb::Keep) => Ok(read_number(words, 1).map(Setup::Keep).map(Command::Setup)),
        Some(Verb::Wide) => Ok(
            read_number(words, LEAST_WIDE)
                .map(Setup::Widen)
                .map(Command::Setup),
        ),
        Some(Verb::Save) => Ok(
            read_name(alloc, words)?
                .map(Setup::Save)
                .map(Command::Setup),
        ),
        Some(Verb::Vector) => Ok(read_vector(alloc, words)?.map(Command::Setup)),
        Some(Verb::Back) => Ok(read_name(alloc, words)?.map(Give::Back).map(Command::Give)),
        None => Ok(Err(ScriptFault::BadCommand)),
    }
}

// Reads one name alone.
fn read_name(alloc: Global, mut words: Words<'_>) -> Result<Result<Name, ScriptFault>, NoMemory>
    ensures { IfOk result (λ answer. answer ≡ name_given words.entry) }
{
    let Some(name) = words.next() else {
        return Ok(Err(ScriptFault::FewWords));
    };
    if words.next().is_some() {
        return Ok(Err(ScriptFault::ManyWords));
    }
    Ok(Ok(Name::from_slice(alloc, name)?))
}

// Reads the name and the words of `vector`.
fn read_vector(alloc: Global, mut words: Words<'_>) -> Result<Result<Setup, ScriptFault>, NoMemory>
    ensures { IfOk result (λ answer. answer ≡ vector_by words.entry) }
{
    let Some(name) = words.next() else {
        return Ok(Err(ScriptFault::FewWords));
    };
    let names = all_names(alloc, words)?;
    if names.items().is_empty() {
        return Ok(Err(ScriptFault::FewWords));
    }
    Ok(Ok(Setup::Vector(Name::from_slice(alloc, name)?, names)))
}

// Reads one name or more.
fn read_names(alloc: Global, words: Words<'_>) -> Result<Result<NameList, ScriptFault>, NoMemory>
    ensures { IfOk result (λ answer. answer ≡ names_given words.entry) }
{
    let names = all_names(alloc, words)?;
    if names.items().is_empty() {
        Ok(Err(ScriptFault::FewWords))
    } else {
        Ok(Ok(names))
    }
}

// All words as names.
fn all_names(alloc: Global, words: Words<'_>) -> Result<NameList, NoMemory>
    ensures { IfOk result (λ names. names ≡ words.entry) }
{
    let mut names = NameList::new(alloc);
    for word in words {
        names.push(Name::from_slice(alloc, word)?)?;
    }
    Ok(names)
}

// Reads one assignment or more, in which `-` may stand or not.
fn read_assignments(
    alloc: Global,
    words: Words<'_>,
    dashes: bool,
) -> Result<Result<ValueList, ScriptFault>, NoMemory>
    ensures { IfOk result (λ answer. answer ≡ assignments_given dashes words.entry) }
{
    match all_assignments(alloc, words, dashes)? {
        Some(list) if list.items().is_empty() => Ok(Err(ScriptFault::FewWords)),
        Some(list) => Ok(Ok(list)),
        None => Ok(Err(ScriptFault::BadValue)),
    }
}

// All words as assignments, or None if one is none.
fn all_assignments(
    alloc: Global,
    words: Words<'_>,
    dashes: bool,
) -> Result<Option<ValueList>, NoMemory>
    ensures { IfOk result (λ found. found ≡ all_of (assignment_of dashes) words.entry) }
{
    let mut list = ValueList::new(alloc);
    for word in words {
        match assignment(alloc, word, dashes)? {
            Some(item) => list.push(item)?,
            None => return Ok(None),
        }
    }
    Ok(Some(list))
}

// Reads the letters of one clock or more.
fn read_clocks(alloc: Global, words: Words<'_>) -> Result<Result<ClockList, ScriptFault>, NoMemory>
    ensures { IfOk result (λ answer. answer ≡ clocks_given words.entry) }
{
    match all_clocks(alloc, words)? {
        Some(list) if list.items().is_empty() => Ok(Err(ScriptFault::FewWords)),
        Some(list) => Ok(Ok(list)),
        None => Ok(Err(ScriptFault::BadValue)),
    }
}

// All words as the letters of clocks, or None if one is none.
fn all_clocks(alloc: Global, words: Words<'_>) -> Result<Option<ClockList>, NoMemory>
    ensures { IfOk result (λ found. found ≡ all_of beats_of words.entry) }
{
    let mut list = ClockList::new(alloc);
    for word in words {
        match beats(alloc, word)? {
            Some(item) => list.push(item)?,
            None => return Ok(None),
        }
    }
    Ok(Some(list))
}

// Reads a number from the least one to the most that there may be.
fn read_number(mut words: Words<'_>, least: u64) -> Result<u64, ScriptFault>
    ensures { result ≡ ranged_given least words.entry }
{
    let Some(word) = words.next() else {
        return Err(ScriptFault::FewWords);
    };
    match words.next() {
        Some(_) => Err(ScriptFault::ManyWords),
        None => number_from(word, least).ok_or(ScriptFault::BadNumber),
    }
}

// Reads the name and the size of `store`.
fn read_store(alloc: Global, mut words: Words<'_>) -> Result<Result<Edit, ScriptFault>, NoMemory>
    ensures { IfOk result (λ answer. answer ≡ store_by words.entry) }
{
    let Some(name) = words.next() else {
        return Ok(Err(ScriptFault::FewWords));
    };
    let Some(size) = words.next() else {
        return Ok(Err(ScriptFault::FewWords));
    };
    if words.next().is_some() {
        return Ok(Err(ScriptFault::ManyWords));
    }
    let Some(size) = decimal(size) else {
        return Ok(Err(ScriptFault::BadNumber));
    };
    Ok(Ok(Edit::Store(Name::from_slice(alloc, name)?, size)))
}

// The command, which is given nothing.
fn read_alone(command: Command, mut words: Words<'_>) -> Result<Command, ScriptFault>
    ensures { result ≡ alone command words.entry }
{
    match words.next() {
        Some(_) => Err(ScriptFault::ManyWords),
        None => Ok(command),
    }
}
