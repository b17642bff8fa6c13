//! Reading a line of a symbolic script.
ghost use Rattle.std.specs.Prelude.{◌≡◌, ◌⊎◌, ◌∷◌, Err, Ok, IfErr, IfOk};
ghost use Rattle.script_lang.specs.Parts.{all_of};
ghost use Rattle.script_lang.specs.Commands.{reading_of, reading_of_words};
ghost use Rattle.symbol_lines.specs.Commands.{symbol_command_of};
ghost use Rattle.symbol_script.specs.declared.line.SymbolLine.TheVariants as asked;
ghost use Rattle.symbol_script.specs.Lines.{asked_by, asked_by_words, asked_plain, assignment_of, assignments_given, by_names, has_dashes, is_left_out, is_telling, symbol_reading_of, value_verb};

use crate::line::{Assignment, AssignmentList, SymbolLine, ValueVerb};
use line_words::{LineFault, Words, check_line, is_comment, words};
use script_lang::{Name, ScriptFault, cut_at_last_equals, read_command};
use std::alloc::Global;
use symbol_lines::{read_symbol_command, read_symbol_value};
use ternary::NoMemory;

/// Reads a line of a symbolic script: what it asks for, or None exactly if it is no longer than a line may be and has no
/// words or is a comment.
///
/// The refusals are those of a plain script's line, in their order. A quiet script, which is run on two circuits to compare
/// them, has no command that tells of what is there.
pub fn read_symbol_line(
    alloc: Global,
    bytes: &[u8],
    quiet: bool,
) -> Result<Option<SymbolLine>, ScriptFault>
    ensures ok { IfOk result (λ found. symbol_reading_of quiet bytes.now ≡ Ok found) }
    ensures refused { IfErr result (λ fault.
        (fault ≡ ScriptFault.NoMemory) ⊎ (symbol_reading_of quiet bytes.now ≡ Err fault)) }
{
    match check_line(bytes) {
        Err(LineFault::TooLong) => return Err(ScriptFault::LineTooLong),
        Err(LineFault::BadByte) => return Err(ScriptFault::BadByte),
        Ok(()) => {}
    }
    if is_comment(bytes) {
        return Ok(None);
    }
    read_words(alloc, bytes, quiet, words(bytes))
}

// Reads the words of a line: the first is the verb.
fn read_words(
    alloc: Global,
    bytes: &[u8],
    quiet: bool,
    mut words: Words<'_>,
) -> Result<Option<SymbolLine>, ScriptFault>
    requires { reading_of bytes.now ≡ reading_of_words words }
    ensures ok { IfOk result (λ found. asked_by_words quiet words.entry ≡ Ok found) }
    ensures refused { IfErr result (λ fault.
        (fault ≡ ScriptFault.NoMemory) ⊎ (asked_by_words quiet words.entry ≡ Err fault)) }
{
    let Some(verb) = words.next() else {
        return Ok(None);
    };
    read_verb(alloc, bytes, quiet, verb, words)?
}

// Reads what a verb asks for with the words after it.
fn read_verb(
    alloc: Global,
    bytes: &[u8],
    quiet: bool,
    verb: &[u8],
    words: Words<'_>,
) -> Result<Result<Option<SymbolLine>, ScriptFault>, NoMemory>
    requires { reading_of bytes.now ≡ reading_of_words (verb.now ∷ words) }
    ensures { IfOk result (λ answer. answer ≡ asked_by_words quiet (verb.now ∷ words.entry)) }
{
    if is_left_out(verb, quiet) {
        return Ok(Err(ScriptFault::BadCommand));
    }
    match value_verb(verb) {
        Some(command) => read_values(alloc, command, words),
        None => read_other(alloc, bytes, verb, words),
    }
}

// Reads the assignments of a command that is given values.
fn read_values(
    alloc: Global,
    command: ValueVerb,
    words: Words<'_>,
) -> Result<Result<Option<SymbolLine>, ScriptFault>, NoMemory>
    ensures { IfOk result (λ answer. answer ≡ asked_by (asked.Values command) (assignments_given (has_dashes command) words.entry)) }
{
    match read_assignments(alloc, words, has_dashes(command))? {
        Ok(list) => Ok(Ok(Some(SymbolLine::Values(command, list)))),
        Err(fault) => Ok(Err(fault)),
    }
}

// Reads a command that says of names, or else one of a plain script.
fn read_other(
    alloc: Global,
    bytes: &[u8],
    verb: &[u8],
    words: Words<'_>,
) -> Result<Result<Option<SymbolLine>, ScriptFault>, NoMemory>
    requires { reading_of bytes.now ≡ reading_of_words (verb.now ∷ words) }
    ensures { IfOk result (λ answer. answer ≡ by_names verb.now words.entry (symbol_command_of verb.now words.entry)) }
{
    match read_symbol_command(alloc, verb, words)? {
        Some(Ok(command)) => Ok(Ok(Some(SymbolLine::Names(command)))),
        Some(Err(fault)) => Ok(Err(fault)),
        None => read_plain(alloc, bytes),
    }
}

// Reads the command of a plain script.
fn read_plain(
    alloc: Global,
    bytes: &[u8],
) -> Result<Result<Option<SymbolLine>, ScriptFault>, NoMemory>
    ensures { IfOk result (λ answer. answer ≡ asked_plain (reading_of bytes.now)) }
{
    match read_command(alloc, bytes) {
        Ok(Some(command)) => Ok(Ok(Some(SymbolLine::Plain(command)))),
        Ok(None) => Ok(Ok(None)),
        Err(ScriptFault::NoMemory) => Err(NoMemory),
        Err(fault) => Ok(Err(fault)),
    }
}

// The command that is given values, if the verb is that of one.
fn value_verb(verb: &[u8]) -> Option<ValueVerb>
    ensures { result ≡ value_verb verb.now }
{
    match verb {
        b"set" => Some(ValueVerb::Set),
        b"charge" => Some(ValueVerb::Charge),
        b"expect" => Some(ValueVerb::Expect),
        _ => None,
    }
}

// Whether `-` may stand among the letters that the command is given.
fn has_dashes(command: ValueVerb) -> bool
    ensures { result ≡ has_dashes command }
{
    match command {
        ValueVerb::Set | ValueVerb::Charge => false,
        ValueVerb::Expect => true,
    }
}

// Whether a symbolic script has no such command.
fn is_left_out(verb: &[u8], quiet: bool) -> bool
    ensures { result ≡ is_left_out quiet verb.now }
{
    match verb {
        b"report" => true,
        b"keep" => true,
        b"wide" => true,
        _ => quiet && is_telling(verb),
    }
}

// Whether the command tells of what is there.
fn is_telling(verb: &[u8]) -> bool
    ensures { result ≡ is_telling verb.now }
{
    match verb {
        b"expect" => true,
        b"show" => true,
        b"look" => true,
        _ => false,
    }
}

// Reads one assignment or more.
fn read_assignments(
    alloc: Global,
    words: Words<'_>,
    dashes: bool,
) -> Result<Result<AssignmentList, ScriptFault>, NoMemory>
    ensures { IfOk result (λ answer. answer ≡ assignments_given dashes words.entry) }
{
    match all_assignments(alloc, words, dashes)? {
        Some(list) if list.items().is_empty() => Ok(Err(ScriptFault::FewWords)),
        Some(list) => Ok(Ok(list)),
        None => Ok(Err(ScriptFault::BadValue)),
    }
}

// All words as assignments, or None if one is none.
fn all_assignments(
    alloc: Global,
    words: Words<'_>,
    dashes: bool,
) -> Result<Option<AssignmentList>, NoMemory>
    ensures { IfOk result (λ found. found ≡ all_of (assignment_of dashes) words.entry) }
{
    let mut list = AssignmentList::new(alloc);
    for word in words {
        match assignment(alloc, word, dashes)? {
            Some(item) => list.push(item)?,
            None => return Ok(None),
        }
    }
    Ok(Some(list))
}

// The assignment of a word `name=value`, or None if the word is none.
fn assignment(alloc: Global, word: &[u8], dashes: bool) -> Result<Option<Assignment>, NoMemory>
    ensures { IfOk result (λ found. found ≡ assignment_of dashes word.now) }
{
    let Some((name, text)) = cut_at_last_equals(word) else {
        return Ok(None);
    };
    let Some(value) = read_symbol_value(alloc, text, dashes)? else {
        return Ok(None);
    };
    Ok(Some(Assignment {
        name: Name::from_slice(alloc, name)?,
        text: Name::from_slice(alloc, text)?,
        value,
    }))
}
