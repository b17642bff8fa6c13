//! Reading a line of a script for several columns.
ghost use Rattle.std.specs.Prelude.{◌≡◌, ◌⊎◌, ◌<◌, ℕ, Err, Ok, IfErr, IfOk, IfSome, option_map};
ghost use Rattle.script_lang.specs.Parts.{all_of};
ghost use Rattle.column_script.specs.Columns.{column_reading_of};
ghost use Rattle.column_script.specs.Commands.{in_column};
ghost use Rattle.column_script.specs.Forms.{IsFormed};
ghost use Rattle.column_script.specs.Values.{sort_of, column_value_of, values_given};

use crate::command::{ColumnCommand, ValueCommand};
use line_words::{LineFault, Words, check_line, is_comment, words};
use script_lang::{ClockList, Name, ScriptFault, StateList, beats, read_command};
use std::alloc::Global;
use ternary::NoMemory;

/// Reads a line of a script for so many columns: its command, or None exactly if it is no longer than
/// a line may be and has no words or is a comment.
///
/// The refusals are those of a plain script's line, in their order, in each column alike. A value of
/// `set` and `charge` has one letter, or one for each column, and else is a bad value; `expect`, `show`,
/// `look`, `save`, `back`, `report` and `keep` are no commands here.
pub fn read_column_command(
    alloc: Global,
    bytes: &[u8],
    columns: u32,
) -> Result<Option<ColumnCommand>, ScriptFault>
    ensures ok { IfOk result (λ found. (column : ℕ) → column < columns →
        column_reading_of columns column bytes.now ≡ Ok (option_map (in_column column) found)) }
    ensures refused { IfErr result (λ fault. (fault ≡ ScriptFault.NoMemory)
        ⊎ ((column : ℕ) → column < columns → column_reading_of columns column bytes.now ≡ Err fault)) }
    ensures formed { IfOk result (λ found. IfSome found (IsFormed columns)) }
{
    match check_line(bytes) {
        Err(LineFault::TooLong) => return Err(ScriptFault::LineTooLong),
        Err(LineFault::BadByte) => return Err(ScriptFault::BadByte),
        Ok(()) => {}
    }
    if is_comment(bytes) {
        return Ok(None);
    }
    let mut words = words(bytes);
    let Some(verb) = words.next() else {
        return Ok(None);
    };
    match sort_of(verb) {
        Sort::Valued(command) => {
            let list = read_values(alloc, words, columns)??;
            Ok(Some(ColumnCommand::Values(command, list)))
        }
        Sort::LeftOut => Err(ScriptFault::BadCommand),
        Sort::Shared => Ok(read_command(alloc, bytes)?.map(ColumnCommand::Shared)),
    }
}

// How the columns are given a command.
#[derive(Clone, Copy, PartialEq, Eq)]
enum Sort {
    // nodes get values, which can differ from column to column
    Valued(ValueCommand),
    // it isn't there for columns
    LeftOut,
    // all alike, as in a plain script
    Shared,
}

// The sort of the command that a word names.
fn sort_of(verb: &[u8]) -> Sort
    ensures { result ≡ sort_of verb.now }
{
    match verb {
        b"set" => Sort::Valued(ValueCommand::Set),
        b"charge" => Sort::Valued(ValueCommand::Charge),
        b"expect" | b"show" | b"look" | b"save" | b"back" | b"report" | b"keep" => Sort::LeftOut,
        _ => Sort::Shared,
    }
}

// Reads one value or more.
fn read_values(
    alloc: Global,
    words: Words<'_>,
    columns: u32,
) -> Result<Result<ClockList, ScriptFault>, NoMemory>
    ensures { IfOk result (λ answer. answer ≡ values_given columns words.entry) }
{
    match all_values(alloc, words, columns)? {
        Some(list) if list.items().is_empty() => Ok(Err(ScriptFault::FewWords)),
        Some(list) => Ok(Ok(list)),
        None => Ok(Err(ScriptFault::BadValue)),
    }
}

// All words as values, or None if one is none.
fn all_values(alloc: Global, words: Words<'_>, columns: u32) -> Result<Option<ClockList>, NoMemory>
    ensures { IfOk result (λ found. found ≡ all_of (column_value_of columns) words.entry) }
{
    let mut list = ClockList::new(alloc);
    for word in words {
        match column_value(alloc, word, columns)? {
            Some(item) => list.push(item)?,
            None => return Ok(None),
        }
    }
    Ok(Some(list))
}

// The name and the states of a word `name=v` or `name=vvv..` with a letter for each column, or None
// if the word is no such one.
fn column_value(
    alloc: Global,
    word: &[u8],
    columns: u32,
) -> Result<Option<(Name, StateList)>, NoMemory>
    ensures { IfOk result (λ found. found ≡ column_value_of columns word.now) }
{
    let Some((name, states)) = beats(alloc, word)? else {
        return Ok(None);
    };
    let letters = states.items().len();
    if letters == 1 || letters == columns as usize {
        Ok(Some((name, states)))
    } else {
        Ok(None)
    }
}
