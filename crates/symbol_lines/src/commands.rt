//! The commands that name variables.
ghost use Rattle.std.specs.Prelude.{◌≡◌, ◌∷◌, [], ◌++◌, IfOk, option_map};
ghost use Rattle.std.specs.Option.{option_copied};
ghost use Rattle.script_lang.specs.Parts.{all_of};
ghost use Rattle.node_words.specs.Ranges.{words_in};
ghost use Rattle.symbol_lines.specs.Items.{if_read};
ghost use Rattle.symbol_lines.specs.Commands as spec;

use crate::{LEAST_VERTICES, MOST_ITEMS, MOST_VERTICES};
use formulas::{Formula, is_name, read_formula};
use line_words::{Words, decimal};
use node_words::{Range, first_range};
use script_lang::{Name, NameList, ScriptFault};
use std::alloc::Global;
use ternary::NoMemory;

/// A command that says of variables, and does nothing when it is obeyed.
#[derive(Drop)]
pub enum SymbolCommand {
    /// `variables WORD..`: these names, in order.
    Variables(NameList),
    /// `let $name FORMULA`: from the next line on the name stands for the formula.
    Let(Name, Formula),
    /// `vertices N`: there may be so many vertices.
    Vertices(u32),
}

/// Reads the command that a first word asks for with the words after it, or None exactly if it is no such first
/// word.
///
/// The refusals are those of `ScriptFault`, in its order.
pub fn read_symbol_command(
    alloc: Global,
    word: &[u8],
    words: Words<'_>,
) -> Result<Option<Result<SymbolCommand, ScriptFault>>, NoMemory>
    ensures { IfOk result (λ found. found ≡ spec.symbol_command_of word.now words.entry) }
{
    match word {
        b"variables" => Ok(Some(read_variables(alloc, words)?)),
        b"let" => Ok(Some(read_let(alloc, words)?)),
        b"vertices" => Ok(Some(read_vertices(words))),
        _ => Ok(None),
    }
}

// Reads the words of `variables`.
fn read_variables(
    alloc: Global,
    words: Words<'_>,
) -> Result<Result<SymbolCommand, ScriptFault>, NoMemory>
    ensures { IfOk result (λ answer. answer ≡ spec.variables_given words.entry) }
{
    match all_names(alloc, words)? {
        Some(names) if names.items().is_empty() => Ok(Err(ScriptFault::FewWords)),
        Some(names) => Ok(Ok(SymbolCommand::Variables(names))),
        None => Ok(Err(ScriptFault::BadValue)),
    }
}

// The names of all words, or None if a word stands for none or too many.
#[tactic(auto, using(crate::proofs::CommandLemmas::words_first, crate::proofs::CommandLemmas::with_front_none))]
fn all_names(alloc: Global, words: Words<'_>) -> Result<Option<NameList>, NoMemory>
    ensures { IfOk result (λ found. found ≡ spec.names_of_words words.entry) }
{
    let mut names = NameList::new(alloc);
    for word in words {
        if !read_names(alloc, word, &mut names)? {
            return Ok(None);
        }
    }
    Ok(Some(names))
}

// Puts the names that a word stands for behind the others, with each number of its range in the range's place.
#[tactic(auto, using(crate::proofs::CommandLemmas::names_many, crate::proofs::CommandLemmas::names_few, crate::proofs::CommandLemmas::names_alone))]
fn read_names(alloc: Global, word: &[u8], names: &mut NameList) -> Result<bool, NoMemory>
    ensures { IfOk result (λ read.
        if_read read names.new ≡ spec.with_front names.old (spec.names_of_word word.now)) }
{
    match first_range(word) {
        Some(range) if range.len() > MOST_ITEMS as u64 => Ok(false),
        Some(range) => read_range(alloc, &range, names),
        None => read_name(alloc, word, names),
    }
}

// Puts the names of the words of a range behind the others.
#[tactic(auto, using(crate::proofs::CommandLemmas::names_begin, crate::proofs::CommandLemmas::names_go_on, crate::proofs::CommandLemmas::names_end))]
fn read_range(alloc: Global, range: &Range<'_>, names: &mut NameList) -> Result<bool, NoMemory>
    ensures { IfOk result (λ read.
        if_read read names.new ≡ spec.with_front names.old (all_of spec.variable_of (words_in range.now))) }
{
    for place in 0..range.len() {
        let word = range.word(alloc, place)?;
        if !read_name(alloc, &word, names)? {
            return Ok(false);
        }
    }
    Ok(true)
}

// Puts the name of a word `$name` behind the others.
#[tactic(auto, using(crate::proofs::CommandLemmas::names_single))]
fn read_name(alloc: Global, word: &[u8], names: &mut NameList) -> Result<bool, NoMemory>
    ensures one { IfOk result (λ read.
        if_read read names.new ≡ option_map (λ name. names.old ++ name ∷ []) (spec.variable_of word.now)) }
    ensures all { IfOk result (λ read.
        if_read read names.new ≡ spec.with_front names.old (all_of spec.variable_of (word.now ∷ []))) }
{
    match variable(word) {
        Some(name) => {
            names.push(Name::from_slice(alloc, name)?)?;
            Ok(true)
        }
        None => Ok(false),
    }
}

// The name of a word `$name`.
fn variable(word: &[u8]) -> Option<&[u8]>
    ensures { option_copied result ≡ spec.variable_of word.now }
{
    match word {
        [b'$', name @ ..] if is_name(name) => Some(name),
        _ => None,
    }
}

// Reads the name and the formula of `let`.
fn read_let(
    alloc: Global,
    mut words: Words<'_>,
) -> Result<Result<SymbolCommand, ScriptFault>, NoMemory>
    ensures { IfOk result (λ answer. answer ≡ spec.let_given words.entry) }
{
    let Some(word) = words.next() else {
        return Ok(Err(ScriptFault::FewWords));
    };
    let Some(text) = words.next() else {
        return Ok(Err(ScriptFault::FewWords));
    };
    if words.next().is_some() {
        return Ok(Err(ScriptFault::ManyWords));
    }
    let Some(name) = variable(word) else {
        return Ok(Err(ScriptFault::BadValue));
    };
    let Some(formula) = read_formula(alloc, text)? else {
        return Ok(Err(ScriptFault::BadValue));
    };
    let name = Name::from_slice(alloc, name)?;
    Ok(Ok(SymbolCommand::Let(name, formula)))
}

// Reads the number of `vertices`.
fn read_vertices(mut words: Words<'_>) -> Result<SymbolCommand, ScriptFault>
    ensures { result ≡ spec.vertices_given words.entry }
{
    let Some(number) = words.next() else {
        return Err(ScriptFault::FewWords);
    };
    if words.next().is_some() {
        return Err(ScriptFault::ManyWords);
    }
    match bound(number) {
        Some(number) => Ok(SymbolCommand::Vertices(number)),
        None => Err(ScriptFault::BadNumber),
    }
}

// The number of a word, if there may be so many vertices.
fn bound(word: &[u8]) -> Option<u32>
    ensures { result ≡ spec.bound_of word.now }
{
    let number = decimal(word)?;
    if LEAST_VERTICES <= number && number <= MOST_VERTICES {
        Some(number as u32)
    } else {
        None
    }
}
