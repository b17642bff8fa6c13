//! The words of refused lines of a symbolic script.

use crate::line_parts::{cut_at_equals, first_word, line_at, word_behind};
use crate::scripts::{Names, is_fit, is_vector, script_word, vector_length};
use formulas::is_name;
use line_words::words;
use netlist::Circuit;
use node_words::Vectors;
use printed_lines::FaultCode;
use std::alloc::Global;
use symbol_lines::{Item, SymbolValue, read_symbol_command, read_symbol_value};

/// The word that the refusal of the line with this number of a symbolic script is about, in the circuit and among the vectors
/// at the refusal.
///
/// Words are read as the script's are. Out of memory a word counts as one that is accepted.
pub fn symbolic_word<'a>(
    alloc: Global,
    code: FaultCode,
    text: &'a [u8],
    number: u64,
    circuit: &Circuit,
    vectors: &Vectors,
) -> &'a [u8] {
    let line = line_at(text, number);
    let names = Names { circuit, vectors };
    let found = match (code, first_word(line)) {
        (FaultCode::S4BadValue, b"set" | b"charge") => bad_assignment(alloc, line, names, false),
        (FaultCode::S4BadValue, b"expect") => bad_assignment(alloc, line, names, true),
        (FaultCode::S4BadValue, b"variables") => bad_variable(alloc, line),
        (FaultCode::S4BadValue, b"let") => Some(bad_definition(line)),
        (FaultCode::S14VectorValue, _) => unfit_value(alloc, line, names),
        _ => None,
    };
    match found {
        Some(word) => word,
        None => script_word(code, text, number, circuit, vectors, 1),
    }
}

// The first word behind the command that is no assignment by its text; or else the first one whose value is for a vector alone and
// that names none.
fn bad_assignment<'a>(
    alloc: Global,
    line: &'a [u8],
    names: Names<'_>,
    dashes: bool,
) -> Option<&'a [u8]> {
    match unwritten(alloc, line, dashes) {
        Some(word) => Some(word),
        None => misplaced(alloc, line, names),
    }
}

// The first word behind the command that is no assignment by its text.
fn unwritten(alloc: Global, line: &[u8], dashes: bool) -> Option<&[u8]> {
    let mut is_first = true;
    for word in words(line) {
        if !is_first && !is_written(alloc, word, dashes) {
            return Some(word);
        }
        is_first = false;
    }
    None
}

// Whether the word is an assignment by its text, in which `-` may stand or not.
fn is_written(alloc: Global, word: &[u8], dashes: bool) -> bool {
    let Some((name, text)) = cut_at_equals(word) else {
        return false;
    };
    match read_symbol_value(alloc, text, dashes) {
        Ok(value) => !name.is_empty() && value.is_some(),
        Err(_) => true,
    }
}

// The first word that gives what is no vector a value that is for a vector alone.
fn misplaced<'a>(alloc: Global, line: &'a [u8], names: Names<'_>) -> Option<&'a [u8]> {
    for word in words(line) {
        if let Some((name, text)) = cut_at_equals(word)
            && !is_vector(names, name)
            && is_wide(alloc, text)
        {
            return Some(word);
        }
    }
    None
}

// Whether the text is a value that is for a vector alone: all but one letter of a state, or one formula.
fn is_wide(alloc: Global, text: &[u8]) -> bool {
    match read_symbol_value(alloc, text, true) {
        Ok(Some(SymbolValue::Plain(value))) => value.state().is_none(),
        Ok(Some(SymbolValue::List(items))) => !is_for_one(items.items()),
        Ok(None) | Err(_) => false,
    }
}

// Whether the items are one letter of a state, or one formula.
fn is_for_one(items: &[Item]) -> bool {
    match items {
        [Item::Letter(letter)] => letter.is_some(),
        [Item::Formula(_)] => true,
        _ => false,
    }
}

// The first word that gives a vector a value that doesn't fit it.
fn unfit_value<'a>(alloc: Global, line: &'a [u8], names: Names<'_>) -> Option<&'a [u8]> {
    for word in words(line) {
        if let Some((name, text)) = cut_at_equals(word)
            && let Some(count) = vector_length(names, name)
            && !is_fit_there(alloc, text, count)
        {
            return Some(word);
        }
    }
    None
}

// Whether a value fits so many nodes: a list has an item for each.
fn is_fit_there(alloc: Global, text: &[u8], count: usize) -> bool {
    match read_symbol_value(alloc, text, true) {
        Ok(Some(SymbolValue::Plain(_))) => is_fit(text, count),
        Ok(Some(SymbolValue::List(items))) => items.items().len() == count,
        Ok(None) | Err(_) => true,
    }
}

// The first word behind `variables` that is no name of a variable, and stands for none.
fn bad_variable(alloc: Global, line: &[u8]) -> Option<&[u8]> {
    let mut is_first = true;
    for word in words(line) {
        if !is_first && !are_variables(alloc, word) {
            return Some(word);
        }
        is_first = false;
    }
    None
}

// Whether a word behind `variables` is accepted.
fn are_variables(alloc: Global, word: &[u8]) -> bool {
    match read_symbol_command(alloc, b"variables", words(word)) {
        Ok(Some(read)) => read.is_ok(),
        Ok(None) | Err(_) => true,
    }
}

// The name behind `let` if it is none of a variable, and else its formula.
fn bad_definition(line: &[u8]) -> &[u8] {
    let name = word_behind(line, 1);
    match name {
        [b'$', name @ ..] if is_name(name) => word_behind(line, 2),
        _ => name,
    }
}
