//! The words of refused lines of a script.

use crate::line_parts::{cut_at_equals, first_word, last_word, line_at, word_behind};
use line_words::{decimal, lines, words};
use netlist::{Circuit, RAILS};
use node_words::{Named, Vectors};
use printed_lines::FaultCode;
use strength_order::INPUT_LEVEL;
use ternary::Tern;

/// The word that the refusal of the line with this number of a script is about, in the circuit and among the vectors
/// at the refusal.
///
/// A value has one letter, or as many as there are columns, or is one of a vector.
pub fn script_word<'a>(
    code: FaultCode,
    text: &'a [u8],
    number: u64,
    circuit: &Circuit,
    vectors: &Vectors,
    columns: usize,
) -> &'a [u8] {
    let line = told_line(code, text, number);
    let names = Names { circuit, vectors };
    match code {
        FaultCode::E1UnknownNode => name_of_sort(line, names, NodeSort::Unknown),
        FaultCode::E2NoSuchSwitch | FaultCode::S16NoSave => word_behind(line, 1),
        FaultCode::E3Rail => name_of_sort(line, names, NodeSort::Rail),
        FaultCode::E4BadStrength | FaultCode::E5BadSize => last_word(line),
        FaultCode::S4BadValue => bad_value(line, names, columns),
        FaultCode::S12NameTaken | FaultCode::S18NameDefined => word_behind(line, 1),
        FaultCode::S14VectorValue => vector_value(line, names),
        FaultCode::S5BadNumber => bad_number(line),
        FaultCode::S6NotInput => name_of_sort(line, names, NodeSort::Storage),
        FaultCode::S7NotStore => name_of_sort(line, names, NodeSort::Input),
        _ => first_word(line),
    }
}

// The line that has the word: the refused one; if it is a cycle with a clock on a storage node, the last clocks before it.
fn told_line(code: FaultCode, text: &[u8], number: u64) -> &[u8] {
    let line = line_at(text, number);
    if code == FaultCode::S6NotInput && matches!(first_word(line), b"cycle") {
        clocks_before(text, number)
    } else {
        line
    }
}

// The last line with clocks before that with this number.
fn clocks_before(text: &[u8], number: u64) -> &[u8] {
    let mut clocks: &[u8] = &[];
    for line in lines(text) {
        if line.number >= number {
            return clocks;
        }
        if matches!(first_word(line.bytes), b"clock") {
            clocks = line.bytes;
        }
    }
    clocks
}

/// The names that are in use.
#[derive(Clone, Copy)]
pub(crate) struct Names<'a> {
    /// The nodes with their names.
    pub(crate) circuit: &'a Circuit,
    /// The vectors, each with its name.
    pub(crate) vectors: &'a Vectors,
}

// What a name stands for.
#[derive(Clone, Copy, PartialEq, Eq)]
enum NodeSort {
    Unknown,
    Rail,
    Input,
    Storage,
    Vector,
}

// What this name stands for.
fn sort_of(names: Names<'_>, name: &[u8]) -> NodeSort {
    match names.circuit.find(name) {
        Some(node) if node < RAILS => NodeSort::Rail,
        Some(node) if names.circuit.graph().level(node) == INPUT_LEVEL => NodeSort::Input,
        Some(_) => NodeSort::Storage,
        None if is_vector(names, name) => NodeSort::Vector,
        None => NodeSort::Unknown,
    }
}

/// Whether the name is that of a vector.
pub(crate) fn is_vector(names: Names<'_>, name: &[u8]) -> bool {
    vector_length(names, name).is_some()
}

/// How many nodes the vector of this name has, if it is that of one.
pub(crate) fn vector_length(names: Names<'_>, name: &[u8]) -> Option<usize> {
    match names.vectors.named(names.circuit, name) {
        Named::Vector(nodes) => Some(nodes.len()),
        Named::Node(_) | Named::Nothing => None,
    }
}

// The first name of a line that stands for such a node, or else for a vector; and the line's first word if there is
// none.
fn name_of_sort<'a>(line: &'a [u8], names: Names<'_>, sort: NodeSort) -> &'a [u8] {
    let command = first_word(line);
    match first_of_sort(line, names, sort) {
        Some(name) => name,
        None => match first_of_sort(line, names, NodeSort::Vector) {
            Some(name) => name,
            None => command,
        },
    }
}

// The first name of a line that stands for such a node, or for a vector. The name that `vector` gives stands for nothing yet.
fn first_of_sort<'a>(line: &'a [u8], names: Names<'_>, sort: NodeSort) -> Option<&'a [u8]> {
    let command = first_word(line);
    let mut before: u8 = match command {
        b"vector" => 2,
        _ => 1,
    };
    for word in words(line) {
        let name = name_in(command, word);
        if before > 0 {
            before -= 1;
        } else if sort_of(names, name) == sort {
            return Some(name);
        }
    }
    None
}

// The first word of a line that gives a vector a value that doesn't fit it, and the line's first word if there is none.
fn vector_value<'a>(line: &'a [u8], names: Names<'_>) -> &'a [u8] {
    for word in words(line) {
        if let Some((name, value)) = cut_at_equals(word)
            && let Some(count) = vector_length(names, name)
            && !is_fit(value, count)
        {
            return word;
        }
    }
    first_word(line)
}

/// Whether a value fits so many nodes: one letter, or one for each, or a number that they can hold.
pub(crate) fn is_fit(value: &[u8], count: usize) -> bool {
    match value {
        [b'%', b'h', digits @ ..] => bits_of_hex(digits) <= count,
        [b'%', b'd', digits @ ..] => match decimal(digits) {
            Some(number) => bits_of(number) <= count,
            None => false,
        },
        letters => letters.len() == 1 || letters.len() == count,
    }
}

// How many bits a number of hexadecimal digits has, without zeros before the others.
fn bits_of_hex(digits: &[u8]) -> usize {
    let mut bits: usize = 0;
    for &digit in digits {
        if bits > 0 {
            bits = bits.saturating_add(4);
        } else {
            bits = bits_of_digit(digit);
        }
    }
    bits
}

// How many bits a hexadecimal digit has, without zeros before the others.
fn bits_of_digit(digit: u8) -> usize {
    match digit {
        b'0' => 0,
        b'1' => 1,
        b'2' | b'3' => 2,
        b'4'..=b'7' => 3,
        _ => 4,
    }
}

// How many bits a number has, without zeros before the others.
fn bits_of(number: u64) -> usize {
    let mut bits: usize = 0;
    let mut rest = number;
    for _ in 0..u64::BITS {
        if rest > 0 {
            rest /= 2;
            bits = bits.saturating_add(1);
        }
    }
    bits
}

// The name in a word of a command.
fn name_in<'a>(command: &[u8], word: &'a [u8]) -> &'a [u8] {
    match command {
        b"set" | b"charge" | b"clock" | b"expect" => match cut_at_equals(word) {
            Some((name, _)) => name,
            None => word,
        },
        _ => word,
    }
}

// The word that should be an assignment or a kind and isn't one.
fn bad_value<'a>(line: &'a [u8], names: Names<'_>, columns: usize) -> &'a [u8] {
    match first_word(line) {
        b"add" => word_behind(line, 1),
        b"type" => word_behind(line, 2),
        b"clock" => first_unfit(line, None),
        _ if columns > 1 => first_unfit(line, Some(columns)),
        _ => bad_assignment(line, names),
    }
}

// The first word behind the command that is no assignment by its text; or else the first one whose value is for a vector alone and
// that names none.
fn bad_assignment<'a>(line: &'a [u8], names: Names<'_>) -> &'a [u8] {
    if let Some(word) = first_unwritten(line) {
        return word;
    }
    match first_misplaced(line, names) {
        Some(word) => word,
        None => first_unfit(line, Some(1)),
    }
}

// The first word behind the command that is no assignment by its text.
fn first_unwritten(line: &[u8]) -> Option<&[u8]> {
    let dashes = matches!(first_word(line), b"expect");
    let mut is_first = true;
    for word in words(line) {
        if !is_first && !is_written(word, dashes) {
            return Some(word);
        }
        is_first = false;
    }
    None
}

// The first word that gives what is no vector a value that is for a vector alone.
fn first_misplaced<'a>(line: &'a [u8], names: Names<'_>) -> Option<&'a [u8]> {
    for word in words(line) {
        if let Some((name, value)) = cut_at_equals(word)
            && !is_letter(value)
            && !is_vector(names, name)
        {
            return Some(word);
        }
    }
    None
}

// The first word behind the command that is no assignment of one letter, or of so many, or of any number of them.
fn first_unfit(line: &[u8], columns: Option<usize>) -> &[u8] {
    let mut is_first = true;
    for word in words(line) {
        if !is_first && !is_assignment(word, columns) {
            return word;
        }
        is_first = false;
    }
    first_word(line)
}

// Whether the word is an assignment by its text, in which `-` may stand or not.
fn is_written(word: &[u8], dashes: bool) -> bool {
    match cut_at_equals(word) {
        Some((name, value)) => !name.is_empty() && is_value(value, dashes),
        None => false,
    }
}

// Whether the text is a value: a number, or letters.
fn is_value(text: &[u8], dashes: bool) -> bool {
    match text {
        [b'%', b'h', digits @ ..] => are_hex_digits(digits),
        [b'%', b'd', digits @ ..] => decimal(digits).is_some(),
        letters => !letters.is_empty() && are_value_letters(letters, dashes),
    }
}

// Whether there are bytes and each is a hexadecimal digit.
fn are_hex_digits(digits: &[u8]) -> bool {
    !digits.is_empty() && digits.iter().all(|digit| digit.is_ascii_hexdigit())
}

// Whether each byte is the letter of a state, or `-` if it may stand.
fn are_value_letters(letters: &[u8], dashes: bool) -> bool {
    for &letter in letters {
        if !(dashes && letter == b'-') && Tern::from_letter(letter).is_none() {
            return false;
        }
    }
    true
}

// Whether the value is one letter of a state.
fn is_letter(value: &[u8]) -> bool {
    value.len() == 1 && are_letters(value)
}

// Whether the word is an assignment of one letter, or of so many, or of any number of them.
fn is_assignment(word: &[u8], columns: Option<usize>) -> bool {
    let Some((name, letters)) = cut_at_equals(word) else {
        return false;
    };
    let count = letters.len();
    let fits = match columns {
        Some(columns) => count == 1 || count == columns,
        None => count > 0,
    };
    fits && !name.is_empty() && are_letters(letters)
}

// Whether each byte is the letter of a state.
fn are_letters(letters: &[u8]) -> bool {
    for letter in letters {
        if Tern::from_letter(*letter).is_none() {
            return false;
        }
    }
    true
}

// The word in the place of a number that isn't one that fits.
fn bad_number(line: &[u8]) -> &[u8] {
    match first_word(line) {
        b"store" => word_behind(line, 2),
        b"add" => word_behind(line, 5),
        b"strength" => bad_of_two(word_behind(line, 1), word_behind(line, 2)),
        _ => word_behind(line, 1),
    }
}

// The first of two words that is no number.
fn bad_of_two<'a>(first: &'a [u8], second: &'a [u8]) -> &'a [u8] {
    match decimal(first) {
        Some(_) => second,
        None => first,
    }
}
