//! What is noted of a refusal for a human: its code, and its cure with the word that it is about.

ghost use Rattle.std.specs.Prelude.{◌≡◌};

use help_texts::{cure, symbolic_cure};
use itoa::Buffer;
use ports::{NotedFile, Sink};
use std::alloc::Global;
use ternary::NoMemory;

// How many bytes of a word are shown.
const MOST_SHOWN: usize = 80;

/// Notes of a line of a file the code of its refusal, and the cure with the word that it is about; out of
/// memory it notes nothing. Nothing is written by it.
pub fn note_cure<S: Sink>(
    alloc: Global,
    file: NotedFile,
    line: Option<u64>,
    code: &[u8],
    word: &[u8],
    out: &mut S,
)
    ensures bytes { S.written out.new ≡ S.written out.old }
    ensures cause { S.faults out.new ≡ S.faults out.old }
    ensures memory { S.refusals out.new ≡ S.refusals out.old }
{
    let Ok(text) = cure_text(alloc, line, code, word) else {
        return;
    };
    out.note(file, &text);
}

/// The same of a line of a symbolic script, with its own cure if it has one.
pub(crate) fn note_symbolic_cure<S: Sink>(
    alloc: Global,
    file: NotedFile,
    line: Option<u64>,
    code: &[u8],
    word: &[u8],
    out: &mut S,
)
    ensures bytes { S.written out.new ≡ S.written out.old }
    ensures cause { S.faults out.new ≡ S.faults out.old }
    ensures memory { S.refusals out.new ≡ S.refusals out.old }
{
    let Ok(text) = text_with(alloc, line, code, symbolic_cure(code), word) else {
        return;
    };
    out.note(file, &text);
}

/// What is noted, as it follows the file's name: the line, the code, and the cure.
pub fn cure_text(
    alloc: Global,
    line: Option<u64>,
    code: &[u8],
    word: &[u8],
) -> Result<Vec<u8>, NoMemory> {
    text_with(alloc, line, code, cure(code), word)
}

// The line, the code, and what its cure says, if it has one.
fn text_with(
    alloc: Global,
    line: Option<u64>,
    code: &[u8],
    says: Option<&'static str>,
    word: &[u8],
) -> Result<Vec<u8>, NoMemory> {
    let mut text = Vec::new(alloc);
    append_line(&mut text, line)?;
    append(&mut text, b": ")?;
    append(&mut text, code)?;
    if let Some(says) = says {
        append(&mut text, b": ")?;
        append_cure(&mut text, says.as_bytes(), word)?;
    }
    Ok(text)
}

// Appends a colon and the number of a line, if there is one.
fn append_line(text: &mut Vec<u8>, line: Option<u64>) -> Result<(), NoMemory> {
    let Some(line) = line else {
        return Ok(());
    };
    let mut buffer = Buffer::new();
    append(text, b":")?;
    append(text, buffer.format(line).as_bytes())
}

// Appends what a cure says, with this word in the place of each `{}`.
fn append_cure(text: &mut Vec<u8>, says: &[u8], word: &[u8]) -> Result<(), NoMemory> {
    for &byte in says {
        match byte {
            b'{' => append_word(text, word)?,
            b'}' => {}
            _ => append(text, &[byte])?,
        }
    }
    Ok(())
}

// Appends a word, as far as it is shown. A byte that is no visible ASCII, as a comment may have it, is shown as `?`.
fn append_word(text: &mut Vec<u8>, word: &[u8]) -> Result<(), NoMemory> {
    let shown = word.len().min(MOST_SHOWN);
    for &byte in &word[..shown] {
        append(text, &[visible(byte)])?;
    }
    if shown < word.len() {
        append(text, b"..")?;
    }
    Ok(())
}

// The byte, or `?` if it is no visible ASCII.
fn visible(byte: u8) -> u8 {
    match byte {
        0x21..=0x7e => byte,
        _ => b'?',
    }
}

// Appends these bytes.
fn append(text: &mut Vec<u8>, bytes: &[u8]) -> Result<(), NoMemory> {
    text.extend_from_slice(bytes)?;
    Ok(())
}
