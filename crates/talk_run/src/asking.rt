//! What a line asks for in a talk.
ghost use Rattle.std.specs.Prelude.{◌≡◌};
ghost use Rattle.talk_run.specs.Asking as spec;

use line_words::{Words, check_line, is_comment, words};
use printed_lines::FaultCode;

/// What a line asks for.
#[derive(Drop)]
pub enum Asked<'a> {
    /// What a line of a script asks for.
    OfScript,
    /// The reasons of the node with this name.
    Why(&'a [u8]),
    /// This word and those behind it again.
    Echo(&'a [u8], Words<'a>),
    /// The end of the talk.
    Quit,
    /// Nothing that there is: it has too few words, or too many.
    Refused(FaultCode),
}

/// What a line asks for: `why NAME`, `echo WORD..`, `quit`, or what a line of a script asks for. To scripts are left
/// also a comment, and a line that is too long or has a bad byte.
pub fn asked_of(bytes: &[u8]) -> Asked<'_>
    ensures { spec.asked_seen result ≡ spec.asked_of bytes.now }
{
    match check_line(bytes) {
        Err(_) => Asked::OfScript,
        Ok(()) if is_comment(bytes) => Asked::OfScript,
        Ok(()) => words_asked(words(bytes)),
    }
}

/// Whether the talk ends with what is asked for.
pub(crate) fn is_quit(asked: &Asked<'_>) -> bool
    ensures { result ≡ spec.is_quit (spec.asked_seen asked.now) }
{
    matches!(asked, Asked::Quit)
}

// What words ask for, by the first.
fn words_asked(mut words: Words<'_>) -> Asked<'_>
    ensures { spec.asked_seen result ≡ spec.words_asked words.entry }
{
    let Some(word) = words.next() else {
        return Asked::OfScript;
    };
    match word {
        b"why" => why_asked(words),
        b"echo" => echo_asked(words),
        b"quit" => quit_asked(words),
        _ => Asked::OfScript,
    }
}

// What `why` asks for with these words.
fn why_asked(mut words: Words<'_>) -> Asked<'_>
    ensures { spec.asked_seen result ≡ spec.why_asked words.entry }
{
    let Some(name) = words.next() else {
        return Asked::Refused(FaultCode::S2FewWords);
    };
    match words.next() {
        Some(_) => Asked::Refused(FaultCode::S3ManyWords),
        None => Asked::Why(name),
    }
}

// What `echo` asks for with these words.
fn echo_asked(mut words: Words<'_>) -> Asked<'_>
    ensures { spec.asked_seen result ≡ spec.echo_asked words.entry }
{
    match words.next() {
        Some(word) => Asked::Echo(word, words),
        None => Asked::Refused(FaultCode::S2FewWords),
    }
}

// What `quit` asks for with these words.
fn quit_asked(mut words: Words<'_>) -> Asked<'_>
    ensures { spec.asked_seen result ≡ spec.quit_asked words.entry }
{
    match words.next() {
        Some(_) => Asked::Refused(FaultCode::S3ManyWords),
        None => Asked::Quit,
    }
}
