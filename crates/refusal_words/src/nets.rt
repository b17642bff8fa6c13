//! The words of refused lines of a netlist.

use crate::line_parts::{after_first, first_word, word_behind};
use line_words::{decimal, words};
use printed_lines::FaultCode;
use strength_order::{Profile, size_level, switch_level};

/// The word that the refusal of this line of a netlist is about.
pub fn net_word(code: FaultCode, line: &[u8]) -> &[u8] {
    let found = match code {
        FaultCode::N3Format => format_in(line),
        FaultCode::N5BadCaps => caps_in(line),
        FaultCode::E4BadStrength => refused_text(line, Setting::Strength),
        FaultCode::E5BadSize => refused_text(line, Setting::Size),
        FaultCode::E6AliasTaken => Some(word_behind(line, 2)),
        _ => None,
    };
    match found {
        Some(word) => word,
        None => first_word(line),
    }
}

// The format that a header names: the word after its first `format:` that has one.
fn format_in(line: &[u8]) -> Option<&[u8]> {
    let mut is_next = false;
    for word in words(after_first(line, b'|')?) {
        if is_next {
            return Some(word);
        }
        is_next = matches!(word, b"format:");
    }
    None
}

// The thresholds that a header names: its first word that begins with `caps:`.
fn caps_in(line: &[u8]) -> Option<&[u8]> {
    for word in words(after_first(line, b'|')?) {
        if word.strip_prefix(b"caps:").is_some() {
            return Some(word);
        }
    }
    None
}

// What an item of a word sets.
#[derive(Clone, Copy)]
enum Setting {
    Strength,
    Size,
}

// The text of the first item that sets this and that profile 2 doesn't accept, or else that profile 1 doesn't:
// in a refused line neither is accepted.
fn refused_text(line: &[u8], setting: Setting) -> Option<&[u8]> {
    match refused_in(line, setting, Profile::Two) {
        Some(text) => Some(text),
        None => refused_in(line, setting, Profile::One),
    }
}

// The text of the first item of a line that sets this and that the profile doesn't accept.
fn refused_in(line: &[u8], setting: Setting, profile: Profile) -> Option<&[u8]> {
    for word in words(line) {
        if let Some(text) = refused_item(word, setting, profile) {
            return Some(text);
        }
    }
    None
}

// The text of the first item of a word that sets this and that the profile doesn't accept.
fn refused_item(word: &[u8], setting: Setting, profile: Profile) -> Option<&[u8]> {
    for item in items_of(word, setting).split(|&byte| byte == b',') {
        if let Some(text) = text_of(item, setting)
            && !is_accepted(text, setting, profile)
        {
            return Some(text);
        }
    }
    None
}

// The items of a word: those of a strength stand behind `g=`.
fn items_of(word: &[u8], setting: Setting) -> &[u8] {
    match setting {
        Setting::Strength => match word.strip_prefix(b"g=") {
            Some(items) => items,
            None => &[],
        },
        Setting::Size => word,
    }
}

// The text that an item has for this setting, if it sets it.
fn text_of(item: &[u8], setting: Setting) -> Option<&[u8]> {
    match setting {
        Setting::Strength => item.strip_prefix(b"strength:"),
        Setting::Size => item.strip_prefix(b"size:"),
    }
}

// Whether the profile accepts what this text sets.
fn is_accepted(text: &[u8], setting: Setting, profile: Profile) -> bool {
    let Some(number) = decimal(text) else {
        return false;
    };
    match setting {
        Setting::Strength => switch_level(profile, number).is_some(),
        Setting::Size => size_level(profile, number).is_some(),
    }
}
