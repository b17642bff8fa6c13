//! The words of refused lines of a list of faults.

use crate::line_parts::{first_word, line_at, word_behind};
use printed_lines::FaultCode;

/// The word that the refusal of the line with this number of a list is about.
pub fn list_word(code: FaultCode, text: &[u8], number: u64) -> &[u8] {
    let line = line_at(text, number);
    match code {
        FaultCode::E1UnknownNode | FaultCode::E2NoSuchSwitch | FaultCode::E3Rail => {
            word_behind(line, 1)
        }
        _ => first_word(line),
    }
}
