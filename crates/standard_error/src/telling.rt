//! What is told on standard error. What it doesn't take is told nowhere.

use help_texts::usage;
use run_ends::Status;
use std::io;

/// Tells that the program could not start because this is missing.
pub fn tell_start(rt: &HostRuntime, what: &str, error: io::Error) {
    let _ = eprintln!(rt; "cosmos: no {what}: {error}");
}

/// Tells why a run with these words stopped: for words that are no command line, for a node that isn't in
/// use, for a fault of the file with this name or of the output, with the system's reason if there is
/// one, and for lack of memory.
pub fn tell_stop(
    rt: &HostRuntime,
    words: &[String],
    status: Status,
    file: Option<&str>,
    of_file: Option<io::Error>,
    of_output: Option<io::Error>,
) {
    match status {
        Status::Usage => tell_usage(rt, words),
        Status::ReadFault => tell_fault(rt, file.unwrap_or("a file"), "can't be read", of_file),
        Status::WriteFault => tell_fault(rt, "the output", "can't be written", of_output),
        Status::NoMemory => {
            let _ = eprintln!(rt; "cosmos: out of memory");
        }
        // Of vertices that ran out `tell_full` tells more.
        Status::Done
        | Status::Mismatch
        | Status::NetRefused
        | Status::ScriptRefused
        | Status::Full => {}
    }
}

/// Tells that one vertex more was wanted than there may be, at a line if there is one.
pub fn tell_full(rt: &HostRuntime, vertices: u32, line: Option<u64>) {
    let _ = match line {
        Some(line) => eprintln!(rt; "cosmos: more than {vertices} vertices at line {line}"),
        None => eprintln!(rt; "cosmos: more than {vertices} vertices"),
    };
}

// Tells the forms of all requests; or of `why NET SCRIPT NODE`, which is one, that the node isn't in use.
fn tell_usage(rt: &HostRuntime, words: &[String]) {
    let _ = if asks_why(words) {
        eprintln!(rt; "cosmos: the NODE is not in use at the script's end")
    } else {
        eprint!(rt; "{}", usage())
    };
}

// Whether the words ask for the reasons of a node.
fn asks_why(words: &[String]) -> bool {
    if let [command, _, _, _] = words {
        command.as_str() == "why"
    } else {
        false
    }
}

// Tells of a file or the output, what it can't do, and why.
fn tell_fault(rt: &HostRuntime, what: &str, cannot: &str, reason: Option<io::Error>) {
    let _ = match reason {
        Some(error) => eprintln!(rt; "cosmos: {what} {cannot}: {error}"),
        None => eprintln!(rt; "cosmos: {what} {cannot}"),
    };
}
