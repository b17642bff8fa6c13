//! The lines of a list of faults.
ghost use Rattle.std.specs.Prelude.{◌≡◌, ◌<◌, ◌≤◌, IfOk, IfSome, is_some, true};
ghost use Rattle.fault_sim.specs.Words.{decimal_of, nodes, node_of, switch_numbered};
ghost use Rattle.fault_sim.specs.Faults.{fault_of, fault_of_line, fault_of_words, free_node, kind_of, number_of, IsFault};

use line_words::{LineFault, Words, check_line, decimal, is_comment, words};
use netlist::{Circuit, RAILS};
use ternary::Tern;
use thiserror::Error;

/// A fault of a circuit.
#[derive(Clone, Copy, PartialEq, Eq)]
pub enum Fault {
    /// The transistor of this number never conducts.
    Open(u64),
    /// The transistor of this number always conducts.
    Closed(u64),
    /// The node stays at this state, as an input node that nothing sets.
    Stuck(usize, Tern),
}

// The kind of a fault, as the first word of a line names it.
#[derive(Clone, Copy)]
enum Kind {
    Open,
    Closed,
    Zero,
    One,
}

/// Why a line of a list names no fault. If several causes stand together, the first here wins.
#[derive(Clone, Copy, Debug, Drop, Error, PartialEq, Eq)]
pub enum ListFault {
    /// The line has more bytes than a line may have.
    #[error("the line is too long")]
    LineTooLong,
    /// The line is no comment, and has a byte that is none of tab, space and 0x21 to 0x7e.
    #[error("a byte that may not stand in a line")]
    BadByte,
    /// The line isn't two words, of which the first is `open` or `closed` and the second a number,
    /// or the first is `zero` or `one`.
    #[error("no fault")]
    BadFault,
    /// No transistor has the number.
    #[error("no such transistor")]
    NoSuchSwitch,
    /// The name isn't in use.
    #[error("no such node")]
    UnknownNode,
    /// The node is Vdd or Gnd.
    #[error("the node is a rail")]
    Rail,
}

/// Reads a line of a list of faults in the circuit at the start: its fault, or None exactly if it
/// is no longer than a line may be and has no words or is a comment.
///
/// A fault is `open K` or `closed K`, for a transistor's number, or `zero NAME` or `one NAME`, for a
/// node. The refusals are those of `ListFault`, in its order.
pub fn read_fault(circuit: &Circuit, bytes: &[u8]) -> Result<Option<Fault>, ListFault>
    ensures value { result ≡ fault_of_line circuit.now bytes.now }
    ensures fault { IfOk result (λ found. IfSome found (IsFault circuit.now)) }
{
    match check_line(bytes) {
        Err(LineFault::TooLong) => Err(ListFault::LineTooLong),
        Err(LineFault::BadByte) => Err(ListFault::BadByte),
        Ok(()) if is_comment(bytes) => Ok(None),
        Ok(()) => read_words(circuit, words(bytes)),
    }
}

// The fault that the words of a line name.
fn read_words(circuit: &Circuit, mut words: Words<'_>) -> Result<Option<Fault>, ListFault>
    ensures value { result ≡ fault_of_words circuit.now words.entry }
    ensures fault { IfOk result (λ found. IfSome found (IsFault circuit.now)) }
{
    let Some(word) = words.next() else {
        return Ok(None);
    };
    let subject = words.next().ok_or(ListFault::BadFault)?;
    if words.next().is_some() {
        return Err(ListFault::BadFault);
    }
    let kind = kind_named(word).ok_or(ListFault::BadFault)?;
    Ok(Some(fault_on(circuit, kind, subject)?))
}

// The kind of fault that a word names.
fn kind_named(word: &[u8]) -> Option<Kind>
    ensures { result ≡ kind_of word.now }
{
    match word {
        b"open" => Some(Kind::Open),
        b"closed" => Some(Kind::Closed),
        b"zero" => Some(Kind::Zero),
        b"one" => Some(Kind::One),
        _ => None,
    }
}

// The fault of this kind on what a word says.
fn fault_on(circuit: &Circuit, kind: Kind, subject: &[u8]) -> Result<Fault, ListFault>
    ensures value { result ≡ fault_of circuit.now kind subject.now }
    ensures fault { IfOk result (IsFault circuit.now) }
{
    match kind {
        Kind::Open => Ok(Fault::Open(number(circuit, subject)?)),
        Kind::Closed => Ok(Fault::Closed(number(circuit, subject)?)),
        Kind::Zero => Ok(Fault::Stuck(node(circuit, subject)?, Tern::Zero)),
        Kind::One => Ok(Fault::Stuck(node(circuit, subject)?, Tern::One)),
    }
}

// The number of a transistor.
fn number(circuit: &Circuit, word: &[u8]) -> Result<u64, ListFault>
    ensures value { result ≡ number_of circuit.now (decimal_of word.now) }
    ensures there { IfOk result (λ number. is_some (switch_numbered circuit.now number) ≡ true) }
{
    let Some(number) = decimal(word) else {
        return Err(ListFault::BadFault);
    };
    if has_switch(circuit, number) {
        Ok(number)
    } else {
        Err(ListFault::NoSuchSwitch)
    }
}

// Whether a transistor has the number.
fn has_switch(circuit: &Circuit, number: u64) -> bool
    ensures { result ≡ is_some (switch_numbered circuit.now number) }
{
    let graph = circuit.graph();
    if number == 0 || graph.places() as u64 <= number - 1 {
        return false;
    }
    graph.switch_at(number as usize - 1).is_some()
}

// A node that may be stuck, by its name.
fn node(circuit: &Circuit, name: &[u8]) -> Result<usize, ListFault>
    ensures value { result ≡ free_node (node_of circuit.now.names name.now) }
    ensures there { IfOk result (λ node. (RAILS ≤ node) × (node < nodes circuit.now.graph)) }
{
    let Some(node) = circuit.find(name) else {
        return Err(ListFault::UnknownNode);
    };
    if node < RAILS {
        return Err(ListFault::Rail);
    }
    Ok(node)
}
