//! Names that supplies have in netlists, and nodes other than the rails that have one.

ghost use Rattle.std.specs.Prelude.{◌≡◌, ◌+◌, ◌<◌, length, map, None, Some, unwrap_or, slice_index_or, slice_set, IfOk};
ghost use Rattle.std.specs.Char.{to_ascii_lowercase};
ghost use Rattle.std.specs.List.{list_all};
ghost use Rattle.switch_paths.specs.Graphs.{nodes};
ghost use Rattle.netlist.specs.Circuits.{IsCircuit};
ghost use Rattle.circuit_lint.specs.Supplies as spec;

use crate::lists::{no_numbers, push_some};
use netlist::Circuit;
use std::alloc::{AllocError, Global};
use switch_paths::RAILS;

/// The places of the names of supplies, among the names in use: of each node but the rails the first one, by
/// ascending node.
pub(crate) fn supplies(alloc: Global, circuit: &Circuit) -> Result<Vec<usize>, AllocError>
    ensures { IfOk result (λ found. found.items ≡ spec.supplies_of circuit.now) }
{
    let firsts = first_supplies(alloc, circuit)?;
    let mut found = Vec::new(alloc);
    for node in 0..circuit.graph().nodes() {
        push_some(&mut found, supply_at(circuit, &firsts, node))?;
    }
    Ok(found)
}

// The place of a node's first name of a supply; a rail has none.
fn supply_at(circuit: &Circuit, firsts: &[Option<usize>], node: usize) -> Option<usize>
    requires node { node < nodes circuit.now.graph }
    requires firsts { spec.AreFirstSupplies circuit.now (length circuit.now.names) firsts.now }
    ensures { result ≡ spec.supply_place circuit.now node }
{
    if RAILS <= node { firsts[node] } else { None }
}

// Of each node the place of its first name of a supply, if it has one.
fn first_supplies(alloc: Global, circuit: &Circuit) -> Result<Vec<Option<usize>>, AllocError>
    ensures { IfOk result (λ firsts. spec.AreFirstSupplies circuit.now (length circuit.now.names) firsts.items) }
{
    let mut firsts = no_numbers(alloc, circuit.graph().nodes())?;
    for place in 0..circuit.names() {
        note_name(circuit, place, &mut firsts);
    }
    Ok(firsts)
}

// Notes the name at a place for its node, if it is that of a supply and the node has none yet.
fn note_name(circuit: &Circuit, place: usize, firsts: &mut Vec<Option<usize>>)
    requires circuit { IsCircuit circuit.now }
    requires place { place < length circuit.now.names }
    requires before { spec.AreFirstSupplies circuit.now place firsts.old.items }
    ensures { spec.AreFirstSupplies circuit.now (place + 1) firsts.new.items }
{
    let (name, node) = circuit.name_at(place);
    if is_supply_name(name) {
        note_first(firsts, node, place);
    }
}

// Notes a place at a node that has none yet.
fn note_first(firsts: &mut Vec<Option<usize>>, node: usize, place: usize)
    requires { node < length firsts.old.items }
    ensures { firsts.new.items ≡ slice_set firsts.old.items node (Some (unwrap_or (slice_index_or firsts.old.items node None) place)) }
{
    if firsts[node].is_none() {
        firsts[node] = Some(place);
    }
}

// Whether the last part of a name, before a number, is a word for a supply.
fn is_supply_name(name: &[u8]) -> bool
    ensures { result ≡ spec.is_supply_name name.now }
{
    for place in 0..name.len() {
        if is_supply_at(name, place) {
            return true;
        }
    }
    false
}

// Whether a part begins at this place that is a word for a supply, to the name's end or to a number.
fn is_supply_at(name: &[u8], place: usize) -> bool
    requires { place < length name.now }
    ensures { result ≡ spec.is_supply_at name.now place }
{
    begins_part(name, place) && is_supply_part(&name[place..])
}

// Whether a part of a name begins at this place.
fn begins_part(name: &[u8], place: usize) -> bool
    requires { place < length name.now }
    ensures { result ≡ spec.begins_part name.now place }
{
    place == 0 || is_separator(name[place - 1])
}

// Whether a byte parts the names of a hierarchy.
fn is_separator(byte: u8) -> bool
    ensures { result ≡ spec.is_separator byte }
{
    byte == b'/' || byte == b'.' || byte == b':'
}

// Whether the bytes are a word for a supply, to their end or to a number.
fn is_supply_part(part: &[u8]) -> bool
    ensures { result ≡ spec.is_supply_part part.now }
{
    spells_to_number(part, b"vdd")
        || spells_to_number(part, b"vcc")
        || spells_to_number(part, b"vss")
        || spells_to_number(part, b"gnd")
        || spells_to_number(part, b"vpwr")
        || spells_to_number(part, b"vgnd")
        || spells_to_number(part, b"vdd!")
        || spells_to_number(part, b"vcc!")
        || spells_to_number(part, b"vss!")
        || spells_to_number(part, b"gnd!")
}

// Whether the bytes are this word, given in small letters, to their end or to a number.
fn spells_to_number(part: &[u8], word: &[u8]) -> bool
    requires { map to_ascii_lowercase word.now ≡ word.now }
    ensures { result ≡ spec.spells_to_number part.now word.now }
{
    if part.len() < word.len() {
        return false;
    }
    let (name, rest) = part.split_at(word.len());
    name.eq_ignore_ascii_case(word) && is_number_or_end(rest)
}

// Whether the bytes are none, or `#` and digits behind it.
fn is_number_or_end(bytes: &[u8]) -> bool
    ensures { result ≡ spec.is_number_or_end bytes.now }
{
    match bytes {
        [] => true,
        [byte, digits @ ..] => *byte == b'#' && !digits.is_empty() && are_digits(digits),
    }
}

// Whether all bytes are digits.
fn are_digits(bytes: &[u8]) -> bool
    ensures { result ≡ list_all spec.is_digit bytes.now }
{
    for &byte in bytes {
        if byte < b'0' || b'9' < byte {
            return false;
        }
    }
    true
}
