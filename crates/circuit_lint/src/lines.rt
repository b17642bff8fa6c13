//! The lines of the findings, and the line of their numbers.

ghost use Rattle.std.specs.Prelude.{◌≡◌, ◌++◌, codes, decimal, flat_map, map, IfOk, OnOk};
ghost use Rattle.netlist.specs.Circuits.{called};
ghost use Rattle.circuit_lint.specs.Lines as spec;
ghost use Rattle.circuit_lint.specs.Ways.{lists_of};

use crate::counted::Counted;
use crate::findings::Findings;
use crate::sides::Sides;
use itoa::Buffer;
use netlist::Circuit;
use std::alloc::{AllocError, Global};
use ternary::NoMemory;

/// The lines of all findings of a circuit, and the line of their numbers.
pub fn text_of(alloc: Global, circuit: &Circuit, found: &Findings) -> Result<Vec<u8>, NoMemory>
    ensures { IfOk result (λ text. text.items ≡ spec.text_of circuit.now found.now) }
{
    let mut text = Vec::new(alloc);
    short_lines(&mut text, &found.shorted)?;
    floating_lines(&mut text, circuit, &found.floating)?;
    group_lines(&mut text, circuit, b"undriven", &found.undriven)?;
    group_lines(&mut text, circuit, b"never-one", &found.never_one)?;
    group_lines(&mut text, circuit, b"never-zero", &found.never_zero)?;
    dead_lines(&mut text, &found.dead)?;
    supply_lines(&mut text, circuit, &found.supply)?;
    wide_lines(&mut text, circuit, &found.wide)?;
    unused_lines(&mut text, circuit, &found.unused)?;
    numbers_line(&mut text, found)?;
    Ok(text)
}

// The lines of lists of places that join the rails.
fn short_lines(text: &mut Vec<u8>, shorts: &[Vec<usize>]) -> Result<(), AllocError>
    ensures { OnOk result (text.new.items ≡ text.old.items ++ flat_map spec.short_line (lists_of shorts.now)) }
{
    for places in shorts {
        short_line(text, places)?;
    }
    Ok(())
}

// The line of a list of places that joins the rails.
fn short_line(text: &mut Vec<u8>, places: &[usize]) -> Result<(), AllocError>
    ensures { OnOk result (text.new.items ≡ text.old.items ++ spec.short_line places.now) }
{
    put(text, b"shorted")?;
    for &place in places {
        put_switch(text, place)?;
    }
    put(text, b"\n")
}

// The lines of floating nodes.
fn floating_lines(
    text: &mut Vec<u8>,
    circuit: &Circuit,
    floating: &[Counted],
) -> Result<(), AllocError>
    ensures { OnOk result (text.new.items ≡ text.old.items ++ flat_map (spec.floating_line circuit.now) floating.now) }
{
    for counted in floating {
        put_named(text, circuit, b"floating", counted.number)?;
        put_number(text, counted.count)?;
        put(text, b"\n")?;
    }
    Ok(())
}

// The lines of groups under a word.
fn group_lines(
    text: &mut Vec<u8>,
    circuit: &Circuit,
    word: &[u8],
    groups: &[Sides],
) -> Result<(), AllocError>
    ensures { OnOk result (text.new.items ≡ text.old.items ++ flat_map (spec.group_line circuit.now word.now) groups.now) }
{
    for sides in groups {
        put_named(text, circuit, word, sides.node)?;
        put_number(text, sides.nodes)?;
        put(text, b"\n")?;
    }
    Ok(())
}

// The lines of sets of dead switches.
fn dead_lines(text: &mut Vec<u8>, dead: &[Counted]) -> Result<(), AllocError>
    ensures { OnOk result (text.new.items ≡ text.old.items ++ flat_map spec.dead_line dead.now) }
{
    for counted in dead {
        put(text, b"dead")?;
        put_switch(text, counted.number)?;
        put_number(text, counted.count)?;
        put(text, b"\n")?;
    }
    Ok(())
}

// The lines of supplies.
fn supply_lines(text: &mut Vec<u8>, circuit: &Circuit, supply: &[usize]) -> Result<(), AllocError>
    ensures { OnOk result (text.new.items ≡ text.old.items ++ flat_map (spec.supply_line circuit.now) supply.now) }
{
    for &place in supply {
        put(text, b"supply ")?;
        put(text, name_in_use(circuit, place))?;
        put(text, b"\n")?;
    }
    Ok(())
}

// The lines of groups that are too large for a text.
fn wide_lines(text: &mut Vec<u8>, circuit: &Circuit, wide: &[Sides]) -> Result<(), AllocError>
    ensures { OnOk result (text.new.items ≡ text.old.items ++ flat_map (spec.wide_line circuit.now) wide.now) }
{
    for sides in wide {
        put_named(text, circuit, b"wide", sides.node)?;
        put_number(text, sides.nodes)?;
        put_number(text, sides.switches)?;
        put(text, b"\n")?;
    }
    Ok(())
}

// The lines of unused nodes.
fn unused_lines(text: &mut Vec<u8>, circuit: &Circuit, unused: &[usize]) -> Result<(), AllocError>
    ensures { OnOk result (text.new.items ≡ text.old.items ++ flat_map (spec.unused_line circuit.now) unused.now) }
{
    for &node in unused {
        put_named(text, circuit, b"unused", node)?;
        put(text, b"\n")?;
    }
    Ok(())
}

// The line of how many findings there are of each kind.
fn numbers_line(text: &mut Vec<u8>, found: &Findings) -> Result<(), AllocError>
    ensures { OnOk result (text.new.items ≡ text.old.items ++ spec.numbers_line found.now) }
{
    put_counted(text, b"lint shorted", found.shorted.len())?;
    put_counted(text, b" floating", found.floating.len())?;
    put_counted(text, b" undriven", found.undriven.len())?;
    put_counted(text, b" never-one", found.never_one.len())?;
    put_counted(text, b" never-zero", found.never_zero.len())?;
    put_counted(text, b" dead", found.dead.len())?;
    put_counted(text, b" supply", found.supply.len())?;
    put_counted(text, b" wide", found.wide.len())?;
    put_counted(text, b" unused", found.unused.len())?;
    put(text, b"\n")?;
    Ok(())
}

// Puts a word, and a blank and a number.
fn put_counted(text: &mut Vec<u8>, word: &[u8], count: usize) -> Result<(), AllocError>
    ensures { OnOk result (text.new.items ≡ text.old.items ++ word.now ++ spec.number_after count) }
{
    put(text, word)?;
    put_number(text, count)
}

// Puts a word, and a blank and a node's first name.
fn put_named(
    text: &mut Vec<u8>,
    circuit: &Circuit,
    word: &[u8],
    node: usize,
) -> Result<(), AllocError>
    ensures { OnOk result (text.new.items ≡ text.old.items ++ spec.named_line circuit.now word.now node) }
{
    put(text, word)?;
    put(text, b" ")?;
    put(text, first_name(circuit, node))
}

// A node's first name; past the last node there is none.
fn first_name(circuit: &Circuit, node: usize) -> &[u8]
    ensures { result.now ≡ called circuit.now node }
{
    if node < circuit.graph().nodes() {
        circuit.name_of(node)
    } else {
        b""
    }
}

// The name at a place, among the names in the order in which they came into use; past the last one there is none.
fn name_in_use(circuit: &Circuit, place: usize) -> &[u8]
    ensures { result.now ≡ spec.name_in_use circuit.now place }
{
    if place < circuit.names() {
        circuit.name_at(place).0
    } else {
        b""
    }
}

// Puts a blank and the number of the transistor at a place. The number may be one more than the greatest place.
fn put_switch(text: &mut Vec<u8>, place: usize) -> Result<(), AllocError>
    ensures { OnOk result (text.new.items ≡ text.old.items ++ spec.switch_after place) }
{
    let number = place as u128 + 1;
    let mut digits = Buffer::new();
    put(text, b" ")?;
    put(text, digits.format(number).as_bytes())
}

// Puts a blank and a number.
fn put_number(text: &mut Vec<u8>, number: usize) -> Result<(), AllocError>
    ensures { OnOk result (text.new.items ≡ text.old.items ++ spec.number_after number) }
{
    let mut digits = Buffer::new();
    put(text, b" ")?;
    put(text, digits.format(number as u64).as_bytes())
}

// Puts these bytes behind what is there.
fn put(text: &mut Vec<u8>, bytes: &[u8]) -> Result<(), AllocError>
    ensures { OnOk result (text.new.items ≡ text.old.items ++ bytes.now) }
{
    text.extend_from_slice(bytes)
}
