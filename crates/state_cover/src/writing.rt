//! The lines that tell what each node never had.
ghost use Rattle.std.specs.Prelude.{◌≡◌, ◌≤◌, [], ◌++◌, length, drop, count_by, codes, decimal, OnOk, OnErr};
ghost use Rattle.std.specs.Io.KnownBytes.{append_known};
ghost use Rattle.switch_paths.specs.Graphs.{nodes};
ghost use Rattle.switch_paths.specs.declared.TheConstants.{RAILS};
ghost use Rattle.ports.specs.Ports.{RefusedOnce, faults_after};
ghost use Rattle.ports.specs.Sending.{WritesPart};
ghost use Rattle.state_cover.specs.Cover.{had_at};
ghost use Rattle.state_cover.specs.Lines as spec;
ghost use Rattle.state_cover.specs.Lines.{cover_text, node_line_of, counts_of, counts_line_of, never_of};

use crate::cover::Cover;
use crate::had::Had;
use itoa::Buffer;
use netlist::{Circuit, RAILS};
use ports::{PortFault, Sink, send};
use std::alloc::{AllocError, Global};

/// Writes the cover of a circuit: a line for each node but the rails that lacks something, by
/// ascending number, and the line of the counts.
///
/// There are notes of each node. After a fault, and after memory ran out, a prefix of the text was
/// written, and nothing after the call that failed.
pub fn write_cover<S: Sink>(
    alloc: Global,
    circuit: &Circuit,
    cover: &Cover,
    out: &mut S,
) -> Result<(), PortFault>
    requires { length cover.now ≡ nodes circuit.now.graph }
    ensures text { OnOk result (S.written out.new ≡ append_known (S.written out.old) (cover_text circuit.now cover.now)) }
    ensures part { OnErr result (WritesPart (S.written out.old) (S.written out.new) (cover_text circuit.now cover.now)) }
    ensures cause { S.faults out.new ≡ faults_after (S.faults out.old) result }
    ensures memory { RefusedOnce (S.refusals out.old) (S.refusals out.new) result }
{
    let mut line = Vec::new(alloc);
    for node in RAILS..circuit.graph().nodes() {
        put_node_line(&mut line, circuit.name_of(node), cover.had(node)).map_err(memory_fault)?;
        send(out, &line)?;
    }
    put_counts_line(&mut line, cover).map_err(memory_fault)?;
    send(out, &line)
}

// Lack of memory, as the answer of a call that writes.
fn memory_fault(_want: AllocError) -> PortFault
    ensures { result ≡ PortFault.NoMemory }
{
    PortFault::NoMemory
}

// Puts the line of a node in the place of what was there: nothing if it had both.
fn put_node_line(line: &mut Vec<u8>, name: &[u8], had: Had) -> Result<(), AllocError>
    ensures { OnOk result (line.new.items ≡ node_line_of name.now had) }
{
    line.clear();
    if is_both(had) {
        return Ok(());
    }
    line.extend_from_slice(b"cover ")?;
    line.extend_from_slice(name)?;
    line.extend_from_slice(b" ")?;
    put_never(line, had)?;
    line.extend_from_slice(b"\n")
}

// Puts what a node never had.
fn put_never(line: &mut Vec<u8>, had: Had) -> Result<(), AllocError>
    ensures { OnOk result (line.new.items ≡ line.old.items ++ never_of had) }
{
    match (had.zero, had.one) {
        (false, false) => line.extend_from_slice(b"01"),
        (false, true) => line.extend_from_slice(b"0"),
        (true, false) => line.extend_from_slice(b"1"),
        (true, true) => Ok(()),
    }
}

// Puts the line of the counts in the place of what was there.
fn put_counts_line(line: &mut Vec<u8>, cover: &Cover) -> Result<(), AllocError>
    requires { RAILS ≤ length cover.now }
    ensures { OnOk result (line.new.items ≡ counts_line_of (drop RAILS cover.now)) }
{
    let hads = &cover.all()[RAILS..];
    line.clear();
    put_counts(
        line,
        hads.len(),
        count_both(hads),
        count_one(hads),
        count_none(hads),
    )
}

// Puts a line of counts.
fn put_counts(
    line: &mut Vec<u8>,
    nodes: usize,
    both: usize,
    one: usize,
    none: usize,
) -> Result<(), AllocError>
    ensures { OnOk result (line.new.items ≡ line.old.items ++ counts_of nodes both one none) }
{
    put_count(line, b"cover nodes ", nodes)?;
    put_count(line, b" both ", both)?;
    put_count(line, b" one ", one)?;
    put_count(line, b" none ", none)?;
    line.extend_from_slice(b"\n")?;
    Ok(())
}

// Puts a text and a number behind it.
fn put_count(line: &mut Vec<u8>, text: &[u8], count: usize) -> Result<(), AllocError>
    ensures { OnOk result (line.new.items ≡ line.old.items ++ text.now ++ decimal count) }
{
    let mut buffer = Buffer::new();
    line.extend_from_slice(text)?;
    line.extend_from_slice(buffer.format(count).as_bytes())
}

// How many nodes had both.
fn count_both(hads: &[Had]) -> usize
    ensures { result ≡ count_by spec.had_both hads.now }
{
    hads.iter().filter(|&&had| is_both(had)).count()
}

// How many nodes had one and not the other.
fn count_one(hads: &[Had]) -> usize
    ensures { result ≡ count_by spec.had_one hads.now }
{
    hads.iter().filter(|&&had| is_one(had)).count()
}

// How many nodes had none.
fn count_none(hads: &[Had]) -> usize
    ensures { result ≡ count_by spec.had_none hads.now }
{
    hads.iter().filter(|&&had| is_none(had)).count()
}

// Whether the node had both.
fn is_both(had: Had) -> bool
    ensures { result ≡ spec.had_both had }
{
    had.zero && had.one
}

// Whether the node had one and not the other.
fn is_one(had: Had) -> bool
    ensures { result ≡ spec.had_one had }
{
    had.zero != had.one
}

// Whether the node had none.
fn is_none(had: Had) -> bool
    ensures { result ≡ spec.had_none had }
{
    !had.zero && !had.one
}
