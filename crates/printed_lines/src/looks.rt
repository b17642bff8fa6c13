//! The lines of a look at a node.
ghost use Rattle.std.specs.Prelude.{◌≡◌, ◌+◌, ◌≤◌, ◌++◌, length};
ghost use Rattle.printed_lines.specs.Looks as spec;

use crate::line_buf::LineBuf;
use crate::lines::append_number;
use switch_paths::{SwitchKind, SwitchState};
use ternary::Tern;

/// Room for any line of a look, beyond that for its names.
pub const LOOK_LINE_ROOM: usize = 120;

/// What a node is.
#[derive(Clone, Copy, PartialEq, Eq)]
pub enum NodeSort {
    /// Gnd or Vdd.
    Rail,
    /// An input node.
    Input,
    /// A storage node of this size.
    Size(u64),
}

/// What is told of a transistor: its number, its kind and strength, and what its switch does.
#[derive(Clone, Copy)]
pub struct SwitchTold {
    pub number: u64,
    pub kind: SwitchKind,
    pub strength: u64,
    pub state: SwitchState,
}

/// Appends `look <name> <letter> <what>` and LF; what the node is is `rail`, `input` or `size:<size>`.
pub fn look_line(out: &mut LineBuf, name: &[u8], state: Tern, sort: NodeSort)
    requires room { LOOK_LINE_ROOM + length name.now ≤ out.old.spare }
    ensures bytes { out.new.bytes ≡ out.old.bytes ++ spec.look_line_of name.now state sort }
    ensures spare { out.new.spare + length (spec.look_line_of name.now state sort) ≡ out.old.spare }
    ensures short { length (spec.look_line_of name.now state sort) ≤ LOOK_LINE_ROOM + length name.now }
{
    out.append(b"look ");
    append_node(out, name, state);
    out.append(b" ");
    append_sort(out, sort);
    out.append(b"\n");
}

/// Appends `at <number> <kind> <strength> <switch> gate <name> <letter> end <name> <letter>` and LF, of a transistor
/// with an end at a node, with its gate and its other end.
pub fn end_line(
    out: &mut LineBuf,
    switch: SwitchTold,
    gate: &[u8],
    gate_state: Tern,
    end: &[u8],
    end_state: Tern,
)
    requires room { LOOK_LINE_ROOM + (length gate.now + length end.now) ≤ out.old.spare }
    ensures bytes { out.new.bytes ≡ out.old.bytes ++ spec.end_line_of switch gate.now gate_state end.now end_state }
    ensures spare { out.new.spare + length (spec.end_line_of switch gate.now gate_state end.now end_state) ≡ out.old.spare }
    ensures short { length (spec.end_line_of switch gate.now gate_state end.now end_state) ≤ LOOK_LINE_ROOM + (length gate.now + length end.now) }
{
    out.append(b"at ");
    append_switch(out, switch);
    append_nodes(out, b" gate ", gate, gate_state, b" end ", end, end_state);
}

/// Appends `gate <number> <kind> <strength> <switch> ends <name> <letter> <name> <letter>` and LF, of a transistor
/// that a node is the gate of, with its source and drain.
pub fn gate_line(
    out: &mut LineBuf,
    switch: SwitchTold,
    source: &[u8],
    source_state: Tern,
    drain: &[u8],
    drain_state: Tern,
)
    requires room { LOOK_LINE_ROOM + (length source.now + length drain.now) ≤ out.old.spare }
    ensures bytes { out.new.bytes ≡ out.old.bytes ++ spec.gate_line_of switch source.now source_state drain.now drain_state }
    ensures spare { out.new.spare + length (spec.gate_line_of switch source.now source_state drain.now drain_state) ≡ out.old.spare }
    ensures short { length (spec.gate_line_of switch source.now source_state drain.now drain_state) ≤ LOOK_LINE_ROOM + (length source.now + length drain.now) }
{
    out.append(b"gate ");
    append_switch(out, switch);
    append_nodes(
        out,
        b" ends ",
        source,
        source_state,
        b" ",
        drain,
        drain_state,
    );
}

// Appends two nodes with a text before each, and LF.
fn append_nodes(
    out: &mut LineBuf,
    before: &[u8],
    first: &[u8],
    first_state: Tern,
    between: &[u8],
    second: &[u8],
    second_state: Tern,
)
    requires room { length before.now + length first.now + (length between.now + length second.now) + 5 ≤ out.old.spare }
    ensures bytes { out.new.bytes ≡ out.old.bytes ++ spec.nodes_text before.now first.now first_state between.now second.now second_state }
    ensures spare { out.new.spare + length (spec.nodes_text before.now first.now first_state between.now second.now second_state) ≡ out.old.spare }
    ensures short { length (spec.nodes_text before.now first.now first_state between.now second.now second_state)
        ≡ length before.now + length first.now + (length between.now + length second.now) + 5 }
{
    out.append(before);
    append_node(out, first, first_state);
    out.append(between);
    append_node(out, second, second_state);
    out.append(b"\n");
}

// Appends a node's name and its state's letter.
fn append_node(out: &mut LineBuf, name: &[u8], state: Tern)
    requires room { 2 + length name.now ≤ out.old.spare }
    ensures bytes { out.new.bytes ≡ out.old.bytes ++ spec.node_text name.now state }
    ensures spare { out.new.spare + (2 + length name.now) ≡ out.old.spare }
    ensures short { length (spec.node_text name.now state) ≡ 2 + length name.now }
{
    out.append(name);
    out.append(b" ");
    out.push(state.letter());
}

// Appends a transistor: its number, kind and strength, and what its switch does.
fn append_switch(out: &mut LineBuf, switch: SwitchTold)
    requires room { 51 ≤ out.old.spare }
    ensures bytes { out.new.bytes ≡ out.old.bytes ++ spec.switch_text switch }
    ensures spare { out.new.spare + length (spec.switch_text switch) ≡ out.old.spare }
    ensures short { length (spec.switch_text switch) ≤ 51 }
{
    append_number(out, switch.number);
    out.append(b" ");
    append_kind(out, switch.kind);
    out.append(b" ");
    append_number(out, switch.strength);
    out.append(b" ");
    append_state(out, switch.state);
}

/// Appends the letter of a kind.
pub fn append_kind(out: &mut LineBuf, kind: SwitchKind)
    requires room { 1 ≤ out.old.spare }
    ensures bytes { out.new.bytes ≡ out.old.bytes ++ spec.kind_text kind }
    ensures spare { out.new.spare + 1 ≡ out.old.spare }
    ensures short { length (spec.kind_text kind) ≡ 1 }
{
    match kind {
        SwitchKind::NChan => out.append(b"n"),
        SwitchKind::PChan => out.append(b"p"),
        SwitchKind::Always => out.append(b"d"),
    }
}

/// Appends what a switch does.
pub fn append_state(out: &mut LineBuf, state: SwitchState)
    requires room { 7 ≤ out.old.spare }
    ensures bytes { out.new.bytes ≡ out.old.bytes ++ spec.switch_state_text state }
    ensures spare { out.new.spare + length (spec.switch_state_text state) ≡ out.old.spare }
    ensures short { length (spec.switch_state_text state) ≤ 7 }
{
    match state {
        SwitchState::Open => out.append(b"open"),
        SwitchState::Closed => out.append(b"closed"),
        SwitchState::Unknown => out.append(b"unknown"),
    }
}

/// Appends what a node is.
pub fn append_sort(out: &mut LineBuf, sort: NodeSort)
    requires room { 25 ≤ out.old.spare }
    ensures bytes { out.new.bytes ≡ out.old.bytes ++ spec.sort_text sort }
    ensures spare { out.new.spare + length (spec.sort_text sort) ≡ out.old.spare }
    ensures short { length (spec.sort_text sort) ≤ 25 }
{
    match sort {
        NodeSort::Rail => out.append(b"rail"),
        NodeSort::Input => out.append(b"input"),
        NodeSort::Size(size) => {
            out.append(b"size:");
            append_number(out, size);
        }
    }
}
