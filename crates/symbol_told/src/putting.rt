//! The text of a line.

ghost use Rattle.std.specs.Prelude.{◌≡◌, ◌∷◌, [], ◌++◌, codes, decimal, map, zip, OnOk};
ghost use Rattle.ternary.specs.Tern.{letter};
ghost use Rattle.printed_lines.specs.Lines.{mark_of};
ghost use Rattle.printed_lines.specs.Looks.{kind_text, sort_text};
ghost use Rattle.symbol_meaning.specs.Told as spec;
ghost use Rattle.symbol_told.specs.Lines.{switch_seen, told_seen};

use crate::lines::{SwitchShown, ToldLine};
use crate::valuations::put_where;
use printed_lines::{
    LineBuf, NUMBER_ROOM, NodeSort, append_kind, append_number, append_sort, append_state,
};
use script_lang::Name;
use switch_paths::{SwitchKind, SwitchState};
use ternary::{NoMemory, Tern};

// Room for what a switch does.
const STATE_ROOM: usize = 7;

// Room for what a node is.
const SORT_ROOM: usize = 25;

/// Puts the text of a line, by the names of the variables.
///
/// Out of memory a part of it may have been put.
pub fn put_told(out: &mut LineBuf, variables: &[Name], line: ToldLine) -> Result<(), NoMemory>
    ensures { OnOk result (out.new.bytes ≡ out.old.bytes ++ spec.told_text variables.now (told_seen line.entry)) }
{
    match line {
        ToldLine::Wave { n, k, mark, values } => put_wave(out, n, k, mark, values),
        ToldLine::Unmet {
            name,
            wanted,
            got,
            n,
            truths,
        } => put_unmet(out, variables, name, wanted, got, n, truths),
        ToldLine::Shown { name, values } => put_shown(out, name, values),
        ToldLine::Looked { name, state, sort } => put_looked(out, name, state, sort),
        ToldLine::AtEnd {
            switch,
            gate,
            gate_state,
            end,
            end_state,
        } => {
            put(out, b"at ")?;
            put_switch(out, switch)?;
            put_nodes(out, b" gate ", gate, gate_state, b" end ", end, end_state)
        }
        ToldLine::AtGate {
            switch,
            source,
            source_state,
            drain,
            drain_state,
        } => {
            put(out, b"gate ")?;
            put_switch(out, switch)?;
            put_nodes(
                out,
                b" ends ",
                source,
                source_state,
                b" ",
                drain,
                drain_state,
            )
        }
    }
}

// Puts a waveform line.
fn put_wave(
    out: &mut LineBuf,
    n: u64,
    k: u64,
    mark: bool,
    values: &[Option<Tern>],
) -> Result<(), NoMemory>
    ensures { OnOk result (out.new.bytes ≡ out.old.bytes ++ decimal n ++ codes " " ++ decimal k ++ mark_of mark ++ codes " "
        ++ spec.letters_of_all values.now ++ codes "\n") }
{
    put_number(out, n)?;
    put(out, b" ")?;
    put_number(out, k)?;
    put_mark(out, mark)?;
    put(out, b" ")?;
    put_letters(out, values)?;
    put(out, b"\n")
}

// Puts the line of an expectation that isn't met.
fn put_unmet(
    out: &mut LineBuf,
    variables: &[Name],
    name: &[u8],
    wanted: &[u8],
    got: &[Tern],
    n: u64,
    truths: &[bool],
) -> Result<(), NoMemory>
    ensures { OnOk result (out.new.bytes ≡ out.old.bytes ++ codes "expect " ++ name.now ++ codes "=" ++ wanted.now ++ codes " got " ++ map letter got.now
        ++ codes " after " ++ decimal n ++ spec.where_text (zip variables.now truths.now) ++ codes "\n") }
{
    put_missed(out, name, wanted, got, n)?;
    put_where(out, variables, truths)?;
    put(out, b"\n")
}

// Puts that line up to its valuation.
fn put_missed(
    out: &mut LineBuf,
    name: &[u8],
    wanted: &[u8],
    got: &[Tern],
    n: u64,
) -> Result<(), NoMemory>
    ensures { OnOk result (out.new.bytes ≡ out.old.bytes ++ codes "expect " ++ name.now ++ codes "=" ++ wanted.now ++ codes " got " ++ map letter got.now
        ++ codes " after " ++ decimal n) }
{
    put(out, b"expect ")?;
    put(out, name)?;
    put(out, b"=")?;
    put(out, wanted)?;
    put(out, b" got ")?;
    put_states(out, got)?;
    put(out, b" after ")?;
    put_number(out, n)
}

// Puts what is shown of a name.
fn put_shown(out: &mut LineBuf, name: &[u8], values: &[Option<Tern>]) -> Result<(), NoMemory>
    ensures { OnOk result (out.new.bytes ≡ out.old.bytes ++ codes "show " ++ name.now ++ codes " " ++ spec.letters_of_all values.now ++ codes "\n") }
{
    put(out, b"show ")?;
    put(out, name)?;
    put(out, b" ")?;
    put_letters(out, values)?;
    put(out, b"\n")
}

// Puts what there is at a node.
fn put_looked(
    out: &mut LineBuf,
    name: &[u8],
    state: Option<Tern>,
    sort: NodeSort,
) -> Result<(), NoMemory>
    ensures { OnOk result (out.new.bytes ≡ out.old.bytes ++ codes "look " ++ spec.node_text name.now state ++ codes " " ++ sort_text sort ++ codes "\n") }
{
    put(out, b"look ")?;
    put_node(out, name, state)?;
    put(out, b" ")?;
    put_sort(out, sort)?;
    put(out, b"\n")
}

// Puts two nodes with a text before each, and LF.
fn put_nodes(
    out: &mut LineBuf,
    before: &[u8],
    first: &[u8],
    first_state: Option<Tern>,
    between: &[u8],
    second: &[u8],
    second_state: Option<Tern>,
) -> Result<(), NoMemory>
    ensures { OnOk result (out.new.bytes ≡ out.old.bytes
        ++ spec.nodes_text before.now first.now first_state between.now second.now second_state) }
{
    put(out, before)?;
    put_node(out, first, first_state)?;
    put(out, between)?;
    put_node(out, second, second_state)?;
    put(out, b"\n")
}

// Puts a node's name and its letter.
fn put_node(out: &mut LineBuf, name: &[u8], state: Option<Tern>) -> Result<(), NoMemory>
    ensures { OnOk result (out.new.bytes ≡ out.old.bytes ++ spec.node_text name.now state) }
{
    put(out, name)?;
    put(out, b" ")?;
    put_byte(out, letter_of_all(state))
}

// Puts a transistor: its number, kind and strength, and what its switch does.
fn put_switch(out: &mut LineBuf, switch: SwitchShown) -> Result<(), NoMemory>
    ensures { OnOk result (out.new.bytes ≡ out.old.bytes ++ spec.switch_text (switch_seen switch)) }
{
    put_number(out, switch.number)?;
    put(out, b" ")?;
    put_kind(out, switch.kind)?;
    put(out, b" ")?;
    put_number(out, switch.strength)?;
    put(out, b" ")?;
    put_state(out, switch.state)
}

// Puts the letter of a kind.
fn put_kind(out: &mut LineBuf, kind: SwitchKind) -> Result<(), NoMemory>
    ensures { OnOk result (out.new.bytes ≡ out.old.bytes ++ kind_text kind) }
{
    out.reserve(1)?;
    append_kind(out, kind);
    Ok(())
}

// Puts what a switch does under all valuations, or `?`.
fn put_state(out: &mut LineBuf, state: Option<SwitchState>) -> Result<(), NoMemory>
    ensures { OnOk result (out.new.bytes ≡ out.old.bytes ++ spec.switch_of_all state) }
{
    match state {
        Some(state) => {
            out.reserve(STATE_ROOM)?;
            append_state(out, state);
            Ok(())
        }
        None => put(out, b"?"),
    }
}

// Puts what a node is.
fn put_sort(out: &mut LineBuf, sort: NodeSort) -> Result<(), NoMemory>
    ensures { OnOk result (out.new.bytes ≡ out.old.bytes ++ sort_text sort) }
{
    out.reserve(SORT_ROOM)?;
    append_sort(out, sort);
    Ok(())
}

// Puts the mark of a phase, or nothing.
fn put_mark(out: &mut LineBuf, mark: bool) -> Result<(), NoMemory>
    ensures { OnOk result (out.new.bytes ≡ out.old.bytes ++ mark_of mark) }
{
    if mark { put(out, b"*") } else { Ok(()) }
}

// Puts one letter for each node, or `-` if there is none.
fn put_letters(out: &mut LineBuf, values: &[Option<Tern>]) -> Result<(), NoMemory>
    ensures { OnOk result (out.new.bytes ≡ out.old.bytes ++ spec.letters_of_all values.now) }
{
    if values.is_empty() {
        put(out, b"-")
    } else {
        put_each(out, values)
    }
}

// Puts one letter for each node.
fn put_each(out: &mut LineBuf, values: &[Option<Tern>]) -> Result<(), NoMemory>
    ensures { OnOk result (out.new.bytes ≡ out.old.bytes ++ map spec.letter_of_all values.now) }
{
    for value in values {
        put_byte(out, letter_of_all(*value))?;
    }
    Ok(())
}

/// Puts one letter for each state.
pub(crate) fn put_states(out: &mut LineBuf, states: &[Tern]) -> Result<(), NoMemory>
    ensures { OnOk result (out.new.bytes ≡ out.old.bytes ++ map letter states.now) }
{
    for state in states {
        put_byte(out, state.letter())?;
    }
    Ok(())
}

// The letter that a node has under all valuations, or `?`.
fn letter_of_all(state: Option<Tern>) -> u8
    ensures { result ≡ spec.letter_of_all state }
{
    match state {
        Some(state) => state.letter(),
        None => b'?',
    }
}

/// Puts a number.
pub(crate) fn put_number(out: &mut LineBuf, n: u64) -> Result<(), NoMemory>
    ensures { OnOk result (out.new.bytes ≡ out.old.bytes ++ decimal n) }
{
    out.reserve(NUMBER_ROOM)?;
    append_number(out, n);
    Ok(())
}

// Puts one byte.
fn put_byte(out: &mut LineBuf, byte: u8) -> Result<(), NoMemory>
    ensures { OnOk result (out.new.bytes ≡ out.old.bytes ++ byte ∷ []) }
{
    out.reserve(1)?;
    out.push(byte);
    Ok(())
}

/// Puts these bytes.
pub(crate) fn put(out: &mut LineBuf, piece: &[u8]) -> Result<(), NoMemory>
    ensures { OnOk result (out.new.bytes ≡ out.old.bytes ++ piece.now) }
{
    out.reserve(piece.len())?;
    out.append(piece);
    Ok(())
}
