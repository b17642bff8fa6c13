ghost use Rattle.std.specs.Prelude.{◌≡◌, ℕ, ◌+◌, ◌++◌, ◌^◌, ◌<◌, OnOk, decimal};
ghost use Rattle.net_gen.specs.Columns.{bit_lines, weak, access, cell, column, chosen, column_settings, columns_start, columns_turn};

use crate::draws::Draws;
use crate::lines::Piece::{Number, Word};
use crate::lines::put;
use ternary::NoMemory;

// How many cells a column has, each on a word line of its own.
const CELLS: u64 = 4;

/// Appends column c: the bit lines b{c} and m{c}, and cells 0 to 3, where cell j keeps its value at
/// q{c}_{j} and the opposite at z{c}_{j}.
pub fn put_column(text: &mut Vec<u8>, c: u64) -> Result<(), NoMemory>
    ensures { OnOk result (text.new.items ≡ text.old.items ++ column c) }
{
    put_bit_lines(text, c)?;
    for j in 0..CELLS {
        put_cell(text, c, j)?;
    }
    Ok(())
}

// Appends the bit lines of a column, their sizes, and the transistors that drive them.
fn put_bit_lines(text: &mut Vec<u8>, c: u64) -> Result<(), NoMemory>
    ensures { OnOk result (text.new.items ≡ text.old.items ++ bit_lines c) }
{
    put(text, &[Word("A b"), Number(c), Word(" size:2\n")])?;
    put(text, &[Word("A m"), Number(c), Word(" size:2\n")])?;
    put(
        text,
        &[Word("n we d b"), Number(c), Word(" g=strength:3\n")],
    )?;
    put(
        text,
        &[Word("n we k m"), Number(c), Word(" g=strength:3\n")],
    )
}

// Appends a cell of a column: two inverters, and a transistor to each bit line.
fn put_cell(text: &mut Vec<u8>, c: u64, j: u64) -> Result<(), NoMemory>
    ensures { OnOk result (text.new.items ≡ text.old.items ++ cell c j) }
{
    put_weak(text, "p z", " Vdd q", c, j)?;
    put_weak(text, "n z", " Gnd q", c, j)?;
    put_weak(text, "p q", " Vdd z", c, j)?;
    put_weak(text, "n q", " Gnd z", c, j)?;
    put_access(text, " b", " q", c, j)?;
    put_access(text, " m", " z", c, j)
}

// Appends a weak transistor of a cell: its kind and gate, then its rail and drain.
fn put_weak(
    text: &mut Vec<u8>,
    gate: &'static str,
    drain: &'static str,
    c: u64,
    j: u64,
) -> Result<(), NoMemory>
    ensures { OnOk result (text.new.items ≡ text.old.items ++ weak gate.now drain.now c j) }
{
    put(
        text,
        &[
            Word(gate),
            Number(c),
            Word("_"),
            Number(j),
            Word(drain),
            Number(c),
            Word("_"),
            Number(j),
            Word(" g=strength:1\n"),
        ],
    )
}

// Appends the transistor by which a word line joins a bit line to a node of a cell.
fn put_access(
    text: &mut Vec<u8>,
    bit_line: &'static str,
    node: &'static str,
    c: u64,
    j: u64,
) -> Result<(), NoMemory>
    ensures { OnOk result (text.new.items ≡ text.old.items ++ access bit_line.now node.now c j) }
{
    put(text, &[Word("n w"), Number(j), Word(bit_line), Number(c)])?;
    put(
        text,
        &[Word(node), Number(c), Word("_"), Number(j), Word("\n")],
    )
}

/// Appends the start of the script.
pub fn put_start(text: &mut Vec<u8>, n: u64) -> Result<(), NoMemory>
    ensures { OnOk result (text.new.items ≡ text.old.items ++ columns_start n) }
{
    put(text, &[Word("input we d k w0 w1 w2 w3\n")])?;
    put(text, &[Word("watch b1 m1 b"), Number(n)])?;
    put(text, &[Word(" m"), Number(n), Word("\n")])
}

/// Appends a turn of the script: a random word line is chosen, and its cells are written or read.
pub fn put_turn(text: &mut Vec<u8>, draws: &mut Draws) -> Result<(), NoMemory>
    requires { draws.old.drawn < 2 ^ 16 }
    ensures text { OnOk result (text.new.items ≡ text.old.items ++ columns_turn draws.old.seed draws.old.drawn) }
    ensures seed { draws.new.seed ≡ draws.old.seed }
    ensures drawn { OnOk result (draws.new.drawn ≡ draws.old.drawn + 3) }
{
    let word_line = draws.next() % CELLS;
    let write_enable = draws.next() % 2;
    let value = draws.next() % 2;
    put_settings(text, word_line, write_enable, value)
}

// Appends the settings of a turn: word line j is chosen, and then let go.
fn put_settings(text: &mut Vec<u8>, j: u64, write_enable: u64, value: u64) -> Result<(), NoMemory>
    requires { value < 2 }
    ensures { OnOk result
        (text.new.items ≡ text.old.items ++ column_settings j write_enable value) }
{
    put(
        text,
        &[
            Word("set we="),
            Number(write_enable),
            Word(" d="),
            Number(value),
        ],
    )?;
    put(text, &[Word(" k="), Number(1 - value)])?;
    put_chosen(text, " w0=", j, 0)?;
    put_chosen(text, " w1=", j, 1)?;
    put_chosen(text, " w2=", j, 2)?;
    put_chosen(text, " w3=", j, 3)?;
    put(
        text,
        &[Word("\nphase\nset w"), Number(j), Word("=0 we=0\nphase\n")],
    )
}

// Appends the value of word line i where line j is chosen, after the line's name.
fn put_chosen(text: &mut Vec<u8>, name: &'static str, j: u64, i: u64) -> Result<(), NoMemory>
    ensures { OnOk result (text.new.items ≡ text.old.items ++ (name.now ++ decimal (chosen j i))) }
{
    put(text, &[Word(name), Number(chosen(j, i))])
}

// The value of word line i where line j is chosen.
#[tactic(auto, unfolding(crate::specs::Columns::chosen))]
fn chosen(j: u64, i: u64) -> u64
    ensures { result ≡ chosen j i }
{
    if i == j { 1 } else { 0 }
}
