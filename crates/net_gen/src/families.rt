ghost use Rattle.std.specs.Prelude.{◌≡◌, ℕ, ◌+◌, ◌≤◌, ◌<◌, ◌^◌, ◌++◌, IfOk, OnOk};
ghost use Rattle.net_gen.specs.Families.{header, row, script_start, turn_count, turn, draws_in_turn, netlist, script, generated};

use crate::draws::Draws;
use crate::lines::Piece::Word;
use crate::lines::put;
use crate::{columns, inverters, passes};
use std::alloc::Global;
use ternary::NoMemory;

/// The most rows that a text has.
pub const MOST_ROWS: u64 = 10_000;

/// A family of circuits, of n rows.
#[derive(Clone, Copy, PartialEq, Eq)]
pub enum GenKind {
    /// A chain of n inverters: inverter i, from 1, has its input at w{i-1} and its output at w{i}.
    ///
    /// The script drives w0 and watches w0 and w{n}; four times w0 becomes a draw modulo 2.
    Inverters,
    /// Rows of nine pass transistors in series: row r, from 1, goes from d through r{r}_0 to
    /// r{r}_8, by transistors that en and then c1 to c8 control.
    ///
    /// The script drives d, en and c1 to c8, and watches the ends of the first and the last row.
    /// Sixteen times each input, in this order, gets a draw modulo 3: 0, 1, or X for 2.
    Passes,
    /// Columns of four storage cells: column c, from 1, has the bit lines b{c} and m{c} of size 2,
    /// which transistors of strength 3 drive from d and k while we is 1. Cell j, from 0 to 3, is a
    /// ring of two inverters of strength 1 at q{c}_{j} and z{c}_{j}, and word line w{j} joins
    /// them to b{c} and m{c}.
    ///
    /// The script drives we, d, k and w0 to w3, and watches the bit lines of the first and the last
    /// column. Sixteen times it draws the word line modulo 4, then we and then d modulo 2; k is
    /// the opposite of d. Then the word line and we become 0.
    Columns,
}

/// Which of a family's two texts is written.
#[derive(Clone, Copy, PartialEq, Eq)]
pub enum GenPart {
    /// The netlist.
    Net,
    /// The script.
    Script,
}

/// The text of a family's part, with n rows.
///
/// A netlist is of the `.sim` form, MIT's, and goes with the script of its family and n; it takes
/// no draws, so it is the same at each seed. In a script the draws are those of
/// x := (x * 1103515245 + 12345) modulo 2^31 from the seed modulo 2^31, each divided by 65536; so
/// a seed counts modulo 2^31. Only lack of memory refuses a text.
pub fn generate(
    alloc: Global,
    kind: GenKind,
    part: GenPart,
    seed: u64,
    n: u64,
) -> Result<Vec<u8>, NoMemory>
    requires some { 1 ≤ n }
    requires most { n ≤ MOST_ROWS }
    ensures { IfOk result (λ text. text.items ≡ generated kind part seed n) }
{
    let mut text = Vec::new(alloc);
    match part {
        GenPart::Net => put_netlist(&mut text, kind, n)?,
        GenPart::Script => put_script(&mut text, kind, seed, n)?,
    }
    Ok(text)
}

// Appends a whole netlist.
fn put_netlist(text: &mut Vec<u8>, kind: GenKind, n: u64) -> Result<(), NoMemory>
    requires { n ≤ MOST_ROWS }
    ensures { OnOk result (text.new.items ≡ text.old.items ++ (header ++ netlist kind n)) }
{
    put(text, &[Word("| units: 1 tech: cosmos format: MIT\n")])?;
    put_rows(text, kind, n)
}

// Appends the rows of a netlist.
fn put_rows(text: &mut Vec<u8>, kind: GenKind, n: u64) -> Result<(), NoMemory>
    requires { n ≤ MOST_ROWS }
    ensures { OnOk result (text.new.items ≡ text.old.items ++ netlist kind n) }
{
    for r in 1..n + 1 {
        put_row(text, kind, r)?;
    }
    Ok(())
}

// Appends row r of a netlist, counted from 1.
fn put_row(text: &mut Vec<u8>, kind: GenKind, r: u64) -> Result<(), NoMemory>
    requires { 1 ≤ r }
    ensures { OnOk result (text.new.items ≡ text.old.items ++ row kind r) }
{
    match kind {
        GenKind::Inverters => inverters::put_inverter(text, r),
        GenKind::Passes => passes::put_row(text, r),
        GenKind::Columns => columns::put_column(text, r),
    }
}

// Appends a whole script.
fn put_script(text: &mut Vec<u8>, kind: GenKind, seed: u64, n: u64) -> Result<(), NoMemory>
    ensures { OnOk result (text.new.items ≡ text.old.items ++ script kind seed n) }
{
    put_start(text, kind, n)?;
    let mut draws = Draws::new(seed);
    for _turn in 0..turn_count(kind) {
        put_turn(text, kind, &mut draws)?;
    }
    Ok(())
}

// Appends what stands in a script before its turns.
fn put_start(text: &mut Vec<u8>, kind: GenKind, n: u64) -> Result<(), NoMemory>
    ensures { OnOk result (text.new.items ≡ text.old.items ++ script_start kind n) }
{
    match kind {
        GenKind::Inverters => inverters::put_start(text, n),
        GenKind::Passes => passes::put_start(text, n),
        GenKind::Columns => columns::put_start(text, n),
    }
}

// How many turns a script has.
fn turn_count(kind: GenKind) -> u64
    ensures { result ≡ turn_count kind }
{
    match kind {
        GenKind::Inverters => 4,
        GenKind::Passes | GenKind::Columns => 16,
    }
}

// Appends a turn of a script, and takes its draws.
fn put_turn(text: &mut Vec<u8>, kind: GenKind, draws: &mut Draws) -> Result<(), NoMemory>
    requires { draws.old.drawn < 2 ^ 16 }
    ensures text { OnOk result
        (text.new.items ≡ text.old.items ++ turn kind draws.old.seed draws.old.drawn) }
    ensures seed { draws.new.seed ≡ draws.old.seed }
    ensures drawn { OnOk result (draws.new.drawn ≡ draws.old.drawn + draws_in_turn kind) }
{
    match kind {
        GenKind::Inverters => inverters::put_turn(text, draws),
        GenKind::Passes => passes::put_turn(text, draws),
        GenKind::Columns => columns::put_turn(text, draws),
    }
}
