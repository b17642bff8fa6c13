ghost use Rattle.std.specs.Prelude.{◌≡◌, ℕ, ◌+◌, ◌++◌, ◌^◌, ◌<◌, ◌≤◌, OnOk};
ghost use Rattle.net_gen.specs.Lines.{each};
ghost use Rattle.net_gen.specs.Passes.{pass, pass_row, letter_of, control, passes_start, passes_turn};

use crate::draws::Draws;
use crate::lines::Piece::{Number, Word};
use crate::lines::put;
use ternary::NoMemory;

// How many transistors stand in a row below its first, each with a control wire of its own.
const CONTROLS: u64 = 8;

/// Appends row r, which goes from d through r{r}_0 to r{r}_8, by transistors that en and then c1 to
/// c8 control.
pub fn put_row(text: &mut Vec<u8>, r: u64) -> Result<(), NoMemory>
    ensures { OnOk result (text.new.items ≡ text.old.items ++ pass_row r) }
{
    put(text, &[Word("n en d r"), Number(r), Word("_0\n")])?;
    for j in 1..CONTROLS + 1 {
        put_pass(text, r, j)?;
    }
    Ok(())
}

// Appends the j-th transistor of row r below its first.
fn put_pass(text: &mut Vec<u8>, r: u64, j: u64) -> Result<(), NoMemory>
    requires { 1 ≤ j }
    ensures { OnOk result (text.new.items ≡ text.old.items ++ pass r j) }
{
    put(
        text,
        &[
            Word("n c"),
            Number(j),
            Word(" r"),
            Number(r),
            Word("_"),
            Number(j - 1),
        ],
    )?;
    put(
        text,
        &[Word(" r"), Number(r), Word("_"), Number(j), Word("\n")],
    )
}

/// Appends the start of the script.
pub fn put_start(text: &mut Vec<u8>, n: u64) -> Result<(), NoMemory>
    ensures { OnOk result (text.new.items ≡ text.old.items ++ passes_start n) }
{
    put(text, &[Word("input d en c1 c2 c3 c4 c5 c6 c7 c8\n")])?;
    put(text, &[Word("watch r1_8 r"), Number(n), Word("_8\n")])
}

/// Appends a turn of the script: d, en and c1 to c8 get random states.
pub fn put_turn(text: &mut Vec<u8>, draws: &mut Draws) -> Result<(), NoMemory>
    requires { draws.old.drawn < 2 ^ 16 }
    ensures text { OnOk result (text.new.items ≡ text.old.items ++ passes_turn draws.old.seed draws.old.drawn) }
    ensures seed { draws.new.seed ≡ draws.old.seed }
    ensures drawn { OnOk result (draws.new.drawn ≡ draws.old.drawn + 10) }
{
    let data = letter(draws.next());
    let enable = letter(draws.next());
    put(
        text,
        &[Word("set d="), Word(data), Word(" en="), Word(enable)],
    )?;
    put_controls(text, draws)?;
    put(text, &[Word("\nphase\n")])
}

// Appends the settings of the control wires c1 to c8.
fn put_controls(text: &mut Vec<u8>, draws: &mut Draws) -> Result<(), NoMemory>
    requires { draws.old.drawn < 2 ^ 31 }
    ensures text { OnOk result
        (text.new.items ≡ text.old.items ++ each 1 8 (control draws.old.seed draws.old.drawn)) }
    ensures seed { draws.new.seed ≡ draws.old.seed }
    ensures drawn { OnOk result (draws.new.drawn ≡ draws.old.drawn + 8) }
{
    for j in 1..CONTROLS + 1 {
        let state = letter(draws.next());
        put(text, &[Word(" c"), Number(j), Word("="), Word(state)])?;
    }
    Ok(())
}

// The letter of a state, which the draw gives modulo 3.
#[tactic(auto, unfolding(crate::specs::Passes::letter_of))]
fn letter(draw: u64) -> &'static str
    ensures { result.now ≡ letter_of draw }
{
    match draw % 3 {
        0 => "0",
        1 => "1",
        _ => "X",
    }
}
