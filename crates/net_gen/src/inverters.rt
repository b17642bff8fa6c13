ghost use Rattle.std.specs.Prelude.{◌≡◌, ℕ, ◌+◌, ◌++◌, ◌^◌, ◌<◌, ◌≤◌, OnOk};
ghost use Rattle.net_gen.specs.Inverters.{inverter, inverters_start, inverters_turn};

use crate::draws::Draws;
use crate::lines::Piece::{Number, Word};
use crate::lines::put;
use ternary::NoMemory;

/// Appends inverter i, counted from 1, with its input at w{i-1} and its output at w{i}.
pub fn put_inverter(text: &mut Vec<u8>, i: u64) -> Result<(), NoMemory>
    requires { 1 ≤ i }
    ensures { OnOk result (text.new.items ≡ text.old.items ++ inverter i) }
{
    put(
        text,
        &[
            Word("p w"),
            Number(i - 1),
            Word(" Vdd w"),
            Number(i),
            Word("\n"),
        ],
    )?;
    put(
        text,
        &[
            Word("n w"),
            Number(i - 1),
            Word(" Gnd w"),
            Number(i),
            Word("\n"),
        ],
    )
}

/// Appends the start of the script.
pub fn put_start(text: &mut Vec<u8>, n: u64) -> Result<(), NoMemory>
    ensures { OnOk result (text.new.items ≡ text.old.items ++ inverters_start n) }
{
    put(
        text,
        &[
            Word("input w0\nwatch w0 w"),
            Number(n),
            Word("\nlimit 1000000\n"),
        ],
    )
}

/// Appends a turn of the script: w0 gets a random value.
pub fn put_turn(text: &mut Vec<u8>, draws: &mut Draws) -> Result<(), NoMemory>
    requires { draws.old.drawn < 2 ^ 32 }
    ensures text { OnOk result (text.new.items ≡ text.old.items ++ inverters_turn draws.old.seed draws.old.drawn) }
    ensures seed { draws.new.seed ≡ draws.old.seed }
    ensures drawn { OnOk result (draws.new.drawn ≡ draws.old.drawn + 1) }
{
    let value = draws.next() % 2;
    put(text, &[Word("set w0="), Number(value), Word("\nphase\n")])
}
