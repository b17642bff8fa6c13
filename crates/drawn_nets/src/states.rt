ghost use Rattle.std.specs.Prelude.{◌≡◌, length, IfOk};

use std::alloc::{AllocError, Global};
use ternary::Tern;

/// How many states there are: three for each node that has no constant.
pub fn count_states(constants: &[Option<Tern>]) -> u64 {
    let mut count: u64 = 1;
    for constant in constants {
        if constant.is_none() {
            count = count.saturating_mul(3);
        }
    }
    count
}

/// The state with this number: its digits to the base 3 are the states of the nodes that have no
/// constant.
pub fn numbered_state(
    alloc: Global,
    constants: &[Option<Tern>],
    number: u64,
) -> Result<Vec<Tern>, AllocError>
    ensures { IfOk result (λ state. length state.items ≡ length constants.now) }
{
    let mut digits = number;
    let mut state = Vec::new(alloc);
    for constant in constants {
        let node = constant.unwrap_or(numbered_tern(digits % 3));
        if constant.is_none() {
            digits /= 3;
        }
        state.push(node)?;
    }
    Ok(state)
}

// The state with this number: 0, 1 or X.
fn numbered_tern(digit: u64) -> Tern {
    match digit {
        0 => Tern::Zero,
        1 => Tern::One,
        _ => Tern::Unk,
    }
}
