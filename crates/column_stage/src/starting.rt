//! A state that a machine can be built in, if only what it is made of is wanted.

ghost use Rattle.std.specs.Prelude.{◌≡◌, ◌≤◌, length, IfOk};
ghost use Rattle.ternary.specs.declared.tern.Tern.TheVariants.{Zero, One};
ghost use Rattle.switch_paths.specs.Rails.{IsSound};

use std::alloc::{AllocError, Global};
use ternary::Tern;

/// A sound state of so many nodes: all but the rails are X.
pub fn some_state(alloc: Global, nodes: usize) -> Result<Vec<Tern>, AllocError>
    requires { 2 ≤ nodes }
    ensures count { IfOk result (λ state. length state.items ≡ nodes) }
    ensures sound { IfOk result (λ state. IsSound state.items) }
{
    let mut state = vec![in alloc; Tern::Unk; nodes]?;
    state[0] = Tern::Zero;
    state[1] = Tern::One;
    Ok(state)
}
