//! What a node had.
ghost use Rattle.std.specs.Prelude.{◌≡◌};
ghost use Rattle.state_cover.specs.Cover as spec;

use ternary::Tern;

/// Which of 0 and 1 a node had.
#[derive(Clone, Copy, PartialEq, Eq)]
pub struct Had {
    pub zero: bool,
    pub one: bool,
}

// What a node had, after it has this state.
pub(crate) fn had_more(had: Had, state: Tern) -> Had
    ensures { result ≡ spec.had_more had state }
{
    Had {
        zero: had.zero | (state == Tern::Zero),
        one: had.one | (state == Tern::One),
    }
}
