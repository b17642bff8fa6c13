ghost use Rattle.std.specs.Prelude.{◌≡◌};
ghost use Rattle.session_meaning.specs.Sessions.{places_of};

use std::marker::Model;
use ternary::Tern;

/// A clock: a node, and its states at the places of a cycle.
#[derive(Drop)]
pub struct Clock {
    /// Its node.
    pub node: usize,
    /// The node's states.
    pub states: Vec<Tern>,
}

impl Model for Clock {
    ghost use Rattle.session_meaning.specs.Sessions.{ClockData};

    ghost Value = { ClockData };

    ghost view = { λ clock. record { node = clock.node; states = clock.states.items } };
}

/// How many places a cycle of these clocks has.
pub fn places_of(clocks: &[Clock]) -> usize
    ensures { result ≡ places_of clocks.now }
{
    clocks.first().map_or(0, |clock| clock.states.len())
}
