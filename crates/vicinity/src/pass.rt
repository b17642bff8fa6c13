//! The three passes over the nodes that are awake, and what each starts with.
ghost use Rattle.std.specs.Prelude.{◌≡◌};
ghost use Rattle.vicinity.specs.Entries.{own_strength};

use crate::live_list::LiveList;
use crate::node_set::NodeSet;
use switch_paths::Graph;
use ternary::Tern;

/// What a pass looks for.
#[derive(Clone, Copy)]
pub enum Pass {
    /// The strongest definite path to each node.
    Sure,
    /// The strongest unblocked path from a root that may be 1.
    One,
    /// The strongest unblocked path from a root that may be 0.
    Zero,
}

/// What a pass goes by: the graph, the places at its nodes, the state, the nodes that are awake, and for each of them a
/// strength below which nothing counts there.
#[derive(Clone, Copy)]
pub struct Sweep<'a> {
    pub pass: Pass,
    pub graph: &'a Graph,
    pub lists: &'a [LiveList],
    pub state: &'a [Tern],
    pub awake: &'a NodeSet,
    pub floor: &'a [u8],
}

/// The strength with which a node of this state and level starts a path of its own.
pub(crate) fn own_strength(pass: Pass, state: Tern, level: u8) -> u8
    ensures { result ≡ own_strength pass state level }
{
    let starts = match pass {
        Pass::Sure => true,
        Pass::One => state.may_one(),
        Pass::Zero => state.may_zero(),
    };
    if starts { level } else { 0 }
}
