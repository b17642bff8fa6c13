//! The switches at a node that aren't open.
ghost use Rattle.std.specs.Prelude.{◌≡◌, ◌≢◌, ℕ, ◌<◌, ◌≤◌, length, None, IfSome};
ghost use Rattle.switch_paths.specs.Graphs.{nodes};
ghost use Rattle.machine_parts.specs.Marking.{AreOnce};
ghost use Rattle.vicinity.specs.Words.{places_of, IsArm, LeadsTo};

use crate::live_list::LiveList;
use smallvec::SmallVec;
use switch_paths::{Graph, SwitchState, switch_state};
use ternary::Tern;

/// The places at a node: most nodes have few.
pub type Places = SmallVec<usize, 4>;

/// A switch at a node that isn't open: the node at its other end, its level, and whether it is closed.
#[derive(Clone, Copy)]
pub struct Arm {
    pub other: usize,
    pub level: u8,
    pub closed: bool,
}

/// The places in front at a node, each once; past the last list there are none.
pub(crate) fn listed(lists: &[LiveList], node: usize) -> &[usize]
    ensures value { result.now ≡ places_of lists.now node }
    ensures once { AreOnce result.now }
{
    match lists.get(node) {
        Some(list) => list.live(),
        None => &[],
    }
}

/// What the switch at a place, if it has an end at the node and isn't open, leads to.
pub(crate) fn arm_at(graph: &Graph, state: &[Tern], place: usize, node: usize) -> Option<Arm>
    requires { length state.now ≡ nodes graph.now }
    ensures arm { IfSome result (IsArm graph.now state.now place node) }
    ensures other { (other : ℕ) → LeadsTo graph.now state.now place node other → IfSome result (λ arm. arm.other ≡ other) }
    ensures some { (other : ℕ) → LeadsTo graph.now state.now place node other → result ≢ None }
    ensures within { IfSome result (λ arm. arm.other < nodes graph.now) }
    ensures low { IfSome result (λ arm. arm.level ≤ 15) }
{
    let switch = graph.switch_there(place)?;
    let other = switch.other_end(node)?;
    let does = switch_state(switch.kind, state[switch.gate]);
    if does == SwitchState::Open {
        return None;
    }
    Some(Arm {
        other,
        level: switch.level,
        closed: does == SwitchState::Closed,
    })
}
