//! What is known of a walk over the switches of a graph.

ghost use Rattle.std.specs.Prelude.{◌≡◌, ◌<◌, length, IfSome};
ghost use Rattle.switch_paths.specs.Graphs.{nodes};
ghost use Rattle.switch_paths.specs.Walks.{AreFacts, AreFactsAfter, stand_of};

use crate::graph::Graph;
use crate::switching::{SwitchState, switch_state};
use ternary::Tern;

/// A walk that may be a live path: it starts at its root and goes over the switches at these
/// places, one after the other.
#[derive(Drop)]
pub struct Walk {
    /// The node where the walk starts.
    pub root: usize,
    /// The places of the switches that it goes over.
    pub hops: Vec<usize>,
}

/// What is known of a live path.
#[derive(Clone, Copy, PartialEq, Eq)]
pub struct WalkFacts {
    /// The node where it ends.
    pub end: usize,
    /// The least of its root's level and its switches' levels.
    pub strength: u8,
    /// Whether all its switches are closed.
    pub definite: bool,
}

impl Graph {
    /// The facts of a walk that is a live path under this state, which has one entry for each node.
    ///
    /// `None` exactly if it is none: its root is no node, a hop is no place that holds a switch,
    /// a hop's switch has no end where the walk stands, or a hop's switch is open.
    ///
    /// Bryant, "Boolean Analysis of MOS Circuits", 1987.
    pub fn walk_facts(&self, state: &[Tern], walk: &Walk) -> Option<WalkFacts>
        requires { length state.now ≡ nodes self.now }
        ensures { AreFacts self.now state.now walk.now.root walk.now.hops.items result }
    {
        if walk.root >= self.nodes() {
            return None;
        }
        let mut facts = WalkFacts {
            end: walk.root,
            strength: self.level(walk.root),
            definite: true,
        };
        for &place in &walk.hops {
            facts = self.after_hop(state, facts, place)?;
        }
        Some(facts)
    }

    /// The facts of a path after one hop more, under this state, which has one entry for each node.
    ///
    /// `None` exactly if no hop leads on: the place is none that holds a switch, its switch has no
    /// end where the path stands, or it is open.
    ///
    /// Bryant, "Boolean Analysis of MOS Circuits", 1987.
    pub fn after_hop(&self, state: &[Tern], facts: WalkFacts, place: usize) -> Option<WalkFacts>
        requires { length state.now ≡ nodes self.now }
        ensures facts { AreFactsAfter self.now state.now (stand_of facts) place result }
        ensures inside { IfSome result (λ after. after.end < nodes self.now) }
    {
        if place >= self.places() {
            return None;
        }
        let switch = self.switch_at(place)?;
        let end = if switch.a == facts.end {
            switch.b
        } else if switch.b == facts.end {
            switch.a
        } else {
            return None;
        };
        let closed = match switch_state(switch.kind, state[switch.gate]) {
            SwitchState::Open => return None,
            SwitchState::Closed => true,
            SwitchState::Unknown => false,
        };
        Some(WalkFacts {
            end,
            strength: facts.strength.min(switch.level),
            definite: facts.definite && closed,
        })
    }
}
