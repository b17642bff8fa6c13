ghost use Rattle.std.specs.Prelude.{◌≡◌, ℕ, Some, IfSome};
ghost use Rattle.switch_paths.specs.Switching.{state_by};
ghost use Rattle.switch_paths.specs.Path.{Joins};

use ternary::Tern;

/// The kind of a transistor.
#[derive(Clone, Copy, PartialEq, Eq, Hash)]
pub enum SwitchKind {
    /// An n-channel transistor: closed if its gate is 1.
    NChan,
    /// A p-channel transistor: closed if its gate is 0.
    PChan,
    /// A depletion transistor: closed whatever its gate is.
    Always,
}

/// What a switch does under a state of its gate.
#[derive(Clone, Copy, PartialEq, Eq)]
pub enum SwitchState {
    /// It doesn't conduct.
    Open,
    /// It conducts.
    Closed,
    /// It may conduct or not.
    Unknown,
}

/// A switch of a graph: its kind, its level from 9 to 15, the node of its gate, and its two ends,
/// which are alike.
#[derive(Clone, Copy, PartialEq, Eq, Hash)]
pub struct Switch {
    pub kind: SwitchKind,
    pub level: u8,
    pub gate: usize,
    pub a: usize,
    pub b: usize,
}

impl Switch {
    /// The node at the other end of a switch that has an end at this node, if it has one.
    pub fn other_end(self, node: usize) -> Option<usize>
        ensures joined { IfSome result (Joins self node) }
        ensures all { (other : ℕ) → Joins self node other → result ≡ Some other }
    {
        if self.a == node {
            Some(self.b)
        } else if self.b == node {
            Some(self.a)
        } else {
            None
        }
    }
}

/// The state of a switch of this kind whose gate has this state.
///
/// Bryant, "A Switch-Level Model and Simulator for MOS Digital Systems", 1984.
pub fn switch_state(kind: SwitchKind, gate: Tern) -> SwitchState
    ensures { result ≡ state_by kind gate }
{
    match (kind, gate) {
        (SwitchKind::Always, _) => SwitchState::Closed,
        (_, Tern::Unk) => SwitchState::Unknown,
        (SwitchKind::NChan, Tern::One) => SwitchState::Closed,
        (SwitchKind::NChan, Tern::Zero) => SwitchState::Open,
        (SwitchKind::PChan, Tern::Zero) => SwitchState::Closed,
        (SwitchKind::PChan, Tern::One) => SwitchState::Open,
    }
}
