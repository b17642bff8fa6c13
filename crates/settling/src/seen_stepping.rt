//! What steps under the eyes of an observer: a stepper that lists the nodes that a step changed.
ghost use Rattle.std.specs.Prelude.{◌≡◌, ◌≢◌, ℕ, ◌^◌, ◌<◌, length};
ghost use Rattle.std.specs.Bool.{OnTrue, OnFalse};
ghost use Rattle.switch_paths.specs.Words.{GraphData, IsStep};
ghost use Rattle.settling.specs.Settling.{IsJoinStep, StaysOrBecomesX};
ghost use Rattle.settling.specs.Moved.{ListsChanges};
ghost use Rattle.ternary.specs.Counts.{raised};

use crate::moved::Moved;
use std::sync::ledger::Ledger;
use switch_paths::Graph;
use ternary::Steps;

/// A state that moves by unit steps, and lists the nodes at which a step changed it.
///
/// Its steps and what contracts see of them are those of a `Stepper`. After a step that changed the
/// state, the list has every node at which it did.
pub trait SeenStepper: Moved {
    ghost fits: { Self → GraphData → Type 0 };

    ghost moves: { Self → ℕ };

    ghost placed: { Self → ℕ };

    ghost Fixed: { Type 0 } = { Unit {0} };

    ghost fixed: { Self → Self.Fixed };

    /// Counts so many calls more that changed the state, and led back to it: neither the state nor what it fits changes.
    fn skip(&mut self, count: u64)
        ensures state { Self.state self.new ≡ Self.state self.old }
        ensures fits { (g : GraphData) → fits self.old g → fits self.new g }
        ensures moves { moves self.new ≡ raised (moves self.old) count }
        ensures placed { placed self.new ≡ placed self.old }
        ensures fixed { fixed self.new ≡ fixed self.old };

    /// Takes a unit step of the graph, and answers whether that changed the state.
    ///
    /// Bryant, "Boolean Analysis of MOS Circuits", 1987.
    fn step<L: Ledger>(&mut self, graph: &Graph, steps: &mut Steps<L>) -> bool
        ensures step { fits self.old graph.now → IsStep graph.now (Self.state self.old) (Self.state self.new) }
        ensures fits { fits self.old graph.now → fits self.new graph.now }
        ensures nodes { length (Self.state self.new) ≡ length (Self.state self.old) }
        ensures few { length (Self.state self.new) < 2 ^ 63 }
        ensures changed { OnTrue result (Self.state self.new ≢ Self.state self.old) }
        ensures same { OnFalse result (Self.state self.new ≡ Self.state self.old) }
        ensures listed { OnTrue result (ListsChanges (Self.changed self.new) (Self.state self.old) (Self.state self.new)) }
        ensures moved { OnTrue result (moves self.new ≡ raised (moves self.old) 1) }
        ensures rested { OnFalse result (moves self.new ≡ moves self.old) }
        ensures placed { placed self.new ≡ placed self.old }
        ensures fixed { fixed self.new ≡ fixed self.old };

    /// Takes a joining step of the graph, and answers whether that changed the state.
    ///
    /// In the manner of MOSSIM II: Bryant, "A Switch-Level Model and Simulator for MOS Digital
    /// Systems", 1984.
    fn join_step<L: Ledger>(&mut self, graph: &Graph, steps: &mut Steps<L>) -> bool
        ensures step { fits self.old graph.now → IsJoinStep graph.now (Self.state self.old) (Self.state self.new) }
        ensures fits { fits self.old graph.now → fits self.new graph.now }
        ensures unknown { StaysOrBecomesX (Self.state self.old) (Self.state self.new) }
        ensures nodes { length (Self.state self.new) ≡ length (Self.state self.old) }
        ensures few { length (Self.state self.new) < 2 ^ 63 }
        ensures changed { OnTrue result (Self.state self.new ≢ Self.state self.old) }
        ensures same { OnFalse result (Self.state self.new ≡ Self.state self.old) }
        ensures listed { OnTrue result (ListsChanges (Self.changed self.new) (Self.state self.old) (Self.state self.new)) }
        ensures moved { OnTrue result (moves self.new ≡ raised (moves self.old) 1) }
        ensures rested { OnFalse result (moves self.new ≡ moves self.old) }
        ensures placed { placed self.new ≡ placed self.old }
        ensures fixed { fixed self.new ≡ fixed self.old };
}
