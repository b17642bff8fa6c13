//! What steps: a state that takes unit steps and joining steps of a graph.
ghost use Rattle.std.specs.Prelude.{◌≡◌, ◌≢◌, ℕ, ◌^◌, ◌<◌, List, length};
ghost use Rattle.std.specs.Bool.{OnTrue, OnFalse};
ghost use Rattle.ternary.specs.declared.tern.Tern.{Tern};
ghost use Rattle.switch_paths.specs.Words.{GraphData, IsStep};
ghost use Rattle.settling.specs.Settling.{IsJoinStep, StaysOrBecomesX};
ghost use Rattle.ternary.specs.Counts.{raised};

use std::sync::ledger::Ledger;
use switch_paths::Graph;
use ternary::{Steps, Tern};

/// A state that moves by unit steps.
///
/// Contracts see five meanings: the state of each node; the graphs that the stepper fits, on which
/// its calls do what they say; how often a call changed the state; how often a node that the
/// stepper computes was placed from outside; and what no step changes. The two numbers stop at
/// `u64::MAX`.
///
/// No call changes the number of nodes, takes memory or has a refusal.
pub trait Stepper {
    ghost state: { Self → List Tern };

    ghost fits: { Self → GraphData → Type 0 };

    ghost moves: { Self → ℕ };

    ghost placed: { Self → ℕ };

    ghost Fixed: { Type 0 } = { Unit {0} };

    ghost fixed: { Self → Self.Fixed };

    /// The state of each node.
    fn states(&self) -> &[Tern]
        ensures { result.now ≡ state self.now };

    /// Counts so many calls more that changed the state, and led back to it: nothing else changes.
    fn skip(&mut self, count: u64)
        ensures state { state self.new ≡ state self.old }
        ensures fits { (g : GraphData) → fits self.old g → fits self.new g }
        ensures moves { moves self.new ≡ raised (moves self.old) count }
        ensures placed { placed self.new ≡ placed self.old }
        ensures fixed { fixed self.new ≡ fixed self.old };

    /// Takes a unit step of the graph, and answers whether that changed the state.
    ///
    /// If the stepper fits the graph, every node takes its steady state, all under the same old
    /// state. `steps` counts what the stepper's own work is counted by.
    ///
    /// Bryant, "Boolean Analysis of MOS Circuits", 1987.
    fn step<L: Ledger>(&mut self, graph: &Graph, steps: &mut Steps<L>) -> bool
        ensures step { fits self.old graph.now → IsStep graph.now (state self.old) (state self.new) }
        ensures fits { fits self.old graph.now → fits self.new graph.now }
        ensures nodes { length (state self.new) ≡ length (state self.old) }
        ensures few { length (state self.new) < 2 ^ 63 }
        ensures changed { OnTrue result (state self.new ≢ state self.old) }
        ensures same { OnFalse result (state self.new ≡ state self.old) }
        ensures moved { OnTrue result (moves self.new ≡ raised (moves self.old) 1) }
        ensures rested { OnFalse result (moves self.new ≡ moves self.old) }
        ensures placed { placed self.new ≡ placed self.old }
        ensures fixed { fixed self.new ≡ fixed self.old };

    /// Takes a joining step of the graph, and answers whether that changed the state.
    ///
    /// If the stepper fits the graph, every node takes the join of its state and its steady
    /// state, all under the same old state. Whether it fits or not, a node that changes becomes X.
    ///
    /// In the manner of MOSSIM II: Bryant, "A Switch-Level Model and Simulator for MOS Digital
    /// Systems", 1984.
    fn join_step<L: Ledger>(&mut self, graph: &Graph, steps: &mut Steps<L>) -> bool
        ensures step { fits self.old graph.now → IsJoinStep graph.now (state self.old) (state self.new) }
        ensures fits { fits self.old graph.now → fits self.new graph.now }
        ensures unknown { StaysOrBecomesX (state self.old) (state self.new) }
        ensures nodes { length (state self.new) ≡ length (state self.old) }
        ensures few { length (state self.new) < 2 ^ 63 }
        ensures changed { OnTrue result (state self.new ≢ state self.old) }
        ensures same { OnFalse result (state self.new ≡ state self.old) }
        ensures moved { OnTrue result (moves self.new ≡ raised (moves self.old) 1) }
        ensures rested { OnFalse result (moves self.new ≡ moves self.old) }
        ensures placed { placed self.new ≡ placed self.old }
        ensures fixed { fixed self.new ≡ fixed self.old };
}
