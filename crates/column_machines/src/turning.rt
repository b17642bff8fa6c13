//! The machine that takes the states of columns, as it steps.
ghost use Rattle.std.specs.Prelude.{ℕ, List};
ghost use Rattle.std.specs.Borrow.{GName};
ghost use Rattle.machine_laws.specs.Words.{FitsGraph};
ghost use Rattle.column_machines.specs.Turns.{words_of};

use crate::turns::TurnMachine;
use settling::Stepper;
use std::sync::ledger::Ledger;
use switch_paths::Graph;
use ternary::{Steps, Tern};

// A machine of columns that take turns, whose own state steps: the words of the columns stay.
#[derive(Drop)]
pub(crate) struct Turning<'a> {
    pub(crate) turns: &'a mut TurnMachine,
}

impl Stepper for Turning<'_> {
    ghost state = { λ turning. turning.turns.now.machine.state };

    ghost fits = { λ turning g. FitsGraph g turning.turns.now.machine };

    ghost moves = { λ turning. turning.turns.now.machine.moves };

    ghost placed = { λ turning. turning.turns.now.machine.placed };

    ghost Fixed = { (ℕ × (List ℕ × List ℕ)) × GName };

    // It is the same machine, too.
    ghost fixed = { λ turning. (words_of turning.turns.now, turning.turns.ghost_name) };

    fn states(&self) -> &[Tern] {
        self.turns.state()
    }

    fn skip(&mut self, count: u64) {
        self.turns.count_moves(count);
    }

    fn step<L: Ledger>(&mut self, graph: &Graph, steps: &mut Steps<L>) -> bool {
        self.turns.step(graph, steps)
    }

    fn join_step<L: Ledger>(&mut self, graph: &Graph, steps: &mut Steps<L>) -> bool {
        self.turns.join_step(graph, steps)
    }
}
