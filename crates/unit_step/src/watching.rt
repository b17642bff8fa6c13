//! The machine under the eyes of an observer.
ghost use Rattle.std.specs.Prelude.{◌≡◌, Bool, List, length};
ghost use Rattle.std.specs.Borrow.{GName};
ghost use Rattle.ternary.specs.declared.tern.Tern.{Tern};
ghost use Rattle.settling.specs.Moved.{ListsChanges};
ghost use Rattle.group_text.specs.Words.{GroupTextData};
ghost use Rattle.machine_laws.specs.Words.{FitsGraph};
ghost use Rattle.unit_step.specs.Bodies.{fixed_of};
ghost use Rattle.unit_step.specs.Listing.{nodes_told};

use crate::machine::Machine;
use settling::{Moved, Onlooker, SeenStepper, unfailing};
use std::sync::ledger::Ledger;
use switch_paths::Graph;
use ternary::{Steps, Tern};

/// A machine, and the list of the nodes that its last step changed, if there is one. If there is none, any may have
/// changed.
#[derive(Drop)]
pub struct Watched<'a> {
    pub machine: &'a mut Machine,
    pub changed: &'a mut Option<Vec<usize>>,
}

impl Moved for Watched<'_> {
    ghost state = { λ watched. watched.machine.now.state };

    ghost changed = { λ watched. nodes_told watched.changed.now (length watched.machine.now.state) };

    fn states(&self) -> &[Tern] {
        self.machine.state()
    }

    fn change_count(&self) -> usize {
        match &*self.changed {
            Some(nodes) => nodes.len(),
            None => self.machine.state().len(),
        }
    }

    fn changed_node(&self, at: usize) -> usize {
        match &*self.changed {
            Some(nodes) => nodes[at],
            None => at,
        }
    }
}

impl SeenStepper for Watched<'_> {
    ghost fits = { λ watched g. FitsGraph g watched.machine.now };

    ghost moves = { λ watched. watched.machine.now.moves };

    ghost placed = { λ watched. watched.machine.now.placed };

    ghost Fixed = { (List GroupTextData × Bool) × GName };

    // It is the same machine, too.
    ghost fixed = { λ watched. (fixed_of watched.machine.now, watched.machine.ghost_name) };

    fn skip(&mut self, count: u64) {
        self.machine.count_moves(count);
    }

    fn step<L: Ledger>(&mut self, graph: &Graph, steps: &mut Steps<L>) -> bool {
        self.machine.step_listed(graph, steps, self.changed)
    }

    fn join_step<L: Ledger>(&mut self, graph: &Graph, steps: &mut Steps<L>) -> bool {
        self.machine.join_step_listed(graph, steps, self.changed)
    }
}

/// Shows the machine's state, which differs at listed nodes alone from one that is known.
pub fn show<O: Onlooker>(machine: &mut Machine, changed: &mut Option<Vec<usize>>, onlooker: &mut O)
    requires { (old : List Tern) × O.knows onlooker.old old × ListsChanges (nodes_told changed.old (length machine.old.state)) old machine.old.state }
    ensures same { machine.new ≡ machine.old }
    ensures list { changed.new ≡ changed.old }
    ensures seen { O.seen onlooker.new ≡ O.see (O.seen onlooker.old) machine.old.state }
    ensures knows { O.knows onlooker.new machine.old.state }
{
    unfailing(onlooker.see(&Watched { machine, changed }));
}
