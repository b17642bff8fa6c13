//! A machine that starts again in another state.
ghost use Rattle.std.specs.Prelude.{◌≡◌, ℕ, ◌<◌, ◌≤◌, length};
ghost use Rattle.std.specs.Bool.{OnTrue};
ghost use Rattle.switch_paths.specs.declared.TheConstants.{RAILS};
ghost use Rattle.switch_paths.specs.Switching.{state_at};
ghost use Rattle.switch_paths.specs.Words.{IsSound};
ghost use Rattle.unit_step.specs.Restarting.{AllMarked, GivesNode, GivesBelow, MarksBelow, MarksParts, Restarts};

use crate::machine::Machine;
use part_steps::Agenda;
use switch_paths::{Graph, RAILS, graphs_are_wired};
use ternary::Tern;
use wide_groups::place;

impl Machine {
    /// Starts again in this state, which is sound as the present one is. All parts are marked, and nothing was moved
    /// or placed. It takes no memory.
    ///
    /// The graph is meant that is handed in: the machine covers and fits it afterwards if it did before. Of the groups that
    /// are stepped by vicinities the nodes are touched that the new state stirs.
    pub fn restart(&mut self, graph: &Graph, state: &[Tern])
        requires counted { length state.now ≡ length self.old.state }
        requires sound { IsSound self.old.state }
        requires sound_again { IsSound state.now }
        ensures { Restarts graph.now state.now self.old self.new }
    {
        self.mark_all_parts();
        self.give_all(graph, state);
        self.forget_counts();
    }

    // Gives each node that is no rail its state here, if all parts are marked.
    fn give_all(&mut self, graph: &Graph, state: &[Tern])
        requires counted { length state.now ≡ length self.old.state }
        requires rails { (node : ℕ) → node < RAILS → state_at self.old.state node ≡ state_at state.now node }
        requires marked { AllMarked self.old }
        ensures gives { GivesBelow graph.now state.now (length state.now) self.old self.new }
        ensures marks { self.new.marks ≡ self.old.marks }
    {
        for node in RAILS..state.len() {
            self.give(graph, node, state[node]);
        }
    }

    // Gives a node that is no rail this state, if it has another. All parts are marked, and so no part need be.
    fn give(&mut self, graph: &Graph, node: usize, value: Tern)
        requires inside { node < length self.old.state }
        requires no_rail { RAILS ≤ node }
        requires marked { AllMarked self.old }
        ensures gives { GivesNode graph.now node value self.old self.new }
        ensures marks { self.new.marks ≡ self.old.marks }
    {
        if has_state(self.state(), node, value) {
            return;
        }
        graphs_are_wired(graph);
        place(node, value, &mut self.body.state, &mut self.body.wide);
    }

    /// Marks all parts. It takes no memory.
    pub fn mark_all_parts(&mut self)
        ensures { MarksParts self.old self.new }
    {
        mark_below(self.body.parts.len(), &mut self.body.agenda);
    }

    // Nothing was moved or placed.
    fn forget_counts(&mut self)
        ensures { self.new ≡ record self.old { moves = 0; placed = 0 } }
    {
        self.moves = 0;
        self.placed = 0;
    }
}

// Whether a node has this state.
fn has_state(states: &[Tern], node: usize, value: Tern) -> bool
    requires { node < length states.now }
    ensures { OnTrue result (state_at states.now node ≡ value) }
{
    states[node] == value
}

// Marks the parts with lower numbers.
fn mark_below(count: usize, agenda: &mut Agenda)
    requires { count ≤ length agenda.old.marks }
    ensures marks { MarksBelow count agenda.old.marks agenda.new.marks }
    ensures waiting { agenda.new.waiting ≡ agenda.old.waiting }
{
    for k in 0..count {
        agenda.mark(k);
    }
}
