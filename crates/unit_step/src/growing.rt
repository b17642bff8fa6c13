//! Nodes that are added to a machine.
ghost use Rattle.std.specs.Prelude.{◌≡◌, ◌+◌, ◌-◌, ◌++◌, ◌≤◌, None, length, replicate, vec_capacity, OnOk, OnErr};
ghost use Rattle.machine_laws.specs.Editing.{with_new_nodes};
ghost use Rattle.wide_groups.specs.Staying.{GrowsIn};

use crate::holding::widened;
use crate::machine::Machine;
use std::mem;
use ternary::{NoMemory, Tern};

impl Machine {
    // Adds nodes, up to so many: they are X, and no part has or reads them. The groups that are stepped by vicinities are
    // known still, but out of memory they aren't.
    pub(crate) fn add_nodes(&mut self, nodes: usize) -> Result<(), NoMemory>
        requires room { nodes ≤ length self.old.state + self.old.spare }
        requires more { length self.old.state ≤ nodes }
        ensures ok { OnOk result (self.new ≡ record self.old { state = with_new_nodes self.old.state nodes; spare = self.new.spare; wide = self.new.wide }) }
        ensures wide { OnOk result (GrowsIn nodes self.old.wide self.new.wide) }
        ensures err { OnErr result (self.new ≡ record self.old { wide = None }) }
    {
        let known = mem::replace(&mut self.body.wide, None);
        let wide = widened(known, nodes, &mut self.body.noted)?;
        let more = nodes.saturating_sub(self.body.state.len());
        self.body.owners.reserve(more)?;
        self.body.last_texts.numbers.reserve(more)?;
        self.body.readers.grow(nodes)?;
        self.body.near = None;
        grow(&mut self.body.state, nodes);
        grow_by(&mut self.body.owners, nodes, None);
        grow_by(&mut self.body.last_texts.numbers, nodes, None);
        self.body.wide = wide;
        Ok(())
    }
}

/// Adds X for each new node to a state, up to so many nodes, in room that is there.
pub fn grow(state: &mut Vec<Tern>, nodes: usize)
    requires { nodes ≤ vec_capacity state.old }
    ensures state { state.new.items ≡ with_new_nodes state.old.items nodes }
    ensures capacity { vec_capacity state.new ≡ vec_capacity state.old }
{
    grow_by(state, nodes, Tern::Unk);
}

// Adds the same for each new node, up to so many nodes, in room that is there.
fn grow_by<T: Copy>(all: &mut Vec<T>, nodes: usize, item: T)
    requires { nodes ≤ vec_capacity all.old }
    ensures items { all.new.items ≡ all.old.items ++ replicate (nodes - length all.old.items) item }
    ensures capacity { vec_capacity all.new ≡ vec_capacity all.old }
{
    for _node in all.len()..nodes {
        all.push_reserved(item);
    }
}
