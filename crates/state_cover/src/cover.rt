//! The notes, and the onlooker.
ghost use Rattle.std.specs.Prelude.{◌≡◌, ◌<◌, ◌≤◌, ◌-◌, true, [], ◌++◌, List, length, replicate, IfOk, OnOk, OnErr, IfErr, slice_index_or};
ghost use Rattle.state_cover.specs.Cover.{none_had, had_after, Knows, Notes};
ghost use Rattle.state_cover.specs.declared.had.Had.{Had};

use crate::had::{Had, had_more};
use settling::{Moved, Never, Observer, Onlooker, unfailing};
use std::alloc::{AllocError, Global};
use std::marker::Model;
use ternary::{NoMemory, Tern};

/// Notes of which of 0 and 1 each node had.
#[derive(Drop)]
pub struct Cover {
    had: Vec<Had>,
}

impl Model for Cover {
    ghost use Rattle.std.specs.Prelude.{List};
    ghost use Rattle.state_cover.specs.declared.had.Had.{Had};

    ghost Value = { List Had };

    ghost view = { λ cover. cover.had.items };
}

impl Cover {
    /// Notes of no node.
    pub fn new(alloc: Global) -> Cover
        ensures { result ≡ [] }
    {
        Cover {
            had: Vec::new(alloc),
        }
    }

    /// Notes these states of all nodes, also of such as are new since the last call.
    ///
    /// Without memory for the new ones nothing changes.
    pub fn note_all(&mut self, states: &[Tern]) -> Result<(), NoMemory>
        requires { length self.old ≤ length states.now }
        ensures had { OnOk result (self.new ≡ had_after self.old states.now) }
        ensures knows { OnOk result (Knows self.new states.now) }
        ensures err { OnErr result (self.new ≡ self.old) }
    {
        self.make_room(states.len())?;
        self.note_states(states);
        Ok(())
    }

    /// What a node had.
    pub fn had(&self, node: usize) -> Had
        requires { node < length self.now }
        ensures { result ≡ slice_index_or self.now node none_had }
    {
        self.had[node]
    }

    /// What each node had.
    pub fn all(&self) -> &[Had]
        ensures { result.now ≡ self.now }
    {
        &self.had
    }

    // Makes notes of so many nodes: those that are new had nothing.
    fn make_room(&mut self, nodes: usize) -> Result<(), AllocError>
        requires { length self.old ≤ nodes }
        ensures ok { OnOk result (self.new ≡ self.old ++ replicate (nodes - length self.old) none_had) }
        ensures err { OnErr result (self.new ≡ self.old) }
    {
        let nothing = Had {
            zero: false,
            one: false,
        };
        self.had.resize(nodes, nothing)?;
        Ok(())
    }

    // Notes these states, of as many nodes as there are notes.
    fn note_states(&mut self, states: &[Tern])
        requires { length self.old ≡ length states.now }
        ensures had { self.new ≡ had_after self.old states.now }
        ensures knows { Knows self.new states.now }
    {
        for node in 0..states.len() {
            self.had[node] = had_more(self.had[node], states[node]);
        }
    }

    // Notes the state that a node has.
    fn note<M: Moved>(&mut self, moved: &M, node: usize)
        requires inside { node < length self.old }
        requires there { node < length (M.state moved.now) }
        ensures { Notes node (M.state moved.now) self.old self.new }
    {
        let state = moved.states()[node];
        self.had[node] = had_more(self.had[node], state);
    }
}

impl Observer for Cover {
    type Fault = Never;

    ghost Seen = { List Had };

    ghost seen = { λ cover. cover };

    ghost see = { had_after };

    ghost begin = { had_after };

    ghost rest = { λ had _. had };

    ghost knows = { Knows };

    ghost fixed = { λ _. tt };

    ghost part = { λ _ _ _ _. ⊥ };

    #[inline]
    fn is_once_enough(&self) -> bool {
        true
    }

    fn see<M: Moved>(&mut self, moved: &M) -> Result<(), Never> {
        for at in 0..moved.change_count() {
            self.note(moved, moved.changed_node(at));
        }
        Ok(())
    }
}

impl Onlooker for Cover {
    ghost looks = { true };

    ghost blind = { λ is _ _. absurd (Prim.cc) };

    ghost sure = { λ is _ _. absurd (Prim.cc) };

    #[inline]
    fn is_looking(&self) -> bool {
        true
    }

    fn begin<M: Moved>(&mut self, moved: &M) {
        unfailing(self.see(moved));
    }

    fn rest(&mut self, _steps: u64) {}

    fn grow(&mut self, state: &[Tern]) -> Result<(), NoMemory> {
        self.make_room(state.len())?;
        Ok(())
    }
}
