//! Large groups: their switches in a graph of their own, and which of its nodes are touched.
ghost use Rattle.std.specs.Prelude.{◌≡◌, ℕ, ◌+◌, ◌<◌, ◌≤◌, ◌↔◌, min, true, length, slice_set, Contains, IfOk, vec_len, vec_capacity};
ghost use Rattle.switch_paths.specs.Graphs.{nodes, IsStorage};
ghost use Rattle.vicinity.specs.Words.{IsIn, AreListsOf, AreChanges, IsPaid, Calms, Turned, PlacesWide, GrowsWide};

use crate::evaluation::{Scratch, evaluate};
use crate::flood::{is_storage, wake};
use crate::live_lists::LiveLists;
use crate::node_set::NodeSet;
use crate::placing::place_awake;
use crate::touching::take_state;
use part_words::Change;
use std::alloc::{AllocError, Global};
use std::marker::Model;
use std::sync::ledger::Ledger;
use strength_order::INPUT_LEVEL;
use switch_paths::{Graph, graphs_are_wired};
use ternary::{NoMemory, Steps, Tern};

/// The groups that are stepped by vicinities.
///
/// Its graph has their members and their switches; all other nodes are input nodes of it. So what is awake is a
/// member of such a group. The states are not its own.
#[derive(Drop)]
pub struct Wide {
    large: usize,
    graph: Graph,
    lists: LiveLists,
    touched: NodeSet,
    room: Scratch,
}

impl Model for Wide {
    ghost use Rattle.vicinity.specs.Wides.{WideData, IsWide};

    ghost Value = { WideData };

    ghost view = { λ wide. record { large = wide.large; graph = wide.graph; lists = wide.lists; touched = wide.touched } };

    ghost invariant = { λ wide. IsWide wide.graph wide.touched wide.room };
}

impl Wide {
    /// The groups of this graph under a state, all of whose members are touched. A group without a text is meant to be
    /// one of them if it has no more members than `large`.
    pub fn of(alloc: Global, large: usize, graph: Graph, state: &[Tern]) -> Result<Wide, AllocError>
        requires { length state.now ≡ nodes graph }
        ensures large { IfOk result (λ wide. wide.large ≡ large) }
        ensures graph { IfOk result (λ wide. wide.graph ≡ graph) }
        ensures lists { IfOk result (λ wide. AreListsOf graph state.now wide.lists) }
        ensures touched { IfOk result (λ wide. (node : ℕ) → IsStorage graph node → Contains wide.touched.list node) }
    {
        let lists = LiveLists::of(alloc, &graph, state)?;
        let mut touched = NodeSet::new(alloc, graph.nodes())?;
        wake_all(&graph, &mut touched);
        touched.lists_what_is_in_it();
        let room = Scratch::new(alloc, graph.nodes())?;
        Ok(Wide {
            large,
            graph,
            lists,
            touched,
            room,
        })
    }

    /// How many members a group without a text may have that is one of them.
    pub fn large(&self) -> usize
        ensures { result ≡ self.now.large }
    {
        self.large
    }

    /// From now on a group without a text is one of them only if it has no more members than this either.
    pub fn lower(&mut self, large: usize)
        ensures { self.new ≡ record self.old { large = min self.old.large large } }
    {
        self.large = self.large.min(large);
    }

    /// Whether this node is a member of one of them.
    pub fn has(&self, node: usize) -> bool
        ensures { (result ≡ true) ↔ IsStorage self.now.graph node }
    {
        node < self.graph.nodes() && is_storage(&self.graph, node)
    }

    /// Whether one of these nodes is.
    pub fn has_any(&self, nodes: &[usize]) -> bool
        ensures { (result ≡ true) ↔ ((node : ℕ) × Contains nodes.now node × IsStorage self.now.graph node) }
    {
        for node in nodes {
            if self.has(*node) {
                return true;
            }
        }
        false
    }

    /// The same groups once the circuit has so many nodes: the new ones are input nodes of its graph. The work is that of the
    /// new nodes.
    pub fn grown(self, count: usize) -> Result<Wide, NoMemory>
        requires { nodes self.graph ≤ count }
        ensures { IfOk result (GrowsWide count self) }
    {
        graphs_are_wired(&self.graph);
        let Wide {
            large,
            graph,
            lists,
            touched,
            room,
        } = self;
        let mut graph = graph;
        let mut lists = lists;
        let more = count - graph.nodes();
        graph.add_nodes(more, INPUT_LEVEL)?;
        graphs_are_wired(&graph);
        lists.grow(more)?;
        let touched = touched.grown(count)?;
        let room = room.grown(count)?;
        Ok(Wide {
            large,
            graph,
            lists,
            touched,
            room,
        })
    }

    /// Finds the steady state of each node that is awake, and notes those that change by it behind the others. No state
    /// is written, and no memory is taken.
    pub fn evaluate<L: Ledger>(
        &mut self,
        joining: bool,
        state: &[Tern],
        changes: &mut Vec<Change>,
        steps: &mut Steps<L>,
    )
        requires counted { length state.now ≡ nodes self.old.graph }
        requires lists { AreListsOf self.old.graph state.now self.old.lists }
        requires changes { vec_len changes.old + length state.now ≤ vec_capacity changes.old }
        ensures same { self.new ≡ self.old }
        ensures changes { AreChanges joining self.old.graph state.now self.old.touched.list changes.old.items changes.new.items }
        ensures capacity { vec_capacity changes.new ≡ vec_capacity changes.old }
        ensures steps { IsPaid self.old.graph self.old.lists.ends state.now self.old.touched.list steps.old steps.new }
    {
        evaluate(
            joining,
            &self.graph,
            &self.lists,
            state,
            self.touched.nodes_in(),
            &mut self.room,
            changes,
            steps,
        );
    }

    /// After a plain step no node is touched but by what changes; a joining step leaves all touched nodes touched, since
    /// a joined state need not be a steady one.
    pub fn calm(&mut self, joining: bool)
        ensures { Calms joining self.old self.new }
    {
        if !joining {
            self.touched.clear();
        }
    }

    /// Writes a change, and touches the storage nodes at which a switch changes by it.
    pub fn take(&mut self, node: usize, value: Tern, state: &mut [Tern])
        requires counted { length state.old ≡ nodes self.old.graph }
        requires lists { AreListsOf self.old.graph state.old self.old.lists }
        requires inside { node < length state.old }
        ensures state { state.new ≡ slice_set state.old node value }
        ensures turned { Turned self.old self.new state.old state.new }
    {
        take_state(
            &self.graph,
            &mut self.lists,
            node,
            value,
            state,
            &mut self.touched,
        );
    }

    /// Gives a node a state from outside: it is touched if it is a storage node, and so are the storage nodes next to it
    /// and the ends of the switches that change with it.
    pub fn place(&mut self, node: usize, value: Tern, state: &mut [Tern])
        requires counted { length state.old ≡ nodes self.old.graph }
        requires lists { AreListsOf self.old.graph state.old self.old.lists }
        requires inside { node < length state.old }
        ensures state { state.new ≡ slice_set state.old node value }
        ensures places { PlacesWide node self.old self.new state.old state.new }
    {
        place_awake(
            &self.graph,
            &mut self.lists,
            node,
            value,
            state,
            &mut self.touched,
        );
    }

    /// What is touched is listed.
    pub fn lists_what_is_touched(&self)
        ensures listed { (node : ℕ) → IsIn self.now.touched.inside node → Contains self.now.touched.list node }
        ensures only { (node : ℕ) → Contains self.now.touched.list node → IsIn self.now.touched.inside node }
    {
        self.touched.lists_what_is_in_it();
    }
}

// All storage nodes come to the set.
fn wake_all(graph: &Graph, touched: &mut NodeSet)
    requires { length touched.old.inside ≡ nodes graph.now }
    ensures count { length touched.new.inside ≡ length touched.old.inside }
    ensures all { (node : ℕ) → IsStorage graph.now node → IsIn touched.new.inside node }
{
    let count = graph.nodes();
    for node in 0..count {
        wake(graph, node, touched);
    }
}
