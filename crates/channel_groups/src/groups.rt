//! The groups of a graph, and how they are looked up.

ghost use Rattle.std.specs.Prelude.{◌≡◌, ◌≢◌, ℕ, ◌+◌, ◌*◌, ◌<◌, ◌≤◌, ◌∷◌, [], ◌++◌, Some, None, List, count_by, is_some, find, length, map, nat_le, nat_eq, option_map, All, Contains, IfOk, IfSome, OnOk, OnErr};
ghost use Rattle.switch_paths.specs.Graphs.{nodes, IsStorage};
ghost use Rattle.group_meaning.specs.Groups.{Group, AreGroups, id_of};
ghost use Rattle.channel_groups.specs.Listing.{AreListed, places_of};
ghost use Rattle.channel_groups.specs.Changes.{undo, touched_size};
ghost use Rattle.channel_groups.specs.Grouping.{has_member, group_with, held as groups_in, slot_at, class_at, IsId, AreOf};
ghost use Rattle.channel_groups.specs.Search.{AreFound};

use crate::change::Change;
use crate::ends::{Ends, ends_of};
use crate::group::{Group, GroupId};
use crate::held::{Held, group_of, no_groups, put_all, slot};
use crate::regroup::{prepare, relist, write};
use crate::search::{Found, try_root};
use indexmap::IndexSet;
use std::alloc::{AllocError, Global};
use std::marker::{Brand, Model};
use std::sync::ledger::{Blank, Ledger};
use switch_paths::{Graph, graphs_are_wired};
use ternary::{NoMemory, Steps};

/// The channel-connected groups of a graph.
///
/// They are held by their nodes, so that an edit of the graph costs as much as the groups that it
/// touches.
#[derive(Drop)]
pub struct Groups {
    // how many nodes the graph has: the lists may be longer, with nothing past the last node
    nodes: usize,
    held: Held,
    ends: Ends,
}

impl Model for Groups {
    ghost use Rattle.channel_groups.specs.Grouping.{GroupsData, AreStored, first_lists, held as groups_in};

    ghost Value = { GroupsData };

    ghost view = { λ g. record { nodes = g.nodes; groups = groups_in g.held.slots.items; firsts = first_lists g.nodes g.ends.firsts.items; seconds = first_lists g.nodes g.ends.seconds.items } };

    ghost invariant = { λ g. AreStored g.nodes g.held.classes.items g.held.slots.items g.ends.firsts.items g.ends.seconds.items };
}

impl Groups {
    /// The groups of a graph.
    ///
    /// The time is near linear in the nodes and the places of the graph.
    ///
    /// After Bryant, Beatty, Brace, Cho and Sheffler, "COSMOS: A Compiled Simulator for MOS
    /// Circuits", 1987.
    pub fn of(alloc: Global, graph: &Graph) -> Result<Groups, NoMemory>
        ensures are { IfOk result (AreOf graph.now) }
        ensures groups { IfOk result (λ found. AreGroups graph.now found.groups) }
        ensures nodes { IfOk result (λ found. found.nodes ≡ nodes graph.now) }
    {
        let groups = Groups::counted::<Brand>(alloc, graph, Blank::new(1))?;
        Ok(groups)
    }

    /// The groups of a graph, found with a counter that nobody reads.
    fn counted<L: Ledger>(alloc: Global, graph: &Graph, blank: Blank) -> Result<Groups, AllocError>
        requires name { blank.name ≡ L.name }
        requires parts { blank.parts ≡ L.parts }
        requires some { blank.parts ≢ 0 }
        ensures { IfOk result (AreOf graph.now) }
    {
        graphs_are_wired(graph);
        let mut steps: Steps<L> = Steps::new(blank);
        let ends = ends_of(alloc, graph)?;
        let found = find_all(alloc, graph, &ends, &mut steps)?;
        let mut held = no_groups(alloc, graph.nodes())?;
        put_all(&mut held, found.fresh, &mut steps);
        Ok(Groups {
            nodes: graph.nodes(),
            held,
            ends,
        })
    }

    /// Makes them the groups of the graph after an edit, if they are those of the graph before
    /// it. Out of memory they are as before.
    ///
    /// The work is that of the groups that the edit touches: an old group is touched where an end of
    /// the changed place's old switch, or the node whose level changed, is a member of it; a new one
    /// where a member of a touched old group, an end of the place's present switch, the node whose
    /// level changed, or a new node is. Whatever the answer, it takes at most 8 steps for each member
    /// and each switch of these groups, `found` being the groups of the graph: one at each look at a
    /// node or a switch, and at each node that is written. A sort of a found group's numbers, and an
    /// input node among the roots, take none.
    pub fn regroup<L: Ledger>(
        &mut self,
        graph: &Graph,
        change: &Change,
        steps: &mut Steps<L>,
    ) -> Result<(), NoMemory>
        requires before { AreOf (undo graph.now change.now) self.old }
        ensures ok { OnOk result (AreOf graph.now self.new) }
        ensures err { OnErr result (self.new ≡ self.old) }
        ensures step { (found : List Group) → AreGroups graph.now found →
            steps.new ≤ steps.old + 8 * touched_size graph.now change.now self.old.groups found }
    {
        graphs_are_wired(graph);
        let plan = prepare(&mut self.held, &mut self.ends, graph, change, steps)?;
        relist(&mut self.ends, graph, change);
        write(&mut self.held, plan, graph, change, steps);
        self.nodes = graph.nodes();
        Ok(())
    }

    /// The ids of all groups, in ascending order.
    pub fn ids(&self, alloc: Global) -> Result<Vec<GroupId>, NoMemory>
        ensures ids { IfOk result (λ ids. map (λ id. id.node) ids.items ≡ map id_of self.now.groups) }
        ensures all { IfOk result (λ ids. All (λ id. IsId self.now.groups id.node) ids.items) }
    {
        let mut ids = Vec::new(alloc);
        for node in 0..self.held.slots.len() {
            add_id(slot(&self.held, node), &mut ids)?;
        }
        Ok(ids)
    }

    /// How many groups there are.
    pub fn count(&self) -> usize
        ensures { result ≡ length self.now.groups }
    {
        count_some(&self.held.slots)
    }

    /// The id of the group that has this node as a member, or `None` exactly if none has it: at an
    /// input node.
    pub fn group_of(&self, node: usize) -> Option<GroupId>
        requires { node < self.now.nodes }
        ensures value { option_map (λ id. id.node) result ≡ option_map id_of (find (has_member node) self.now.groups) }
        ensures id { IfSome result (λ id. IsId self.now.groups id.node) }
    {
        let group = group_of(&self.held, node)?;
        Some(group.id())
    }

    /// The least id that is at least `from`, or `None` exactly if there is none.
    pub fn next_id(&self, from: usize) -> Option<GroupId>
        ensures value { option_map (λ id. id.node) result ≡ option_map id_of (find (λ group. nat_le from (id_of group)) self.now.groups) }
        ensures id { IfSome result (λ id. IsId self.now.groups id.node) }
    {
        for node in from..self.held.slots.len() {
            if let Some(group) = slot(&self.held, node) {
                return Some(group.id());
            }
        }
        None
    }

    /// The members of the group with this id, which ascend.
    pub fn members(&self, id: GroupId) -> &[usize]
        requires { IsId self.now.groups id.node }
        ensures { IfSome (group_with self.now.groups id.node) (λ group. result.now ≡ group.members) }
    {
        self.group(id).members()
    }

    /// The places of the switches of the group with this id, which ascend.
    pub fn switches(&self, id: GroupId) -> &[usize]
        requires { IsId self.now.groups id.node }
        ensures { IfSome (group_with self.now.groups id.node) (λ group. result.now ≡ group.switches) }
    {
        self.group(id).switches()
    }

    /// The group with this id.
    pub fn group(&self, id: GroupId) -> &Group
        requires { IsId self.now.groups id.node }
        ensures { group_with self.now.groups id.node ≡ Some result.now }
    {
        match slot(&self.held, id.node()) {
            Some(group) => group,
            None => unreachable!(),
        }
    }
}

/// How many slots hold a group.
fn count_some(slots: &[Option<Group>]) -> usize
    ensures { result ≡ count_by is_some slots.now }
{
    slots.iter().filter(|slot| slot.is_some()).count()
}

/// Adds the id of a group, if there is one.
fn add_id(group: Option<&Group>, ids: &mut Vec<GroupId>) -> Result<(), AllocError>
    ensures { OnOk result (map (λ id. id.node) ids.new.items
        ≡ map (λ id. id.node) ids.old.items ++ map id_of (groups_in (option_map (λ group. group.now) group.entry ∷ []))) }
{
    let Some(group) = group else {
        return Ok(());
    };
    ids.push(group.id())?;
    Ok(())
}

/// All groups of a graph.
fn find_all<L: Ledger>(
    alloc: Global,
    graph: &Graph,
    ends: &Ends,
    steps: &mut Steps<L>,
) -> Result<Found, AllocError>
    requires firsts { AreListed (λ switch. switch.a) graph.now None (places_of ends.now.firsts.items) }
    requires seconds { AreListed (λ switch. switch.b) graph.now None (places_of ends.now.seconds.items) }
    ensures found { IfOk result (λ found. AreFound graph.now found.seen.keys found.fresh.items) }
    ensures rooted { IfOk result (λ found. (n : ℕ) → n < nodes graph.now → IsStorage graph.now n → Contains found.seen.keys n) }
{
    let mut found = Found {
        seen: IndexSet::new(alloc),
        fresh: Vec::new(alloc),
    };
    for node in 0..graph.nodes() {
        try_root(alloc, graph, ends, None, node, &mut found, steps)?;
    }
    Ok(found)
}
