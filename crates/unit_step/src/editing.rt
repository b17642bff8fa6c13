//! Edits of the graph under a machine.
ghost use Rattle.std.specs.Prelude.{◌≡◌, ℕ, ◌+◌, ◌*◌, ◌≤◌, ◌<◌, ◌-◌, ◌++◌, ◌↔◌, List, length, option_map, find, Contains, IfOk, IfErr, OnOk, OnErr};
ghost use Rattle.switch_paths.specs.Graphs.{nodes, IsWired};
ghost use Rattle.group_meaning.specs.Groups.{Group, AreGroups};
ghost use Rattle.channel_groups.specs.Grouping.{AreOf, has_member};
ghost use Rattle.channel_groups.specs.Changes.{undo, touched_size};
ghost use Rattle.unit_step.specs.declared.editing.TheConstants.{NEW_NODES};
ghost use Rattle.machine_laws.specs.Words.{groups_in, AreOfSome, IsWithAny, RenewsAll, RenewsAt, members_in, Covers, with_new_nodes, Edits};
ghost use Rattle.machine_parts.specs.Words.{IsMarked, HasMember, AreApart, IsStale};

use crate::machine::Machine;
use crate::seating::owner_of;
use channel_groups::{Change, Group, Groups, nodes_after, nodes_before};
use std::alloc::{AllocError, Global};
use std::mem;
use std::sync::ledger::Ledger;
use switch_paths::{Graph, graphs_are_wired};
use ternary::{NoMemory, Steps};

/// The most nodes that one edit makes: the gate, the source and the drain of a transistor.
pub const NEW_NODES: usize = 3;

/// Memory ran out in an edit: the machine can't go on. Its states are those from before, but that
/// some new nodes may be X already, with room for them all, and it knows the texts of its last build.
#[derive(Drop)]
pub struct EditRefused {
    pub machine: Machine,
}

impl Machine {
    /// Takes room for the states of as many new nodes as one edit makes at most, so that an edit can hand
    /// back the states of all nodes.
    ///
    /// Nothing else changes. Out of memory the machine is as before.
    pub fn reserve(&mut self) -> Result<(), NoMemory>
        ensures ok { OnOk result (NEW_NODES ≤ self.new.spare) }
        ensures same { self.new ≡ record self.old { spare = self.new.spare } }
        ensures err { OnErr result (self.new ≡ self.old) }
    {
        self.body.state.reserve(NEW_NODES)?;
        Ok(())
    }

    /// The machine of the graph after an edit, where it covered the graph before it.
    ///
    /// The groups that the edit touches, as `Groups::regroup` says, are stale and marked: they wait for
    /// `finish`. Every other group keeps its part, with its code and its mark. The groups that are stepped by
    /// vicinities stay known if it touches none of them; else `finish` finds them again. New nodes are X, all other
    /// nodes stay. The work is that of `regroup`, and of the members and the reads of the touched groups: the
    /// bound on `regroup`'s steps holds whatever the answer, `found` being the groups of the graph. Out of
    /// memory, the machine is handed back for its states.
    pub fn edit<L: Ledger>(
        self,
        graph: &Graph,
        change: &Change,
        steps: &mut Steps<L>,
    ) -> Result<Machine, EditRefused>
        requires covers { Covers (undo graph.now change.now) self }
        requires wired { IsWired (undo graph.now change.now) }
        requires room { nodes graph.now ≤ length self.state + self.spare }
        ensures edits { IfOk result (Edits graph.now change.now self) }
        ensures refused { IfErr result (λ refused. with_new_nodes refused.machine.state (nodes graph.now) ≡ with_new_nodes self.state (nodes graph.now)) }
        ensures room { IfErr result (λ refused. nodes graph.now ≤ length refused.machine.state + refused.machine.spare) }
        ensures last { IfErr result (λ refused. refused.machine.last ≡ self.last) }
        ensures ticks { (found : List Group) → AreGroups graph.now found →
            steps.new ≤ steps.old + 8 * touched_size graph.now change.now (groups_in self.groups) found }
    {
        let mut machine = self;
        match machine.follow(graph, change, steps) {
            Ok(()) => Ok(machine),
            Err(NoMemory) => Err(EditRefused { machine }),
        }
    }

    // Follows an edit of the graph. Out of memory only the states are as they are to be, or as before.
    fn follow<L: Ledger>(
        &mut self,
        graph: &Graph,
        change: &Change,
        steps: &mut Steps<L>,
    ) -> Result<(), NoMemory>
        requires covers { Covers (undo graph.now change.now) self.old }
        requires wired { IsWired (undo graph.now change.now) }
        requires room { nodes graph.now ≤ length self.old.state + self.old.spare }
        ensures ok { OnOk result (Edits graph.now change.now self.old self.new) }
        ensures state { with_new_nodes self.new.state (nodes graph.now) ≡ with_new_nodes self.old.state (nodes graph.now) }
        ensures room { nodes graph.now ≤ length self.new.state + self.new.spare }
        ensures last { self.new.last ≡ self.old.last }
        ensures ticks { (found : List Group) → AreGroups graph.now found →
            steps.new ≤ steps.old + 8 * touched_size graph.now change.now (groups_in self.old.groups) found }
    {
        graphs_are_wired(graph);
        let alloc = *self.body.state.allocator();
        let before = self.body.state.len();
        self.add_nodes(graph.nodes())?;
        let Some(mut groups) = mem::replace(&mut self.body.groups, None) else {
            unreachable!()
        };
        let mut nodes = members_with(alloc, &groups, before, &nodes_before(alloc, change)?)?;
        groups.regroup(graph, change, steps)?;
        nodes.extend_from_slice(&nodes_after(alloc, graph, change)?)?;
        self.vacate_all(&nodes)?;
        self.renew_all(graph, &groups, &nodes)?;
        self.stale_parts_are_marked();
        self.body.groups = Some(groups);
        Ok(())
    }

    // Seats a stale part for each group that has one of these nodes, which are members of no part.
    fn renew_all(&mut self, graph: &Graph, groups: &Groups, these: &[usize]) -> Result<(), NoMemory>
        requires counted { length self.old.state ≡ nodes graph.now }
        requires groups { AreOf graph.now groups.now }
        requires free { (k node : ℕ) → Contains these.now node → ¬ HasMember self.old.parts k node }
        ensures ok { OnOk result (RenewsAll groups.now.groups these.now self.old self.new) }
        ensures state { self.new.state ≡ self.old.state }
        ensures spare { self.new.spare ≡ self.old.spare }
        ensures last { self.new.last ≡ self.old.last }
    {
        for node in these {
            self.renew_at(graph, groups, *node)?;
        }
        Ok(())
    }

    // No node is a member of two parts, and the stale parts are marked.
    fn stale_parts_are_marked(&self)
        ensures apart { AreApart self.now.parts }
        ensures waits { (k : ℕ) → IsStale self.now.parts k → IsMarked self.now.marks k }
    {
        self.body.agenda.waiting_parts_are_marked();
    }

    // Seats a stale part for the group of this node, unless a part has it as a member.
    fn renew_at(&mut self, graph: &Graph, groups: &Groups, node: usize) -> Result<(), NoMemory>
        requires counted { length self.old.state ≡ nodes graph.now }
        requires groups { AreOf graph.now groups.now }
        ensures ok { OnOk result (RenewsAt groups.now.groups node self.old self.new) }
        ensures state { self.new.state ≡ self.old.state }
        ensures spare { self.new.spare ≡ self.old.spare }
        ensures last { self.new.last ≡ self.old.last }
    {
        if node >= graph.nodes() {
            return Ok(());
        }
        if let Some(_owner) = owner_of(&self.body.owners, node) {
            return Ok(());
        }
        match group_at(groups, node) {
            Some(group) => self.renew(group.members()),
            None => Ok(()),
        }
    }
}

// The group that has this node as a member, if there is one.
fn group_at(groups: &Groups, node: usize) -> Option<&Group>
    requires inside { node < groups.now.nodes }
    requires groups { AreOfSome groups.now.groups }
    ensures { option_map (λ group. group.now) result ≡ find (has_member node) groups.now.groups }
{
    let id = groups.group_of(node)?;
    Some(groups.group(id))
}

// The members of the groups that have one of these nodes.
fn members_with(
    alloc: Global,
    groups: &Groups,
    count: usize,
    nodes: &[usize],
) -> Result<Vec<usize>, NoMemory>
    requires counted { groups.now.nodes ≡ count }
    requires below { (group : Group) (node : ℕ) → Contains groups.now.groups group → Contains group.members node → node < count }
    requires groups { AreOfSome groups.now.groups }
    ensures { IfOk result (λ found. (node : ℕ) → Contains found.items node ↔ IsWithAny groups.now.groups nodes.now node) }
{
    let mut found = Vec::new(alloc);
    for node in nodes {
        if *node < count {
            add_members(group_at(groups, *node), &mut found)?;
        }
    }
    Ok(found)
}

// Adds the members of a group, if there is one.
fn add_members(group: Option<&Group>, found: &mut Vec<usize>) -> Result<(), AllocError>
    ensures { OnOk result (found.new.items ≡ found.old.items ++ members_in (option_map (λ group. group.now) group.entry)) }
{
    let Some(group) = group else {
        return Ok(());
    };
    found.extend_from_slice(group.members())
}
