//! Parts that lose their group in an edit, and parts for the groups that an edit makes.
ghost use Rattle.std.specs.Prelude.{◌≡◌, ℕ, ◌+◌, ◌++◌, ◌<◌, ◌∷◌, [], None, length, replicate, slice_index, slice_index_or, All, Contains, IfOk, OnOk, OnErr};
ghost use Rattle.machine_parts.specs.Parts.{HasMember};
ghost use Rattle.channel_groups.specs.Grouping.{AreOf, IsId};
ghost use Rattle.circuit_texts.specs.Choosing.{chosen};
ghost use Rattle.machine_laws.specs.Seating.{AddsStale, Disowns, Vacates, Seats, Clears, Renews, one_of, IsVacant, IsStalePartOf};

use crate::machine::Machine;
use channel_groups::{GroupId, Groups};
use kept_parts::TextUses;
use machine_parts::MachinePart;
use part_steps::{own, widen_for_parts};
use std::alloc::{AllocError, Global};
use std::mem;
use switch_paths::Graph;
use ternary::NoMemory;
use wide_groups::forget_with;

impl Machine {
    // Takes a part's group away: it has no members and no code any more, and reads nothing.
    //
    // The node at which it begins is noted first, for the next build, which can lack memory. If the group was stepped by
    // vicinities, such groups aren't known any more.
    pub(crate) fn vacate(&mut self, k: usize) -> Result<(), AllocError>
        requires inside { k < length self.old.parts }
        ensures ok { OnOk result (Vacates k self.old self.new) }
        ensures err { OnErr result (self.new ≡ self.old) }
    {
        self.body.last_texts.note(&self.body.parts[k])?;
        self.body.near = None;
        let alloc = *self.body.state.allocator();
        let gone = mem::replace(&mut self.body.parts[k], no_part(alloc));
        self.body.dense.clear(k);
        disown(&gone.map[..gone.members], &mut self.body.owners);
        self.body.readers.unlist(k, &gone.reads, &self.body.parts);
        self.body.agenda.release(k);
        self.body.uses.free(k);
        self.body.held -= count_one(&gone);
        self.body.most -= gone.members;
        forget_with(&gone.map[..gone.members], &mut self.body.wide);
        Ok(())
    }

    // Seats a part for a group with these members, which are no members of other parts: it is stale and
    // marked.
    pub(crate) fn seat(&mut self, members: &[usize]) -> Result<(), NoMemory>
        requires some { 0 < length members.now }
        requires inside { All (λ node. node < length self.old.state) members.now }
        requires once { (i j : ℕ) → i < length members.now → j < length members.now → slice_index members.now i ≡ slice_index members.now j → i ≡ j }
        requires free { (k node : ℕ) → Contains members.now node → ¬ HasMember self.old.parts k node }
        ensures ok { OnOk result (Seats members.now self.old self.new) }
        ensures counted { length self.old.marks ≡ length self.old.parts }
        ensures state { self.new.state ≡ self.old.state }
        ensures spare { self.new.spare ≡ self.old.spare }
        ensures last { self.new.last ≡ self.old.last }
    {
        let part = part_of(*self.body.state.allocator(), members)?;
        let Some(most) = self.body.most.checked_add(members.len()) else {
            return Err(NoMemory);
        };
        self.body.parts.reserve(1)?;
        self.body.dense.make_room()?;
        widen_for_parts(&mut self.body.workspace, most, self.body.parts.len() + 1)?;
        self.body.uses.add()?;
        self.body.agenda.wait_more()?;
        self.body.near = None;
        own(self.body.parts.len(), members, &mut self.body.owners);
        self.body.parts.push_reserved(part);
        self.body.dense.add_stale();
        self.body.held += 1;
        self.body.most = most;
        Ok(())
    }

    // Takes its group away from the part that has this node as a member, if there is one.
    fn vacate_owner(&mut self, node: usize) -> Result<(), AllocError>
        ensures ok { OnOk result (Clears (node ∷ []) self.old self.new) }
        ensures err { OnErr result (self.new ≡ self.old) }
    {
        match owner_of(&self.body.owners, node) {
            Some(k) => self.vacate(k),
            None => Ok(()),
        }
    }

    // Takes their groups away from the parts that have these nodes as members.
    pub(crate) fn vacate_all(&mut self, nodes: &[usize]) -> Result<(), AllocError>
        ensures ok { OnOk result (Clears nodes.now self.old self.new) }
        ensures state { self.new.state ≡ self.old.state }
        ensures spare { self.new.spare ≡ self.old.spare }
        ensures last { self.new.last ≡ self.old.last }
    {
        for node in nodes {
            self.vacate_owner(*node)?;
        }
        Ok(())
    }

    // Seats a part for a group with these members, in place of the parts that have them.
    pub(crate) fn renew(&mut self, members: &[usize]) -> Result<(), NoMemory>
        requires some { 0 < length members.now }
        requires inside { All (λ node. node < length self.old.state) members.now }
        requires once { (i j : ℕ) → i < length members.now → j < length members.now → slice_index members.now i ≡ slice_index members.now j → i ≡ j }
        ensures ok { OnOk result (Renews members.now self.old self.new) }
        ensures state { self.new.state ≡ self.old.state }
        ensures spare { self.new.spare ≡ self.old.spare }
        ensures last { self.new.last ≡ self.old.last }
    {
        self.vacate_all(members)?;
        self.seat(members)
    }
}

// The part that has this node as a member, if there is one.
pub(crate) fn owner_of(owners: &[Option<usize>], node: usize) -> Option<usize>
    ensures { result ≡ slice_index_or owners.now node None }
{
    if node < owners.len() {
        owners[node]
    } else {
        None
    }
}

// How many parts with members a part is.
fn count_one(part: &MachinePart) -> usize
    ensures { result ≡ one_of part.now }
{
    if part.members > 0 { 1 } else { 0 }
}

// A part without a group.
fn no_part(alloc: Global) -> MachinePart
    ensures { IsVacant result }
{
    MachinePart {
        code: None,
        map: Vec::new(alloc),
        members: 0,
        reads: Vec::new(alloc),
    }
}

// The stale part of a group with these members.
fn part_of(alloc: Global, members: &[usize]) -> Result<MachinePart, AllocError>
    ensures { IfOk result (IsStalePartOf members.now) }
{
    Ok(MachinePart {
        code: None,
        map: Vec::from_slice(alloc, members)?,
        members: members.len(),
        reads: Vec::new(alloc),
    })
}

// Adds a stale part for each of the groups with these ids, which have no text.
pub(crate) fn add_stale(
    alloc: Global,
    graph: &Graph,
    groups: &Groups,
    ids: &[GroupId],
    parts: &mut Vec<MachinePart>,
    uses: &mut TextUses,
) -> Result<(), AllocError>
    requires groups { AreOf graph.now groups.now }
    requires ids { All (λ id. IsId groups.now.groups id.node) ids.now }
    ensures adds { OnOk result (AddsStale (chosen groups.now.groups ids.now) parts.old.items parts.new.items) }
    ensures known { uses.new.known ≡ uses.old.known }
    ensures numbers { OnOk result (uses.new.numbers ≡ uses.old.numbers ++ replicate (length ids.now) None) }
{
    for &id in ids {
        parts.push(part_of(alloc, groups.group(id).members())?)?;
        uses.add()?;
    }
    Ok(())
}

// Takes their owner from these nodes.
fn disown(members: &[usize], owners: &mut [Option<usize>])
    requires { All (λ node. node < length owners.old) members.now }
    ensures { Disowns members.now owners.old owners.new }
{
    for node in members {
        owners[*node] = None;
    }
}
