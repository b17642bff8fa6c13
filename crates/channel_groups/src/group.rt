//! A group and its id.

ghost use Rattle.std.specs.Prelude.{◌≡◌, ◌<◌, length, IfOk};
ghost use Rattle.group_meaning.specs.Groups.{id_of};
ghost use Rattle.channel_groups.specs.Flood.{IsSortedFrom};

use std::alloc::{AllocError, Global};
use std::marker::Model;

/// The id of a group: its least node.
#[derive(Clone, Copy, PartialEq, Eq, PartialOrd, Ord, Hash)]
pub struct GroupId {
    node: usize,
}

impl GroupId {
    /// The group's least node.
    pub fn node(self) -> usize
        ensures { result ≡ self.node }
    {
        self.node
    }
}

/// A channel-connected group: its members, and the places of its switches, both in ascending order.
#[derive(Drop)]
pub struct Group {
    members: Vec<usize>,
    switches: Vec<usize>,
}

impl Model for Group {
    ghost use Rattle.std.specs.Prelude.{◌<◌, length};
    ghost use Rattle.group_meaning.specs.Groups.{Group};

    ghost Value = { Group };

    ghost view = { λ group. record { members = group.members.items; switches = group.switches.items } };

    ghost invariant = { λ group. 0 < length group.members.items };
}

impl Group {
    /// The group with these members and switches, which may stand in any order and more than once.
    pub(crate) fn sorted(
        alloc: Global,
        members: &[usize],
        switches: &[usize],
    ) -> Result<Group, AllocError>
        requires { 0 < length members.now }
        ensures members { IfOk result (λ group. IsSortedFrom members.now group.members) }
        ensures switches { IfOk result (λ group. IsSortedFrom switches.now group.switches) }
    {
        Ok(Group {
            members: ascending(Vec::from_slice(alloc, members)?),
            switches: ascending(Vec::from_slice(alloc, switches)?),
        })
    }

    /// The group's id: its least node.
    pub fn id(&self) -> GroupId
        ensures { result.node ≡ id_of self.now }
    {
        GroupId {
            node: self.members[0],
        }
    }

    /// The members, which ascend.
    pub fn members(&self) -> &[usize]
        ensures { result.now ≡ self.now.members }
    {
        &self.members
    }

    /// The places of the switches that have a member at an end, which ascend.
    pub fn switches(&self) -> &[usize]
        ensures { result.now ≡ self.now.switches }
    {
        &self.switches
    }
}

/// These numbers in ascending order, each once.
pub fn ascending(mut numbers: Vec<usize>) -> Vec<usize>
    ensures { IsSortedFrom numbers.items result.items }
{
    numbers.sort_unstable();
    numbers.dedup();
    numbers
}
