ghost use Rattle.std.specs.Prelude.{◌≡◌, ◌⊎◌, None, map, All, IfOk, IfErr, OnOk};
ghost use Rattle.group_meaning.specs.Groups.{AreGroups, IsGroup};
ghost use Rattle.group_text.specs.Texts.{local_nodes, text_of_group};
ghost use Rattle.circuit_texts.specs.Words.{IsFirstTooLarge, IsTooLarge, fault_in, at_node};

use crate::chosen::texts_at;
use channel_groups::{Group, Groups};
use group_text::{GroupText, TextFault, text_of};
use std::alloc::{AllocError, Global};
use switch_paths::Graph;
use ternary::NoMemory;

/// Why the groups of a circuit have no texts, and so the circuit neither a listing nor a machine.
#[derive(Clone, Copy, Debug, PartialEq, Eq)]
pub enum BuildFault {
    /// The group with this least node is the first that is too large, and has too many members: so
    /// many.
    GroupNodes { node: usize, count: u64 },
    /// The group with this least node is the first that is too large, and has too many switches: so
    /// many.
    GroupSwitches { node: usize, count: u64 },
    /// Memory ran out.
    NoMemory,
}

impl From<NoMemory> for BuildFault {
    ghost use Rattle.circuit_texts.specs.declared.texts.BuildFault.TheVariants.{NoMemory};

    ghost from_gives = { λ _ fault. fault ≡ NoMemory };

    fn from(_want: NoMemory) -> BuildFault {
        BuildFault::NoMemory
    }
}

impl From<AllocError> for BuildFault {
    ghost use Rattle.circuit_texts.specs.declared.texts.BuildFault.TheVariants.{NoMemory};

    ghost from_gives = { λ _ fault. fault ≡ NoMemory };

    fn from(_want: AllocError) -> BuildFault {
        BuildFault::NoMemory
    }
}

/// The texts of groups, and for each text the nodes that its local nodes stand for.
#[derive(Drop)]
pub struct GroupTexts {
    pub texts: Vec<GroupText>,
    pub maps: Vec<Vec<usize>>,
}

/// The texts of the groups of a graph, in the groups' order.
///
/// If some group is too large, the first such group is told.
pub fn texts_of(alloc: Global, graph: &Graph, groups: &Groups) -> Result<GroupTexts, BuildFault>
    requires { AreGroups graph.now groups.now.groups }
    ensures texts { IfOk result (λ made. made.texts.items ≡ map (text_of_group graph.now) groups.now.groups) }
    ensures maps { IfOk result (λ made. map (λ nodes. nodes.items) made.maps.items ≡ map (local_nodes graph.now) groups.now.groups) }
    ensures fits { OnOk result (All (λ group. fault_in group ≡ None) groups.now.groups) }
    ensures too_large { IfErr result (λ fault. (fault ≡ BuildFault.NoMemory) ⊎ IsFirstTooLarge groups.now.groups fault) }
{
    let ids = groups.ids(alloc)?;
    texts_at(alloc, graph, groups, &ids)
}

/// The text of a group, and the nodes that the text's local nodes stand for.
///
/// If the group is too large, that is told of it.
pub fn text_or_fault(
    alloc: Global,
    graph: &Graph,
    group: &Group,
) -> Result<(GroupText, Vec<usize>), BuildFault>
    requires { IsGroup graph.now group.now }
    ensures text { IfOk result (λ made. made.0 ≡ text_of_group graph.now group.now) }
    ensures nodes { IfOk result (λ made. made.1.items ≡ local_nodes graph.now group.now) }
    ensures fits { OnOk result (fault_in group.now ≡ None) }
    ensures too_large { IfErr result (λ fault. (fault ≡ BuildFault.NoMemory) ⊎ IsTooLarge group.now fault) }
{
    match text_of(alloc, graph, group.members(), group.switches()) {
        Ok(made) => Ok(made),
        Err(fault) => Err(fault_at(group.id().node(), fault)),
    }
}

// The fault of a group's text, told of the group with this least node.
pub(crate) fn fault_at(node: usize, fault: TextFault) -> BuildFault
    ensures { result ≡ at_node node fault }
{
    match fault {
        TextFault::GroupNodes { count } => BuildFault::GroupNodes { node, count },
        TextFault::GroupSwitches { count } => BuildFault::GroupSwitches { node, count },
        TextFault::NoMemory => BuildFault::NoMemory,
    }
}
