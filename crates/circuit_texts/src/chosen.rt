//! The texts of some of a circuit's groups, and the nodes that they read.
ghost use Rattle.std.specs.Prelude.{◌≡◌, ◌⊎◌, None, map, All, IfOk, IfErr, OnOk};
ghost use Rattle.std.specs.List.{AllZip};
ghost use Rattle.group_meaning.specs.Groups.{AreGroups};
ghost use Rattle.channel_groups.specs.Grouping.{IsId};
ghost use Rattle.group_text.specs.Texts.{local_nodes, text_of_group};
ghost use Rattle.circuit_texts.specs.Words.{IsFirstTooLarge, fault_in, AreReads, chosen};

use crate::reads::sorted_reads;
use crate::texts::{BuildFault, GroupTexts, text_or_fault};
use channel_groups::{GroupId, Groups};
use std::alloc::{AllocError, Global};
use switch_paths::Graph;

/// The texts of the groups with these ids, in the ids' order.
///
/// Where some of these groups is too large, the first such group is told.
pub fn texts_at(
    alloc: Global,
    graph: &Graph,
    groups: &Groups,
    ids: &[GroupId],
) -> Result<GroupTexts, BuildFault>
    requires groups { AreGroups graph.now groups.now.groups }
    requires ids { All (λ id. IsId groups.now.groups id.node) ids.now }
    ensures texts { IfOk result (λ made. made.texts.items ≡ map (text_of_group graph.now) (chosen groups.now.groups ids.now)) }
    ensures maps { IfOk result (λ made. map (λ nodes. nodes.items) made.maps.items ≡ map (local_nodes graph.now) (chosen groups.now.groups ids.now)) }
    ensures fits { OnOk result (All (λ group. fault_in group ≡ None) (chosen groups.now.groups ids.now)) }
    ensures too_large { IfErr result (λ fault. (fault ≡ BuildFault.NoMemory) ⊎ IsFirstTooLarge (chosen groups.now.groups ids.now) fault) }
{
    let mut texts = Vec::new(alloc);
    let mut maps = Vec::new(alloc);
    for &id in ids {
        let (text, nodes) = text_or_fault(alloc, graph, groups.group(id))?;
        texts.push(text).map_err(AllocError::from)?;
        maps.push(nodes).map_err(AllocError::from)?;
    }
    Ok(GroupTexts { texts, maps })
}

/// The nodes that each of the groups with these ids reads, each once, in the ids' order. The nodes of a
/// group ascend.
pub fn reads_at(
    alloc: Global,
    graph: &Graph,
    groups: &Groups,
    ids: &[GroupId],
) -> Result<Vec<Vec<usize>>, AllocError>
    requires groups { AreGroups graph.now groups.now.groups }
    requires ids { All (λ id. IsId groups.now.groups id.node) ids.now }
    ensures { IfOk result (λ lists. AllZip (λ group list. AreReads graph.now group list.items) (chosen groups.now.groups ids.now) lists.items) }
{
    let mut lists = Vec::new(alloc);
    for &id in ids {
        let group = groups.group(id);
        lists.push(sorted_reads(alloc, graph, group.switches())?)?;
    }
    Ok(lists)
}
