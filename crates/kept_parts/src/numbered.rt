//! The texts of a circuit's groups by their numbers.
ghost use Rattle.std.specs.Prelude.{◌≡◌, ◌⊎◌, None, Some, map, All, IfOk, IfErr, OnOk};
ghost use Rattle.group_meaning.specs.Groups.{AreGroups};
ghost use Rattle.group_text.specs.Words.{first_texts, local_nodes, text_of_group};
ghost use Rattle.channel_groups.specs.Grouping.{IsId};
ghost use Rattle.circuit_texts.specs.Words.{IsFirstTooLarge, fault_in, chosen};
ghost use Rattle.kept_parts.specs.Uses.{texts_used};

use crate::uses::TextUses;
use channel_groups::{GroupId, Groups};
use circuit_texts::{BuildFault, text_or_fault};
use std::alloc::{AllocError, Global};
use switch_paths::Graph;
use table_keys::TableKeys;

/// The text of each of some groups, and for each of them the nodes that the text's local nodes stand for.
#[derive(Drop)]
pub struct NumberedTexts {
    pub uses: TextUses,
    pub maps: Vec<Vec<usize>>,
}

/// The texts of the groups of a graph, in the groups' order: each distinct text is held once, so this takes no
/// more memory than the distinct texts and a number for each group. The hashes of texts start from these keys.
///
/// If some group is too large, the first such group is told.
pub fn numbered_texts(
    alloc: Global,
    keys: TableKeys,
    graph: &Graph,
    groups: &Groups,
) -> Result<NumberedTexts, BuildFault>
    requires { AreGroups graph.now groups.now.groups }
    ensures texts { IfOk result (λ made. texts_used made.uses ≡ map Some (map (text_of_group graph.now) groups.now.groups)) }
    ensures known { IfOk result (λ made. made.uses.known ≡ first_texts (map (text_of_group graph.now) groups.now.groups)) }
    ensures maps { IfOk result (λ made. map (λ nodes. nodes.items) made.maps.items ≡ map (local_nodes graph.now) groups.now.groups) }
    ensures fits { OnOk result (All (λ group. fault_in group ≡ None) groups.now.groups) }
    ensures too_large { IfErr result (λ fault. (fault ≡ BuildFault.NoMemory) ⊎ IsFirstTooLarge groups.now.groups fault) }
{
    let ids = groups.ids(alloc)?;
    numbered_at(alloc, keys, graph, groups, &ids)
}

/// The texts of the groups with these ids, in the ids' order, held likewise.
///
/// If some of these groups is too large, the first such group is told.
pub fn numbered_at(
    alloc: Global,
    keys: TableKeys,
    graph: &Graph,
    groups: &Groups,
    ids: &[GroupId],
) -> Result<NumberedTexts, BuildFault>
    requires groups { AreGroups graph.now groups.now.groups }
    requires ids { All (λ id. IsId groups.now.groups id.node) ids.now }
    ensures texts { IfOk result (λ made. texts_used made.uses ≡ map Some (map (text_of_group graph.now) (chosen groups.now.groups ids.now))) }
    ensures known { IfOk result (λ made. made.uses.known ≡ first_texts (map (text_of_group graph.now) (chosen groups.now.groups ids.now))) }
    ensures maps { IfOk result (λ made. map (λ nodes. nodes.items) made.maps.items ≡ map (local_nodes graph.now) (chosen groups.now.groups ids.now)) }
    ensures fits { OnOk result (All (λ group. fault_in group ≡ None) (chosen groups.now.groups ids.now)) }
    ensures too_large { IfErr result (λ fault. (fault ≡ BuildFault.NoMemory) ⊎ IsFirstTooLarge (chosen groups.now.groups ids.now) fault) }
{
    let mut uses = TextUses::new(alloc, keys, 0)?;
    let mut maps = Vec::new(alloc);
    for &id in ids {
        let (text, nodes) = text_or_fault(alloc, graph, groups.group(id))?;
        uses.push_text(alloc, &text)?;
        maps.push(nodes).map_err(AllocError::from)?;
    }
    Ok(NumberedTexts { uses, maps })
}
