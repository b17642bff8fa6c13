//! Which groups have a text, and which are too large for one.
ghost use Rattle.std.specs.Prelude.{◌≡◌, ◌⊎◌, ◌++◌, ◌∷◌, [], None, not, if◌then◌else◌, All, IfOk, IfErr, OnOk};
ghost use Rattle.channel_groups.specs.Grouping.{IsId};
ghost use Rattle.circuit_texts.specs.Sizes.{IsFirstRefused, IsRefused, fault_in, refused_in};
ghost use Rattle.circuit_texts.specs.Told.{has_text, with_text, without_text};
ghost use Rattle.circuit_texts.specs.Choosing.{chosen};

use crate::texts::{BuildFault, fault_at};
use channel_groups::{Group, GroupId, Groups};
use group_text::{MOST_MEMBERS, MOST_SWITCHES, TextFault};
use std::alloc::{AllocError, Global};

/// The ids of some groups: of those that have a text, and of those that are too large for one.
#[derive(Drop)]
pub struct GroupSizes {
    pub told: Vec<GroupId>,
    pub large: Vec<GroupId>,
}

/// Which of the groups with these ids have a text, and which have none, both in the ids' order.
///
/// A group that is too large for a text is refused if it has more members than `large`, and with 0 in any case. If some
/// group is refused, the first such group is told.
pub fn sizes_at(
    alloc: Global,
    groups: &Groups,
    ids: &[GroupId],
    large: usize,
) -> Result<GroupSizes, BuildFault>
    requires { All (λ id. IsId groups.now.groups id.node) ids.now }
    ensures told { IfOk result (λ sizes. chosen groups.now.groups sizes.told.items ≡ with_text (chosen groups.now.groups ids.now)) }
    ensures large { IfOk result (λ sizes. chosen groups.now.groups sizes.large.items ≡ without_text (chosen groups.now.groups ids.now)) }
    ensures told_ids { IfOk result (λ sizes. All (λ id. IsId groups.now.groups id.node) sizes.told.items) }
    ensures large_ids { IfOk result (λ sizes. All (λ id. IsId groups.now.groups id.node) sizes.large.items) }
    ensures fits { OnOk result (All (λ group. refused_in large group ≡ None) (chosen groups.now.groups ids.now)) }
    ensures refused { IfErr result (λ fault. (fault ≡ BuildFault.NoMemory) ⊎ IsFirstRefused large (chosen groups.now.groups ids.now) fault) }
{
    let mut sizes = GroupSizes {
        told: Vec::new(alloc),
        large: Vec::new(alloc),
    };
    for &id in ids {
        put_by_size(groups.group(id), id, large, &mut sizes)?;
    }
    Ok(sizes)
}

// Puts a group to those that have a text or to those that have none, unless it is refused.
#[tactic(auto, using(crate::proofs::SizeLemmas::fits_any, crate::proofs::SizeLemmas::few_any, crate::proofs::SizeLemmas::many_refused))]
fn put_by_size(
    group: &Group,
    id: GroupId,
    large: usize,
    sizes: &mut GroupSizes,
) -> Result<(), BuildFault>
    ensures told { OnOk result (sizes.new.told.items ≡ sizes.old.told.items ++ (if has_text group.now then id ∷ [] else [])) }
    ensures large { OnOk result (sizes.new.large.items ≡ sizes.old.large.items ++ (if not (has_text group.now) then id ∷ [] else [])) }
    ensures fits { OnOk result (refused_in large group.now ≡ None) }
    ensures refused { IfErr result (λ fault. (fault ≡ BuildFault.NoMemory) ⊎ IsRefused large group.now fault) }
{
    let Some(fault) = fault_of(group) else {
        sizes.told.push(id).map_err(AllocError::from)?;
        return Ok(());
    };
    if large == 0 || large < group.members().len() {
        return Err(fault_at(group.id().node(), fault));
    }
    sizes.large.push(id).map_err(AllocError::from)?;
    Ok(())
}

// Why a group has no text, if it is too large for one.
fn fault_of(group: &Group) -> Option<TextFault>
    ensures { result ≡ fault_in group.now }
{
    let members = group.members().len();
    let switches = group.switches().len();
    if members > MOST_MEMBERS {
        return Some(TextFault::GroupNodes {
            count: members as u64,
        });
    }
    if switches > MOST_SWITCHES {
        return Some(TextFault::GroupSwitches {
            count: switches as u64,
        });
    }
    None
}
