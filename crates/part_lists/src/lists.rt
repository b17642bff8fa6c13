//! The parts that are listed for each node.
ghost use Rattle.std.specs.Prelude.{◌≡◌, ℕ, ◌<◌, ◌≤◌, length, All, Contains, IfOk, OnOk};
ghost use Rattle.part_lists.specs.Listing.{nodes_of, listed_at, AreLists, Lists};

use machine_parts::MachinePart;
use std::alloc::{AllocError, Global};

/// For each of so many nodes the parts that read it, or those that have it as a member.
pub fn lists_of(
    alloc: Global,
    members: bool,
    parts: &[MachinePart],
    nodes: usize,
) -> Result<Vec<Vec<usize>>, AllocError>
    requires below { All (λ part. All (λ node. node < nodes) (nodes_of members part)) parts.now }
    requires front { All (λ part. part.members ≤ length part.map.items) parts.now }
    ensures { IfOk result (λ lists. AreLists members parts.now nodes lists.items) }
{
    let mut lists = no_lists(alloc, nodes)?;
    for (k, part) in parts.iter().enumerate() {
        list_part(k, nodes_of(members, part), &mut lists)?;
    }
    Ok(lists)
}

// The nodes that a part reads, or its members.
fn nodes_of(members: bool, part: &MachinePart) -> &[usize]
    requires { part.now.members ≤ length part.now.map.items }
    ensures { result.now ≡ nodes_of members part.now }
{
    if members {
        &part.map[..part.members]
    } else {
        &part.reads
    }
}

// An empty list for each of so many nodes.
fn no_lists(alloc: Global, nodes: usize) -> Result<Vec<Vec<usize>>, AllocError>
    ensures count { IfOk result (λ lists. length lists.items ≡ nodes) }
    ensures none { IfOk result (λ lists. (node k : ℕ) → ¬ Contains (listed_at lists.items node) k) }
{
    let mut lists = Vec::new(alloc);
    for _ in 0..nodes {
        lists.push(Vec::new(alloc))?;
    }
    Ok(lists)
}

// Lists a part at these nodes.
fn list_part(k: usize, nodes: &[usize], lists: &mut [Vec<usize>]) -> Result<(), AllocError>
    requires { All (λ node. node < length lists.old) nodes.now }
    ensures { OnOk result (Lists k nodes.now lists.old lists.new) }
{
    for node in nodes {
        lists[*node].push(k)?;
    }
    Ok(())
}

/// The most members of a part.
pub fn most_members(parts: &[MachinePart]) -> usize
    ensures { All (λ part. part.members ≤ result) parts.now }
{
    let mut most = 0;
    for part in parts {
        most = part.members.max(most);
    }
    most
}
