//! The search for the groups of a graph from roots.

ghost use Rattle.std.specs.Prelude.{◌≡◌, ℕ, ◌+◌, ◌*◌, ◌≤◌, length, ◌∷◌, [], filter, nat_eq, IfOk, OnOk, OnErr, if◌then◌else◌};
ghost use Rattle.std.specs.List.{IsDistinct, sum_by};
ghost use Rattle.group_meaning.specs.Groups.{Group};
ghost use Rattle.channel_groups.specs.Listing.{AreListed, places_of};
ghost use Rattle.channel_groups.specs.Grouping.{IsHeld, group_at_node};
ghost use Rattle.channel_groups.specs.Search.{AreFound, AreFoundFrom, Finds, Notes, IsCutShort, ArePaid, is_storage, search_cost};
ghost use Rattle.channel_groups.specs.Writing.{AreTouched, AddsGroup, members_in};

use crate::ends::Ends;
use crate::flood::group_at;
use crate::group::Group;
use crate::held::{Held, group_of};
use indexmap::IndexSet;
use std::alloc::{AllocError, Global};
use std::sync::ledger::Ledger;
use strength_order::INPUT_LEVEL;
use switch_paths::Graph;
use ternary::Steps;

/// The groups that were found, and their members.
#[derive(Drop)]
pub(crate) struct Found {
    pub seen: IndexSet<usize>,
    pub fresh: Vec<Group>,
}

/// Finds the groups of those of these roots that are storage nodes.
pub(crate) fn try_roots<L: Ledger>(
    alloc: Global,
    graph: &Graph,
    ends: &Ends,
    changed: Option<usize>,
    roots: &[usize],
    found: &mut Found,
    steps: &mut Steps<L>,
) -> Result<(), AllocError>
    requires firsts { AreListed (λ switch. switch.a) graph.now changed (places_of ends.now.firsts.items) }
    requires seconds { AreListed (λ switch. switch.b) graph.now changed (places_of ends.now.seconds.items) }
    requires found { AreFound graph.now found.old.seen.keys found.old.fresh.items }
    ensures found { OnOk result (AreFound graph.now found.new.seen.keys found.new.fresh.items) }
    ensures finds { OnOk result (Finds graph.now roots.now found.old.seen.keys found.new.seen.keys) }
    ensures from { OnOk result (AreFoundFrom roots.now found.old.fresh.items found.new.fresh.items) }
    ensures steps { OnOk result (steps.new + search_cost found.old.fresh.items
        ≤ steps.old + length (filter (is_storage graph.now) roots.now) + search_cost found.new.fresh.items) }
    ensures err { OnErr result (ArePaid graph.now roots.now found.old.fresh.items steps.old steps.new) }
{
    for &root in roots {
        try_root(alloc, graph, ends, changed, root, found, steps)?;
    }
    Ok(())
}

/// Finds the group of a root, if it is a storage node and wasn't seen.
pub(crate) fn try_root<L: Ledger>(
    alloc: Global,
    graph: &Graph,
    ends: &Ends,
    changed: Option<usize>,
    root: usize,
    found: &mut Found,
    steps: &mut Steps<L>,
) -> Result<(), AllocError>
    requires firsts { AreListed (λ switch. switch.a) graph.now changed (places_of ends.now.firsts.items) }
    requires seconds { AreListed (λ switch. switch.b) graph.now changed (places_of ends.now.seconds.items) }
    requires found { AreFound graph.now found.old.seen.keys found.old.fresh.items }
    ensures found { OnOk result (AreFound graph.now found.new.seen.keys found.new.fresh.items) }
    ensures finds { OnOk result (Finds graph.now (root ∷ []) found.old.seen.keys found.new.seen.keys) }
    ensures from { OnOk result (AreFoundFrom (root ∷ []) found.old.fresh.items found.new.fresh.items) }
    ensures steps { OnOk result (steps.new + search_cost found.old.fresh.items
        ≤ steps.old + (if is_storage graph.now root then 1 else 0) + search_cost found.new.fresh.items) }
    ensures err { OnErr result (IsCutShort graph.now root found.old.seen.keys steps.old steps.new) }
{
    if !is_storage(graph, root) {
        return Ok(());
    }
    steps.tick();
    if found.seen.contains(&root) {
        return Ok(());
    }
    let group = group_at(alloc, graph, ends, changed, root, steps)?;
    note(group.members(), &mut found.seen, steps)?;
    found.fresh.push(group)?;
    Ok(())
}

/// Whether a number is that of a storage node.
fn is_storage(graph: &Graph, node: usize) -> bool
    ensures { result ≡ is_storage graph.now node }
{
    node < graph.nodes() && graph.level(node) < INPUT_LEVEL
}

/// Notes these nodes as seen.
fn note<L: Ledger>(
    nodes: &[usize],
    seen: &mut IndexSet<usize>,
    steps: &mut Steps<L>,
) -> Result<(), AllocError>
    ensures notes { OnOk result (Notes nodes.now seen.old.keys seen.new.keys) }
    ensures unique { OnOk result (IsDistinct nat_eq seen.old.keys → IsDistinct nat_eq seen.new.keys) }
    ensures steps { OnOk result (steps.new ≡ steps.old + length nodes.now) }
    ensures most { steps.new ≤ steps.old + length nodes.now }
{
    for &node in nodes {
        steps.tick();
        seen.insert(node)?;
    }
    Ok(())
}

/// The members of the groups that have one of these nodes as a member.
pub(crate) fn members_touched<L: Ledger>(
    alloc: Global,
    held: &Held,
    before: &[usize],
    steps: &mut Steps<L>,
) -> Result<IndexSet<usize>, AllocError>
    requires { IsHeld held.now.classes.items held.now.slots.items }
    ensures touched { IfOk result (λ gone. AreTouched held.now.classes.items held.now.slots.items before.now gone.keys) }
    ensures unique { IfOk result (λ gone. IsDistinct nat_eq gone.keys) }
    ensures steps { steps.new ≤ steps.old
        + sum_by (λ node. members_in (group_at_node held.now.classes.items held.now.slots.items node)) before.now }
{
    let mut gone = IndexSet::new(alloc);
    for &node in before {
        add_touched(held, node, &mut gone, steps)?;
    }
    Ok(gone)
}

/// Adds the members of the group that has this node as a member, if there is one.
fn add_touched<L: Ledger>(
    held: &Held,
    node: usize,
    gone: &mut IndexSet<usize>,
    steps: &mut Steps<L>,
) -> Result<(), AllocError>
    ensures unique { OnOk result (IsDistinct nat_eq gone.old.keys → IsDistinct nat_eq gone.new.keys) }
    ensures adds { OnOk result (AddsGroup (group_at_node held.now.classes.items held.now.slots.items node) gone.old.keys gone.new.keys) }
    ensures steps { steps.new ≤ steps.old + members_in (group_at_node held.now.classes.items held.now.slots.items node) }
{
    let Some(group) = group_of(held, node) else {
        return Ok(());
    };
    note(group.members(), gone, steps)?;
    Ok(())
}

/// These nodes, each once.
pub(crate) fn each_once(alloc: Global, nodes: &[usize]) -> Result<IndexSet<usize>, AllocError>
    ensures notes { IfOk result (λ set. Notes nodes.now [] set.keys) }
    ensures unique { IfOk result (λ set. IsDistinct nat_eq set.keys) }
{
    let mut set = IndexSet::new(alloc);
    for &node in nodes {
        set.insert(node)?;
    }
    Ok(set)
}
