//! What is found of the parts that wait before they get their codes.
ghost use Rattle.std.specs.Prelude.{◌≡◌, ◌≢◌, ℕ, ◌<◌, ◌⊎◌, ◌↔◌, None, Some, [], true, length, map, All, Contains, IfOk, OnOk, slice_index_or};
ghost use Rattle.std.specs.List.Sorted.{IsStrictlyIncreasing};
ghost use Rattle.unit_step.specs.Words.{AreOf, IsId, IsMarked, first_node};
ghost use Rattle.unit_step.specs.Holding.{IsPassed};
ghost use Rattle.unit_step.specs.Waking.{AddsUnlessPassed};

use channel_groups::{GroupId, Groups};
use circuit_texts::GroupSizes;
use group_text::GroupText;
use machine_parts::MachinePart;
use part_steps::Agenda;
use std::alloc::{AllocError, Global};
use switch_paths::{Graph, graphs_are_wired};
use vicinity::Wide;
use wide_groups::{holds_node, holds_up_to};

// What is found of those groups that have a text and whose parts wait: the numbers of their parts, and for each of
// these groups its text, the nodes that the text's local nodes stand for, and the nodes that it reads.
#[derive(Drop)]
pub(crate) struct Waking {
    pub(crate) slots: Vec<usize>,
    pub(crate) texts: Vec<GroupText>,
    pub(crate) maps: Vec<Vec<usize>>,
    pub(crate) reads: Vec<Vec<usize>>,
}

// What the parts in these slots become, whose groups have these texts: those whose code is long have none. The last list
// has the slots of those that have theirs.
#[derive(Drop)]
pub(crate) struct Risen {
    pub(crate) slots: Vec<usize>,
    pub(crate) texts: Vec<GroupText>,
    pub(crate) parts: Vec<MachinePart>,
    pub(crate) coded: Vec<usize>,
}

// The least members of the parts that wait, in order, but for those that are passed over.
pub(crate) fn least_members(
    alloc: Global,
    parts: &[MachinePart],
    agenda: &Agenda,
    wide: &Option<Wide>,
    large: usize,
) -> Result<Vec<usize>, AllocError>
    requires counted { length agenda.now.marks ≡ length parts.now }
    requires some { (k : ℕ) → IsMarked agenda.now.waiting k → 0 < length (slice_index_or (map (λ part. part.map.items) parts.now) k []) }
    ensures ascending { IfOk result (λ nodes. IsStrictlyIncreasing nodes.items) }
    ensures all { IfOk result (λ nodes. (k : ℕ) → IsMarked agenda.now.waiting k →
        Contains nodes.items (first_node parts.now k) ⊎ IsPassed large wide.now (first_node parts.now k)) }
    ensures only { IfOk result (λ nodes. (node : ℕ) → Contains nodes.items node → (k : ℕ) × IsMarked agenda.now.waiting k × (first_node parts.now k ≡ node)) }
{
    let mut nodes = Vec::new(alloc);
    for &k in agenda.waiters() {
        if agenda.does_wait(k) {
            add_unless_passed(least_member(parts, k), wide, large, &mut nodes)?;
        }
    }
    nodes.sort_unstable();
    nodes.dedup();
    Ok(nodes)
}

// Adds a least member, unless it is passed over.
fn add_unless_passed(
    node: usize,
    wide: &Option<Wide>,
    large: usize,
    nodes: &mut Vec<usize>,
) -> Result<(), AllocError>
    ensures { OnOk result (AddsUnlessPassed large wide.now node nodes.old.items nodes.new.items) }
{
    if is_passed(wide, large, node) {
        return Ok(());
    }
    nodes.push(node)?;
    Ok(())
}

// Whether the group with this least node is passed over: it is stepped by vicinities already, and no such group has more
// members than the bound.
fn is_passed(wide: &Option<Wide>, large: usize, node: usize) -> bool
    ensures { (result ≡ true) ↔ IsPassed large wide.now node }
{
    if holds_up_to(wide, large) {
        return holds_node(wide, node);
    }
    false
}

// The least member of a part.
pub(crate) fn least_member(parts: &[MachinePart], k: usize) -> usize
    requires inside { k < length parts.now }
    requires some { 0 < length (slice_index_or (map (λ part. part.map.items) parts.now) k []) }
    ensures { result ≡ first_node parts.now k }
{
    parts[k].map[0]
}

// Whether there is no group, with a text or without.
pub(crate) fn has_no_group(sizes: &GroupSizes) -> bool
    ensures { (result ≡ true) ↔ ((sizes.now.told.items ≡ []) × (sizes.now.large.items ≡ [])) }
{
    if sizes.told.is_empty() {
        return sizes.large.is_empty();
    }
    false
}

// The parts that own the least nodes of the groups with these ids.
pub(crate) fn owners_of(
    alloc: Global,
    owners: &[Option<usize>],
    ids: &[GroupId],
) -> Result<Vec<usize>, AllocError>
    requires owned { All (λ id. slice_index_or owners.now id.node None ≢ None) ids.now }
    ensures { IfOk result (λ slots. map Some slots.items ≡ map (λ id. slice_index_or owners.now id.node None) ids.now) }
{
    let mut slots = Vec::new(alloc);
    for &id in ids {
        slots.push(owner_of(owners, id.node()))?;
    }
    Ok(slots)
}

// The part that owns a node.
fn owner_of(owners: &[Option<usize>], node: usize) -> usize
    requires { slice_index_or owners.now node None ≢ None }
    ensures { slice_index_or owners.now node None ≡ Some result }
{
    match owners.get(node) {
        Some(&Some(slot)) => slot,
        _ => unreachable!(),
    }
}

// The ids of the groups with these least nodes.
pub(crate) fn ids_at(
    alloc: Global,
    graph: &Graph,
    groups: &Groups,
    nodes: &[usize],
) -> Result<Vec<GroupId>, AllocError>
    requires groups { AreOf graph.now groups.now }
    requires ids { All (IsId groups.now.groups) nodes.now }
    ensures ids { IfOk result (λ ids. map (λ id. id.node) ids.items ≡ nodes.now) }
    ensures all { IfOk result (λ ids. All (λ id. IsId groups.now.groups id.node) ids.items) }
{
    let mut ids = Vec::new(alloc);
    for &node in nodes {
        ids.push(id_at(graph, groups, node))?;
    }
    Ok(ids)
}

// The id of the group with this least node.
fn id_at(graph: &Graph, groups: &Groups, node: usize) -> GroupId
    requires groups { AreOf graph.now groups.now }
    requires id { IsId groups.now.groups node }
    ensures { result.node ≡ node }
{
    graphs_are_wired(graph);
    match groups.group_of(node) {
        Some(id) => id,
        None => unreachable!(),
    }
}
