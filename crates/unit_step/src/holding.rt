//! The groups that are stepped by vicinities: those without a text, and those with long code.
ghost use Rattle.std.specs.Prelude.{◌≡◌, ℕ, ◌<◌, ◌≤◌, ◌↔◌, true, [], length, take, map, vec_capacity, All, Contains, IfOk, IfSome, slice_index_or};
ghost use Rattle.std.specs.Bool.{OnTrue, OnFalse};
ghost use Rattle.std.specs.List.Sorted.{IsNonDecreasing};
ghost use Rattle.switch_paths.specs.Graphs.{nodes};
ghost use Rattle.machine_parts.specs.Words.{IsMarked, MarksAll};
ghost use Rattle.unit_step.specs.Words.{IsIn, HoldsWide, graph_in, GrowsIn, HoldsNode, lowered, first_node};
ghost use Rattle.unit_step.specs.Holding.{HasNodes, HoldsParts, IsOfThese, wide_after, wide_in, room_in};

use crate::long::add_if;
use crate::machine::Machine;
use crate::waking::least_member;
use machine_parts::MachinePart;
use part_steps::Agenda;
use part_words::Change;
use std::alloc::{AllocError, Global};
use switch_paths::Graph;
use ternary::{NoMemory, Tern};
use vicinity::{NodeSet, Wide};
use wide_groups::{grown, holds_node, lower, wide_of};

// The groups that a machine is to step by vicinities, and room for a change of each node.
#[derive(Drop)]
pub(crate) struct Holding {
    pub(crate) wide: Wide,
    pub(crate) noted: Vec<Change>,
}

impl Machine {
    // These groups are stepped by vicinities from now on. If nothing is given, those that were still are, and a group
    // without a text is one of them only if it has no more members than `large` either.
    #[tactic(auto, using(wide_groups::proofs::StayingLemmas::holds_lowered))]
    pub(crate) fn hold(&mut self, large: usize, holding: Option<Holding>)
        requires { HoldsWide self.old.parts self.old.state (room_in holding) (wide_in holding) }
        ensures { self.new ≡ record self.old { wide = wide_after large self.old.wide holding } }
    {
        match holding {
            Some(Holding { wide, noted }) => {
                self.body.noted = noted;
                self.body.wide = Some(wide);
            }
            None => lower(large, &mut self.body.wide),
        }
    }

    // Those groups that were still are, and a group without a text is one of them only if it has no more members than
    // `large` either.
    #[tactic(auto, using(wide_groups::proofs::StayingLemmas::holds_lowered))]
    pub(crate) fn hold_up_to(&mut self, large: usize)
        ensures { self.new ≡ record self.old { wide = lowered large self.old.wide } }
    {
        lower(large, &mut self.body.wide);
    }
}

// The groups that are stepped by vicinities once there are so many nodes, if they are known, with room for a change of
// each node.
pub(crate) fn widened(
    known: Option<Wide>,
    count: usize,
    noted: &mut Vec<Change>,
) -> Result<Option<Wide>, NoMemory>
    requires { nodes (graph_in known) ≤ count }
    ensures grows { IfOk result (GrowsIn count known) }
    ensures room { IfOk result (λ wide. IfSome wide (λ _. count ≤ vec_capacity noted.new)) }
{
    if known.is_none() {
        return Ok(None);
    }
    noted.clear();
    noted.reserve(count)?;
    let wide = grown(known, count)?;
    Ok(wide)
}

// The groups of these parts, which are groups of the graph, under a state.
pub(crate) fn holding_of(
    alloc: Global,
    graph: &Graph,
    parts: &[MachinePart],
    these: &[usize],
    large: usize,
    state: &[Tern],
) -> Result<Holding, NoMemory>
    requires counted { length state.now ≡ nodes graph.now }
    requires these { All (λ k. k < length parts.now) these.now }
    requires there { All (HasNodes (nodes graph.now)) parts.now }
    ensures { IfOk result (HoldsParts large graph.now parts.now these.now state.now) }
{
    let members = member_set(alloc, graph.nodes(), parts, these)?;
    let noted = Vec::with_capacity(alloc, state.len())?;
    let wide = wide_of(alloc, large, graph, state, &members)?;
    Ok(Holding { wide, noted })
}

// The members of these parts.
fn member_set(
    alloc: Global,
    nodes: usize,
    parts: &[MachinePart],
    these: &[usize],
) -> Result<NodeSet, AllocError>
    requires these { All (λ k. k < length parts.now) these.now }
    requires there { All (HasNodes nodes) parts.now }
    ensures count { IfOk result (λ set. length set.inside ≡ nodes) }
    ensures members { IfOk result (λ set. (node : ℕ) → IsIn set.inside node ↔ IsOfThese parts.now these.now node) }
{
    let mut set = NodeSet::new(alloc, nodes)?;
    for &k in these {
        put_members(&parts[k], &mut set);
    }
    Ok(set)
}

// Puts the members of a part in.
fn put_members(part: &MachinePart, set: &mut NodeSet)
    requires members { part.now.members ≤ length part.now.map.items }
    requires inside { (node : ℕ) → Contains (take part.now.members part.now.map.items) node → node < length set.old.inside }
    ensures { MarksAll (Contains (take part.now.members part.now.map.items)) set.old.inside set.new.inside }
{
    put_all(&part.map[..part.members], set);
}

// Puts these nodes in.
fn put_all(nodes: &[usize], set: &mut NodeSet)
    requires { (node : ℕ) → Contains nodes.now node → node < length set.old.inside }
    ensures { MarksAll (Contains nodes.now) set.old.inside set.new.inside }
{
    for &node in nodes {
        set.insert(node);
    }
}

// Whether each of these parts is stepped by vicinities already.
pub(crate) fn holds_all(wide: &Option<Wide>, parts: &[MachinePart], these: &[usize]) -> bool
    requires these { All (λ k. k < length parts.now) these.now }
    requires some { All (λ k. 0 < length (slice_index_or (map (λ part. part.map.items) parts.now) k [])) these.now }
    ensures all { OnTrue result (All (λ k. HoldsNode wide.now (first_node parts.now k)) these.now) }
    ensures some { OnFalse result (¬ All (λ k. HoldsNode wide.now (first_node parts.now k)) these.now) }
{
    for &k in these {
        if holds_node(wide, least_member(parts, k)) {
            continue;
        }
        return false;
    }
    true
}

// Those of the parts that wait that aren't among these.
pub(crate) fn others_waiting(
    alloc: Global,
    agenda: &Agenda,
    these: &[usize],
) -> Result<Vec<usize>, AllocError>
    ensures { IfOk result (λ others. (k : ℕ) → Contains others.items k ↔ (IsMarked agenda.now.waiting k × (¬ Contains these.now k))) }
{
    let mut taken = Vec::from_slice(alloc, these)?;
    taken.sort_unstable();
    let mut others = Vec::new(alloc);
    for &k in agenda.waiters() {
        add_if(waits_beside(k, agenda, &taken), k, &mut others)?;
    }
    Ok(others)
}

// Whether a part waits and isn't one of these.
fn waits_beside(k: usize, agenda: &Agenda, these: &[usize]) -> bool
    requires inside { k < length agenda.now.marks }
    requires ascending { IsNonDecreasing these.now }
    ensures { (result ≡ true) ↔ (IsMarked agenda.now.waiting k × (¬ Contains these.now k)) }
{
    if agenda.does_wait(k) {
        return is_beside(k, these);
    }
    false
}

// Whether a number isn't one of these, which are in order.
fn is_beside(k: usize, these: &[usize]) -> bool
    requires { IsNonDecreasing these.now }
    ensures { (result ≡ true) ↔ (¬ Contains these.now k) }
{
    match these.binary_search(&k) {
        Ok(_place) => false,
        Err(_place) => true,
    }
}
