//! The nodes that are near the parts that are apart: a change of any other node is taken over, and stirs nothing.
ghost use Rattle.std.specs.Prelude.{◌≡◌, ◌≢◌, ℕ, ◌<◌, ◌≤◌, ◌/◌, ◌++◌, ◌⊎◌, ◌↔◌, nat_le, true, List, Option, None, Some, length, take, vec_capacity, slice_index, slice_index_or, slice_set, Contains, IfOk, IfSome};
ghost use Rattle.std.specs.Bool.{OnTrue, OnFalse};
ghost use Rattle.std.specs.Option.{IfNone};
ghost use Rattle.machine_parts.specs.Words.{MarksAll};
ghost use Rattle.machine_parts.specs.declared.part.MachinePart.{MachinePart};
ghost use Rattle.vicinity.specs.NodeSets.{IsIn};
ghost use Rattle.run_beside.specs.declared.near.TheConstants.{PARTS_A_CHANGE};
ghost use Rattle.run_beside.specs.Near.{AreNear, AreNearIn, Enters, FitsParts, IsCut, IsFar, IsOfPart, IsOut, StayFirst, TellsOf};

use machine_parts::MachinePart;
use part_words::Change;
use std::alloc::{AllocError, Global};
use vicinity::NodeSet;

/// What is near is brought up to date if no more parts are apart than this for each change: a look at so many parts costs
/// less than what is spared at a change.
pub const PARTS_A_CHANGE: usize = 4;

/// Where among the changes of a step those stand whose node may be near: from `first` on and before `end`. All others are far.
#[derive(Clone, Copy)]
pub struct NearSpan {
    pub first: usize,
    pub end: usize,
}

/// The nodes that are near some parts: those without an owner, those that one of these parts has as a member, and those that
/// one of them reads.
///
/// It is kept from step to step, so that the work is that of the parts that came apart, or that entered behind one that went
/// back. It takes no memory while it changes.
#[derive(Drop)]
pub struct Near {
    /// The nodes: those without an owner, and then those of each part.
    pub nodes: NodeSet,
    /// The parts, in the order in which they entered, and for each how many nodes were near before.
    pub parts: Vec<usize>,
    pub starts: Vec<usize>,
    /// Whether these are the parts that are apart in this step.
    pub is_current: bool,
}

impl Near {
    /// What is near none of so many parts: the nodes without an owner.
    pub fn new(alloc: Global, owners: &[Option<usize>], parts: usize) -> Result<Near, AllocError>
        ensures { IfOk result (λ near. (list : List MachinePart) → length list ≡ parts → AreNear list owners.now near) }
    {
        let mut nodes = NodeSet::new(alloc, owners.len())?;
        let starts = Vec::with_capacity(alloc, parts)?;
        let parts = Vec::with_capacity(alloc, parts)?;
        insert_unowned(owners, &mut nodes);
        Ok(Near {
            nodes,
            parts,
            starts,
            is_current: false,
        })
    }

    // For each node whether it is near, if the parts are those that are apart; else none.
    fn flags(&self) -> &[bool]
        ensures { (node : ℕ) → IsOut result.now node → IsFar (Some self.now) node }
    {
        if self.is_current {
            return self.nodes.marks();
        }
        &[]
    }

    // What is near is that of the parts that are apart, if there are few of them for so many changes.
    fn look(&mut self, changes: &[Change], parts: &[MachinePart], apart: &NodeSet)
        requires { FitsParts parts.now apart.now.inside self.old }
        ensures near { (owners : List (Option ℕ)) → AreNear parts.now owners self.old → AreNear parts.now owners self.new }
        ensures tells { TellsOf changes.now apart.now self.new }
    {
        self.is_current = is_worth(changes, apart);
        if self.is_current {
            self.come_near(parts, apart);
        }
    }

    // What is near is that of the parts that are apart.
    fn come_near(&mut self, parts: &[MachinePart], apart: &NodeSet)
        requires { FitsParts parts.now apart.now.inside self.old }
        ensures near { (owners : List (Option ℕ)) → AreNear parts.now owners self.old → AreNear parts.now owners self.new }
        ensures apart { (k : ℕ) → Contains self.new.parts.items k ↔ IsIn apart.now.inside k }
        ensures current { self.new.is_current ≡ self.old.is_current }
    {
        let first = same_first(&self.parts, apart.nodes_in());
        self.leave_behind(first);
        for place in first..apart.len() {
            let k = apart.at(place);
            self.enter(&parts[k], k);
        }
    }

    // The parts behind the first, so many, leave with their nodes.
    fn leave_behind(&mut self, first: usize)
        requires { length self.old.starts.items ≡ length self.old.parts.items }
        ensures near { (list : List MachinePart) (owners : List (Option ℕ)) → AreNear list owners self.old → AreNear list owners self.new }
        ensures stay { StayFirst first self.old self.new }
    {
        let Some(start) = start_of(&self.starts, first) else {
            return;
        };
        cut(&mut self.nodes, start);
        self.parts.truncate(first);
        self.starts.truncate(first);
    }

    // A part enters, and is near to what it has and what it reads.
    fn enter(&mut self, part: &MachinePart, k: usize)
        requires room { length self.old.parts.items < vec_capacity self.old.parts }
        requires also { length self.old.starts.items < vec_capacity self.old.starts }
        requires members { part.now.members ≤ length part.now.map.items }
        requires inside { (node : ℕ) → IsOfPart part.now node → node < length self.old.nodes.inside }
        ensures { Enters part.now k self.old self.new }
    {
        let start = self.nodes.len();
        insert_all(&part.map[..part.members], &mut self.nodes);
        insert_all(&part.reads, &mut self.nodes);
        self.parts.push_reserved(k);
        self.starts.push_reserved(start);
    }
}

/// If nothing is known of what is near, and there is memory, it is known of no part what is.
pub fn know_near(alloc: Global, owners: &[Option<usize>], parts: usize, near: &mut Option<Near>)
    ensures { (list : List MachinePart) → length list ≡ parts → AreNearIn list owners.now near.old → AreNearIn list owners.now near.new }
{
    if near.is_none() {
        *near = Near::new(alloc, owners, parts).ok();
    }
}

/// What is near is that of the parts that are apart, if there are few of them for the changes that are to be taken over. Else it
/// isn't worth the look, and no node is known to be far.
pub fn look_near(
    changes: &[Change],
    parts: &[MachinePart],
    apart: &NodeSet,
    near: &mut Option<Near>,
)
    requires { IfSome near.old (FitsParts parts.now apart.now.inside) }
    ensures near { (owners : List (Option ℕ)) → AreNearIn parts.now owners near.old → AreNearIn parts.now owners near.new }
    ensures tells { IfSome near.new (TellsOf changes.now apart.now) }
{
    if let Some(near) = near {
        near.look(changes, parts, apart);
    }
}

/// For each node a flag that is unset only if it is known to be far from the parts that are apart; none if nothing is known.
pub fn near_flags(near: &Option<Near>) -> &[bool]
    ensures { (node : ℕ) → IsOut result.now node → IsFar near.now node }
{
    match near {
        Some(near) => near.flags(),
        None => &[],
    }
}

/// Whether a node has a flag, and it is unset.
pub fn is_out(flags: &[bool], node: usize) -> bool
    ensures yes { OnTrue result (IsOut flags.now node) }
    ensures no { OnFalse result (¬ IsOut flags.now node) }
{
    if node < flags.len() {
        return !flags[node];
    }
    false
}

// Whether few parts are apart for so many changes.
fn is_worth(changes: &[Change], apart: &NodeSet) -> bool
    ensures { result ≡ nat_le (length apart.now.list / PARTS_A_CHANGE) (length changes.now) }
{
    apart.len() / PARTS_A_CHANGE <= changes.len()
}

// How many of the first numbers of two lists are the same.
fn same_first(list: &[usize], other: &[usize]) -> usize
    ensures most { result ≤ length list.now }
    ensures same { take result list.now ≡ take result other.now }
{
    let most = list.len().min(other.len());
    for place in 0..most {
        if !is_same_at(list, other, place) {
            return place;
        }
    }
    most
}

// Whether two lists have the same number at a place.
fn is_same_at(list: &[usize], other: &[usize], place: usize) -> bool
    requires list { place < length list.now }
    requires other { place < length other.now }
    ensures { OnTrue result (slice_index list.now place ≡ slice_index other.now place) }
{
    list[place] == other[place]
}

// The number at a place, if the list goes on there.
fn start_of(starts: &[usize], place: usize) -> Option<usize>
    ensures some { IfSome result (λ start. start ≡ slice_index starts.now place) }
    ensures inside { IfSome result (λ _. place < length starts.now) }
    ensures none { IfNone result (length starts.now ≤ place) }
{
    if place < starts.len() {
        return Some(starts[place]);
    }
    None
}

// Puts the nodes in that have no owner.
fn insert_unowned(owners: &[Option<usize>], set: &mut NodeSet)
    requires counted { length set.old.inside ≡ length owners.now }
    requires empty { (node : ℕ) → ¬ IsIn set.old.inside node }
    ensures counted { length set.new.inside ≡ length set.old.inside }
    ensures unowned { (node : ℕ) → node < length owners.now → IsIn set.new.inside node ↔ (slice_index_or owners.now node None ≡ None) }
{
    for node in 0..owners.len() {
        insert_unless_owned(owners[node], node, set);
    }
}

// Puts a node in if it has no owner.
fn insert_unless_owned(owner: Option<usize>, node: usize, set: &mut NodeSet)
    requires { node < length set.old.inside }
    ensures { ((owner ≡ None) × (set.new.inside ≡ slice_set set.old.inside node true))
        ⊎ ((owner ≢ None) × (set.new.inside ≡ set.old.inside)) }
{
    if owner.is_none() {
        set.insert(node);
    }
}

// Takes all nodes out but the first, so many.
fn cut(set: &mut NodeSet, count: usize)
    ensures { IsCut count set.old set.new }
{
    while count < set.len() {
        let _node = set.pop();
    }
    set.lists_what_is_in_it();
}

// Puts all of these nodes in.
fn insert_all(nodes: &[usize], set: &mut NodeSet)
    requires { (node : ℕ) → Contains nodes.now node → node < length set.old.inside }
    ensures marks { MarksAll (Contains nodes.now) set.old.inside set.new.inside }
    ensures list { (more : List ℕ) × (set.new.list ≡ set.old.list ++ more) }
{
    for &node in nodes {
        set.insert(node);
    }
}
