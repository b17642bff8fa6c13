//! Sets of nodes that take no memory while they change.
ghost use Rattle.std.specs.Prelude.{◌≡◌, ℕ, ◌-◌, ◌<◌, ◌≤◌, ◌++◌, ◌∷◌, [], true, false, length, replicate, slice_set, slice_index, slice_index_or, All, IfOk, IfSome, Contains};
ghost use Rattle.std.specs.Bool.{OnTrue, OnFalse};
ghost use Rattle.std.specs.Option.{IfNone};
ghost use Rattle.machine_parts.specs.Marking.{AreOnce};
ghost use Rattle.vicinity.specs.NodeSets.{IsIn};

use std::alloc::{AllocError, Global};
use std::marker::Model;

/// A set of nodes: a mark for each node, and the list of those that are in it.
#[derive(Drop)]
pub struct NodeSet {
    marks: Vec<bool>,
    list: Vec<usize>,
}

impl Model for NodeSet {
    ghost use Rattle.std.specs.Prelude.{vec_capacity};
    ghost use Rattle.machine_parts.specs.Marking.{ListsMarked};
    ghost use Rattle.vicinity.specs.NodeSets.{NodeSetData};

    ghost Value = { NodeSetData };

    ghost view = { λ set. record { inside = set.marks.items; list = set.list.items } };

    ghost invariant = { λ set. ListsMarked set.marks.items set.list.items (vec_capacity set.list) };
}

impl NodeSet {
    /// An empty set of some of so many nodes, with room for all.
    pub fn new(alloc: Global, nodes: usize) -> Result<NodeSet, AllocError>
        ensures inside { IfOk result (λ set. set.inside ≡ replicate nodes false) }
        ensures list { IfOk result (λ set. set.list ≡ []) }
    {
        Ok(NodeSet {
            marks: vec![in alloc; false; nodes]?,
            list: Vec::with_capacity(alloc, nodes)?,
        })
    }

    /// The same nodes as a set of some of so many, which are no fewer than before.
    pub(crate) fn grown(self, nodes: usize) -> Result<NodeSet, AllocError>
        requires { length self.inside ≤ nodes }
        ensures inside { IfOk result (λ set. set.inside ≡ self.inside ++ replicate (nodes - length self.inside) false) }
        ensures list { IfOk result (λ set. set.list ≡ self.list) }
    {
        let NodeSet { marks, list } = self;
        let mut marks = marks;
        let mut list = list;
        list.reserve(nodes.saturating_sub(list.len()))?;
        marks.resize(nodes, false)?;
        Ok(NodeSet { marks, list })
    }

    /// Of how many nodes it is a set.
    pub fn nodes(&self) -> usize
        ensures { result ≡ length self.now.inside }
    {
        self.marks.len()
    }

    /// How many nodes are in it.
    pub fn len(&self) -> usize
        ensures value { result ≡ length self.now.list }
        ensures most { result ≤ length self.now.inside }
        ensures listed { (node : ℕ) → IsIn self.now.inside node → Contains self.now.list node }
        ensures only { (node : ℕ) → Contains self.now.list node → IsIn self.now.inside node }
        ensures once { AreOnce self.now.list }
    {
        self.list.len()
    }

    /// The nodes that are in it, in the order in which they came.
    pub fn nodes_in(&self) -> &[usize]
        ensures value { result.now ≡ self.now.list }
        ensures within { All (λ node. node < length self.now.inside) result.now }
    {
        &self.list
    }

    /// For each node whether it is in it.
    pub fn marks(&self) -> &[bool]
        ensures { result.now ≡ self.now.inside }
    {
        &self.marks
    }

    /// What is in it is listed.
    pub fn lists_what_is_in_it(&self)
        ensures listed { (node : ℕ) → IsIn self.now.inside node → Contains self.now.list node }
        ensures only { (node : ℕ) → Contains self.now.list node → IsIn self.now.inside node }
    {
        let _count = self.list.len();
    }

    /// The node at this place of the list.
    pub fn at(&self, place: usize) -> usize
        requires { place < length self.now.list }
        ensures value { result ≡ slice_index self.now.list place }
        ensures inside { IsIn self.now.inside result }
        ensures within { result < length self.now.inside }
    {
        self.list[place]
    }

    /// Whether a node is in it.
    pub fn contains(&self, node: usize) -> bool
        requires { node < length self.now.inside }
        ensures { result ≡ slice_index_or self.now.inside node false }
    {
        self.marks[node]
    }

    /// Puts a node in, and answers whether it is new.
    pub fn insert(&mut self, node: usize) -> bool
        requires { node < length self.old.inside }
        ensures inside { self.new.inside ≡ slice_set self.old.inside node true }
        ensures new { OnTrue result (self.new.list ≡ self.old.list ++ node ∷ []) }
        ensures old { OnFalse result (self.new.list ≡ self.old.list) }
        ensures was { OnFalse result (IsIn self.old.inside node) }
    {
        if self.marks[node] {
            return false;
        }
        self.marks[node] = true;
        self.list.push_reserved(node);
        true
    }

    /// Takes the node out that came last.
    pub fn pop(&mut self) -> Option<usize>
        ensures inside { IfSome result (λ node. self.new.inside ≡ slice_set self.old.inside node false) }
        ensures list { IfSome result (λ node. self.old.list ≡ self.new.list ++ node ∷ []) }
        ensures was { IfSome result (λ node. IsIn self.old.inside node) }
        ensures within { IfSome result (λ node. node < length self.old.inside) }
        ensures none { IfNone result (self.new ≡ self.old) }
        ensures empty { IfNone result ((node : ℕ) → ¬ IsIn self.old.inside node) }
    {
        let node = self.list.pop()?;
        self.marks[node] = false;
        Some(node)
    }

    /// Takes all nodes out.
    pub fn clear(&mut self)
        ensures empty { (node : ℕ) → ¬ IsIn self.new.inside node }
        ensures count { length self.new.inside ≡ length self.old.inside }
        ensures list { self.new.list ≡ [] }
    {
        while let Some(node) = self.list.pop() {
            self.marks[node] = false;
        }
    }
}
