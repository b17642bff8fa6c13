ghost use Rattle.std.specs.Prelude.{◌≡◌, ◌≢◌, ◌↔◌, ℕ, ◌+◌, ◌*◌, ◌<◌, ◌≤◌, Bool, true, false, List, length, replicate, IfOk, IfSome, IsNone, IsTrue};
ghost use Rattle.bool_pool.specs.Words.{value_at};
ghost use Rattle.bool_pool.specs.declared.gate.Gate.{Gate};
ghost use Rattle.node_elimination.specs.Equations.{IsSquare, IsWhole, edge_at, right_at, is_left, put_edge, put_right, put_left, all_reset};

use bool_pool::{Gate, Id, Pool};
use std::alloc::Global;
use std::marker::Model;
use ternary::NoMemory;

/// So many unknowns have more edges than can be numbered.
pub(crate) const TOO_MANY_UNKNOWNS: usize = 4_294_967_296;

/// A system of equations: unknown i is true where its right side is, or where an edge leads from
/// it to a true unknown.
///
/// Edges and right sides are formulas of a pool. Contracts see them and which unknowns are left,
/// but not how many neighbours were counted: the order of elimination is free.
#[derive(Drop)]
pub(crate) struct System {
    size: usize,
    // the edge from i to j stands at i * size + j
    edges: Vec<Id>,
    rights: Vec<Id>,
    left: Vec<bool>,
    // for each unknown that is left, to how many others an edge leads from it or to it
    neighbours: Vec<usize>,
}

impl Model for System {
    ghost use Rattle.std.specs.Prelude.{◌≡◌, length};
    ghost use Rattle.node_elimination.specs.Equations.{SystemData, IsSquare};

    ghost Value = { SystemData };

    ghost view = { λ system. record {
      size = system.size;
      edges = system.edges.items;
      rights = system.rights.items;
      left = system.left.items;
    } };

    ghost invariant = { λ system. IsSquare (record {
      size = system.size;
      edges = system.edges.items;
      rights = system.rights.items;
      left = system.left.items;
    }) × (length system.neighbours.items ≡ system.size) };
}

impl System {
    /// A system of so many unknowns, all left, with this formula as each edge and right side.
    pub(crate) fn new(alloc: Global, size: usize, id: Id) -> Result<System, NoMemory>
        requires { size < TOO_MANY_UNKNOWNS }
        ensures { IfOk result (λ system. system ≡ record {
          size = size;
          edges = replicate (size * size) id;
          rights = replicate size id;
          left = replicate size true;
        }) }
    {
        Ok(System {
            size,
            edges: vec![in alloc; id; size * size]?,
            rights: vec![in alloc; id; size]?,
            left: vec![in alloc; true; size]?,
            neighbours: vec![in alloc; 0; size]?,
        })
    }

    /// How many unknowns there are.
    pub(crate) fn size(&self) -> usize
        ensures value { result ≡ self.now.size }
        ensures square { IsSquare self.now }
    {
        self.size
    }

    /// The edge from unknown i to unknown j.
    pub(crate) fn edge(&self, i: usize, j: usize) -> Id
        requires row { i < self.now.size }
        requires column { j < self.now.size }
        ensures place { result.place ≡ edge_at self.now i j }
        ensures inside { (gates : List Gate) → IsWhole gates self.now → result.place < length gates }
    {
        self.edges[i * self.size + j]
    }

    /// The right side of an unknown.
    pub(crate) fn right(&self, i: usize) -> Id
        requires { i < self.now.size }
        ensures place { result.place ≡ right_at self.now i }
        ensures inside { (gates : List Gate) → IsWhole gates self.now → result.place < length gates }
    {
        self.rights[i]
    }

    /// All right sides.
    pub(crate) fn rights(&self) -> &[Id]
        ensures { result.now ≡ self.now.rights }
    {
        &self.rights
    }

    /// Whether the unknown is left.
    pub(crate) fn is_left(&self, i: usize) -> bool
        requires { i < self.now.size }
        ensures { result ≡ is_left self.now i }
    {
        self.left[i]
    }

    /// Puts this edge from unknown i to unknown j.
    pub(crate) fn put_edge(&mut self, i: usize, j: usize, id: Id)
        requires row { i < self.old.size }
        requires column { j < self.old.size }
        ensures { self.new ≡ put_edge self.old i j id }
    {
        self.edges[i * self.size + j] = id;
    }

    /// Puts this right side of an unknown.
    pub(crate) fn put_right(&mut self, i: usize, id: Id)
        requires { i < self.old.size }
        ensures { self.new ≡ put_right self.old i id }
    {
        self.rights[i] = id;
    }

    /// Says whether the unknown is left.
    pub(crate) fn put_left(&mut self, k: usize, is_left: bool)
        requires { k < self.old.size }
        ensures { self.new ≡ put_left self.old k is_left }
    {
        self.left[k] = is_left;
    }

    /// Puts this formula as each edge and each right side; the unknowns that are left stay.
    pub(crate) fn reset(&mut self, id: Id)
        ensures value { self.new ≡ all_reset self.old id }
        ensures square { IsSquare self.old }
    {
        self.edges.fill(id);
        self.rights.fill(id);
    }

    /// An unknown that is left and has the fewest neighbours, the lowest such one, or None exactly
    /// if none is left.
    pub(crate) fn pick(&self) -> Option<usize>
        ensures found { IfSome result (λ k. (k < self.now.size) × (is_left self.now k ≡ true)) }
        ensures none { IsNone result → (i : ℕ) → is_left self.now i ≡ false }
    {
        let mut best = None;
        for i in 0..self.size() {
            best = self.better(best, i);
        }
        best
    }

    // The best unknown so far, or i where that one is left and has fewer neighbours.
    fn better(&self, best: Option<usize>, i: usize) -> Option<usize>
        requires best { IfSome best (λ k. (k < self.now.size) × (is_left self.now k ≡ true)) }
        requires in_range { i < self.now.size }
        ensures found { IfSome result (λ k. (k < self.now.size) × (is_left self.now k ≡ true)) }
        ensures none { IsNone result → IsNone best × (is_left self.now i ≡ false) }
    {
        if !self.is_left(i) {
            return best;
        }
        match best {
            Some(k) if self.neighbours[k] <= self.neighbours[i] => best,
            _ => Some(i),
        }
    }

    /// Counts the neighbours of each unknown.
    pub(crate) fn count_all(&mut self, pool: &Pool)
        requires { IsWhole pool.now self.old }
        ensures { self.new ≡ self.old }
    {
        for i in 0..self.size() {
            self.count_neighbours(pool, i);
        }
    }

    /// Counts anew the neighbours of each unknown that is left and joined to k.
    pub(crate) fn recount(&mut self, pool: &Pool, k: usize)
        requires whole { IsWhole pool.now self.old }
        requires in_range { k < self.old.size }
        ensures { self.new ≡ self.old }
    {
        for i in 0..self.size() {
            if self.is_left(i) && self.are_joined(pool, i, k) {
                self.count_neighbours(pool, i);
            }
        }
    }

    // Counts the unknowns that are left and joined to i.
    fn count_neighbours(&mut self, pool: &Pool, i: usize)
        requires whole { IsWhole pool.now self.old }
        requires in_range { i < self.old.size }
        ensures { self.new ≡ self.old }
    {
        let mut count = 0;
        for j in 0..self.size() {
            count += usize::from(self.is_left(j) && self.are_joined(pool, i, j));
        }
        self.neighbours[i] = count;
    }

    // Whether an edge that may be true leads from i to j or from j to i.
    fn are_joined(&self, pool: &Pool, i: usize, j: usize) -> bool
        requires whole { IsWhole pool.now self.now }
        requires first { i < self.now.size }
        requires second { j < self.now.size }
    {
        !is_false(pool, self.edge(i, j)) || !is_false(pool, self.edge(j, i))
    }
}

/// Whether the formula is the constant false, so that it is false whatever the variables are.
pub(crate) fn is_false(pool: &Pool, id: Id) -> bool
    requires { id.place < length pool.now }
    ensures { IsTrue result → (vars : ℕ → Bool) → value_at pool.now vars id.place ≡ false }
{
    matches!(pool.gate(id), Gate::False)
}
