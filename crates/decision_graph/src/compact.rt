//! A graph of its own for some functions of a graph.
ghost use Rattle.std.specs.Prelude.{◌≡◌, ℕ, ◌<◌, length, All, Some, None, IfOk, OnOk, slice_set, slice_index_or, ◌++◌, ◌∷◌, []};
ghost use Rattle.decision_graph.specs.declared.vertex.Function.{Function};
ghost use Rattle.decision_graph.specs.Vertices.{Extends};
ghost use Rattle.decision_graph.specs.Graphs.{SameShape};
ghost use Rattle.decision_graph.specs.Moving.{IsMoved, AreMoved, AreFound};

use crate::{DecisionGraph, Function, GraphFault, Vertex};
use std::alloc::{AllocError, Global};

impl DecisionGraph {
    /// A graph of the same variables and bound that has what these functions reach, and the functions in it, in the
    /// same order.
    ///
    /// Each function holds where it held. The cost goes by the vertices of this graph once, for a table of places, and
    /// else by those that are reached. Results are remembered anew, in so many places.
    pub fn compact(
        &self,
        alloc: Global,
        roots: &[Function],
        notes: usize,
    ) -> Result<(DecisionGraph, Vec<Function>), GraphFault>
        requires inside { All (λ root. root.place < length self.now.vertices) roots.now }
        requires some { 0 < notes }
        ensures shape { IfOk result (λ made. SameShape self.now made.0) }
        ensures found { IfOk result (λ made. AreFound self.now.vertices roots.now made.0.vertices made.1.items) }
    {
        let mut graph = self.start_again(alloc, notes)?;
        let mut moved = self.no_places(alloc)?;
        let mut found = Vec::new(alloc);
        for root in roots {
            let function = self.copy(*root, &mut graph, &mut moved)?;
            push(&mut found, function)?;
        }
        Ok((graph, found))
    }

    // A graph of the same variables and bound with both constants alone.
    fn start_again(&self, alloc: Global, notes: usize) -> Result<DecisionGraph, GraphFault>
        requires { 0 < notes }
        ensures { IfOk result (SameShape self.now) }
    {
        self.size();
        match DecisionGraph::new(alloc, self.keys(), self.variables(), self.most(), notes) {
            Ok(graph) => Ok(graph),
            Err(_) => Err(GraphFault::NoMemory),
        }
    }

    // No function was copied yet.
    fn no_places(&self, alloc: Global) -> Result<Vec<Option<Function>>, GraphFault>
        ensures count { IfOk result (λ moved. length moved.items ≡ length self.now.vertices) }
        ensures none { IfOk result (λ moved. (k : ℕ) → slice_index_or moved.items k None ≡ None) }
    {
        match no_functions(alloc, self.size() as usize) {
            Ok(moved) => Ok(moved),
            Err(_) => Err(GraphFault::NoMemory),
        }
    }

    // Copies a function into a graph, and notes where each vertex went.
    fn copy(
        &self,
        function: Function,
        graph: &mut DecisionGraph,
        moved: &mut [Option<Function>],
    ) -> Result<Function, GraphFault>
        requires inside { function.place < length self.now.vertices }
        requires variables { graph.old.variables ≡ self.now.variables }
        requires moved { AreMoved self.now.variables self.now.vertices graph.old.vertices moved.old }
        ensures shape { SameShape graph.old graph.new }
        ensures extends { Extends graph.old.vertices graph.new.vertices }
        ensures moved { AreMoved self.now.variables self.now.vertices graph.new.vertices moved.new }
        ensures copied { IfOk result (λ r. IsMoved self.now.variables self.now.vertices graph.new.vertices function.place r.place) }
    {
        if let Some(done) = moved_to(moved, function) {
            return Ok(done);
        }
        match self.vertex(function) {
            Vertex::Leaf(value) => {
                let made = graph.constant(value);
                note_moved(moved, function, made);
                Ok(made)
            }
            Vertex::Branch(variable, high, low) => {
                let new_high = self.copy(high, graph, moved)?;
                let new_low = self.copy(low, graph, moved)?;
                let made = graph.choose(variable, new_high, new_low)?;
                note_moved(moved, function, made);
                Ok(made)
            }
        }
    }
}

// Where a function was moved to, if it was moved.
fn moved_to(moved: &[Option<Function>], function: Function) -> Option<Function>
    requires { function.place < length moved.now }
    ensures { slice_index_or moved.now function.place None ≡ result }
{
    moved[function.place as usize]
}

// Notes where a function was moved to.
fn note_moved(moved: &mut [Option<Function>], function: Function, made: Function)
    requires { function.place < length moved.old }
    ensures { moved.new ≡ slice_set moved.old function.place (Some made) }
{
    moved[function.place as usize] = Some(made);
}

// No place for each of so many functions.
fn no_functions(alloc: Global, count: usize) -> Result<Vec<Option<Function>>, AllocError>
    ensures count { IfOk result (λ moved. length moved.items ≡ count) }
    ensures none { IfOk result (λ moved. (k : ℕ) → slice_index_or moved.items k None ≡ None) }
{
    let mut moved = Vec::new(alloc);
    for _done in 0..count {
        moved.push(None)?;
    }
    Ok(moved)
}

// Puts a function at the end.
fn push(found: &mut Vec<Function>, function: Function) -> Result<(), GraphFault>
    ensures { OnOk result (found.new.items ≡ found.old.items ++ function ∷ []) }
{
    match found.push(function) {
        Ok(()) => Ok(()),
        Err(_) => Err(GraphFault::NoMemory),
    }
}
