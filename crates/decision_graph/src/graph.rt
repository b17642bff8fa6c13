ghost use Rattle.std.specs.Prelude.{◌≡◌, ◌≢◌, ℕ, ◌+◌, ◌<◌, ◌≤◌, ◌⊎◌, Bool, true, false, not, ◌&&◌, ◌||◌, [], ◌∷◌, ◌++◌, length, Some, slice_get, IfOk, IfErr, IfSome, OnOk, IsTrue};
ghost use Rattle.indexmap.specs.IndexSet.{contains};
ghost use Rattle.decision_graph.specs.Vertices.{vertex_at, leaves, level_at, IsApart, IsDecided, IsReduced, Extends};
ghost use Rattle.decision_graph.specs.declared.vertex.Function.{Function};
ghost use Rattle.decision_graph.specs.declared.TheConstants.{MOST_VARIABLES};
ghost use Rattle.decision_graph.specs.Meaning.{vertex_value, holds};
ghost use Rattle.decision_graph.specs.Graphs.{IsNoted, SameShape};
ghost use Rattle.decision_graph.specs.Making.{IsOver, IsPlaced, IsCombined};
ghost use Rattle.decision_graph.specs.declared.graph.GraphFault.TheVariants as fault;

use crate::combining::Kind;
use crate::notes::{FIRST_NOTE, Note, slot};
use crate::{Function, MOST_VARIABLES, Vertex};
use indexmap::IndexSet;
use std::alloc::Global;
use std::marker::Model;
use table_keys::TableKeys;
use ternary::NoMemory;
use thiserror::Error;

/// Why a function isn't made.
#[derive(Clone, Copy, Debug, Drop, Error, PartialEq, Eq)]
pub enum GraphFault {
    /// The graph has as many vertices as its bound allows.
    #[error("the graph is full")]
    Full,
    /// Memory ran out.
    #[error("out of memory")]
    NoMemory,
}

/// A reduced ordered decision graph.
#[derive(Drop)]
pub struct DecisionGraph {
    variables: u32,
    most: u32,
    vertices: IndexSet<Vertex, TableKeys>,
    notes: Vec<Note>,
}

impl Model for DecisionGraph {
    ghost use Rattle.std.specs.Prelude.{ℕ};
    ghost use Rattle.decision_graph.specs.Graphs.{GraphData, AreKept};

    ghost Value = { GraphData };

    ghost view = { λ graph. record { variables = graph.variables; most = graph.most; vertices = graph.vertices.keys } };

    ghost invariant = { λ graph. AreKept graph.variables graph.most graph.vertices.keys graph.notes.items };
}

impl DecisionGraph {
    /// A graph of so many variables that has both constants alone, with a bound on the number of its vertices.
    ///
    /// Results are remembered in so many places; a later one takes the place of an earlier one. Lack of memory is
    /// the only error.
    pub fn new(
        alloc: Global,
        keys: TableKeys,
        variables: u32,
        most: u32,
        notes: usize,
    ) -> Result<DecisionGraph, NoMemory>
        requires shallow { variables ≤ MOST_VARIABLES }
        requires both { 2 ≤ most }
        requires some { 0 < notes }
        ensures variables { IfOk result (λ graph. graph.variables ≡ variables) }
        ensures most { IfOk result (λ graph. graph.most ≡ most) }
        ensures few { IfOk result (λ graph. length graph.vertices ≡ 2) }
    {
        let mut vertices = IndexSet::with_hasher(alloc, keys);
        start(&mut vertices)?;
        Ok(DecisionGraph {
            variables,
            most,
            vertices,
            notes: vec![in alloc; FIRST_NOTE; notes]?,
        })
    }

    /// How many vertices there are.
    pub fn size(&self) -> u32
        ensures size { result ≡ length self.now.vertices }
        ensures reduced { IsReduced self.now.variables self.now.vertices }
        ensures apart { IsApart self.now.vertices }
        ensures few { result ≤ self.now.most }
    {
        self.vertices.len() as u32
    }

    /// How many variables there are.
    pub fn variables(&self) -> u32
        ensures value { result ≡ self.now.variables }
        ensures shallow { result ≤ MOST_VARIABLES }
    {
        self.variables
    }

    /// How many vertices there may be.
    pub fn most(&self) -> u32
        ensures value { result ≡ self.now.most }
        ensures both { 2 ≤ result }
    {
        self.most
    }

    // The keys from which the table's hashes start.
    pub(crate) fn keys(&self) -> TableKeys {
        *self.vertices.hasher()
    }

    // The vertex of a function.
    pub(crate) fn vertex(&self, function: Function) -> Vertex
        requires { function.place < length self.now.vertices }
        ensures vertex { result ≡ vertex_at self.now.vertices function.place }
        ensures value { (vars : ℕ → Bool) →
            holds self.now.vertices vars function.place ≡ vertex_value vars (holds self.now.vertices vars) result }
        ensures decided { IsDecided self.now.variables self.now.vertices result }
        ensures high { (v : ℕ) (high low : Function) → result ≡ Vertex.Branch v high low → high.place < function.place }
        ensures low { (v : ℕ) (high low : Function) → result ≡ Vertex.Branch v high low → low.place < function.place }
    {
        self.vertices.as_slice()[function.place as usize]
    }

    // The level of a function: the first variable on which it depends, or the number of variables.
    pub(crate) fn level(&self, function: Function) -> u32
        requires { function.place < length self.now.vertices }
        ensures level { result ≡ level_at self.now.variables self.now.vertices function.place }
        ensures most { result ≤ self.now.variables }
    {
        match self.vertex(function) {
            Vertex::Leaf(_) => self.variables,
            Vertex::Branch(variable, _, _) => variable,
        }
    }

    // The function of a vertex: it is looked up, and put at the end where it is not there.
    pub(crate) fn put(&mut self, vertex: Vertex) -> Result<Function, GraphFault>
        requires { IsOver self.old.variables self.old.vertices vertex }
        ensures shape { SameShape self.old self.new }
        ensures extends { Extends self.old.vertices self.new.vertices }
        ensures placed { IfOk result (λ r. IsPlaced self.new.vertices vertex r.place) }
        ensures full { IfErr result (λ why. why ≡ fault.Full → self.new.most ≤ length self.new.vertices) }
    {
        if !has_room(&self.vertices, self.most, vertex) {
            return Err(GraphFault::Full);
        }
        match self.vertices.insert_full(vertex) {
            Ok((place, _)) => Ok(Function {
                place: place as u32,
            }),
            Err(_) => Err(GraphFault::NoMemory),
        }
    }

    // What was noted of an operation on these functions.
    pub(crate) fn noted(&self, kind: Kind, a: Function, b: Function) -> Option<Function>
        ensures { IfSome result (λ made. IsCombined self.now.variables self.now.vertices kind a.place b.place made.place) }
    {
        let note = self.notes[slot(kind, a, b, self.notes.len())];
        if note.kind == kind && note.a == a && note.b == b {
            Some(note.made)
        } else {
            None
        }
    }

    // Notes the result of an operation.
    pub(crate) fn note(&mut self, note: Note)
        requires { IsNoted self.old.variables self.old.vertices note }
        ensures stays { self.new ≡ self.old }
        ensures right { IsCombined self.new.variables self.new.vertices note.kind note.a.place note.b.place note.made.place }
    {
        let place = slot(note.kind, note.a, note.b, self.notes.len());
        self.notes[place] = note;
    }
}

// Whether a vertex may be inserted into a table with a bound: there is room for one more, or it is there.
fn has_room(vertices: &IndexSet<Vertex, TableKeys>, most: u32, vertex: Vertex) -> bool
    ensures room { IsTrue result → (length vertices.now.keys < most) ⊎ (contains ⟦<Vertex as PartialEq>⟧.eq vertices.now vertex ≡ true) }
    ensures full { result ≡ false → most ≤ length vertices.now.keys }
{
    vertices.len() < most as usize || vertices.contains(&vertex)
}

// Puts both constants into an empty table.
fn start(vertices: &mut IndexSet<Vertex, TableKeys>) -> Result<(), NoMemory>
    requires { vertices.old.keys ≡ [] }
    ensures { OnOk result (vertices.new.keys ≡ leaves) }
{
    insert_leaf(vertices, false)?;
    insert_leaf(vertices, true)?;
    Ok(())
}

// Puts a constant behind what is in a table that doesn't have it.
fn insert_leaf(vertices: &mut IndexSet<Vertex, TableKeys>, value: bool) -> Result<(), NoMemory>
    requires { (k : ℕ) → slice_get vertices.old.keys k ≢ Some (Vertex.Leaf value) }
    ensures { OnOk result (vertices.new.keys ≡ vertices.old.keys ++ Vertex.Leaf value ∷ []) }
{
    match vertices.insert_full(Vertex::Leaf(value)) {
        Ok(_) => Ok(()),
        Err(_) => Err(NoMemory),
    }
}
