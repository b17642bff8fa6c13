//! The stepper by plain steps.
ghost use Rattle.std.specs.Prelude.{◌≡◌, ◌≢◌, ◌<◌, ◌↔◌, length, IsTrue, IfOk, slice_set};
ghost use Rattle.std.specs.Bool.{OnTrue, OnFalse};
ghost use Rattle.ternary.specs.Counts.{raised};
ghost use Rattle.switch_paths.specs.Words.{GraphData, nodes, IsJoin};
ghost use Rattle.settling.specs.PlainStepping.{HasRoom, numbers_from};

use crate::moved::Moved;
use crate::seen_stepping::SeenStepper;
use crate::stepping::Stepper;
use std::alloc::Global;
use std::marker::Model;
use std::sync::ledger::Ledger;
use switch_paths::{Graph, PlainRoom, plain_step_into};
use ternary::{NoMemory, Steps, Tern};

/// A state that moves by plain steps, in room that is taken when it is made.
///
/// It fits each graph that has as many nodes as its state, and no more places than it has room for.
/// No call counts as placed.
#[derive(Drop)]
pub struct PlainStepper {
    state: Vec<Tern>,
    // what the next state is written to
    next: Vec<Tern>,
    room: PlainRoom,
    // for how many places the room was made
    places: usize,
    moves: u64,
}

impl Model for PlainStepper {
    ghost use Rattle.std.specs.Prelude.{◌≡◌, length};
    ghost use Rattle.settling.specs.PlainStepping.{PlainStepperData};

    ghost Value = { PlainStepperData };

    ghost view = { λ stepper. record { state = stepper.state.items; places = stepper.places; moves = stepper.moves } };

    ghost invariant = { λ stepper. (length stepper.next.items ≡ length stepper.state.items) × (stepper.room.nodes ≡ length stepper.state.items) × (stepper.room.places ≡ stepper.places) };
}

impl PlainStepper {
    /// A stepper with this state, one state for each node of the graph, that fits this graph.
    ///
    /// It takes all its room here.
    pub fn new(alloc: Global, graph: &Graph, state: &[Tern]) -> Result<PlainStepper, NoMemory>
        requires { length state.now ≡ nodes graph.now }
        ensures state { IfOk result (λ stepper. stepper.state ≡ state.now) }
        ensures fits { IfOk result (λ stepper. HasRoom stepper graph.now) }
        ensures moves { IfOk result (λ stepper. stepper.moves ≡ 0) }
    {
        Ok(PlainStepper {
            state: Vec::from_slice(alloc, state)?,
            next: Vec::from_slice(alloc, state)?,
            room: PlainRoom::new(alloc, graph.nodes(), graph.places())?,
            places: graph.places(),
            moves: 0,
        })
    }

    /// The state of each node.
    pub fn state(&self) -> &[Tern]
        ensures { result.now ≡ self.now.state }
    {
        &self.state
    }

    /// Gives a node this state; all other nodes stay, and so does what the stepper fits.
    ///
    /// It counts neither as a move nor as placed. It takes no memory.
    pub fn set_node(&mut self, node: usize, value: Tern)
        requires { node < length self.old.state }
        ensures state { self.new ≡ record self.old { state = slice_set self.old.state node value } }
        ensures fits { (g : GraphData) → HasRoom self.old g → HasRoom self.new g }
    {
        self.state[node] = value;
    }

    // Counts so many moves more.
    fn count_moves(&mut self, count: u64)
        ensures state { self.new.state ≡ self.old.state }
        ensures fits { (g : GraphData) → HasRoom self.old g → HasRoom self.new g }
        ensures moves { self.new.moves ≡ raised self.old.moves count }
    {
        self.moves = moves_raised(self.moves, count);
    }

    // Whether the stepper fits a graph.
    fn has_room(&self, graph: &Graph) -> bool
        ensures { IsTrue result ↔ HasRoom self.now graph.now }
    {
        self.state.len() == graph.nodes() && graph.places() <= self.places
    }
}

impl Stepper for PlainStepper {
    ghost state = { λ stepper. stepper.state };

    ghost fits = { HasRoom };

    ghost moves = { λ stepper. stepper.moves };

    ghost placed = { λ _. 0 };

    ghost fixed = { λ _. tt };

    fn states(&self) -> &[Tern] {
        &self.state
    }

    fn skip(&mut self, count: u64) {
        self.count_moves(count);
    }

    fn step<L: Ledger>(&mut self, graph: &Graph, _steps: &mut Steps<L>) -> bool {
        if !self.has_room(graph) {
            return false;
        }
        plain_step_into(graph, &self.state, &mut self.room, &mut self.next);
        let changed = take_over(&mut self.state, &self.next);
        self.moves = moves_after(self.moves, changed);
        changed
    }

    fn join_step<L: Ledger>(&mut self, graph: &Graph, _steps: &mut Steps<L>) -> bool {
        if !self.has_room(graph) {
            return false;
        }
        plain_step_into(graph, &self.state, &mut self.room, &mut self.next);
        join_with(&self.state, &mut self.next);
        let changed = take_over(&mut self.state, &self.next);
        self.moves = moves_after(self.moves, changed);
        changed
    }
}

impl Moved for PlainStepper {
    ghost state = { λ stepper. stepper.state };

    // It doesn't know which nodes changed: any of them may have.
    ghost changed = { λ stepper. numbers_from 0 (length stepper.state) };

    fn states(&self) -> &[Tern] {
        &self.state
    }

    fn change_count(&self) -> usize {
        self.state.len()
    }

    fn changed_node(&self, at: usize) -> usize {
        at
    }
}

impl SeenStepper for PlainStepper {
    ghost fits = { HasRoom };

    ghost moves = { λ stepper. stepper.moves };

    ghost placed = { λ _. 0 };

    ghost fixed = { λ _. tt };

    fn skip(&mut self, count: u64) {
        self.count_moves(count);
    }

    fn step<L: Ledger>(&mut self, graph: &Graph, steps: &mut Steps<L>) -> bool {
        Stepper::step(self, graph, steps)
    }

    fn join_step<L: Ledger>(&mut self, graph: &Graph, steps: &mut Steps<L>) -> bool {
        Stepper::join_step(self, graph, steps)
    }
}

/// The number of moves after a step that changed the state, or didn't.
pub fn moves_after(moves: u64, changed: bool) -> u64
    ensures moved { OnTrue changed (result ≡ raised moves 1) }
    ensures rested { OnFalse changed (result ≡ moves) }
{
    moves.saturating_add(u64::from(changed))
}

/// The number of moves after so many steps more that changed the state.
pub fn moves_raised(moves: u64, count: u64) -> u64
    ensures { result ≡ raised moves count }
{
    moves.saturating_add(count)
}

// Makes the new states the state, and answers whether that changes it.
fn take_over(state: &mut [Tern], next: &[Tern]) -> bool
    requires { length next.now ≡ length state.old }
    ensures state { state.new ≡ next.now }
    ensures changed { OnTrue result (state.new ≢ state.old) }
    ensures same { OnFalse result (state.new ≡ state.old) }
{
    let changed = *state != *next;
    state.copy_from_slice(next);
    changed
}

// Joins each new state with the old one.
fn join_with(state: &[Tern], next: &mut [Tern])
    requires { length next.old ≡ length state.now }
    ensures { IsJoin state.now next.old next.new }
{
    for node in 0..next.len() {
        next[node] = state[node].join(next[node]);
    }
}
