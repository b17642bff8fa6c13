//! The evaluation of the nodes that are awake.
ghost use Rattle.std.specs.Prelude.{◌≡◌, ℕ, ◌+◌, ◌-◌, ◌<◌, ◌≤◌, ◌++◌, List, length, replicate, All, IfOk, vec_len, vec_capacity, slice_index};
ghost use Rattle.ternary.specs.declared.tern.Tern.{Tern};
ghost use Rattle.switch_paths.specs.Words.{state_at, nodes};
ghost use Rattle.vicinity.specs.Words.{IsIn, ListsLive, AreListsOf, HasRails, NotesWhere, AreChanges, IsPaid, IsScratch};

use crate::flood::flood;
use crate::live_list::LiveList;
use crate::live_lists::LiveLists;
use crate::node_set::NodeSet;
use crate::pass::Pass::{One, Sure, Zero};
use crate::pass::Sweep;
use crate::passes::run_pass;
use part_words::Change;
use std::alloc::{AllocError, Global};
use std::marker::Model;
use std::sync::ledger::Ledger;
use switch_paths::{Graph, graphs_are_wired, response};
use ternary::{Steps, Tern};

/// The room in which nodes that are awake are evaluated.
#[derive(Drop)]
pub struct Scratch {
    awake: NodeSet,
    left: NodeSet,
    floor: Vec<u8>,
    best: Vec<u8>,
    one: Vec<u8>,
    zero: Vec<u8>,
}

impl Model for Scratch {
    ghost use Rattle.std.specs.Prelude.{length};
    ghost use Rattle.vicinity.specs.Evaluating.{ScratchData, IsScratch};

    ghost Value = { ScratchData };

    ghost view = { λ room. record { nodes = length room.awake.inside } };

    ghost invariant = { λ room. IsScratch (length room.awake.inside) room.awake room.left room.floor.items room.best.items room.one.items room.zero.items };
}

impl Scratch {
    /// Room for graphs of so many nodes.
    pub fn new(alloc: Global, nodes: usize) -> Result<Scratch, AllocError>
        ensures { IfOk result (λ room. room.nodes ≡ nodes) }
    {
        Ok(Scratch {
            awake: NodeSet::new(alloc, nodes)?,
            left: NodeSet::new(alloc, nodes)?,
            floor: vec![in alloc; 0; nodes]?,
            best: vec![in alloc; 0; nodes]?,
            one: vec![in alloc; 0; nodes]?,
            zero: vec![in alloc; 0; nodes]?,
        })
    }

    /// Room for graphs of so many nodes, which are no fewer than before.
    pub fn grown(self, nodes: usize) -> Result<Scratch, AllocError>
        requires { self.nodes ≤ nodes }
        ensures { IfOk result (λ room. room.nodes ≡ nodes) }
    {
        let Scratch {
            awake,
            left,
            floor,
            best,
            one,
            zero,
        } = self;
        let awake = awake.grown(nodes)?;
        let left = left.grown(nodes)?;
        let floor = filled(floor, nodes)?;
        let best = filled(best, nodes)?;
        let one = filled(one, nodes)?;
        let zero = filled(zero, nodes)?;
        Ok(Scratch {
            awake,
            left,
            floor,
            best,
            one,
            zero,
        })
    }
}

// A table with 0 for each new node, up to so many nodes.
fn filled(table: Vec<u8>, nodes: usize) -> Result<Vec<u8>, AllocError>
    requires { length table.items ≤ nodes }
    ensures { IfOk result (λ more. more.items ≡ table.items ++ replicate (nodes - length table.items) 0) }
{
    let mut table = table;
    table.resize(nodes, 0)?;
    Ok(table)
}

/// Finds the steady state of each node that is awake, and notes those that change by it. No state is written, and no
/// memory is taken: there is room for a change of each node.
///
/// After Bryant, "A Switch-Level Model and Simulator for MOS Digital Systems", 1984.
pub fn evaluate<L: Ledger>(
    joining: bool,
    graph: &Graph,
    lists: &LiveLists,
    state: &[Tern],
    touched: &[usize],
    room: &mut Scratch,
    changes: &mut Vec<Change>,
    steps: &mut Steps<L>,
)
    requires counted { length state.now ≡ nodes graph.now }
    requires lists { AreListsOf graph.now state.now lists.now }
    requires touched { All (λ node. node < nodes graph.now) touched.now }
    requires room { room.old.nodes ≡ nodes graph.now }
    requires changes { vec_len changes.old + nodes graph.now ≤ vec_capacity changes.old }
    ensures changes { AreChanges joining graph.now state.now touched.now changes.old.items changes.new.items }
    ensures capacity { vec_capacity changes.new ≡ vec_capacity changes.old }
    ensures room { room.new ≡ room.old }
    ensures steps { IsPaid graph.now lists.now.ends state.now touched.now steps.old steps.new }
{
    evaluate_in(
        joining,
        graph,
        lists.ends(),
        state,
        touched,
        &mut room.awake,
        &mut room.left,
        &room.floor,
        &mut room.best,
        &mut room.one,
        &mut room.zero,
        changes,
        steps,
    );
}

// The same over the parts of the room.
fn evaluate_in<L: Ledger>(
    joining: bool,
    graph: &Graph,
    lists: &[LiveList],
    state: &[Tern],
    touched: &[usize],
    awake: &mut NodeSet,
    left: &mut NodeSet,
    floor: &[u8],
    best: &mut [u8],
    one: &mut [u8],
    zero: &mut [u8],
    changes: &mut Vec<Change>,
    steps: &mut Steps<L>,
)
    requires counted { length state.now ≡ nodes graph.now }
    requires lists { ListsLive graph.now state.now lists.now }
    requires touched { All (λ node. node < nodes graph.now) touched.now }
    requires room { IsScratch (nodes graph.now) awake.old left.old floor.now best.old one.old zero.old }
    requires changes { vec_len changes.old + nodes graph.now ≤ vec_capacity changes.old }
    ensures changes { AreChanges joining graph.now state.now touched.now changes.old.items changes.new.items }
    ensures capacity { vec_capacity changes.new ≡ vec_capacity changes.old }
    ensures room { IsScratch (nodes graph.now) awake.new left.new floor.now best.new one.new zero.new }
    ensures steps { IsPaid graph.now lists.now state.now touched.now steps.old steps.new }
{
    graphs_are_wired(graph);
    flood(graph, lists, state, touched, awake, steps);
    let sure = Sweep {
        pass: Sure,
        graph,
        lists,
        state,
        awake,
        floor,
    };
    run_pass(&sure, best, left, steps);
    let high = Sweep {
        pass: One,
        floor: best,
        ..sure
    };
    run_pass(&high, one, left, steps);
    let low = Sweep { pass: Zero, ..high };
    run_pass(&low, zero, left, steps);
    note_all(joining, state, awake, one, zero, changes);
    awake.clear();
}

// Notes which of these nodes change by their entries.
fn note_all(
    joining: bool,
    state: &[Tern],
    awake: &NodeSet,
    one: &[u8],
    zero: &[u8],
    changes: &mut Vec<Change>,
)
    requires nodes { length awake.now.inside ≡ length state.now }
    requires ones { length one.now ≡ length state.now }
    requires zeros { length zero.now ≡ length state.now }
    requires some { (node : ℕ) → IsIn awake.now.inside node → 0 < slice_index one.now node + slice_index zero.now node }
    requires room { vec_len changes.old + length state.now ≤ vec_capacity changes.old }
    ensures notes { NotesWhere (IsIn awake.now.inside) (HasRails one.now zero.now) joining state.now changes.old.items changes.new.items }
    ensures capacity { vec_capacity changes.new ≡ vec_capacity changes.old }
{
    let count = awake.len();
    for place in 0..count {
        let node = awake.at(place);
        let value = response(one[node] > 0, zero[node] > 0);
        note(joining, state[node], node, value, changes);
    }
}

// Notes a node that changes by this value.
fn note(joining: bool, state: Tern, node: usize, value: Tern, changes: &mut Vec<Change>)
    requires room { vec_len changes.old < vec_capacity changes.old }
    ensures notes { (states : List Tern) → state_at states node ≡ state →
        NotesWhere (λ one. one ≡ node) (λ one given. given ≡ value) joining states changes.old.items changes.new.items }
    ensures capacity { vec_capacity changes.new ≡ vec_capacity changes.old }
    ensures len { vec_len changes.new ≤ vec_len changes.old + 1 }
{
    let next = if joining { state.join(value) } else { value };
    if next != state {
        changes.push_reserved(Change { node, value: next });
    }
}
