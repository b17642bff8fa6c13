//! One machine that takes the states of the columns in turn.
ghost use Rattle.std.specs.Prelude.{◌≡◌, ◌≢◌, ◌^◌, ◌<◌, ◌≤◌, None, length, slice_set, IfOk};
ghost use Rattle.std.specs.Bool.{OnTrue, OnFalse};
ghost use Rattle.column_machines.specs.Words.{raised, RAILS, GraphData, IsStep, Settled, IsJoinStep, StaysOrBecomesX, FitsGraph, IsIn};
ghost use Rattle.column_machines.specs.Columns.{column_states, HasStates};
ghost use Rattle.column_machines.specs.Running.{AreColumns};
ghost use Rattle.column_machines.specs.Turns.{HaveRun, IsLimit, IsLoaded, IsTurnMachine, MovesBy, RunsOne, WritesAt, words_of};

use crate::bits::{state_in, with_bit};
use crate::rails::Rails;
use crate::turning::Turning;
use crate::uneven::{note, put_each, put_uneven, sift};
use settling::{Recall, Settled, settle};
use std::alloc::{AllocError, Global};
use std::marker::{Brand, Model};
use std::mem::swap;
use std::sync::ledger::{Blank, Ledger};
use switch_paths::{Graph, RAILS};
use ternary::{Steps, Tern};
use unit_step::Machine;
use vicinity::NodeSet;
use word_columns::used_columns;

/// A machine of one state that takes the states of up to 64 columns in turn, and both rails of each node's states,
/// bit i for column i.
///
/// So columns move if some groups are stepped by vicinities, since what is touched belongs to one state. Some nodes are
/// uneven: at all others each column has the machine's own state. Before a column moves, the uneven nodes at which the
/// machine's state differs from it are placed; a node at which the state changes then becomes uneven, and afterwards
/// the machine's states at the uneven nodes are written into the words.
#[derive(Drop)]
pub struct TurnMachine {
    columns: u32,
    // the bits of the columns
    used: u64,
    machine: Machine,
    hi: Vec<u64>,
    lo: Vec<u64>,
    uneven: NodeSet,
    // room for those that stay uneven when all columns have moved
    spare: NodeSet,
}

impl Model for TurnMachine {
    ghost use Rattle.column_machines.specs.Turns.{TurnData, IsTurning};

    ghost Value = { TurnData };

    ghost view = { λ m. record { columns = m.columns; machine = m.machine; hi = m.hi.items; lo = m.lo.items } };

    ghost invariant = { λ m. IsTurning m.used m.uneven.inside m.spare.inside (record { columns = m.columns; machine = m.machine; hi = m.hi.items; lo = m.lo.items }) };
}

impl TurnMachine {
    // A machine that takes so many columns with these words in turn. At the start each node may be uneven.
    pub(crate) fn of(
        alloc: Global,
        columns: u32,
        machine: Machine,
        hi: &[u64],
        lo: &[u64],
    ) -> Result<TurnMachine, AllocError>
        requires some { 1 ≤ columns }
        requires is { IsTurnMachine (record { columns = columns; machine = machine; hi = hi.now; lo = lo.now }) }
        ensures { IfOk result (λ made. made ≡ record { columns = columns; machine = machine; hi = hi.now; lo = lo.now }) }
    {
        let highs = Vec::from_slice(alloc, hi)?;
        let lows = Vec::from_slice(alloc, lo)?;
        let mut uneven = NodeSet::new(alloc, hi.len())?;
        let spare = NodeSet::new(alloc, hi.len())?;
        put_each(&mut uneven);
        Ok(TurnMachine {
            columns,
            used: used_columns(columns),
            machine,
            hi: highs,
            lo: lows,
            uneven,
            spare,
        })
    }

    // How many columns it has.
    pub(crate) fn columns(&self) -> u32
        ensures value { result ≡ self.now.columns }
        ensures few { result ≤ 64 }
        ensures is { IsTurnMachine self.now }
    {
        self.columns
    }

    // The rail "may be 1" of each node, bit i for column i.
    pub(crate) fn hi(&self) -> &[u64]
        ensures { result.now ≡ self.now.hi }
    {
        &self.hi
    }

    // The rail "may be 0" of each node, bit i for column i.
    pub(crate) fn lo(&self) -> &[u64]
        ensures { result.now ≡ self.now.lo }
    {
        &self.lo
    }

    // Both rails of each node's states, for what goes on without the machine.
    pub(crate) fn into_rails(self) -> Rails
        ensures highs { result.hi.items ≡ self.hi }
        ensures lows { result.lo.items ≡ self.lo }
        ensures columns_are { AreColumns self.columns result.hi.items result.lo.items }
    {
        let TurnMachine {
            columns: _columns,
            used: _used,
            machine: _machine,
            hi,
            lo,
            uneven: _uneven,
            spare: _spare,
        } = self;
        Rails { hi, lo }
    }

    // Gives a node these words; all other nodes stay. It takes no memory.
    pub(crate) fn place(&mut self, node: usize, hi: u64, lo: u64)
        requires inside { node < length self.old.hi }
        requires states { HasStates self.old.columns hi lo }
        ensures { self.new ≡ record self.old { hi = slice_set self.old.hi node hi; lo = slice_set self.old.lo node lo } }
    {
        self.hi[node] = hi;
        self.lo[node] = lo;
        let state = self.machine.state()[node];
        put_uneven(self.used, hi, lo, state, node, &mut self.uneven);
    }

    // Has each column take a unit step, or settle, if there is a limit: then its place of `out` tells how.
    pub(crate) fn run(&mut self, graph: &Graph, limit: Option<u64>, out: &mut [Settled])
        requires limit { IsLimit limit }
        requires places { length out.old ≡ self.old.columns }
        ensures { HaveRun graph.now limit self.old.columns self.old self.new out.new }
    {
        // a call for the proof alone: in each column the words are the rails of states
        let _columns = self.columns();
        for column in 0..out.len() {
            out[column] = self.run_one(graph, limit, column);
        }
        self.even_out();
    }

    // Has a column move: the machine takes its states, moves, and gives them back.
    fn run_one(&mut self, graph: &Graph, limit: Option<u64>, column: usize) -> Settled
        requires limit { IsLimit limit }
        requires column { column < self.old.columns }
        ensures columns { self.new.columns ≡ self.old.columns }
        ensures runs { RunsOne graph.now limit column self.old.machine self.new.machine self.old.hi self.old.lo self.new.hi self.new.lo result }
    {
        load(
            &mut self.machine,
            graph,
            column,
            &self.hi,
            &self.lo,
            &self.uneven,
        );
        let settled = self.drive::<Brand>(graph, limit, Blank::new(1));
        write(
            self.machine.state(),
            column,
            &self.uneven,
            &mut self.hi,
            &mut self.lo,
        );
        settled
    }

    // The machine takes a unit step, or settles, if there is a limit. The instructions that it runs aren't counted.
    fn drive<L: Ledger>(&mut self, graph: &Graph, limit: Option<u64>, blank: Blank) -> Settled
        requires name { blank.name ≡ L.name }
        requires parts { blank.parts ≡ L.parts }
        requires some { blank.parts ≢ 0 }
        requires limit { IsLimit limit }
        ensures words { words_of self.new ≡ words_of self.old }
        ensures fits { FitsGraph graph.now self.old.machine → FitsGraph graph.now self.new.machine }
        ensures moves { FitsGraph graph.now self.old.machine → MovesBy graph.now limit self.old.machine.state self.new.machine.state result }
    {
        let mut steps = Steps::<L>::new(blank);
        let mut recall = self.recall();
        match limit {
            Some(limit) => settle(
                &mut Turning { turns: self },
                graph,
                limit,
                &mut steps,
                &mut recall,
            ),
            None => {
                self.step(graph, &mut steps);
                Settled {
                    steps: 0,
                    joined: false,
                }
            }
        }
    }

    // What can remember a state of the machine.
    fn recall(&self) -> Recall
        ensures { result.since ≡ None }
    {
        self.machine.recall()
    }

    // The machine's own state.
    pub(crate) fn state(&self) -> &[Tern]
        ensures { result.now ≡ self.now.machine.state }
    {
        self.machine.state()
    }

    // The machine counts so many moves more, which led back to its state.
    pub(crate) fn count_moves(&mut self, count: u64)
        ensures words { words_of self.new ≡ words_of self.old }
        ensures state { self.new.machine.state ≡ self.old.machine.state }
        ensures fits { (g : GraphData) → FitsGraph g self.old.machine → FitsGraph g self.new.machine }
        ensures moves { self.new.machine.moves ≡ raised self.old.machine.moves count }
        ensures placed { self.new.machine.placed ≡ self.old.machine.placed }
    {
        self.machine.count_moves(count);
    }

    // The machine takes a unit step as `Stepper::step` does, and the nodes at which that changes its state become uneven.
    pub(crate) fn step<L: Ledger>(&mut self, graph: &Graph, steps: &mut Steps<L>) -> bool
        ensures words { words_of self.new ≡ words_of self.old }
        ensures step { FitsGraph graph.now self.old.machine → IsStep graph.now self.old.machine.state self.new.machine.state }
        ensures fits { FitsGraph graph.now self.old.machine → FitsGraph graph.now self.new.machine }
        ensures nodes { length self.new.machine.state ≡ length self.old.machine.state }
        ensures few { length self.new.machine.state < 2 ^ 63 }
        ensures changed { OnTrue result (self.new.machine.state ≢ self.old.machine.state) }
        ensures same { OnFalse result (self.new.machine.state ≡ self.old.machine.state) }
        ensures moved { OnTrue result (self.new.machine.moves ≡ raised self.old.machine.moves 1) }
        ensures rested { OnFalse result (self.new.machine.moves ≡ self.old.machine.moves) }
        ensures placed { self.new.machine.placed ≡ self.old.machine.placed }
    {
        let mut changed = self.machine.listing(true);
        let moved = self.machine.step_listed(graph, steps, &mut changed);
        note(&mut self.machine, &mut changed, &mut self.uneven);
        moved
    }

    // The machine takes a joining step as `Stepper::join_step` does, and the nodes at which that changes its state become
    // uneven.
    pub(crate) fn join_step<L: Ledger>(&mut self, graph: &Graph, steps: &mut Steps<L>) -> bool
        ensures words { words_of self.new ≡ words_of self.old }
        ensures step { FitsGraph graph.now self.old.machine → IsJoinStep graph.now self.old.machine.state self.new.machine.state }
        ensures fits { FitsGraph graph.now self.old.machine → FitsGraph graph.now self.new.machine }
        ensures unknown { StaysOrBecomesX self.old.machine.state self.new.machine.state }
        ensures nodes { length self.new.machine.state ≡ length self.old.machine.state }
        ensures few { length self.new.machine.state < 2 ^ 63 }
        ensures changed { OnTrue result (self.new.machine.state ≢ self.old.machine.state) }
        ensures same { OnFalse result (self.new.machine.state ≡ self.old.machine.state) }
        ensures moved { OnTrue result (self.new.machine.moves ≡ raised self.old.machine.moves 1) }
        ensures rested { OnFalse result (self.new.machine.moves ≡ self.old.machine.moves) }
        ensures placed { self.new.machine.placed ≡ self.old.machine.placed }
    {
        let mut changed = self.machine.listing(true);
        let moved = self.machine.join_step_listed(graph, steps, &mut changed);
        note(&mut self.machine, &mut changed, &mut self.uneven);
        moved
    }

    // The uneven nodes at which all columns have the machine's state are uneven no longer.
    fn even_out(&mut self)
        ensures { self.new ≡ self.old }
    {
        sift(
            self.used,
            self.machine.state(),
            &self.hi,
            &self.lo,
            &mut self.uneven,
            &mut self.spare,
        );
        swap(&mut self.uneven, &mut self.spare);
    }
}

// The machine takes a column's states at these nodes, but for the rails: each at which its own differs is placed.
fn load(
    machine: &mut Machine,
    graph: &Graph,
    column: usize,
    hi: &[u64],
    lo: &[u64],
    these: &NodeSet,
)
    requires column { column < 64 }
    requires counted { length machine.old.state ≡ length hi.now }
    requires even { length lo.now ≡ length hi.now }
    requires inside { length these.now.inside ≡ length hi.now }
    ensures { IsLoaded graph.now column (IsIn these.now.inside) hi.now lo.now machine.old machine.new }
{
    these.lists_what_is_in_it();
    let nodes = these.nodes_in();
    for &node in nodes {
        put(machine, graph, node, state_in(hi[node], lo[node], column));
    }
}

// A node is placed, if it is no rail and hasn't this state.
fn put(machine: &mut Machine, graph: &Graph, node: usize, value: Tern)
    requires { node < length machine.old.state }
    ensures nodes { length machine.new.state ≡ length machine.old.state }
    ensures here { RAILS ≤ node → machine.new.state ≡ slice_set machine.old.state node value }
    ensures rails { node < RAILS → machine.new.state ≡ machine.old.state }
    ensures fits { FitsGraph graph.now machine.old → FitsGraph graph.now machine.new }
{
    if node >= RAILS && machine.state()[node] != value {
        machine.set_node(graph, node, value);
    }
}

// Writes the states of a column at these nodes into the words.
fn write(state: &[Tern], column: usize, these: &NodeSet, hi: &mut [u64], lo: &mut [u64])
    requires column { column < 64 }
    requires counted { length state.now ≡ length hi.old }
    requires even { length lo.old ≡ length hi.old }
    requires inside { length these.now.inside ≡ length hi.old }
    ensures { WritesAt (IsIn these.now.inside) column state.now hi.old lo.old hi.new lo.new }
{
    these.lists_what_is_in_it();
    let nodes = these.nodes_in();
    for &node in nodes {
        hi[node] = with_bit(hi[node], column, state[node].may_one());
        lo[node] = with_bit(lo[node], column, state[node].may_zero());
    }
}
