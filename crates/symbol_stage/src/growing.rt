//! New nodes after an edit: they are X under all valuations.
ghost use Rattle.std.specs.Prelude.{◌≡◌, ℕ, ◌+◌, ◌-◌, ◌<◌, ◌≤◌, false, ◌++◌, length, replicate, vec_len, vec_capacity, IfOk, IfSome, OnOk};
ghost use Rattle.column_stage.specs.declared.TheConstants.{NEW_NODES};
ghost use Rattle.column_stage.specs.Columns.{with_new_nodes};
ghost use Rattle.truth_makers.specs.Makers.{columns_in, function_holds};
ghost use Rattle.truth_machine.specs.Machines.{column_of};
ghost use Rattle.symbol_stage.specs.Stages.{IsRoom, columns_on, spare_held, states_in};

use crate::SymbolStage;
use crate::stage::Room;
use column_stage::NEW_NODES;
use decision_graph::Function;
use std::alloc::{AllocError, Global};
use ternary::NoMemory;
use truth_columns::Truths;
use truth_machine::{TruthMachine, cut_gear, empty_gear};
use truth_makers::Symbols;

impl SymbolStage {
    /// Takes room for the states of as many new nodes as one edit makes at most. Whatever comes next lets it go.
    ///
    /// Out of memory too all else stays.
    pub(crate) fn take_room(&mut self) -> Result<(), NoMemory>
        ensures room { OnOk result (NEW_NODES ≤ self.new.spare) }
        ensures machine { self.new.machine ≡ self.old.machine }
        ensures built { self.new.built ≡ self.old.built }
    {
        let room = room_for(self.alloc, &self.machine)?;
        self.room = Some(room);
        Ok(())
    }

    /// Goes on after an edit, with so many nodes: each new one is X under each valuation, in room that is there. A build is wanted
    /// then.
    pub(crate) fn add_nodes(&mut self, nodes: usize)
        requires more { length self.old.machine.hi ≤ nodes }
        requires few { nodes ≤ length self.old.machine.hi + self.old.spare }
        ensures maker { self.new.machine.maker ≡ self.old.machine.maker }
        ensures states { (column : ℕ) → column < columns_on self.old → states_in self.new column ≡ with_new_nodes (states_in self.old column) nodes }
        ensures unbuilt { self.new.built ≡ false }
    {
        self.built = false;
        let room = self.room.take();
        add_in(&mut self.machine, room, nodes);
    }
}

// Room for an edit's new nodes.
fn room_for(alloc: Global, machine: &TruthMachine<Symbols>) -> Result<Room, NoMemory>
    ensures { IfOk result (IsRoom machine.now) }
{
    let highs = machine.hi();
    let lows = machine.lo();
    let symbols = machine.truths();
    let hi = copied(alloc, highs)?;
    let lo = copied(alloc, lows)?;
    let gear = empty_gear(alloc, symbols, highs.len() + NEW_NODES)?;
    Ok(Room { gear, hi, lo })
}

// The same functions, with room for an edit's new nodes.
fn copied(alloc: Global, rails: &[Function]) -> Result<Vec<Function>, AllocError>
    ensures items { IfOk result (λ copy. copy.items ≡ rails.now) }
    ensures room { IfOk result (λ copy. vec_len copy + NEW_NODES ≤ vec_capacity copy) }
{
    let mut copy = Vec::from_slice(alloc, rails)?;
    copy.reserve(NEW_NODES)?;
    Ok(copy)
}

// Adds nodes that are X in each column, up to so many, in this room, if there is any.
fn add_in(machine: &mut TruthMachine<Symbols>, room: Option<Room>, nodes: usize)
    requires room { IfSome room (IsRoom machine.old) }
    requires more { length machine.old.hi ≤ nodes }
    requires few { nodes ≤ length machine.old.hi + spare_held room }
    ensures maker { machine.new.maker ≡ machine.old.maker }
    ensures states { (column : ℕ) → column < columns_in machine.old.maker
        → column_of function_holds machine.new column ≡ with_new_nodes (column_of function_holds machine.old column) nodes }
{
    // a call for the proof alone: the rails are those of states
    machine.are_rails();
    if let Some(room) = room {
        hold_more(machine, room, nodes);
    }
}

// Has the machine hold the states that it has, and X for each new node, up to so many nodes.
fn hold_more(machine: &mut TruthMachine<Symbols>, room: Room, nodes: usize)
    requires room { IsRoom machine.old room }
    requires more { length machine.old.hi ≤ nodes }
    requires few { nodes ≤ length machine.old.hi + NEW_NODES }
    ensures maker { machine.new.maker ≡ machine.old.maker }
    ensures states { (column : ℕ) → column < columns_in machine.old.maker
        → column_of function_holds machine.new column ≡ with_new_nodes (column_of function_holds machine.old column) nodes }
{
    // a call for the proof alone: the rails are those of states
    machine.are_rails();
    let symbols = machine.truths();
    let always = symbols.constant(true);
    let Room { gear, hi, lo } = room;
    let mut gear = gear;
    cut_gear(symbols, &mut gear, nodes);
    let highs = grown(hi, always, nodes);
    let lows = grown(lo, always, nodes);
    machine.hold(gear, highs, lows);
}

// These functions, and then this one until there are so many, in room that is there.
fn grown(mut rails: Vec<Function>, always: Function, nodes: usize) -> Vec<Function>
    requires { nodes ≤ vec_capacity rails }
    ensures { result.items ≡ rails.items ++ replicate (nodes - length rails.items) always }
{
    for _node in rails.len()..nodes {
        rails.push_reserved(always);
    }
    rails
}
