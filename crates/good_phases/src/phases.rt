//! The phases of a good run.
ghost use Rattle.std.specs.Prelude.{◌≡◌, ◌+◌, ◌++◌, ◌<◌, ◌⊎◌, ◌^◌, [], ◌∷◌, length, Contains, IfOk, IfSome};
ghost use Rattle.machine_laws.specs.Fitting.{FitsGraph};
ghost use Rattle.good_run.specs.Keeping.{KeepsRecord};
ghost use Rattle.good_phases.specs.Phases.{BeginsGood, IsBeat, NotesBeat, SettlesGood};

use crate::beats::Beat;
use crate::noting::{note_begin, settle_noted};
use good_run::Recorder;
use settling::{Onlooker, Settled};
use std::alloc::Global;
use std::marker::Model;
use std::sync::ledger::Ledger;
use switch_paths::Graph;
use ternary::{NoMemory, Steps, Tern};
use unit_step::Machine;

// A phase isn't noted any more if there are so many changes: 16 bytes each.
const MOST_CHANGES: usize = 1 << 26;

// For so many changes of each node there is room where a phase begins, and for so many states.
const CHANGES_A_NODE: usize = 8;

const STATES: usize = 1 << 12;

/// The graph of a good run, the record of what its steps changed, and its phases.
#[derive(Drop)]
pub struct GoodPhases {
    graph: Graph,
    run: Recorder,
    beats: Vec<Beat>,
}

impl Model for GoodPhases {
    ghost use Rattle.good_phases.specs.Phases.{GoodData, AreBeats};

    ghost Value = { GoodData };

    ghost view = { λ good. record { graph = good.graph; run = good.run; beats = good.beats.items } };

    ghost invariant = { λ good. AreBeats (record { graph = good.graph; run = good.run; beats = good.beats.items }) };
}

impl GoodPhases {
    /// No phase yet, in this graph, from this state on. Room is taken as phases come.
    pub fn new(alloc: Global, graph: &Graph, state: &[Tern]) -> Result<GoodPhases, NoMemory>
        ensures { IfOk result (BeginsGood graph.now state.now) }
    {
        let copy = graph.copy(alloc)?;
        let run = Recorder::new(alloc, state, 0, 0)?;
        Ok(GoodPhases {
            graph: copy,
            run,
            beats: Vec::new(alloc),
        })
    }

    /// The graph of the good run.
    pub fn graph(&self) -> &Graph
        ensures { result.now ≡ self.now.graph }
    {
        &self.graph
    }

    /// The record of the good run.
    pub fn run(&self) -> &Recorder
        ensures { result.now ≡ self.now.run }
    {
        &self.run
    }

    /// The phase with this number, if there is one.
    pub fn beat(&self, number: usize) -> Option<Beat>
        ensures { IfSome result (IsBeat self.now.graph self.now.run) }
    {
        beat_at(&self.beats, number)
    }

    /// Settles a machine that fits the graph, shows each state that it passes through, and notes the phase, if there is room.
    pub fn settle<O: Onlooker, L: Ledger>(
        &mut self,
        machine: &mut Machine,
        limit: u64,
        steps: &mut Steps<L>,
        onlooker: &mut O,
    ) -> Settled
        requires fits { FitsGraph self.old.graph machine.old }
        requires counted { length self.old.run.known ≡ length machine.old.state }
        requires few { limit + length machine.old.state < 2 ^ 62 }
        requires knows { O.knows onlooker.old machine.old.state }
        ensures settles { SettlesGood O.see limit result.steps result.joined machine.old machine.new self.old self.new (O.seen onlooker.old) (O.seen onlooker.new) }
        ensures knows { O.knows onlooker.new machine.new.state }
    {
        take_room(machine.state().len(), &mut self.run);
        let begin = self.run.len();
        let mut changed = None;
        note_begin(machine, &mut changed, &mut self.run);
        let told = settle_noted(machine, &self.graph, limit, &mut self.run, steps, onlooker);
        let end = self.run.len();
        note_beat(&self.run, Beat { begin, end, limit }, &mut self.beats);
        told
    }
}

// The phase with this number, if there is one.
fn beat_at(beats: &[Beat], number: usize) -> Option<Beat>
    ensures { IfSome result (Contains beats.now) }
{
    let count = beats.len();
    if number < count {
        return Some(beats[number]);
    }
    None
}

// Takes room for a phase over so many nodes, if the record isn't too large already and there is memory for it.
fn take_room(nodes: usize, run: &mut Recorder)
    ensures { KeepsRecord run.old run.new }
{
    if run.change_count() >= MOST_CHANGES {
        return;
    }
    take_room_for(nodes, run);
}

// Takes room for a phase over so many nodes, if there is memory for it.
fn take_room_for(nodes: usize, run: &mut Recorder)
    ensures { KeepsRecord run.old run.new }
{
    let changes = nodes.saturating_mul(CHANGES_A_NODE);
    let _states = run.reserve_states(STATES);
    let _changes = run.reserve_changes(changes);
}

// Notes a phase, if nothing was left out of the record and there is memory for it.
fn note_beat(run: &Recorder, beat: Beat, beats: &mut Vec<Beat>)
    ensures { NotesBeat run.now beat beats.old.items beats.new.items }
{
    if !run.is_whole() {
        return;
    }
    push_beat(beat, beats);
}

// Puts a phase behind the others, if there is memory for it.
fn push_beat(beat: Beat, beats: &mut Vec<Beat>)
    ensures { (beats.new.items ≡ beats.old.items) ⊎ (beats.new.items ≡ beats.old.items ++ beat ∷ []) }
{
    match beats.push(beat) {
        Ok(()) => {}
        Err(_) => {}
    }
}
