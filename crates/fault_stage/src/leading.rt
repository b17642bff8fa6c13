//! The machine of the last run is led to the graph of the next one.

ghost use Rattle.std.specs.Prelude.{◌≡◌, ◌≢◌, true, length, IfSome};
ghost use Rattle.std.specs.Bool.{OnTrue};
ghost use Rattle.fault_stage.specs.Words.{nodes, IsSound, IsSoundState, Covers, DifferAt, IsAsLarge, LedBy, last_in};
ghost use Rattle.fault_stage.specs.Runs.{IsCovered, IsCoveredIn, IsLastRun, IsLedIn};
ghost use Rattle.fault_stage.specs.Stages.{texts_in};

use crate::waiting::LastRun;
use edits_between::{Differences, lead_by};
use std::marker::Brand;
use std::sync::ledger::{Blank, Ledger};
use switch_paths::Graph;
use ternary::{Steps, Tern};
use unit_step::Machine;

impl LastRun {
    /// Leads the machine, if there is one, to a graph, by way of the good run's graph, where it had so many parts, in this state; answers whether it
    /// did. It doesn't if the graphs aren't as large, or if memory lacks.
    pub(crate) fn lead(&mut self, graph: &Graph, state: &[Tern], count: &mut usize) -> bool
        requires last_run { IsLastRun self.old }
        requires sound { IsSoundState graph.now state.now }
        ensures last_run { IsLastRun self.new }
        ensures led { OnTrue result (IsLedIn self.new.good.graph graph.now count.new state.now self.new.machine) }
        ensures graph { OnTrue result (self.new.graph ≡ graph.now) }
        ensures apart { OnTrue result (DifferAt self.new.graph self.new.good.graph self.new.apart) }
        ensures texts { texts_in self.new.machine ≡ texts_in self.old.machine }
    {
        if !self.can_lead(graph) {
            return false;
        }
        self.covered = false;
        if !lead_in(
            &mut self.machine,
            &mut self.graph,
            self.good.graph(),
            graph,
            state,
            &mut self.apart,
            count,
        ) {
            return false;
        }
        self.covered = true;
        true
    }

    // Whether the machine covers its graph, and all three graphs are as large.
    fn can_lead(&self, graph: &Graph) -> bool
        ensures covered { OnTrue result (self.now.covered ≡ true) }
        ensures there { OnTrue result (IsAsLarge self.now.graph self.now.good.graph) }
        ensures large { OnTrue result (IsAsLarge self.now.good.graph graph.now) }
    {
        self.covered
            && is_as_large(&self.graph, self.good.graph())
            && is_as_large(self.good.graph(), graph)
    }
}

// Whether a graph has as many nodes and places as another.
fn is_as_large(graph: &Graph, other: &Graph) -> bool
    ensures { OnTrue result (IsAsLarge graph.now other.now) }
{
    other.nodes() == graph.nodes() && other.places() == graph.places()
}

// Leads a machine, if there is one, to a graph in this state, by way of another one; answers whether it did.
fn lead_in(
    slot: &mut Option<Machine>,
    graph: &mut Graph,
    way: &Graph,
    target: &Graph,
    state: &[Tern],
    apart: &mut Differences,
    count: &mut usize,
) -> bool
    requires covered { IfSome slot.old (IsCovered graph.old) }
    requires there { IsAsLarge graph.old way.now }
    requires large { IsAsLarge way.now target.now }
    requires sound { IsSoundState target.now state.now }
    requires apart { DifferAt graph.old way.now apart.old }
    ensures led { OnTrue result (IsLedIn way.now target.now count.new state.now slot.new) }
    ensures graph { OnTrue result (graph.new ≡ target.now) }
    ensures apart { OnTrue result (DifferAt target.now way.now apart.new) }
    ensures texts { texts_in slot.new ≡ texts_in slot.old }
{
    restart_in(slot, graph, state);
    if !lead_uncounted::<Brand>(slot, graph, way, target, apart, count, Blank::new(1)) {
        return false;
    }
    slot.is_some()
}

// Starts a machine again, if there is one, in this state.
fn restart_in(slot: &mut Option<Machine>, graph: &Graph, state: &[Tern])
    requires covered { IfSome slot.old (IsCovered graph.now) }
    requires counted { length state.now ≡ nodes graph.now }
    requires sound { IsSound state.now }
    ensures covered { IfSome slot.new (IsCoveredIn graph.now state.now) }
    ensures texts { texts_in slot.new ≡ texts_in slot.old }
{
    match slot {
        Some(machine) => machine.restart(graph, state),
        None => {}
    }
}

// Leads a machine by way of another graph, without counting the looks at nodes and switches.
fn lead_uncounted<L: Ledger>(
    slot: &mut Option<Machine>,
    graph: &mut Graph,
    way: &Graph,
    target: &Graph,
    apart: &mut Differences,
    count: &mut usize,
    blank: Blank,
) -> bool
    requires name { blank.name ≡ L.name }
    requires parts { blank.parts ≡ L.parts }
    requires some { blank.parts ≢ 0 }
    requires covers { IfSome slot.old (Covers graph.old) }
    requires there { IsAsLarge graph.old way.now }
    requires large { IsAsLarge way.now target.now }
    requires apart { DifferAt graph.old way.now apart.old }
    ensures led { OnTrue result (LedBy graph.old way.now target.now count.new slot.old slot.new) }
    ensures graph { OnTrue result (graph.new ≡ target.now) }
    ensures apart { OnTrue result (DifferAt target.now way.now apart.new) }
    ensures last { last_in slot.new ≡ last_in slot.old }
{
    lead_by(
        slot,
        graph,
        way,
        target,
        apart,
        count,
        &mut Steps::<L>::new(blank),
    )
}
