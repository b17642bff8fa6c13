//! A session over a stage that may run out, as a symbolic script has one: what is done in all columns at once.

ghost use Rattle.std.specs.Prelude.{◌≡◌, ℕ, ◌<◌, ◌≤◌, length, slice_set, All, IfErr, IfOk, OnErr, OnOk};
ghost use Rattle.cosmos_session.specs.Words.{nodes, IsStep, state_at, RAILS, SettleTogether, IsSharedSetup, AreSound, KeepsGiven};
ghost use Rattle.cosmos_session.specs.Words.{BeatInAll, StepInAll, column_of, assigned, one_more, states_with, with_beat, places_of};
ghost use Rattle.cosmos_session.specs.Words.{GivenInAll, QuietlyInEach, RanOut, ReadiesInAll, SettledTogether, StaysInAll};
ghost use Rattle.cosmos_session.specs.Words.{letters_in_column};
ghost use Rattle.script_lang.specs.Forms as form;
ghost use Rattle.script_lang.specs.declared.command.Command.TheVariants as family;
ghost use Rattle.cosmos_session.specs.Keeping.{KeepsStage};

use crate::session::Session;
use analysis_cache::Analyst;
use column_stage::{TruthStage, Work};
use script_lang::{Edit, Setup};
use session_meaning::{ApplyFault, Clock};
use settling::Settled;
use switch_paths::Graph;
use ternary::Tern;

impl<M: TruthStage> Session<M> {
    /// Does an edit of the circuit in each column: each node that is new is X.
    pub fn edit_in_all(&mut self, edit: &Edit) -> Result<(), ApplyFault>
        ensures quiet { QuietlyInEach (M.columns self.old.stage) (column_of M.states self.old) (λ _. family.Edit edit.now) (column_of M.states self.new) result }
        ensures columns { M.columns self.new.stage ≡ M.columns self.old.stage }
        ensures kept { KeepsGiven M.columns M.gives M.letter_of M.bound self.old.stage self.new.stage }
    {
        let done = self.edit(edit);
        self.is_well_formed();
        done
    }

    /// Sets what later commands go by, which is the same in each column.
    pub fn set_up_in_all(&mut self, setup: &Setup) -> Result<(), ApplyFault>
        requires { form.IsFormedSetup setup.now × IsSharedSetup setup.now }
        ensures quiet { QuietlyInEach (M.columns self.old.stage) (column_of M.states self.old) (λ _. family.Setup setup.now) (column_of M.states self.new) result }
        ensures stage { self.new.stage ≡ self.old.stage }
    {
        self.set_up_alike(setup)
    }

    /// Has the circuit built once for all columns, so that the stage fits: what is there goes on, and if there is nothing it is
    /// made. The texts that aren't kept are analysed, kept and counted, and what is past the bound is cut.
    pub fn ready_in_all<A: Analyst>(&mut self, analyst: &mut A) -> Result<(), ApplyFault>
        ensures readies { ReadiesInAll M.cuts (M.columns self.old.stage) (column_of M.states self.old) (column_of M.states self.new)
            (A.analysed analyst.old) (A.analysed analyst.new) result }
        ensures columns { M.columns self.new.stage ≡ M.columns self.old.stage }
        ensures kept { KeepsGiven M.columns M.gives M.letter_of M.bound self.old.stage self.new.stage }
        ensures fits { OnOk result (M.fits self.new.stage self.new.core.circuit.graph) }
    {
        self.make_ready(analyst)
    }

    /// Gives these nodes, none of which is a rail, their letters in each column, from left to right.
    pub fn give_in_all(&mut self, pairs: &[(usize, M::Given)])
        requires within { All (λ pair. pair.0 < nodes self.old.core.circuit.graph) pairs.now }
        requires past { All (λ pair. RAILS ≤ pair.0) pairs.now }
        requires own { All (λ pair. M.gives self.old.stage pair.1) pairs.now }
        ensures given { GivenInAll (M.columns self.old.stage) (column_of M.states self.old) (column_of M.states self.new)
            (letters_in_column M.letter_of self.old.stage pairs.now) }
        ensures columns { M.columns self.new.stage ≡ M.columns self.old.stage }
        ensures fits { M.fits self.old.stage self.old.core.circuit.graph → M.fits self.new.stage self.new.core.circuit.graph }
        ensures kept { KeepsGiven M.columns M.gives M.letter_of M.bound self.old.stage self.new.stage }
    {
        self.place_pairs(pairs);
    }

    /// Gives each clock's node its state at a place, the same in each column.
    pub fn beat_in_all(&mut self, place: usize)
        requires { place < places_of self.old.core.clocks }
        ensures put { BeatInAll (M.columns self.old.stage) (column_of M.states self.old) (column_of M.states self.new) place }
        ensures columns { M.columns self.new.stage ≡ M.columns self.old.stage }
        ensures fits { M.fits self.old.stage self.old.core.circuit.graph → M.fits self.new.stage self.new.core.circuit.graph }
        ensures kept { KeepsGiven M.columns M.gives M.letter_of M.bound self.old.stage self.new.stage }
    {
        self.place_beat(place);
    }

    /// Takes a unit step in each column, and counts its waveform line. The stage fits.
    ///
    /// If the stage runs out, no column took one, and all is as before. What it tells is so of it as it is then.
    pub fn step_in_all(&mut self) -> Result<(), M::Fault>
        requires { M.fits self.old.stage self.old.core.circuit.graph }
        ensures steps { OnOk result (StepInAll (M.columns self.old.stage) (column_of M.states self.old) (column_of M.states self.new)) }
        ensures err { OnErr result (StaysInAll (M.columns self.old.stage) (column_of M.states self.old) (column_of M.states self.new)) }
        ensures columns { M.columns self.new.stage ≡ M.columns self.old.stage }
        ensures kept { KeepsGiven M.columns M.gives M.letter_of M.bound self.old.stage self.new.stage }
        ensures fits { M.fits self.new.stage self.new.core.circuit.graph }
        ensures spent { IfErr result (M.spent self.new.stage) }
    {
        self.move_step()?;
        self.count_line();
        Ok(())
    }

    /// Settles in each column, as that would alone, and counts the waveform line. The stage fits. The answer is the greatest number
    /// of steps of a column, and whether a joining one was among those.
    ///
    /// If the stage runs out, some steps were taken, no line is counted, and all else is as before. What it tells is so of it as it
    /// is then.
    pub fn settle_in_all(&mut self) -> Result<Settled, M::Fault>
        requires { M.fits self.old.stage self.old.core.circuit.graph }
        ensures settles { IfOk result (SettledTogether (M.columns self.old.stage) (column_of M.states self.old) (column_of M.states self.new)) }
        ensures err { OnErr result (RanOut (M.columns self.old.stage) (column_of M.states self.old) (column_of M.states self.new)) }
        ensures columns { M.columns self.new.stage ≡ M.columns self.old.stage }
        ensures kept { KeepsGiven M.columns M.gives M.letter_of M.bound self.old.stage self.new.stage }
        ensures fits { M.fits self.new.stage self.new.core.circuit.graph }
        ensures spent { IfErr result (M.spent self.new.stage) }
    {
        let told = self.move_phase()?;
        self.count_line();
        Ok(told)
    }

    /// Has the stage worked on, which leaves the states of all columns.
    pub fn work_on_stage<W: Work<M>>(&mut self, worker: &mut W)
        requires { W.asks worker.old self.old.stage }
        ensures core { self.new.core ≡ self.old.core }
        ensures columns { M.columns self.new.stage ≡ M.columns self.old.stage }
        ensures states { (column : ℕ) → column < M.columns self.old.stage → M.states self.new.stage column ≡ M.states self.old.stage column }
        ensures done { W.done worker.old self.old.stage worker.new self.new.stage }
    {
        worker.work(&mut self.stage);
    }

    // Gives these nodes, none of which is a rail, their letters in each column, from left to right.
    fn place_pairs(&mut self, pairs: &[(usize, M::Given)])
        requires within { All (λ pair. pair.0 < nodes self.old.core.circuit.graph) pairs.now }
        requires past { All (λ pair. RAILS ≤ pair.0) pairs.now }
        requires own { All (λ pair. M.gives self.old.stage pair.1) pairs.now }
        ensures core { self.new.core ≡ record self.old.core { state = self.new.core.state } }
        ensures states { (column : ℕ) → column < M.columns self.old.stage
            → M.states self.new.stage column
            ≡ assigned (M.states self.old.stage column) (letters_in_column M.letter_of self.old.stage pairs.now column) }
        ensures columns { M.columns self.new.stage ≡ M.columns self.old.stage }
        ensures fits { M.fits self.old.stage self.old.core.circuit.graph → M.fits self.new.stage self.new.core.circuit.graph }
        ensures kept { KeepsGiven M.columns M.gives M.letter_of M.bound self.old.stage self.new.stage }
    {
        put_pairs(self.circuit.graph(), pairs, &mut self.stage);
    }

    // Gives each clock's node its state at a place, the same in each column.
    fn place_beat(&mut self, place: usize)
        requires { place < places_of self.old.core.clocks }
        ensures core { self.new.core ≡ with_beat self.old.core place }
        ensures states { (column : ℕ) → column < M.columns self.old.stage
            → M.states self.new.stage column ≡ states_with self.old.core.clocks place (M.states self.old.stage column) }
        ensures columns { M.columns self.new.stage ≡ M.columns self.old.stage }
        ensures fits { M.fits self.old.stage self.old.core.circuit.graph → M.fits self.new.stage self.new.core.circuit.graph }
        ensures kept { KeepsGiven M.columns M.gives M.letter_of M.bound self.old.stage self.new.stage }
    {
        put_beats(&self.clocks, place, self.circuit.graph(), &mut self.stage);
    }

    // Takes a unit step in each column, or none if the stage runs out. The stage fits.
    fn move_step(&mut self) -> Result<(), M::Fault>
        requires { M.fits self.old.stage self.old.core.circuit.graph }
        ensures core { self.new.core ≡ record self.old.core { state = self.new.core.state } }
        ensures steps { OnOk result ((column : ℕ) → column < M.columns self.old.stage
            → IsStep self.old.core.circuit.graph (M.states self.old.stage column) (M.states self.new.stage column)) }
        ensures stays { OnErr result ((column : ℕ) → column < M.columns self.old.stage
            → M.states self.new.stage column ≡ M.states self.old.stage column) }
        ensures columns { M.columns self.new.stage ≡ M.columns self.old.stage }
        ensures kept { KeepsGiven M.columns M.gives M.letter_of M.bound self.old.stage self.new.stage }
        ensures fits { M.fits self.new.stage self.new.core.circuit.graph }
        ensures spent { IfErr result (M.spent self.new.stage) }
    {
        let graph = self.circuit.graph();
        self.stage.step(graph)
    }

    // Settles in each column. The stage fits.
    fn move_phase(&mut self) -> Result<Settled, M::Fault>
        requires { M.fits self.old.stage self.old.core.circuit.graph }
        ensures core { self.new.core ≡ record self.old.core { state = self.new.core.state } }
        ensures settles { IfOk result (SettleTogether self.old.core.circuit.graph (M.columns self.old.stage) (M.states self.old.stage) self.old.core.limit
            (M.states self.new.stage)) }
        ensures columns { M.columns self.new.stage ≡ M.columns self.old.stage }
        ensures kept { KeepsGiven M.columns M.gives M.letter_of M.bound self.old.stage self.new.stage }
        ensures fits { M.fits self.new.stage self.new.core.circuit.graph }
        ensures spent { IfErr result (M.spent self.new.stage) }
    {
        let graph = self.circuit.graph();
        self.stage.settle(graph, self.limit)
    }

    // Counts a waveform line.
    fn count_line(&mut self)
        ensures core { self.new.core ≡ record self.old.core { count = one_more self.old.core.count } }
        ensures stage { self.new.stage ≡ self.old.stage }
        ensures fits { M.fits self.old.stage self.old.core.circuit.graph → M.fits self.new.stage self.new.core.circuit.graph }
    {
        self.count = self.count.saturating_add(1);
    }
}

// Gives these nodes, none of which is a rail, their letters in each column, from left to right.
fn put_pairs<M: TruthStage>(graph: &Graph, pairs: &[(usize, M::Given)], stage: &mut M)
    requires sound { AreSound graph.now (M.columns stage.old) (M.states stage.old) }
    requires within { All (λ pair. pair.0 < nodes graph.now) pairs.now }
    requires past { All (λ pair. RAILS ≤ pair.0) pairs.now }
    requires own { All (λ pair. M.gives stage.old pair.1) pairs.now }
    ensures states { (column : ℕ) → column < M.columns stage.old
        → M.states stage.new column ≡ assigned (M.states stage.old column) (letters_in_column M.letter_of stage.old pairs.now column) }
    ensures keeps { KeepsStage M.columns M.states M.last M.serves M.fits graph.now stage.old stage.new }
    ensures kept { KeepsGiven M.columns M.gives M.letter_of M.bound stage.old stage.new }
{
    for pair in pairs {
        put_given(graph, pair.0, pair.1, stage);
    }
}

// Gives a node that is no rail its letter in each column.
fn put_given<M: TruthStage>(graph: &Graph, node: usize, given: M::Given, stage: &mut M)
    requires sound { AreSound graph.now (M.columns stage.old) (M.states stage.old) }
    requires inside { node < nodes graph.now }
    requires no_rail { RAILS ≤ node }
    requires own { M.gives stage.old given }
    ensures states { (column : ℕ) → column < M.columns stage.old → M.states stage.new column ≡ slice_set (M.states stage.old column) node (M.letter_of stage.old given column) }
    ensures keeps { KeepsStage M.columns M.states M.last M.serves M.fits graph.now stage.old stage.new }
    ensures kept { KeepsGiven M.columns M.gives M.letter_of M.bound stage.old stage.new }
{
    stage.put(graph, node, given);
}

// Gives each clock's node its state at a place, the same in each column.
fn put_beats<M: TruthStage>(clocks: &[Clock], place: usize, graph: &Graph, stage: &mut M)
    requires sound { AreSound graph.now (M.columns stage.old) (M.states stage.old) }
    requires within { All (λ clock. clock.node < nodes graph.now) clocks.now }
    requires free { All (λ clock. RAILS ≤ clock.node) clocks.now }
    requires places { All (λ clock. place < length clock.states) clocks.now }
    ensures states { (column : ℕ) → column < M.columns stage.old
        → M.states stage.new column ≡ states_with clocks.now place (M.states stage.old column) }
    ensures keeps { KeepsStage M.columns M.states M.last M.serves M.fits graph.now stage.old stage.new }
    ensures kept { KeepsGiven M.columns M.gives M.letter_of M.bound stage.old stage.new }
{
    for clock in clocks {
        put_beat(clock, place, graph, stage);
    }
}

// Gives a clock's node its state at a place, the same in each column.
fn put_beat<M: TruthStage>(clock: &Clock, place: usize, graph: &Graph, stage: &mut M)
    requires sound { AreSound graph.now (M.columns stage.old) (M.states stage.old) }
    requires within { clock.now.node < nodes graph.now }
    requires free { RAILS ≤ clock.now.node }
    requires place { place < length clock.now.states }
    ensures states { (column : ℕ) → column < M.columns stage.old
        → M.states stage.new column ≡ slice_set (M.states stage.old column) clock.now.node (state_at clock.now.states place) }
    ensures keeps { KeepsStage M.columns M.states M.last M.serves M.fits graph.now stage.old stage.new }
    ensures kept { KeepsGiven M.columns M.gives M.letter_of M.bound stage.old stage.new }
{
    put_alike(graph, clock.node, clock.states[place], stage);
}

// Gives a node that is no rail this state, in each column.
fn put_alike<M: TruthStage>(graph: &Graph, node: usize, state: Tern, stage: &mut M)
    requires sound { AreSound graph.now (M.columns stage.old) (M.states stage.old) }
    requires inside { node < nodes graph.now }
    requires no_rail { RAILS ≤ node }
    ensures states { (column : ℕ) → column < M.columns stage.old → M.states stage.new column ≡ slice_set (M.states stage.old column) node state }
    ensures keeps { KeepsStage M.columns M.states M.last M.serves M.fits graph.now stage.old stage.new }
    ensures kept { KeepsGiven M.columns M.gives M.letter_of M.bound stage.old stage.new }
{
    let given = stage.alike(state);
    put_given(graph, node, given, stage);
}
