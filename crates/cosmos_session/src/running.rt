//! The commands that have the circuit built: unit steps, phases and cycles of all columns, and their rows of waveform lines.

ghost use Rattle.std.specs.Prelude.{◌≡◌, ◌<◌, ◌≤◌, ◌+◌, ℕ, ◌*◌, false, [], ◌∷◌, length, replicate, slice_index_or, slice_set, All, IfErr, OnOk};
ghost use Rattle.std.specs.List.{range_with_len};
ghost use Rattle.cosmos_session.specs.Words.{nodes, IsStep, state_at, RAILS, Settled, Settles, COLUMN_ROOM, WAVE_LINE_ROOM, Hears};
ghost use Rattle.cosmos_session.specs.Words.{IsFormedRun, Shared, IsSharedRun, Leads, Placed, Rested, Stepped, AreSound, MovesInAll};
ghost use Rattle.cosmos_session.specs.Words.{ObeysInAllOn, TakesBeatsInAll, column_of, count_in, waves_of, one_more, places_in};
ghost use Rattle.cosmos_session.specs.Words.{IsPhasePass, IsStepPass, IsUnseen, KnowsButClocks, RunThrough, Sees, SeesBeats, SeesPass};
ghost use Rattle.cosmos_session.specs.Words.{IsHeldSession, places_of, IsSinkFault, faults_applied, refusals_sent, ObeysOn, SameSetup};
ghost use Rattle.cosmos_session.specs.Words.{acts_of_clocks};
ghost use Rattle.script_lang.specs.declared.command.Command.TheVariants as family;
ghost use Rattle.script_lang.specs.declared.command.Run.TheVariants as asked;
ghost use Rattle.cosmos_session.specs.Keeping.{KeepsStage};
ghost use Rattle.session_meaning.specs.Effects as effect;

use crate::placing::put_in_all;
use crate::putting::begin_at;
use crate::refusals;
use crate::session::Session;
use crate::waves::{RowRoom, WaveRoom};
use analysis_cache::Analyst;
use column_stage::{PlainStage, Stage};
use printed_lines::{COLUMN_ROOM, WAVE_LINE_ROOM};
use script_lang::Run;
use session_meaning::{ApplyFault, Clock, places_of};
use settling::{Onlooker, Settled};
use std::mem;
use switch_paths::Graph;
use ternary::NoMemory;
use told_lines::Lines;

impl<M: PlainStage> Session<M> {
    /// Has the circuit built, and does what the command says, under the eyes of an onlooker: in the one column what is done in
    /// all, or a report.
    pub(crate) fn run<A: Analyst, L: Lines, O: Onlooker>(
        &mut self,
        run: &Run,
        analyst: &mut A,
        out: &mut L,
        onlooker: &mut O,
    ) -> Result<(), ApplyFault>
        requires formed { IsFormedRun run.now }
        requires session { IsHeldSession M.columns M.states M.serves self.old }
        requires knows { O.knows onlooker.old self.old.core.state }
        ensures obeys { ObeysOn L.hear L.part M.did self.old (family.Run run.now) self.new (L.heard out.old) (L.heard out.new)
            (A.analysed analyst.old) (A.analysed analyst.new) (L.refusals out.old) (L.refusals out.new) result }
        ensures faults { L.faults out.new ≡ faults_applied (L.faults out.old) result }
        ensures seen { OnOk result (Sees O.begin O.see O.rest (RunThrough self.old.core run.now) (O.seen onlooker.old) (O.seen onlooker.new)) }
        ensures knows { OnOk result (O.knows onlooker.new self.new.core.state) }
        ensures unseen { IsUnseen onlooker.old onlooker.new (L.faults out.old) (L.faults out.new) (L.refusals out.old) (L.refusals out.new) result }
    {
        let done = self.run_any(run, analyst, out, onlooker);
        self.is_well_formed();
        done
    }

    // The same, as it is said of all columns.
    fn run_any<A: Analyst, L: Lines, O: Onlooker>(
        &mut self,
        run: &Run,
        analyst: &mut A,
        out: &mut L,
        onlooker: &mut O,
    ) -> Result<(), ApplyFault>
        requires formed { IsFormedRun run.now }
        requires knows { O.knows onlooker.old self.old.core.state }
        ensures obeys { ObeysInAllOn M.cuts L.hear L.part M.columns M.states M.did self.old (Shared (family.Run run.now)) self.new
            (L.heard out.old) (L.heard out.new) (A.analysed analyst.old) (A.analysed analyst.new) (L.refusals out.old) (L.refusals out.new) result }
        ensures faults { L.faults out.new ≡ faults_applied (L.faults out.old) result }
        ensures seen { OnOk result (Sees O.begin O.see O.rest (RunThrough self.old.core run.now) (O.seen onlooker.old) (O.seen onlooker.new)) }
        ensures knows { OnOk result (O.knows onlooker.new self.new.core.state) }
        ensures unseen { IsUnseen onlooker.old onlooker.new (L.faults out.old) (L.faults out.new) (L.refusals out.old) (L.refusals out.new) result }
    {
        match run {
            Run::Report => self.report(analyst, out),
            _ => self.run_columns(run, analyst, out, onlooker),
        }
    }
}

impl<M: Stage> Session<M> {
    /// Has the circuit built, and does in each column what the command says, under the eyes of an onlooker, who is shown the
    /// first column if the stage shows states.
    ///
    /// All memory is taken before the first unit step, a build last of all. The room for rows of an earlier command serves again; a
    /// command that ends before its first unit step lets it go.
    pub(crate) fn run_columns<A: Analyst, L: Lines, O: Onlooker>(
        &mut self,
        run: &Run,
        analyst: &mut A,
        out: &mut L,
        onlooker: &mut O,
    ) -> Result<(), ApplyFault>
        requires formed { IsFormedRun run.now × IsSharedRun run.now }
        requires knows { M.Shows → O.knows onlooker.old self.old.core.state }
        ensures obeys { ObeysInAllOn M.cuts L.hear L.part M.columns M.states M.did self.old (Shared (family.Run run.now)) self.new
            (L.heard out.old) (L.heard out.new) (A.analysed analyst.old) (A.analysed analyst.new) (L.refusals out.old) (L.refusals out.new) result }
        ensures faults { L.faults out.new ≡ faults_applied (L.faults out.old) result }
        ensures columns { M.columns self.new.stage ≡ M.columns self.old.stage }
        ensures seen { OnOk result (M.Shows → Sees O.begin O.see O.rest (RunThrough self.old.core run.now) (O.seen onlooker.old) (O.seen onlooker.new)) }
        ensures knows { OnOk result (M.Shows → O.knows onlooker.new self.new.core.state) }
        ensures unseen { IsUnseen onlooker.old onlooker.new (L.faults out.old) (L.faults out.new) (L.refusals out.old) (L.refusals out.new) result }
    {
        if let Some(refusal) = refusals::run_refusal(run, &self.circuit, &self.clocks) {
            return Err(ApplyFault::Refused(refusal));
        }
        let mut room = self.take_room();
        self.fill_room(&mut room)?;
        out.reserve(self.row_bytes())?;
        self.make_ready(analyst)?;
        self.is_well_formed();
        let done = self.move_columns(run, &mut room.counts, &mut room.values, out, onlooker);
        self.keep_room(room);
        done
    }

    // Takes the room for rows out of the session.
    fn take_room(&mut self) -> RowRoom
        ensures { self.new ≡ self.old }
    {
        mem::replace(&mut self.room, RowRoom::new(self.alloc))
    }

    // Keeps the room for rows for the next command.
    fn keep_room(&mut self, room: RowRoom)
        ensures { self.new ≡ self.old }
    {
        self.room = room;
    }

    // Counts a single unit step in each column, and has room for the values of a row.
    fn fill_room(&self, room: &mut RowRoom) -> Result<(), NoMemory>
        ensures counts { OnOk result (room.new.counts.items ≡ replicate (M.columns self.now.stage) (record { steps = 1; joined = false })) }
        ensures room { OnOk result (M.columns self.now.stage * length self.now.core.watched ≤ room.new.values) }
    {
        let columns = self.stage.columns() as usize;
        room.make_ready(columns, columns * self.watched.len())
    }

    // How many bytes a row has at most.
    fn row_bytes(&self) -> usize
        ensures { result ≡ M.columns self.now.stage * (COLUMN_ROOM + WAVE_LINE_ROOM) }
    {
        self.stage.columns() as usize * (COLUMN_ROOM + WAVE_LINE_ROOM)
    }

    // Does in each column what the command says, and tells its rows of waveform lines. The stage fits.
    fn move_columns<L: Lines, O: Onlooker>(
        &mut self,
        run: &Run,
        counts: &mut [Settled],
        room: &mut WaveRoom,
        out: &mut L,
        onlooker: &mut O,
    ) -> Result<(), ApplyFault>
        requires shared { IsSharedRun run.now }
        requires session { IsHeldSession M.columns M.states M.serves self.old }
        requires fits { M.fits self.old.stage self.old.core.circuit.graph }
        requires counts { counts.old ≡ replicate (M.columns self.old.stage) (record { steps = 1; joined = false }) }
        requires room { M.columns self.old.stage * length self.old.core.watched ≤ room.old }
        requires line { M.columns self.old.stage * (COLUMN_ROOM + WAVE_LINE_ROOM) ≤ L.room out.old }
        requires knows { M.Shows → O.knows onlooker.old self.old.core.state }
        ensures moves { MovesInAll L.hear L.part M.columns M.states M.did run.now self.old self.new (L.heard out.old) (L.heard out.new) result }
        ensures columns { M.columns self.new.stage ≡ M.columns self.old.stage }
        ensures cause { IfErr result IsSinkFault }
        ensures faults { L.faults out.new ≡ faults_applied (L.faults out.old) result }
        ensures refusals { L.refusals out.new ≡ refusals_sent (L.refusals out.old) result }
        ensures seen { OnOk result (M.Shows → Sees O.begin O.see O.rest (RunThrough self.old.core run.now) (O.seen onlooker.old) (O.seen onlooker.new)) }
        ensures knows { OnOk result (M.Shows → O.knows onlooker.new self.new.core.state) }
    {
        match run {
            Run::Step => self.step_and_tell(counts, room, out, onlooker),
            Run::Phase => self.settle_and_tell(counts, room, out, onlooker),
            Run::Cycle(times) => self.run_cycles(*times, counts, room, out, onlooker),
            Run::Report => unreachable!(),
        }
    }

    // Takes a unit step in each column, and tells the row of their waveform lines. The stage fits.
    fn step_and_tell<L: Lines, O: Onlooker>(
        &mut self,
        counts: &[Settled],
        room: &mut WaveRoom,
        out: &mut L,
        onlooker: &mut O,
    ) -> Result<(), ApplyFault>
        requires fits { M.fits self.old.stage self.old.core.circuit.graph }
        requires counts { counts.now ≡ replicate (M.columns self.old.stage) (record { steps = 1; joined = false }) }
        requires room { M.columns self.old.stage * length self.old.core.watched ≤ room.old }
        requires line { M.columns self.old.stage * (COLUMN_ROOM + WAVE_LINE_ROOM) ≤ L.room out.old }
        requires knows { M.Shows → KnowsButClocks O.knows onlooker.old self.old.core.clocks self.old.core.state }
        ensures moves { MovesInAll L.hear L.part M.columns M.states M.did asked.Step self.old self.new (L.heard out.old) (L.heard out.new) result }
        ensures columns { M.columns self.new.stage ≡ M.columns self.old.stage }
        ensures cause { IfErr result IsSinkFault }
        ensures faults { L.faults out.new ≡ faults_applied (L.faults out.old) result }
        ensures refusals { L.refusals out.new ≡ refusals_sent (L.refusals out.old) result }
        ensures seen { M.Shows → SeesPass O.begin O.see O.rest (IsStepPass self.old.core.circuit.graph self.old.core.state)
            self.new.core.state (O.seen onlooker.old) (O.seen onlooker.new) }
        ensures knows { M.Shows → O.knows onlooker.new self.new.core.state }
    {
        self.take_step(onlooker);
        self.tell_row(counts, room, out)
    }

    // Runs the clocks through all their places, so many times. The stage fits.
    fn run_cycles<L: Lines, O: Onlooker>(
        &mut self,
        times: u64,
        counts: &mut [Settled],
        room: &mut WaveRoom,
        out: &mut L,
        onlooker: &mut O,
    ) -> Result<(), ApplyFault>
        requires session { IsHeldSession M.columns M.states M.serves self.old }
        requires fits { M.fits self.old.stage self.old.core.circuit.graph }
        requires counts { length counts.old ≡ M.columns self.old.stage }
        requires room { M.columns self.old.stage * length self.old.core.watched ≤ room.old }
        requires line { M.columns self.old.stage * (COLUMN_ROOM + WAVE_LINE_ROOM) ≤ L.room out.old }
        requires knows { M.Shows → O.knows onlooker.old self.old.core.state }
        ensures beats { TakesBeatsInAll L.hear L.part M.columns M.states M.did (places_in (places_of self.old.core.clocks) times) self.old self.new
            (L.heard out.old) (L.heard out.new) result }
        ensures columns { M.columns self.new.stage ≡ M.columns self.old.stage }
        ensures cause { IfErr result IsSinkFault }
        ensures faults { L.faults out.new ≡ faults_applied (L.faults out.old) result }
        ensures refusals { L.refusals out.new ≡ refusals_sent (L.refusals out.old) result }
        ensures seen { OnOk result (M.Shows → SeesBeats O.begin O.see O.rest (places_in (places_of self.old.core.clocks) times) self.old.core self.new.core (O.seen onlooker.old) (O.seen onlooker.new)) }
        ensures knows { OnOk result (M.Shows → O.knows onlooker.new self.new.core.state) }
    {
        for _cycle in 0..times {
            self.is_well_formed();
            self.run_cycle(counts, room, out, onlooker)?;
        }
        Ok(())
    }

    // Runs the clocks through all their places once. The stage fits.
    fn run_cycle<L: Lines, O: Onlooker>(
        &mut self,
        counts: &mut [Settled],
        room: &mut WaveRoom,
        out: &mut L,
        onlooker: &mut O,
    ) -> Result<(), ApplyFault>
        requires session { IsHeldSession M.columns M.states M.serves self.old }
        requires fits { M.fits self.old.stage self.old.core.circuit.graph }
        requires counts { length counts.old ≡ M.columns self.old.stage }
        requires room { M.columns self.old.stage * length self.old.core.watched ≤ room.old }
        requires line { M.columns self.old.stage * (COLUMN_ROOM + WAVE_LINE_ROOM) ≤ L.room out.old }
        requires knows { M.Shows → O.knows onlooker.old self.old.core.state }
        ensures beats { TakesBeatsInAll L.hear L.part M.columns M.states M.did (range_with_len 0 (places_of self.old.core.clocks)) self.old self.new
            (L.heard out.old) (L.heard out.new) result }
        ensures columns { M.columns self.new.stage ≡ M.columns self.old.stage }
        ensures room { room.new ≡ room.old }
        ensures line { L.room out.new ≡ L.room out.old }
        ensures setup { SameSetup self.old.core self.new.core }
        ensures fits { M.fits self.new.stage self.new.core.circuit.graph }
        ensures cause { IfErr result IsSinkFault }
        ensures faults { L.faults out.new ≡ faults_applied (L.faults out.old) result }
        ensures refusals { L.refusals out.new ≡ refusals_sent (L.refusals out.old) result }
        ensures seen { OnOk result (M.Shows → SeesBeats O.begin O.see O.rest (range_with_len 0 (places_of self.old.core.clocks)) self.old.core self.new.core (O.seen onlooker.old) (O.seen onlooker.new)) }
        ensures knows { OnOk result (M.Shows → O.knows onlooker.new self.new.core.state) }
    {
        for place in 0..places_of(&self.clocks) {
            self.is_well_formed();
            self.put_clocks(place);
            self.settle_and_tell(counts, room, out, onlooker)?;
        }
        Ok(())
    }

    // Does what a phase does in each column, and tells the row of their waveform lines. The stage fits.
    fn settle_and_tell<L: Lines, O: Onlooker>(
        &mut self,
        counts: &mut [Settled],
        room: &mut WaveRoom,
        out: &mut L,
        onlooker: &mut O,
    ) -> Result<(), ApplyFault>
        requires fits { M.fits self.old.stage self.old.core.circuit.graph }
        requires counts { length counts.old ≡ M.columns self.old.stage }
        requires room { M.columns self.old.stage * length self.old.core.watched ≤ room.old }
        requires line { M.columns self.old.stage * (COLUMN_ROOM + WAVE_LINE_ROOM) ≤ L.room out.old }
        requires knows { M.Shows → KnowsButClocks O.knows onlooker.old self.old.core.clocks self.old.core.state }
        ensures moves { MovesInAll L.hear L.part M.columns M.states M.did asked.Phase self.old self.new (L.heard out.old) (L.heard out.new) result }
        ensures columns { M.columns self.new.stage ≡ M.columns self.old.stage }
        ensures fits { M.fits self.new.stage self.new.core.circuit.graph }
        ensures setup { SameSetup self.old.core self.new.core }
        ensures room { room.new ≡ room.old }
        ensures line { L.room out.new ≡ L.room out.old }
        ensures cause { IfErr result IsSinkFault }
        ensures faults { L.faults out.new ≡ faults_applied (L.faults out.old) result }
        ensures refusals { L.refusals out.new ≡ refusals_sent (L.refusals out.old) result }
        ensures seen { M.Shows → SeesPass O.begin O.see O.rest (IsPhasePass self.old.core.circuit.graph self.old.core.limit self.old.core.state)
            self.new.core.state (O.seen onlooker.old) (O.seen onlooker.new) }
        ensures knows { M.Shows → O.knows onlooker.new self.new.core.state }
    {
        self.settle(counts, onlooker);
        self.tell_row(counts, room, out)
    }

    // Shows that a step or a phase begins, if the stage shows states.
    fn begin<O: Onlooker>(&self, onlooker: &mut O)
        requires { M.Shows → KnowsButClocks O.knows onlooker.old self.now.core.clocks self.now.core.state }
        ensures seen { M.Shows → O.seen onlooker.new ≡ O.begin (O.seen onlooker.old) self.now.core.state }
        ensures knows { M.Shows → O.knows onlooker.new self.now.core.state }
    {
        match self.stage.shown() {
            Some(state) => begin_at(state, &self.clocks, onlooker),
            None => {}
        }
    }

    // Takes a unit step in each column, and counts its waveform line. The stage fits.
    fn take_step<O: Onlooker>(&mut self, onlooker: &mut O)
        requires fits { M.fits self.old.stage self.old.core.circuit.graph }
        requires knows { M.Shows → KnowsButClocks O.knows onlooker.old self.old.core.clocks self.old.core.state }
        ensures core { self.new.core ≡ record self.old.core { state = self.new.core.state; count = one_more self.old.core.count } }
        ensures steps { (column : ℕ) → column < M.columns self.old.stage → IsStep self.old.core.circuit.graph (M.states self.old.stage column) (M.states self.new.stage column) }
        ensures columns { M.columns self.new.stage ≡ M.columns self.old.stage }
        ensures stage { M.did (Stepped self.old.core.circuit.graph) self.old.stage self.new.stage }
        ensures seen { M.Shows → SeesPass O.begin O.see O.rest (IsStepPass self.old.core.circuit.graph self.old.core.state)
            self.new.core.state (O.seen onlooker.old) (O.seen onlooker.new) }
        ensures knows { M.Shows → O.knows onlooker.new self.new.core.state }
    {
        self.begin(onlooker);
        self.stage.step(self.circuit.graph(), onlooker);
        self.count = self.count.saturating_add(1);
        onlooker.rest(1);
    }

    // Settles in each column, and counts the waveform line. The stage fits.
    fn settle<O: Onlooker>(&mut self, counts: &mut [Settled], onlooker: &mut O)
        requires fits { M.fits self.old.stage self.old.core.circuit.graph }
        requires counts { length counts.old ≡ M.columns self.old.stage }
        requires knows { M.Shows → KnowsButClocks O.knows onlooker.old self.old.core.clocks self.old.core.state }
        ensures core { self.new.core ≡ record self.old.core { state = self.new.core.state; count = one_more self.old.core.count } }
        ensures settles { (column : ℕ) (past : Settled) → column < M.columns self.old.stage
            → Settles self.old.core.circuit.graph (M.states self.old.stage column) self.old.core.limit (M.states self.new.stage column)
            (slice_index_or counts.new column past).steps (slice_index_or counts.new column past).joined }
        ensures fits { M.fits self.new.stage self.new.core.circuit.graph }
        ensures columns { M.columns self.new.stage ≡ M.columns self.old.stage }
        ensures stage { M.did (Rested self.old.core.circuit.graph self.old.core.limit counts.new) self.old.stage self.new.stage }
        ensures seen { M.Shows → SeesPass O.begin O.see O.rest (IsPhasePass self.old.core.circuit.graph self.old.core.limit self.old.core.state)
            self.new.core.state (O.seen onlooker.old) (O.seen onlooker.new) }
        ensures knows { M.Shows → O.knows onlooker.new self.new.core.state }
    {
        self.begin(onlooker);
        let graph = self.circuit.graph();
        self.stage.settle(graph, self.limit, counts, onlooker);
        self.count = self.count.saturating_add(1);
        onlooker.rest(first_steps(counts));
    }

    // Tells the waveform lines of a step or a phase just done, of all columns in order.
    fn tell_row<L: Lines>(
        &self,
        counts: &[Settled],
        room: &mut WaveRoom,
        out: &mut L,
    ) -> Result<(), ApplyFault>
        requires counts { length counts.now ≡ M.columns self.now.stage }
        requires room { M.columns self.now.stage * length self.now.core.watched ≤ room.old }
        requires line { M.columns self.now.stage * (COLUMN_ROOM + WAVE_LINE_ROOM) ≤ L.room out.old }
        ensures sent { Hears L.hear L.part (L.heard out.old) (L.heard out.new) (waves_of (M.columns self.now.stage) (column_of M.states self.now) (count_in counts.now)) result }
        ensures room { room.new ≡ room.old }
        ensures line { L.room out.new ≡ L.room out.old }
        ensures cause { IfErr result IsSinkFault }
        ensures faults { L.faults out.new ≡ faults_applied (L.faults out.old) result }
        ensures refusals { L.refusals out.new ≡ refusals_sent (L.refusals out.old) result }
    {
        room.tell_row(self.count, counts, &self.stage, &self.watched, out)
    }

    // Gives each clock's node its state at a place, in each column. The stage fits.
    fn put_clocks(&mut self, place: usize)
        requires fits { M.fits self.old.stage self.old.core.circuit.graph }
        requires place { place < places_of self.old.core.clocks }
        ensures beat { self.new.core ≡ effect.with_beat self.old.core place }
        ensures columns { M.columns self.new.stage ≡ M.columns self.old.stage }
        ensures states { (column : ℕ) → column < M.columns self.old.stage
            → M.states self.new.stage column ≡ effect.states_with self.old.core.clocks place (M.states self.old.stage column) }
        ensures fits { M.fits self.new.stage self.new.core.circuit.graph }
        ensures stage { Leads M.did self.old.stage (acts_of_clocks self.old.core.circuit.graph self.old.core.clocks place) self.new.stage }
    {
        put_states(&self.clocks, place, self.circuit.graph(), &mut self.stage);
    }
}

// How many unit steps the first column took.
fn first_steps(counts: &[Settled]) -> u64
    requires { 1 ≤ length counts.now }
    ensures { result ≡ (count_in counts.now 0).steps }
{
    let Settled { steps, .. } = counts[0];
    steps
}

// Gives each clock's node its state at a place, in each column.
fn put_states<M: Stage>(clocks: &[Clock], place: usize, graph: &Graph, stage: &mut M)
    requires some { 1 ≤ M.columns stage.old }
    requires sound { AreSound graph.now (M.columns stage.old) (M.states stage.old) }
    requires within { All (λ clock. clock.node < nodes graph.now) clocks.now }
    requires free { All (λ clock. RAILS ≤ clock.node) clocks.now }
    requires places { All (λ clock. place < length clock.states) clocks.now }
    ensures states { (column : ℕ) → column < M.columns stage.old
        → M.states stage.new column ≡ effect.states_with clocks.now place (M.states stage.old column) }
    ensures keeps { KeepsStage M.columns M.states M.last M.serves M.fits graph.now stage.old stage.new }
    ensures did { Leads M.did stage.old (acts_of_clocks graph.now clocks.now place) stage.new }
{
    for clock in clocks {
        put_state(clock, place, graph, stage);
    }
}

// Gives a clock's node its state at a place, in each column.
fn put_state<M: Stage>(clock: &Clock, place: usize, graph: &Graph, stage: &mut M)
    requires some { 1 ≤ M.columns stage.old }
    requires sound { AreSound graph.now (M.columns stage.old) (M.states stage.old) }
    requires within { clock.now.node < nodes graph.now }
    requires free { RAILS ≤ clock.now.node }
    requires place { place < length clock.now.states }
    ensures states { (column : ℕ) → column < M.columns stage.old → M.states stage.new column ≡ slice_set (M.states stage.old column) clock.now.node (state_at clock.now.states place) }
    ensures keeps { KeepsStage M.columns M.states M.last M.serves M.fits graph.now stage.old stage.new }
    ensures did { M.did (Placed graph.now clock.now.node (state_at clock.now.states place ∷ [])) stage.old stage.new }
{
    put_in_all(graph, clock.node, clock.states[place], stage);
}
