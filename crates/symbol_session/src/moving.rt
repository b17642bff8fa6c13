//! The commands that have the circuit built and move the states: `step`, `phase` and `cycle`.

ghost use Rattle.std.specs.Prelude.{◌≡◌, ℕ, ◌<◌, ◌∷◌, [], None, IfErr, IfOk, OnOk};
ghost use Rattle.std.specs.List.{range_with_len};
ghost use Rattle.script_lang.specs.declared.command.Command.TheVariants as family;
ghost use Rattle.settling.specs.declared.settling.Settled.{Settled};
ghost use Rattle.symbol_session.specs.Words.{BeatInAll, StepInAll, IsPhase, IsUnitStep, places_in, refusal_of_run, places_of};
ghost use Rattle.symbol_session.specs.Words.{SettledTogether, AreMerged, HearsSome, AreCounted, wave_of, FitsIn, faults_stopped};
ghost use Rattle.symbol_session.specs.Words.{RefusedStopped, StopsAt, KeepsFunctions, AreRailed, columns_in};
ghost use Rattle.symbol_script.specs.declared.line.SymbolLine.TheVariants as asks;
ghost use Rattle.symbol_session.specs.Asked.{IsOfRun};
ghost use Rattle.symbol_session.specs.Moves as spec;
ghost use Rattle.symbol_session.specs.Moves.{BeatsBy, MovesBy, ReadiesBy, RunsBy, waves_by};
ghost use Rattle.symbol_session.specs.Sessions.{Stays, data_of, maker_of, valuations_by};
ghost use Rattle.symbol_session.specs.Turns as turns;
ghost use Rattle.symbol_session.specs.Turns.{IsOwnFault, TakesAsked, want};

use crate::SymbolSession;
use crate::turns::{fault_at, turn_moved, turn_of};
use cosmos_session::{Refusal, cycle_refusal};
use group_analysis::Analyst;
use ports::PortFault;
use run_ends::Stop;
use script_lang::Run;
use script_meaning::Turn;
use script_run::refusal_code;
use session_meaning::{ApplyFault, places_of};
use settling::Settled;
use symbol_looking::tell_wave;
use symbol_run::SymbolFault;
use symbol_told::SymbolLines;

impl SymbolSession {
    /// Has the circuit built, and takes a step, a phase, or phases at the places of the clocks, in all columns.
    pub(crate) fn run<L: SymbolLines, A: Analyst>(
        &mut self,
        number: u64,
        run: &Run,
        out: &mut L,
        analyst: &mut A,
    ) -> Result<Turn, SymbolFault>
        requires { IsOfRun run.now }
        ensures stays { Stays self.old self.new }
        ensures keeps { KeepsFunctions (maker_of self.old) (maker_of self.new) }
        ensures turn { TakesAsked (maker_of self.new) L.hear L.part (valuations_by self.old) (data_of self.old) (asks.Plain (family.Run run.now))
            (data_of self.new) (L.heard out.old) (L.heard out.new) (A.analysed analyst.old) (A.analysed analyst.new) result }
        ensures number { IfErr result (StopsAt number) }
        ensures write { L.faults out.new ≡ faults_stopped (L.faults out.old) result }
        ensures refused { RefusedStopped (L.refusals out.old) (L.refusals out.new) result }
    {
        if let Some(refusal) = self.run_refusal(run) {
            return Ok(Turn::Refused(refusal_code(refusal)));
        }
        // a call for the proof alone: the maker has a column for each valuation
        self.is_well_formed();
        match self.ready(analyst) {
            Ok(()) => turn_moved(self.moves(number, run, out)),
            Err(fault) => turn_of(Err(fault)),
        }
    }

    // Why a command is refused that has the circuit built.
    fn run_refusal(&self, run: &Run) -> Option<Refusal>
        ensures { result ≡ refusal_of_run self.now.session.core.circuit self.now.session.core.clocks run.now }
    {
        match run {
            Run::Cycle(_) => cycle_refusal(self.session.circuit(), self.session.clocks()),
            Run::Step | Run::Phase | Run::Report => None,
        }
    }

    // Has the circuit built, if it isn't.
    fn ready<A: Analyst>(&mut self, analyst: &mut A) -> Result<(), ApplyFault>
        ensures stays { Stays self.old self.new }
        ensures keeps { KeepsFunctions (maker_of self.old) (maker_of self.new) }
        ensures readies { ReadiesBy (columns_in (maker_of self.old)) (data_of self.old) (data_of self.new)
            (A.analysed analyst.old) (A.analysed analyst.new) (turns.turn_of result) }
        ensures fits { OnOk result (FitsIn self.new.session.stage self.new.session.core.circuit.graph) }
        ensures memory { IfErr (turns.turn_of result) (λ fault. fault ≡ want) }
    {
        // a call for the proof alone: the maker has a function that holds in each column
        self.is_well_formed();
        self.session.ready_in_all(analyst)
    }

    // Takes a step, a phase, or phases at the places of the clocks. The stage fits.
    fn moves<L: SymbolLines>(
        &mut self,
        number: u64,
        run: &Run,
        out: &mut L,
    ) -> Result<(), SymbolFault>
        requires fits { FitsIn self.old.session.stage self.old.session.core.circuit.graph }
        requires allowed { refusal_of_run self.old.session.core.circuit self.old.session.core.clocks run.now ≡ None }
        requires run { IsOfRun run.now }
        ensures stays { Stays self.old self.new }
        ensures keeps { KeepsFunctions (maker_of self.old) (maker_of self.new) }
        ensures moves { RunsBy (maker_of self.new) L.hear L.part (columns_in (maker_of self.old)) self.old.session.core.clocks run.now
            (data_of self.old) (data_of self.new) (L.heard out.old) (L.heard out.new) result }
        ensures number { IfErr result (StopsAt number) }
        ensures write { L.faults out.new ≡ faults_stopped (L.faults out.old) result }
        ensures refused { RefusedStopped (L.refusals out.old) (L.refusals out.new) result }
    {
        match run {
            Run::Step => self.step(number, out),
            Run::Phase => self.phase(number, out),
            Run::Cycle(times) => self.cycle(number, *times, out),
            Run::Report => unreachable!(),
        }
    }

    // Takes a unit step in each column, and tells its waveform line. The stage fits.
    fn step<L: SymbolLines>(&mut self, number: u64, out: &mut L) -> Result<(), SymbolFault>
        requires { FitsIn self.old.session.stage self.old.session.core.circuit.graph }
        ensures stays { Stays self.old self.new }
        ensures keeps { KeepsFunctions (maker_of self.old) (maker_of self.new) }
        ensures moves { MovesBy (maker_of self.new) L.hear L.part (columns_in (maker_of self.old)) IsUnitStep
            (data_of self.old) (data_of self.new) (L.heard out.old) (L.heard out.new) result }
        ensures number { IfErr result (StopsAt number) }
        ensures write { L.faults out.new ≡ faults_stopped (L.faults out.old) result }
        ensures refused { RefusedStopped (L.refusals out.old) (L.refusals out.new) result }
    {
        // a call for the proof alone: there is a column
        self.is_well_formed();
        self.move_step(number)?;
        self.tell_moved(one_step(), out)
    }

    // Settles in each column, and tells the waveform line. The stage fits.
    fn phase<L: SymbolLines>(&mut self, number: u64, out: &mut L) -> Result<(), SymbolFault>
        requires { FitsIn self.old.session.stage self.old.session.core.circuit.graph }
        ensures stays { Stays self.old self.new }
        ensures keeps { KeepsFunctions (maker_of self.old) (maker_of self.new) }
        ensures fits { FitsIn self.new.session.stage self.new.session.core.circuit.graph }
        ensures clocks { self.new.session.core.clocks ≡ self.old.session.core.clocks }
        ensures moves { MovesBy (maker_of self.new) L.hear L.part (columns_in (maker_of self.old)) IsPhase
            (data_of self.old) (data_of self.new) (L.heard out.old) (L.heard out.new) result }
        ensures number { IfErr result (StopsAt number) }
        ensures write { L.faults out.new ≡ faults_stopped (L.faults out.old) result }
        ensures refused { RefusedStopped (L.refusals out.old) (L.refusals out.new) result }
    {
        let told = self.move_phase(number)?;
        self.tell_moved(told, out)
    }

    // Takes phases at all places of the clocks in order, so many times. The stage fits.
    fn cycle<L: SymbolLines>(
        &mut self,
        number: u64,
        times: u64,
        out: &mut L,
    ) -> Result<(), SymbolFault>
        requires { FitsIn self.old.session.stage self.old.session.core.circuit.graph }
        ensures stays { Stays self.old self.new }
        ensures keeps { KeepsFunctions (maker_of self.old) (maker_of self.new) }
        ensures moves { BeatsBy (maker_of self.new) L.hear L.part (columns_in (maker_of self.old))
            (places_in (places_of self.old.session.core.clocks) times)
            (data_of self.old) (data_of self.new) (L.heard out.old) (L.heard out.new) result }
        ensures number { IfErr result (StopsAt number) }
        ensures write { L.faults out.new ≡ faults_stopped (L.faults out.old) result }
        ensures refused { RefusedStopped (L.refusals out.old) (L.refusals out.new) result }
    {
        for _cycle in 0..times {
            self.cycle_once(number, out)?;
        }
        Ok(())
    }

    // Takes phases at all places of the clocks in order, once. The stage fits.
    fn cycle_once<L: SymbolLines>(&mut self, number: u64, out: &mut L) -> Result<(), SymbolFault>
        requires { FitsIn self.old.session.stage self.old.session.core.circuit.graph }
        ensures stays { Stays self.old self.new }
        ensures keeps { KeepsFunctions (maker_of self.old) (maker_of self.new) }
        ensures fits { FitsIn self.new.session.stage self.new.session.core.circuit.graph }
        ensures clocks { self.new.session.core.clocks ≡ self.old.session.core.clocks }
        ensures moves { BeatsBy (maker_of self.new) L.hear L.part (columns_in (maker_of self.old))
            (range_with_len 0 (places_of self.old.session.core.clocks))
            (data_of self.old) (data_of self.new) (L.heard out.old) (L.heard out.new) result }
        ensures number { IfErr result (StopsAt number) }
        ensures write { L.faults out.new ≡ faults_stopped (L.faults out.old) result }
        ensures refused { RefusedStopped (L.refusals out.old) (L.refusals out.new) result }
    {
        for place in 0..places_of(self.session.clocks()) {
            self.beat(number, place, out)?;
        }
        Ok(())
    }

    // Gives the clocks' nodes their states at a place, and takes a phase. The stage fits.
    fn beat<L: SymbolLines>(
        &mut self,
        number: u64,
        place: usize,
        out: &mut L,
    ) -> Result<(), SymbolFault>
        requires fits { FitsIn self.old.session.stage self.old.session.core.circuit.graph }
        requires place { place < places_of self.old.session.core.clocks }
        ensures stays { Stays self.old self.new }
        ensures keeps { KeepsFunctions (maker_of self.old) (maker_of self.new) }
        ensures fits { FitsIn self.new.session.stage self.new.session.core.circuit.graph }
        ensures clocks { self.new.session.core.clocks ≡ self.old.session.core.clocks }
        ensures moves { BeatsBy (maker_of self.new) L.hear L.part (columns_in (maker_of self.old)) (place ∷ [])
            (data_of self.old) (data_of self.new) (L.heard out.old) (L.heard out.new) result }
        ensures number { IfErr result (StopsAt number) }
        ensures write { L.faults out.new ≡ faults_stopped (L.faults out.old) result }
        ensures refused { RefusedStopped (L.refusals out.old) (L.refusals out.new) result }
    {
        self.put_beat(place);
        self.phase(number, out)
    }

    // Gives the clocks' nodes their states at a place, in each column. The stage fits.
    fn put_beat(&mut self, place: usize)
        requires fits { FitsIn self.old.session.stage self.old.session.core.circuit.graph }
        requires place { place < places_of self.old.session.core.clocks }
        ensures stays { Stays self.old self.new }
        ensures keeps { KeepsFunctions (maker_of self.old) (maker_of self.new) }
        ensures fits { FitsIn self.new.session.stage self.new.session.core.circuit.graph }
        ensures clocks { self.new.session.core.clocks ≡ self.old.session.core.clocks }
        ensures put { BeatInAll (columns_in (maker_of self.old)) (data_of self.old) (data_of self.new) place }
    {
        // a call for the proof alone: the maker has a function that holds in each column
        self.is_well_formed();
        self.session.beat_in_all(place);
    }

    // Takes a unit step in each column, and counts its waveform line. The stage fits.
    fn move_step(&mut self, number: u64) -> Result<(), SymbolFault>
        requires { FitsIn self.old.session.stage self.old.session.core.circuit.graph }
        ensures stays { Stays self.old self.new }
        ensures keeps { KeepsFunctions (maker_of self.old) (maker_of self.new) }
        ensures fits { FitsIn self.new.session.stage self.new.session.core.circuit.graph }
        ensures steps { OnOk result (StepInAll (columns_in (maker_of self.old)) (data_of self.old) (data_of self.new)) }
        ensures own { IfErr result (IsOwnFault number) }
    {
        // a call for the proof alone: the maker has a function that holds in each column
        self.is_well_formed();
        match self.session.step_in_all() {
            Ok(()) => {
                self.count = self.count.saturating_add(1);
                Ok(())
            }
            Err(fault) => Err(fault_at(number, fault)),
        }
    }

    // Settles in each column, and counts the waveform line. The stage fits.
    fn move_phase(&mut self, number: u64) -> Result<Settled, SymbolFault>
        requires { FitsIn self.old.session.stage self.old.session.core.circuit.graph }
        ensures stays { Stays self.old self.new }
        ensures keeps { KeepsFunctions (maker_of self.old) (maker_of self.new) }
        ensures fits { FitsIn self.new.session.stage self.new.session.core.circuit.graph }
        ensures clocks { self.new.session.core.clocks ≡ self.old.session.core.clocks }
        ensures settles { IfOk result (SettledTogether (columns_in (maker_of self.old)) (data_of self.old) (data_of self.new)) }
        ensures own { IfErr result (IsOwnFault number) }
    {
        // a call for the proof alone: the maker has a function that holds in each column
        self.is_well_formed();
        match self.session.settle_in_all() {
            Ok(told) => {
                self.count = self.count.saturating_add(1);
                Ok(told)
            }
            Err(fault) => Err(fault_at(number, fault)),
        }
    }

    // Tells the waveform line behind a step or a phase.
    fn tell_moved<L: SymbolLines>(&self, told: Settled, out: &mut L) -> Result<(), SymbolFault>
        ensures heard { HearsSome L.hear L.part (L.heard out.old) (L.heard out.new) (wave_of self.now.session told ∷ []) result }
        ensures merged { (count : ℕ → Settled) → AreCounted (columns_in (maker_of self.now)) count told →
            AreMerged (columns_in (maker_of self.now)) (waves_by (data_of self.now) count) ((wave_of self.now.session told).line ∷ []) }
        ensures railed { (count : ℕ → Settled) → OnOk result
            (AreRailed (maker_of self.now) (columns_in (maker_of self.now)) (waves_by (data_of self.now) count) (wave_of self.now.session told ∷ [])) }
        ensures number { (number : ℕ) → IfErr result (StopsAt number) }
        ensures write { L.faults out.new ≡ faults_stopped (L.faults out.old) result }
        ensures refused { RefusedStopped (L.refusals out.old) (L.refusals out.new) result }
    {
        // a call for the proof alone: the lines are counted
        self.is_well_formed();
        let told = tell_wave(self.alloc, &self.session, self.count, told, out);
        heard_by(told)
    }
}

// What telling a line ends with.
fn heard_by(told: Result<(), PortFault>) -> Result<(), SymbolFault>
    ensures { result ≡ spec.heard_by told }
{
    match told {
        Ok(()) => Ok(()),
        Err(fault) => Err(SymbolFault::Stopped(Stop::of_write(fault))),
    }
}

// What a unit step tells: one step, and no mark.
fn one_step() -> Settled
    ensures { result ≡ spec.one_step }
{
    Settled {
        steps: 1,
        joined: false,
    }
}
