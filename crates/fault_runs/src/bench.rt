//! The bench on which the script is run under one fault after the other.

ghost use Rattle.std.specs.Prelude.{◌≡◌, Some, IfOk};
ghost use Rattle.fault_runs.specs.Words.{start_of, start_with, HasTraced, HasVisibleNames, IsFault, JudgesBy};

use crate::early::{calm_from, judge_under};
use crate::good::GoodRun;
use crate::lines::{ReadLines, read_lines};
use column_stage::PlainStage;
use cosmos_session::Session;
use fault_sim::{Fault, Verdict};
use group_analysis::Analyst;
use netlist::Circuit;
use std::alloc::Global;
use std::marker::Model;
use ternary::NoMemory;

/// A circuit at the start, a script, and the session of the last run, whose analyses are kept: each run goes
/// on from it, and wants a copy of the circuit alone.
#[derive(Drop)]
pub(crate) struct FaultBench<'a, M: PlainStage> {
    alloc: Global,
    start: &'a Circuit,
    script: &'a [u8],
    // The lines of the script, as they are read.
    read: ReadLines,
    // The line of the script from which on nothing more is analysed, and what is kept stays, if there is one.
    calm_from: Option<u64>,
    // None while it runs, and after memory ran out: then nothing is kept.
    session: Option<Session<M>>,
}

impl<'a, M: PlainStage> Model for FaultBench<'a, M> {
    ghost use Rattle.std.specs.Prelude.{IfSome};
    ghost use Rattle.netlist.specs.Circuits.{HasVisibleNames};
    ghost use Rattle.fault_meaning.specs.Early.{IsCalmFrom};
    ghost use Rattle.fault_meaning.specs.Runnings.{BenchData, kept_in};
    ghost use Rattle.fault_runs.specs.Lines.{AreRead};

    ghost Value = { BenchData };

    ghost view = { λ bench. record { start = bench.start.now; script = bench.script.now; kept = kept_in bench.session } };

    ghost invariant = { λ bench. HasVisibleNames bench.start.now × AreRead bench.script.now bench.read × IfSome bench.calm_from (IsCalmFrom bench.script.now) };
}

impl<'a, M: PlainStage> FaultBench<'a, M> {
    /// A bench whose runs go on from this session.
    pub(crate) fn new(
        alloc: Global,
        start: &'a Circuit,
        script: &'a [u8],
        session: Session<M>,
    ) -> Result<FaultBench<'a, M>, NoMemory>
        requires { HasVisibleNames start.now }
        ensures { IfOk result (λ bench. bench ≡ record { start = start.now; script = script.now; kept = session.core.kept }) }
    {
        let read = read_lines(alloc, script)?;
        let calm_from = calm_from(alloc, script)?;
        Ok(FaultBench {
            alloc,
            start,
            script,
            read,
            calm_from,
            session: Some(session),
        })
    }

    // A session at the start in a copy of the circuit, with what the last one keeps.
    fn session_at_start(&mut self) -> Result<Session<M>, NoMemory>
        ensures ok { IfOk result (λ session. session.core ≡ start_with self.old.start self.old.kept) }
        ensures start { self.new.start ≡ self.old.start }
        ensures script { self.new.script ≡ self.old.script }
    {
        match self.session.take() {
            Some(session) => session.restart(self.start),
            None => new_session(self.alloc, self.start),
        }
    }

    /// Runs the script under a fault that the start circuit can have, and gives the verdict on its trace
    /// beside the good one. If it can, the run ends early.
    pub(crate) fn judge<A: Analyst>(
        &mut self,
        good: &GoodRun,
        fault: Fault,
        analyst: &mut A,
    ) -> Result<Verdict, NoMemory>
        requires { IsFault self.old.start fault }
        ensures verdict { IfOk result (JudgesBy (λ bad. HasTraced self.old (A.analysed analyst.old) (Some fault) bad
            self.new (A.analysed analyst.new)) good.now) }
        ensures start { self.new.start ≡ self.old.start }
        ensures script { self.new.script ≡ self.old.script }
    {
        let mut session = self.session_at_start()?;
        let told = judge_under(
            self.alloc,
            &mut session,
            self.start,
            self.script,
            self.read.items(),
            self.calm_from,
            fault,
            good,
            analyst,
        );
        self.session = Some(session);
        told
    }
}

// A session at the start in a copy of a circuit, which keeps nothing.
fn new_session<M: PlainStage>(alloc: Global, start: &Circuit) -> Result<Session<M>, NoMemory>
    ensures { IfOk result (λ session. session.core ≡ start_of start.now) }
{
    let circuit = start.copy(alloc)?;
    Session::new(alloc, circuit)
}
