//! What is built: the machine of the first run, which is recorded; that of the last run, led to the graph; or a whole one.

ghost use Rattle.std.specs.Prelude.{◌≡◌, ◌⊎◌, true, None, Some, IfErr, IfOk, IfSome, OnErr};
ghost use Rattle.std.specs.Bool.{OnTrue};
ghost use Rattle.fault_stage.specs.Words.{IsRailed, used_texts, texts_of, TellsRefused, AreAmong, IsSoundState, DifferAt, BeginsGood, GoodData};
ghost use Rattle.fault_stage.specs.Building.{BeginsGoodIn, BuildsAnew, BuildsHeld, BuildsStage, FinishesNext, IsStart, LeavesKept, PutsLast, StaysBuilt};
ghost use Rattle.fault_stage.specs.Runs.{IsBuilt, IsLastRun, IsLed, IsWell};
ghost use Rattle.fault_stage.specs.Stages.{Plain, Ready, ServesIn, ServesReady, StandInFront, Waits, data_of, last_in, ready_of, state_of, texts_held, texts_in, wait_of};

use crate::beginning::{course_of, touched_in};
use crate::built::{Built, Course};
use crate::held::Held;
use crate::passing::no_passes;
use crate::waiting::{LastRun, Waiting};
use analysis_cache::{Analyst, Kept};
use circuit_texts::BuildFault;
use column_stage::{Columns, PlainStage};
use edits_between::Differences;
use good_phases::GoodPhases;
use machine_stage::MachineStage;
use std::alloc::Global;
use std::mem;
use switch_paths::Graph;
use ternary::{NoMemory, Tern};
use unit_step::{Codes, Machine};

// How many parts a machine may always have that groups left which are gone.
const MOST_LEFT: usize = 16;

/// Whether a stage is built already, and a build would find nothing new.
pub(crate) fn stays_built(held: &Held, large: usize, kept: &Kept) -> bool
    ensures { OnTrue result (StaysBuilt large kept.now held.now) }
{
    match held {
        Held::Whole(_) => false,
        Held::Built(built) => is_again(large, built.large, kept),
        Held::Waiting(_) => false,
    }
}

/// Builds what is held in its place. It stands by itself: what is held is large, and the room for it is cleared where it is moved, which a
/// stage that stays built is spared at each phase.
#[inline(never)]
pub(crate) fn build_in<A: Analyst>(
    alloc: Global,
    slot: &mut Held,
    graph: &Graph,
    large: usize,
    kept: &mut Kept,
    analyst: &mut A,
) -> Result<u64, BuildFault>
    requires well { IsWell slot.old }
    requires railed { IsRailed graph.now }
    requires sound { IsSoundState graph.now (state_of (data_of slot.old)) }
    requires serves { ServesIn (data_of slot.old) graph.now (used_texts (last_in (data_of slot.old)) (texts_of kept.old)) }
    requires last { AreAmong (last_in (data_of slot.old)) (texts_of kept.old) }
    ensures well { IsWell slot.new }
    ensures builds { BuildsStage large graph.now kept.old.bound (data_of slot.old) (data_of slot.new) (texts_of kept.old) (texts_of kept.new) (A.analysed analyst.old) (A.analysed analyst.new) result }
    ensures bound { kept.new.bound ≡ kept.old.bound }
    ensures refused { IfErr result (λ fault. (fault ≡ BuildFault.NoMemory)
        ⊎ (TellsRefused large graph.now fault × (kept.new ≡ kept.old) × (A.analysed analyst.new ≡ A.analysed analyst.old))) }
{
    let none = Held::Whole(MachineStage::still(Vec::new(alloc)));
    let held = mem::replace(slot, none);
    let (held, told) = build_held(alloc, held, graph, large, kept, analyst);
    *slot = held;
    told
}

// Builds what is held, and answers what is held then.
fn build_held<A: Analyst>(
    alloc: Global,
    held: Held,
    graph: &Graph,
    large: usize,
    kept: &mut Kept,
    analyst: &mut A,
) -> (Held, Result<u64, BuildFault>)
    requires well { IsWell held }
    requires starts { IsStart graph.now (state_of (data_of held)) }
    requires serves { ServesIn (data_of held) graph.now (used_texts (last_in (data_of held)) (texts_of kept.old)) }
    requires last { AreAmong (last_in (data_of held)) (texts_of kept.old) }
    ensures { BuildsHeld large graph.now (data_of held) result.0 kept.old kept.new (A.analysed analyst.old) (A.analysed analyst.new) result.1 }
{
    match held {
        Held::Whole(stage) => build_whole(alloc, stage, graph, large, kept, analyst),
        Held::Built(built) => build_again(alloc, built, graph, large, kept, analyst),
        Held::Waiting(waiting) => build_waiting(alloc, waiting, graph, large, kept, analyst),
    }
}

// Builds a stage that holds on to nothing, as ever.
fn build_whole<A: Analyst>(
    alloc: Global,
    stage: MachineStage,
    graph: &Graph,
    large: usize,
    kept: &mut Kept,
    analyst: &mut A,
) -> (Held, Result<u64, BuildFault>)
    requires starts { IsStart graph.now stage.state }
    requires serves { ServesIn (Plain stage) graph.now (used_texts (last_in (Plain stage)) (texts_of kept.old)) }
    requires last { AreAmong (last_in (Plain stage)) (texts_of kept.old) }
    ensures { BuildsHeld large graph.now (Plain stage) result.0 kept.old kept.new (A.analysed analyst.old) (A.analysed analyst.new) result.1 }
{
    let mut stage = stage;
    let told = stage.build(alloc, graph, large, kept, analyst);
    (Held::Whole(stage), told)
}

// Builds what is built already: nothing is new. If groups without a text may have another number of members, or what is kept has a
// bound, a whole machine is built.
fn build_again<A: Analyst>(
    alloc: Global,
    built: Built,
    graph: &Graph,
    large: usize,
    kept: &mut Kept,
    analyst: &mut A,
) -> (Held, Result<u64, BuildFault>)
    requires built { IsBuilt built }
    requires starts { IsStart graph.now built.state.items }
    requires serves { ServesReady (ready_of built) graph.now (texts_of kept.old) }
    ensures { BuildsHeld large graph.now (Ready (ready_of built)) result.0 kept.old kept.new (A.analysed analyst.old) (A.analysed analyst.new) result.1 }
{
    if is_again(large, built.large, kept) {
        return (Held::Built(built), Ok(0));
    }
    match build_anew(alloc, &built.state, graph, large, kept, analyst) {
        Ok((stage, fresh)) => (Held::Whole(stage), Ok(fresh)),
        Err(fault) => (Held::Built(built), Err(fault)),
    }
}

// Whether a build would find nothing new that comes behind one for which groups without a text might have so many members.
fn is_again(large: usize, at_build: usize, kept: &Kept) -> bool
    ensures large { OnTrue result (at_build ≡ large) }
    ensures unbounded { OnTrue result (kept.now.bound ≡ None) }
{
    if at_build != large {
        return false;
    }
    if let Some(_bound) = kept.bound() {
        return false;
    }
    true
}

// Builds a stage that waits: the machine of its last run is led to the graph, and if there was no run this one is recorded.
fn build_waiting<A: Analyst>(
    alloc: Global,
    waiting: Waiting,
    graph: &Graph,
    large: usize,
    kept: &mut Kept,
    analyst: &mut A,
) -> (Held, Result<u64, BuildFault>)
    requires last_run { IfSome waiting.last_run IsLastRun }
    requires starts { IsStart graph.now waiting.state.items }
    requires front { StandInFront (texts_held waiting.last_run) (texts_of kept.old) }
    ensures { BuildsHeld large graph.now (Waits (wait_of waiting)) result.0 kept.old kept.new (A.analysed analyst.old) (A.analysed analyst.new) result.1 }
{
    let Waiting { state, last_run } = waiting;
    match last_run {
        None => build_first(alloc, state, graph, large, kept, analyst),
        Some(last_run) => build_next(alloc, state, last_run, graph, large, kept, analyst),
    }
}

// Builds the machine of the first run, whose record begins, if there is memory for that.
fn build_first<A: Analyst>(
    alloc: Global,
    state: Vec<Tern>,
    graph: &Graph,
    large: usize,
    kept: &mut Kept,
    analyst: &mut A,
) -> (Held, Result<u64, BuildFault>)
    requires { IsStart graph.now state.items }
    ensures { BuildsHeld large graph.now (Waits (wait_of (record { state = state; last_run = None }))) result.0 kept.old kept.new (A.analysed analyst.old) (A.analysed analyst.new) result.1 }
{
    match record_of(alloc, graph, &state) {
        Ok((own, good)) => build_recorded(alloc, state, own, good, large, kept, analyst),
        Err(_) => build_in_place(alloc, state, None, graph, large, kept, analyst),
    }
}

// Builds the machine of a run that is recorded.
fn build_recorded<A: Analyst>(
    alloc: Global,
    state: Vec<Tern>,
    graph: Graph,
    good: GoodPhases,
    large: usize,
    kept: &mut Kept,
    analyst: &mut A,
) -> (Held, Result<u64, BuildFault>)
    requires begins { BeginsGood graph state.items good }
    requires starts { IsStart graph state.items }
    ensures { BuildsHeld large graph (Waits (wait_of (record { state = state; last_run = None }))) result.0 kept.old kept.new (A.analysed analyst.old) (A.analysed analyst.new) result.1 }
{
    match Machine::build(alloc, &graph, &state, large, Codes::Short, kept, analyst) {
        Ok((machine, fresh)) => {
            let built = Built {
                machine,
                graph,
                state,
                good,
                apart: Differences::none(alloc),
                large,
                course: Course::Recorded,
                passes: no_passes(alloc),
            };
            (Held::Built(built), Ok(fresh))
        }
        Err(fault) => {
            let waiting = Waiting {
                state,
                last_run: None,
            };
            (Held::Waiting(waiting), Err(fault))
        }
    }
}

// A copy of the graph, and the record of a run that begins in this state.
fn record_of(alloc: Global, graph: &Graph, state: &[Tern]) -> Result<(Graph, GoodPhases), NoMemory>
    ensures { IfOk result (λ made. BeginsGoodIn graph.now state.now made.0 made.1) }
{
    let own = graph.copy(alloc)?;
    let good = GoodPhases::new(alloc, graph, state)?;
    Ok((own, good))
}

// Leads the machine of the last run to the graph, and has it finished; if it can't be led there, a whole one is built.
fn build_next<A: Analyst>(
    alloc: Global,
    state: Vec<Tern>,
    last_run: LastRun,
    graph: &Graph,
    large: usize,
    kept: &mut Kept,
    analyst: &mut A,
) -> (Held, Result<u64, BuildFault>)
    requires last_run { IsLastRun last_run }
    requires starts { IsStart graph.now state.items }
    requires front { StandInFront (texts_in last_run.machine) (texts_of kept.old) }
    ensures { BuildsHeld large graph.now (Waits (wait_of (record { state = state; last_run = Some last_run }))) result.0 kept.old kept.new (A.analysed analyst.old) (A.analysed analyst.new) result.1 }
{
    let mut last_run = last_run;
    let mut count = 0;
    if !last_run.lead(graph, &state, &mut count) {
        return build_in_place(alloc, state, Some(last_run), graph, large, kept, analyst);
    }
    let LastRun {
        machine,
        graph: own,
        good,
        apart,
        ..
    } = last_run;
    let Some(machine) = machine else {
        unreachable!();
    };
    finish(
        alloc, state, machine, own, good, apart, large, count, kept, analyst,
    )
}

// Has a machine finished that was led to a graph by way of the good run's, where it had so many parts.
fn finish<A: Analyst>(
    alloc: Global,
    state: Vec<Tern>,
    machine: Machine,
    graph: Graph,
    good: GoodPhases,
    apart: Differences,
    large: usize,
    count: usize,
    kept: &mut Kept,
    analyst: &mut A,
) -> (Held, Result<u64, BuildFault>)
    requires led { IsLed good.graph graph count state.items machine }
    requires apart { DifferAt graph good.graph apart }
    requires starts { IsStart graph state.items }
    requires front { StandInFront machine.last (texts_of kept.old) }
    ensures { BuildsHeld large graph (Waits (wait_of (record { state = state; last_run = Some (record { machine = Some machine; covered = true; graph = graph; good = good; apart = apart }) })))
        result.0 kept.old kept.new (A.analysed analyst.old) (A.analysed analyst.new) result.1 }
{
    let mut machine = machine;
    match finish_beside(
        alloc,
        &state,
        &mut machine,
        &graph,
        &good,
        large,
        count,
        kept,
        analyst,
    ) {
        Ok((course, fresh)) => {
            let built = Built {
                machine,
                graph,
                state,
                good,
                apart,
                large,
                course,
                passes: no_passes(alloc),
            };
            (Held::Built(built), Ok(fresh))
        }
        Err(fault) => {
            let last_run = LastRun {
                machine: Some(machine),
                covered: true,
                graph,
                good,
                apart,
            };
            let waiting = Waiting {
                state,
                last_run: Some(last_run),
            };
            (Held::Waiting(waiting), Err(fault))
        }
    }
}

// Gives the stale parts of a machine their codes, puts its texts in front of what is kept, and answers how it goes on, and how many texts were new: beside
// the recorded run, if there is memory for that. If too many of its parts were left by groups that are gone, one is built in its place. After a refusal
// it is as before; if memory lacked, its texts stand in front of what is kept.
fn finish_beside<A: Analyst>(
    alloc: Global,
    state: &[Tern],
    machine: &mut Machine,
    graph: &Graph,
    good: &GoodPhases,
    large: usize,
    count: usize,
    kept: &mut Kept,
    analyst: &mut A,
) -> Result<(Course, u64), BuildFault>
    requires led { IsLed good.now.graph graph.now count state.now machine.old }
    requires railed { IsRailed graph.now }
    requires front { StandInFront machine.old.last (texts_of kept.old) }
    ensures made { IfOk result (λ made. FinishesNext large graph.now kept.old.bound good.now state.now machine.new (texts_of kept.old) (texts_of kept.new) (A.analysed analyst.old) (A.analysed analyst.new) made.0 made.1) }
    ensures leaves { LeavesKept large graph.now kept.old kept.new (A.analysed analyst.old) (A.analysed analyst.new) result }
    ensures err { OnErr result (machine.new ≡ machine.old) }
{
    if is_sparse(machine) {
        return build_fresh(alloc, state, machine, graph, large, kept, analyst);
    }
    let touched = touched_in(alloc, machine, count);
    machine.has_a_mark_for_each_part();
    match machine.finish(graph, large, Codes::Short, kept, analyst) {
        Ok(fresh) => {
            machine.use_last(kept);
            machine.has_a_mark_for_each_part();
            let course = course_of(alloc, machine, graph, good, state, touched);
            Ok((course, fresh))
        }
        Err(fault) => {
            put_last(machine, &fault, kept);
            Err(fault)
        }
    }
}

// Whether most of a machine's parts, and more than 16, were left by groups that are gone.
fn is_sparse(machine: &Machine) -> bool {
    let left = machine.parts().saturating_sub(machine.groups());
    left > machine.groups() && left > MOST_LEFT
}

// Builds a machine in place of one that has too many parts that groups left which are gone. Its run goes by itself.
fn build_fresh<A: Analyst>(
    alloc: Global,
    state: &[Tern],
    machine: &mut Machine,
    graph: &Graph,
    large: usize,
    kept: &mut Kept,
    analyst: &mut A,
) -> Result<(Course, u64), BuildFault>
    requires { IsStart graph.now state.now }
    ensures made { (good : GoodData) → IfOk result (λ made. FinishesNext large graph.now kept.old.bound good state.now machine.new (texts_of kept.old) (texts_of kept.new) (A.analysed analyst.old) (A.analysed analyst.new) made.0 made.1) }
    ensures leaves { LeavesKept large graph.now kept.old kept.new (A.analysed analyst.old) (A.analysed analyst.new) result }
    ensures err { OnErr result (machine.new ≡ machine.old) }
{
    match Machine::build(alloc, graph, state, large, Codes::Short, kept, analyst) {
        Ok((made, fresh)) => {
            *machine = made;
            Ok((Course::Alone, fresh))
        }
        Err(fault) => Err(fault),
    }
}

// Puts the texts of a machine's last build in front of what is kept if memory lacked: they stood there, and some that are new stand behind.
fn put_last(machine: &Machine, fault: &BuildFault, kept: &mut Kept)
    requires { AreAmong machine.now.last (texts_of kept.old) }
    ensures puts { PutsLast machine.now.last fault.now kept.old kept.new }
    ensures bound { kept.new.bound ≡ kept.old.bound }
{
    match fault {
        BuildFault::NoMemory => machine.use_last(kept),
        BuildFault::GroupNodes { .. } => {}
        BuildFault::GroupSwitches { .. } => {}
    }
}

// Builds a whole machine in place of what waits; after a refusal that waits as before.
fn build_in_place<A: Analyst>(
    alloc: Global,
    state: Vec<Tern>,
    last_run: Option<LastRun>,
    graph: &Graph,
    large: usize,
    kept: &mut Kept,
    analyst: &mut A,
) -> (Held, Result<u64, BuildFault>)
    requires last_run { IfSome last_run IsLastRun }
    requires starts { IsStart graph.now state.items }
    requires front { StandInFront (texts_held last_run) (texts_of kept.old) }
    ensures { BuildsHeld large graph.now (Waits (wait_of (record { state = state; last_run = last_run }))) result.0 kept.old kept.new (A.analysed analyst.old) (A.analysed analyst.new) result.1 }
{
    match build_anew(alloc, &state, graph, large, kept, analyst) {
        Ok((stage, fresh)) => (Held::Whole(stage), Ok(fresh)),
        Err(fault) => {
            let waiting = Waiting { state, last_run };
            (Held::Waiting(waiting), Err(fault))
        }
    }
}

// Builds a whole machine, in a copy of the state.
fn build_anew<A: Analyst>(
    alloc: Global,
    state: &[Tern],
    graph: &Graph,
    large: usize,
    kept: &mut Kept,
    analyst: &mut A,
) -> Result<(MachineStage, u64), BuildFault>
    requires { IsStart graph.now state.now }
    ensures made { IfOk result (λ made. BuildsAnew large graph.now kept.old.bound state.now (texts_of kept.old) (texts_of kept.new) (A.analysed analyst.old) (A.analysed analyst.new) made.0 made.1) }
    ensures leaves { LeavesKept large graph.now kept.old kept.new (A.analysed analyst.old) (A.analysed analyst.new) result }
{
    let copy = Vec::from_slice(alloc, state)?;
    let mut stage = MachineStage::still(copy);
    match stage.build(alloc, graph, large, kept, analyst) {
        Ok(fresh) => Ok((stage, fresh)),
        Err(fault) => Err(fault),
    }
}
