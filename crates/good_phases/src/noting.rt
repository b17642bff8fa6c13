//! Steps of a machine that are noted and shown.
ghost use Rattle.std.specs.Prelude.{◌≡◌, ◌≢◌, ◌+◌, ◌^◌, ◌<◌, None, true, false, length};
ghost use Rattle.std.specs.Bool.{OnTrue, OnFalse};
ghost use Rattle.settling.specs.Moved.{ListsChanges};
ghost use Rattle.good_run.specs.Words.{look_at};
ghost use Rattle.machine_laws.specs.Fitting.{FitsGraph};
ghost use Rattle.run_beside.specs.Words.{IsMove};
ghost use Rattle.unit_step.specs.Listing.{nodes_told};
ghost use Rattle.good_phases.specs.Phases.{SettlesNoted};

use beside_phases::{is_joining, settled, show};
use good_run::Recorder;
use settling::{Onlooker, Settled};
use std::sync::ledger::Ledger;
use switch_paths::Graph;
use ternary::Steps;
use unit_step::{Machine, Watched};

/// Notes that a phase begins in the machine's state.
pub(crate) fn note_begin(
    machine: &mut Machine,
    changed: &mut Option<Vec<usize>>,
    run: &mut Recorder,
)
    requires none { changed.old ≡ None }
    requires counted { length run.old.known ≡ length machine.old.state }
    ensures same { machine.new ≡ machine.old }
    ensures noted { run.new ≡ look_at true run.old machine.old.state }
{
    run.begin(&Watched { machine, changed });
}

/// Settles a machine that fits the graph, notes each state that it passes through, and shows it. Behind a step those nodes alone are looked at
/// that it changed, unless memory lacks for their list.
pub(crate) fn settle_noted<O: Onlooker, L: Ledger>(
    machine: &mut Machine,
    graph: &Graph,
    limit: u64,
    run: &mut Recorder,
    steps: &mut Steps<L>,
    onlooker: &mut O,
) -> Settled
    requires fits { FitsGraph graph.now machine.old }
    requires known { run.old.known ≡ machine.old.state }
    requires few { limit + length machine.old.state < 2 ^ 62 }
    requires knows { O.knows onlooker.old machine.old.state }
    ensures settles { SettlesNoted O.see graph.now limit result.steps result.joined machine.old machine.new run.old run.new (O.seen onlooker.old) (O.seen onlooker.new) }
    ensures known { run.new.known ≡ machine.new.state }
    ensures knows { O.knows onlooker.new machine.new.state }
{
    let mut changed = machine.listing(true);
    let mut count: u64 = 0;
    while step_noted(
        machine,
        graph,
        is_joining(count, limit),
        &mut changed,
        run,
        steps,
        onlooker,
    ) {
        count += 1;
    }
    settled(count, limit)
}

// Takes a step, plain or joining, and if it changed something notes the state behind it and shows it; answers whether it did.
fn step_noted<O: Onlooker, L: Ledger>(
    machine: &mut Machine,
    graph: &Graph,
    joining: bool,
    changed: &mut Option<Vec<usize>>,
    run: &mut Recorder,
    steps: &mut Steps<L>,
    onlooker: &mut O,
) -> bool
    requires fits { FitsGraph graph.now machine.old }
    requires known { run.old.known ≡ machine.old.state }
    requires knows { O.knows onlooker.old machine.old.state }
    ensures fits { FitsGraph graph.now machine.new }
    ensures last { machine.new.last ≡ machine.old.last }
    ensures moves { IsMove joining graph.now machine.old.state machine.new.state }
    ensures changed { OnTrue result (machine.new.state ≢ machine.old.state) }
    ensures same { OnFalse result (machine.new.state ≡ machine.old.state) }
    ensures noted { OnTrue result (run.new ≡ look_at false run.old machine.new.state) }
    ensures unnoted { OnFalse result (run.new ≡ run.old) }
    ensures seen { OnTrue result (O.seen onlooker.new ≡ O.see (O.seen onlooker.old) machine.new.state) }
    ensures unseen { OnFalse result (O.seen onlooker.new ≡ O.seen onlooker.old) }
    ensures known { run.new.known ≡ machine.new.state }
    ensures knows { O.knows onlooker.new machine.new.state }
{
    if !step_of(machine, graph, joining, changed, steps) {
        return false;
    }
    show(machine, changed, run);
    show(machine, changed, onlooker);
    true
}

// Takes a step, plain or joining, lists the nodes that it changed, if there is a list, and answers whether it changed something.
fn step_of<L: Ledger>(
    machine: &mut Machine,
    graph: &Graph,
    joining: bool,
    changed: &mut Option<Vec<usize>>,
    steps: &mut Steps<L>,
) -> bool
    requires { FitsGraph graph.now machine.old }
    ensures fits { FitsGraph graph.now machine.new }
    ensures last { machine.new.last ≡ machine.old.last }
    ensures listed { ListsChanges (nodes_told changed.new (length machine.new.state)) machine.old.state machine.new.state }
    ensures moves { IsMove joining graph.now machine.old.state machine.new.state }
    ensures changed { OnTrue result (machine.new.state ≢ machine.old.state) }
    ensures same { OnFalse result (machine.new.state ≡ machine.old.state) }
{
    if joining {
        return machine.join_step_listed(graph, steps, changed);
    }
    machine.step_listed(graph, steps, changed)
}
