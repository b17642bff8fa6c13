//! A phase of the run under a fault.
ghost use Rattle.std.specs.Prelude.{◌≡◌, ℕ, ◌+◌, ◌-◌, ◌^◌, ◌<◌, ◌≤◌, length};
ghost use Rattle.switch_paths.specs.declared.TheConstants.{RAILS};
ghost use Rattle.beside_run.specs.Words.{IsSound, state_at, IsIn, state_before, FitsBeside, IsBeat};
ghost use Rattle.beside_run.specs.Running.{BeginsPhase, IsRunBeside, SettlesRun};

use crate::beginning::{place_changes, place_given};
use beside::go_back;
use beside_phases::settle_counted;
use good_phases::Beat;
use good_run::Recorder;
use settling::{Onlooker, Settled};
use std::sync::ledger::Ledger;
use switch_paths::Graph;
use ternary::{Steps, Tern};
use unit_step::Machine;
use vicinity::NodeSet;

/// Settles from the state that is meant, beside a phase of the good run, which is where the phase begins; parts that agree with it
/// go back to following it.
pub(crate) fn settle_phase<O: Onlooker, L: Ledger>(
    machine: &mut Machine,
    good_graph: &Graph,
    run: &Recorder,
    graph: &Graph,
    state: &[Tern],
    beat: Beat,
    good: &mut [Tern],
    apart: &mut NodeSet,
    touched: &NodeSet,
    room: &mut NodeSet,
    given: &mut NodeSet,
    steps: &mut Steps<L>,
    onlooker: &mut O,
) -> Settled
    requires beside { IsRunBeside good_graph.now run.now graph.now machine.old state.now (record {
      good = good.old;
      at = beat.begin;
      apart = apart.old;
      touched = touched.now;
      room = room.old;
      given = given.old;
    }) }
    requires beat { IsBeat good_graph.now run.now beat }
    requires few { (beat.end - (beat.begin + 1)) + beat.limit + length machine.old.state < 2 ^ 62 }
    requires knows { O.knows onlooker.old state.now }
    ensures settles { SettlesRun O.see good_graph.now run.now graph.now beat.limit result.steps result.joined machine.old machine.new state.now (record {
      good = good.new;
      at = beat.end;
      apart = apart.new;
      touched = touched.now;
      room = room.new;
      given = given.new;
    })
        (O.seen onlooker.old) (O.seen onlooker.new) }
    ensures knows { O.knows onlooker.new machine.new.state }
{
    begin_phase(
        machine, good_graph, run, graph, state, beat.begin, good, apart, given,
    );
    let first = beat.begin + 1;
    let told = settle_counted(
        machine, good_graph, graph, run, first, beat.end, beat.limit, good, apart, steps, onlooker,
    );
    go_back(machine, touched, good, apart, room);
    told
}

// The phase begins in both runs: what the good run placed and what was given is placed.
fn begin_phase(
    machine: &mut Machine,
    good_graph: &Graph,
    run: &Recorder,
    graph: &Graph,
    state: &[Tern],
    at: usize,
    good: &mut [Tern],
    apart: &mut NodeSet,
    given: &mut NodeSet,
)
    requires fits { FitsBeside good_graph.now graph.now good.old apart.old.inside machine.old }
    requires here { good.old ≡ state_before run.now at }
    requires inside { at < length run.now.shown }
    requires sound { IsSound good.old }
    requires sound_there { IsSound (state_before run.now (at + 1)) }
    requires counted { length state.now ≡ length machine.old.state }
    requires given { length given.old.inside ≡ length machine.old.state }
    requires free { (node : ℕ) → IsIn given.old.inside node → RAILS ≤ node }
    requires lags { (node : ℕ) → (¬ IsIn given.old.inside node) → state_at machine.old.state node ≡ state_at state.now node }
    ensures { BeginsPhase good_graph.now run.now graph.now at machine.old machine.new state.now good.new apart.new given.old given.new }
{
    let changes = run.changes_at(at);
    place_changes(machine, good_graph, graph, changes, state, good, apart);
    given.lists_what_is_in_it();
    place_given(machine, good_graph, graph, given, state, good, apart);
    given.clear();
}
