//! The evaluation of the marked parts: their codes run under the old state, and what changes is noted.
ghost use Rattle.std.specs.Prelude.{◌≡◌, ℕ, ◌+◌, ◌<◌, ◌≤◌, [], length, All, vec_len, vec_capacity};
ghost use Rattle.part_steps.specs.declared.bundles.TheConstants.{SLOTS};
ghost use Rattle.part_steps.specs.declared.dense.Seat.{Seat};
ghost use Rattle.machine_parts.specs.Words.{IsMarked, count_marked, marked_sum, instructions_of, members_of, IsSeated, Evaluated};
ghost use Rattle.part_steps.specs.Workspaces.{rooms};
ghost use Rattle.part_steps.specs.Waiting.{Waits, IsEmptyFrom, HasRoom, cleared_at, waiting_sum};
ghost use Rattle.part_steps.specs.Together.{CanRun, RunsSome, TakesIn, outputs_at, instructions_at};
ghost use Rattle.part_steps.specs.Dense.{AreDense};
ghost use Rattle.part_steps.specs.Known.{Knows};

use crate::agenda::Agenda;
use crate::bundles::{Bundles, slot_for};
use crate::dense::{DenseParts, Seat};
use machine_parts::MachinePart;
use part_words::{Change, KnownRuns, run_known};
use std::mem;
use std::sync::ledger::Ledger;
use ternary::{Steps, Tern};

/// Where a step works, in room that was taken before.
#[derive(Drop)]
pub struct Workspace {
    /// all that a code's instructions read, for up to 64 parts
    pub values: Vec<u64>,
    /// the nodes that change in this step
    pub changes: Vec<Change>,
    /// the parts that were evaluated in this step
    pub done: Vec<usize>,
    /// the parts that wait to be run with others of their code
    pub bundles: Bundles,
}

/// Evaluates all marked parts that have code, and clears their marks. No state is written.
///
/// Parts of one code are run together, and the last runs of large code are looked up. A part is read through its seat
/// alone: what stands with the part itself is far apart in memory.
pub fn evaluate_all<L: Ledger>(
    joining: bool,
    parts: &[MachinePart],
    dense: &mut DenseParts,
    state: &[Tern],
    agenda: &mut Agenda,
    workspace: &mut Workspace,
    steps: &mut Steps<L>,
)
    requires dense { AreDense parts.now dense.old }
    requires counted { length agenda.old.marks ≡ length parts.now }
    requires seated { All (IsSeated (length state.now) (rooms workspace.old)) parts.now }
    requires changes { workspace.old.changes.items ≡ [] }
    requires done { workspace.old.done.items ≡ [] }
    requires changes_room { marked_sum members_of parts.now agenda.old.marks ≤ vec_capacity workspace.old.changes }
    requires done_room { count_marked agenda.old.marks ≤ vec_capacity workspace.old.done }
    ensures dense { AreDense parts.now dense.new }
    ensures evaluated { Evaluated joining parts.now state.now agenda.old.waiting agenda.old.marks agenda.new.marks workspace.new.changes.items workspace.new.done.items }
    ensures rest { (k : ℕ) → IsMarked agenda.new.marks k → IsMarked agenda.old.waiting k }
    ensures count { length agenda.new.marks ≡ length agenda.old.marks }
    ensures waiting { agenda.new.waiting ≡ agenda.old.waiting }
    ensures rooms { rooms workspace.new ≡ rooms workspace.old }
    ensures steps { steps.new ≤ steps.old + marked_sum instructions_of parts.now agenda.old.marks }
{
    let none = KnownRuns::none(*dense.codes.allocator());
    let mut known = mem::replace(&mut dense.known, none);
    workspace.bundles.clear_all();
    while let Some(k) = agenda.pop() {
        workspace.done.push_reserved(k);
        if let Some(seat) = dense.seats[k] {
            take_in(joining, dense, state, seat, &mut known, workspace, steps);
        }
    }
    run_all(joining, dense, state, &mut known, workspace, steps);
    dense.known = known;
}

// The part with this seat waits to be run. If it can't, those in its slot are run first.
fn take_in<L: Ledger>(
    joining: bool,
    dense: &DenseParts,
    state: &[Tern],
    seat: Seat,
    known: &mut KnownRuns,
    workspace: &mut Workspace,
    steps: &mut Steps<L>,
)
    requires run { CanRun (length state.now) (rooms workspace.old) dense.now.codes.items dense.now.nodes.items seat }
    requires all { (one : Seat) → Waits workspace.old.bundles one → CanRun (length state.now) (rooms workspace.old) dense.now.codes.items dense.now.nodes.items one }
    requires known { Knows dense.now.codes.items known.old.codes.items }
    requires room { vec_len workspace.old.changes + waiting_sum (outputs_at dense.now.codes.items) workspace.old.bundles
        ≤ vec_capacity workspace.old.changes }
    ensures takes { TakesIn joining dense.now.codes.items dense.now.nodes.items state.now seat workspace.old.bundles workspace.new.bundles
        workspace.old.changes.items workspace.new.changes.items }
    ensures room { vec_len workspace.new.changes + waiting_sum (outputs_at dense.now.codes.items) workspace.new.bundles
        ≤ vec_len workspace.old.changes + waiting_sum (outputs_at dense.now.codes.items) workspace.old.bundles
        + outputs_at dense.now.codes.items seat.code }
    ensures steps { steps.new + waiting_sum (instructions_at dense.now.codes.items) workspace.new.bundles
        ≤ steps.old + waiting_sum (instructions_at dense.now.codes.items) workspace.old.bundles + instructions_at dense.now.codes.items seat.code }
    ensures known { Knows dense.now.codes.items known.new.codes.items }
    ensures done { workspace.new.done ≡ workspace.old.done }
    ensures rooms { rooms workspace.new ≡ rooms workspace.old }
{
    make_room(joining, dense, state, seat.code, known, workspace, steps);
    workspace.bundles.add(seat);
}

// A part with this code can wait: where it couldn't, the parts in its slot are run.
fn make_room<L: Ledger>(
    joining: bool,
    dense: &DenseParts,
    state: &[Tern],
    code: u32,
    known: &mut KnownRuns,
    workspace: &mut Workspace,
    steps: &mut Steps<L>,
)
    requires all { (one : Seat) → Waits workspace.old.bundles one → CanRun (length state.now) (rooms workspace.old) dense.now.codes.items dense.now.nodes.items one }
    requires known { Knows dense.now.codes.items known.old.codes.items }
    requires room { vec_len workspace.old.changes + waiting_sum (outputs_at dense.now.codes.items) workspace.old.bundles
        ≤ vec_capacity workspace.old.changes }
    ensures has_room { HasRoom workspace.new.bundles code }
    ensures counted { length workspace.new.bundles ≡ SLOTS }
    ensures runs { RunsSome joining dense.now.codes.items dense.now.nodes.items state.now workspace.old.bundles workspace.new.bundles
        workspace.old.changes.items workspace.new.changes.items }
    ensures room { vec_len workspace.new.changes + waiting_sum (outputs_at dense.now.codes.items) workspace.new.bundles
        ≤ vec_len workspace.old.changes + waiting_sum (outputs_at dense.now.codes.items) workspace.old.bundles }
    ensures steps { steps.new + waiting_sum (instructions_at dense.now.codes.items) workspace.new.bundles
        ≤ steps.old + waiting_sum (instructions_at dense.now.codes.items) workspace.old.bundles }
    ensures known { Knows dense.now.codes.items known.new.codes.items }
    ensures done { workspace.new.done ≡ workspace.old.done }
    ensures rooms { rooms workspace.new ≡ rooms workspace.old }
{
    if workspace.bundles.has_room(code) {
        return;
    }
    run_slot(
        joining,
        dense,
        state,
        slot_for(code),
        known,
        workspace,
        steps,
    );
}

// Runs all parts that wait.
fn run_all<L: Ledger>(
    joining: bool,
    dense: &DenseParts,
    state: &[Tern],
    known: &mut KnownRuns,
    workspace: &mut Workspace,
    steps: &mut Steps<L>,
)
    requires all { (one : Seat) → Waits workspace.old.bundles one → CanRun (length state.now) (rooms workspace.old) dense.now.codes.items dense.now.nodes.items one }
    requires known { Knows dense.now.codes.items known.old.codes.items }
    requires room { vec_len workspace.old.changes + waiting_sum (outputs_at dense.now.codes.items) workspace.old.bundles
        ≤ vec_capacity workspace.old.changes }
    ensures runs { RunsSome joining dense.now.codes.items dense.now.nodes.items state.now workspace.old.bundles workspace.new.bundles
        workspace.old.changes.items workspace.new.changes.items }
    ensures empty { IsEmptyFrom 0 workspace.new.bundles }
    ensures steps { steps.new ≤ steps.old + waiting_sum (instructions_at dense.now.codes.items) workspace.old.bundles }
    ensures known { Knows dense.now.codes.items known.new.codes.items }
    ensures done { workspace.new.done ≡ workspace.old.done }
    ensures rooms { rooms workspace.new ≡ rooms workspace.old }
{
    let high = workspace.bundles.high();
    for place in 0..high {
        run_slot(joining, dense, state, place, known, workspace, steps);
    }
}

// Runs the parts together that wait in a slot, and notes their members that change.
fn run_slot<L: Ledger>(
    joining: bool,
    dense: &DenseParts,
    state: &[Tern],
    place: usize,
    known: &mut KnownRuns,
    workspace: &mut Workspace,
    steps: &mut Steps<L>,
)
    requires inside { place < SLOTS }
    requires all { (one : Seat) → Waits workspace.old.bundles one → CanRun (length state.now) (rooms workspace.old) dense.now.codes.items dense.now.nodes.items one }
    requires known { Knows dense.now.codes.items known.old.codes.items }
    requires room { vec_len workspace.old.changes + waiting_sum (outputs_at dense.now.codes.items) workspace.old.bundles
        ≤ vec_capacity workspace.old.changes }
    ensures runs { RunsSome joining dense.now.codes.items dense.now.nodes.items state.now workspace.old.bundles workspace.new.bundles
        workspace.old.changes.items workspace.new.changes.items }
    ensures cleared { workspace.new.bundles ≡ cleared_at workspace.old.bundles place }
    ensures room { vec_len workspace.new.changes + waiting_sum (outputs_at dense.now.codes.items) workspace.new.bundles
        ≤ vec_len workspace.old.changes + waiting_sum (outputs_at dense.now.codes.items) workspace.old.bundles }
    ensures steps { steps.new + waiting_sum (instructions_at dense.now.codes.items) workspace.new.bundles
        ≤ steps.old + waiting_sum (instructions_at dense.now.codes.items) workspace.old.bundles }
    ensures known { Knows dense.now.codes.items known.new.codes.items }
    ensures done { workspace.new.done ≡ workspace.old.done }
    ensures rooms { rooms workspace.new ≡ rooms workspace.old }
{
    let starts = workspace.bundles.starts(place);
    if starts.is_empty() {
        return;
    }
    let number = workspace.bundles.code(place);
    let code = &dense.codes[number as usize];
    run_known(
        joining,
        number,
        code,
        &dense.nodes,
        starts,
        state,
        &mut workspace.values,
        known,
        &mut workspace.changes,
        steps,
    );
    workspace.bundles.clear(place);
}
