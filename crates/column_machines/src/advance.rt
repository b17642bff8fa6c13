//! One step of all columns: all marked parts are evaluated on the old words, and then the changes are taken over.
ghost use Rattle.std.specs.Prelude.{◌≡◌, ℕ, ◌<◌, ◌⊎◌, ◌↔◌, true, length, Contains};
ghost use Rattle.machine_parts.specs.Parts.{IsStale};
ghost use Rattle.machine_parts.specs.Marking.{MarksAll};
ghost use Rattle.column_machines.specs.Evaluating.{rooms, IsEven};
ghost use Rattle.column_machines.specs.Running.{IsBare, IsRunnable, StaysOn, StepsInAll};

use crate::evaluation::{Workspace, evaluate_all};
use crate::taking::{changed_columns, take_over};
use part_lists::Agenda;
use unit_step::{Machine, MachinePart};

// Takes a step of all columns, plain or joining, and answers with the bits of the used columns that it changes.
//
// Its work is that of the marked parts, and of the parts that read a node that changes. It takes no
// memory: there is room for a change of each member of the marked parts, since each evaluation clears a
// mark. The machine lends its parts and the room for its codes, and stays as it is.
pub(crate) fn advance(
    joining: bool,
    used: u64,
    machine: &mut Machine,
    hi: &mut [u64],
    lo: &mut [u64],
    agenda: &mut Agenda,
    workspace: &mut Workspace,
) -> u64
    requires words { length lo.old ≡ length hi.old }
    requires nodes { length hi.old ≡ length machine.old.state }
    requires runnable { IsRunnable machine.old.parts agenda.old (rooms workspace.old) }
    requires rails { IsEven workspace.old }
    ensures columns_are { StepsInAll joining machine.old.parts used agenda.old agenda.new hi.old lo.old hi.new lo.new result }
    ensures machine { machine.new ≡ machine.old }
    ensures rooms { rooms workspace.new ≡ rooms workspace.old }
    ensures rails { IsEven workspace.new }
{
    workspace.changes.clear();
    workspace.done.clear();
    evaluate_all(joining, used, machine, hi, lo, agenda, workspace);
    mark_again(joining, &workspace.done, machine.all_parts(), agenda);
    let changed = changed_columns(used, &workspace.changes, hi, lo);
    take_over(&workspace.changes, machine, hi, lo, agenda);
    changed
}

// After a joining step the parts that were evaluated stay marked: their members need not rest. So do stale ones after any
// step.
fn mark_again(joining: bool, done: &[usize], parts: &[MachinePart], agenda: &mut Agenda)
    requires counted { length agenda.old ≡ length parts.now }
    requires inside { (k : ℕ) → Contains done.now k → k < length parts.now }
    ensures { MarksAll (StaysOn joining parts.now done.now) agenda.old agenda.new }
{
    for k in done {
        mark_if(stays_at(joining, parts, *k), *k, agenda);
    }
}

// Whether the part with this number stays marked in a step.
fn stays_at(joining: bool, parts: &[MachinePart], k: usize) -> bool
    requires { k < length parts.now }
    ensures { (result ≡ true) ↔ ((joining ≡ true) ⊎ IsStale parts.now k) }
{
    stays_on(joining, &parts[k])
}

// Whether a part stays marked in a step.
fn stays_on(joining: bool, part: &MachinePart) -> bool
    ensures { (result ≡ true) ↔ ((joining ≡ true) ⊎ IsBare part.now) }
{
    if joining {
        return true;
    }
    is_bare(part)
}

// Whether a part has members, and no code.
fn is_bare(part: &MachinePart) -> bool
    ensures { (result ≡ true) ↔ IsBare part.now }
{
    match &part.code {
        Some(_code) => false,
        None => has_members(part),
    }
}

// Whether a part has members.
fn has_members(part: &MachinePart) -> bool
    ensures { (result ≡ true) ↔ (0 < part.now.members) }
{
    part.members > 0
}

// Marks a part, if it stays marked.
fn mark_if(stays: bool, k: usize, agenda: &mut Agenda)
    requires { k < length agenda.old }
    ensures { MarksAll (λ l. (stays ≡ true) × (k ≡ l)) agenda.old agenda.new }
{
    if stays {
        agenda.mark(k);
        return;
    }
}
