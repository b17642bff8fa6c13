//! The evaluation of the marked parts: their codes run on the old words, and what changes is noted.
ghost use Rattle.std.specs.Prelude.{◌≡◌, ℕ, ◌+◌, ◌<◌, ◌≤◌, List, [], length, All, vec_len, vec_capacity};
ghost use Rattle.column_machines.specs.Words.{is_in_column, MachinePart, Stands, IsMarked, count_marked, marked_sum, members_of, AreSeated};
ghost use Rattle.column_machines.specs.Words.{GivesWords};
ghost use Rattle.machine_parts.specs.Evaluating as single;
ghost use Rattle.column_machines.specs.Noting.{after_word, differs_in, Notes};
ghost use Rattle.column_machines.specs.Evaluating.{rooms, IsEven, Reports, Evaluated};

use part_lists::Agenda;
use unit_step::{Machine, MachinePart};

// A node that takes other words.
#[derive(Clone, Copy)]
pub(crate) struct WordChange {
    pub(crate) node: usize,
    pub(crate) hi: u64,
    pub(crate) lo: u64,
}

// Where a step works, in room that was taken before.
#[derive(Drop)]
pub(crate) struct Workspace {
    // both rails of a code's outputs
    pub(crate) out_hi: Vec<u64>,
    pub(crate) out_lo: Vec<u64>,
    // the nodes that change in this step
    pub(crate) changes: Vec<WordChange>,
    // the parts that were evaluated in this step
    pub(crate) done: Vec<usize>,
}

// Evaluates all marked parts, and clears their marks. No word of a state is written.
pub(crate) fn evaluate_all(
    joining: bool,
    used: u64,
    machine: &mut Machine,
    hi: &[u64],
    lo: &[u64],
    agenda: &mut Agenda,
    workspace: &mut Workspace,
)
    requires counted { length agenda.old ≡ length machine.old.parts }
    requires words { length lo.now ≡ length hi.now }
    requires nodes { length hi.now ≡ length machine.old.state }
    requires outs { All (λ part. part.members ≤ (rooms workspace.old).outs) machine.old.parts }
    requires rails { IsEven workspace.old }
    requires changes { workspace.old.changes.items ≡ [] }
    requires done { workspace.old.done.items ≡ [] }
    requires changes_room { marked_sum members_of machine.old.parts agenda.old ≤ vec_capacity workspace.old.changes }
    requires done_room { count_marked agenda.old ≤ vec_capacity workspace.old.done }
    ensures evaluated { Evaluated joining machine.old.parts used hi.now lo.now agenda.old agenda.new workspace.new.changes.items
        workspace.new.done.items }
    ensures rest { (k : ℕ) → ¬ IsMarked agenda.new k }
    ensures count { length agenda.new ≡ length agenda.old }
    ensures machine { machine.new ≡ machine.old }
    ensures rooms { rooms workspace.new ≡ rooms workspace.old }
    ensures rails { IsEven workspace.new }
{
    while let Some(k) = agenda.pop() {
        evaluate(joining, used, machine, k, hi, lo, workspace);
        workspace.done.push_reserved(k);
    }
}

// Runs the code of the part with this number, if it has one, and notes its members that change in some used column.
fn evaluate(
    joining: bool,
    used: u64,
    machine: &mut Machine,
    k: usize,
    hi: &[u64],
    lo: &[u64],
    workspace: &mut Workspace,
)
    requires inside { k < length machine.old.parts }
    requires words { length lo.now ≡ length hi.now }
    requires nodes { length hi.now ≡ length machine.old.state }
    requires outs { All (λ part. part.members ≤ (rooms workspace.old).outs) machine.old.parts }
    requires rails { IsEven workspace.old }
    requires room { (part : MachinePart) → Stands machine.old.parts k part
        → vec_len workspace.old.changes + part.members ≤ vec_capacity workspace.old.changes }
    ensures changes { Reports joining machine.old.parts used hi.now lo.now k workspace.old.changes.items workspace.new.changes.items }
    ensures few { (part : MachinePart) → Stands machine.old.parts k part
        → vec_len workspace.new.changes ≤ vec_len workspace.old.changes + part.members }
    ensures machine { machine.new ≡ machine.old }
    ensures done { workspace.new.done ≡ workspace.old.done }
    ensures rooms { rooms workspace.new ≡ rooms workspace.old }
    ensures rails { IsEven workspace.new }
{
    run_part(machine, k, hi, lo, workspace);
    note_part(joining, used, machine.all_parts(), k, hi, lo, workspace);
}

// Runs the code of the part with this number, if it has one: what it gives to its members comes to the front.
fn run_part(machine: &mut Machine, k: usize, hi: &[u64], lo: &[u64], workspace: &mut Workspace)
    requires inside { k < length machine.old.parts }
    requires words { length lo.now ≡ length hi.now }
    requires nodes { length hi.now ≡ length machine.old.state }
    requires outs { All (λ part. part.members ≤ (rooms workspace.old).outs) machine.old.parts }
    requires rails { IsEven workspace.old }
    ensures gives { (part : MachinePart) → Stands machine.old.parts k part
        → GivesWords part hi.now lo.now workspace.new.out_hi.items workspace.new.out_lo.items }
    ensures machine { machine.new ≡ machine.old }
    ensures changes { workspace.new.changes ≡ workspace.old.changes }
    ensures done { workspace.new.done ≡ workspace.old.done }
    ensures rooms { rooms workspace.new ≡ rooms workspace.old }
    ensures rails { IsEven workspace.new }
{
    machine.run_columns(k, hi, lo, &mut workspace.out_hi, &mut workspace.out_lo);
}

// Notes the members of the part with this number that change in some used column, by what its code gave.
fn note_part(
    joining: bool,
    used: u64,
    parts: &[MachinePart],
    k: usize,
    hi: &[u64],
    lo: &[u64],
    workspace: &mut Workspace,
)
    requires inside { k < length parts.now }
    requires words { length lo.now ≡ length hi.now }
    requires seated { AreSeated (length hi.now) parts.now }
    requires outs { All (λ part. part.members ≤ (rooms workspace.old).outs) parts.now }
    requires rails { IsEven workspace.old }
    requires room { (part : MachinePart) → Stands parts.now k part
        → vec_len workspace.old.changes + part.members ≤ vec_capacity workspace.old.changes }
    requires gives { (part : MachinePart) → Stands parts.now k part
        → GivesWords part hi.now lo.now workspace.old.out_hi.items workspace.old.out_lo.items }
    ensures changes { Reports joining parts.now used hi.now lo.now k workspace.old.changes.items workspace.new.changes.items }
    ensures few { (part : MachinePart) → Stands parts.now k part → vec_len workspace.new.changes ≤ vec_len workspace.old.changes + part.members }
    ensures done { workspace.new.done ≡ workspace.old.done }
    ensures rooms { rooms workspace.new ≡ rooms workspace.old }
    ensures rails { IsEven workspace.new }
{
    note_outputs(joining, used, &parts[k], hi, lo, workspace);
}

// Notes the members of a part that change in some used column, by what its code, if it has one, gave.
fn note_outputs(
    joining: bool,
    used: u64,
    part: &MachinePart,
    hi: &[u64],
    lo: &[u64],
    workspace: &mut Workspace,
)
    requires words { length lo.now ≡ length hi.now }
    requires seated { (room : single.Rooms) × single.IsSeated (length hi.now) room part.now }
    requires outs { part.now.members ≤ (rooms workspace.old).outs }
    requires rails { IsEven workspace.old }
    requires room { vec_len workspace.old.changes + part.now.members ≤ vec_capacity workspace.old.changes }
    requires gives { GivesWords part.now hi.now lo.now workspace.old.out_hi.items workspace.old.out_lo.items }
    ensures changes { (parts : List MachinePart) (k : ℕ) → Stands parts k part.now
        → Reports joining parts used hi.now lo.now k workspace.old.changes.items workspace.new.changes.items }
    ensures few { vec_len workspace.new.changes ≤ vec_len workspace.old.changes + part.now.members }
    ensures done { workspace.new.done ≡ workspace.old.done }
    ensures rooms { rooms workspace.new ≡ rooms workspace.old }
    ensures rails { IsEven workspace.new }
{
    if let Some(_code) = &part.code {
        let ones = &workspace.out_hi[..part.members];
        let others = &workspace.out_lo[..part.members];
        note_all(
            joining,
            used,
            &part.map,
            hi,
            lo,
            ones,
            others,
            &mut workspace.changes,
        );
    }
}

// Notes each node at the front of a map whose next words differ from its words in some used column.
fn note_all(
    joining: bool,
    used: u64,
    nodes: &[usize],
    hi: &[u64],
    lo: &[u64],
    ones: &[u64],
    others: &[u64],
    changes: &mut Vec<WordChange>,
)
    requires words { length lo.now ≡ length hi.now }
    requires below { All (λ node. node < length hi.now) nodes.now }
    requires front { length ones.now ≤ length nodes.now }
    requires rails { length others.now ≡ length ones.now }
    requires room { vec_len changes.old + length ones.now ≤ vec_capacity changes.old }
    ensures changes { Notes joining used nodes.now hi.now lo.now ones.now others.now (length ones.now) changes.old.items changes.new.items }
    ensures few { vec_len changes.new ≤ vec_len changes.old + length ones.now }
    ensures capacity { vec_capacity changes.new ≡ vec_capacity changes.old }
{
    for place in 0..ones.len() {
        let node = nodes[place];
        let change = WordChange {
            node,
            hi: after_word(joining, hi[node], ones[place]),
            lo: after_word(joining, lo[node], others[place]),
        };
        if differing(used, change, hi[node], lo[node]) != 0 {
            changes.push_reserved(change);
        }
    }
}

// A rail of a node that is given one: a joining step joins both.
fn after_word(joining: bool, old: u64, given: u64) -> u64
    ensures { result ≡ after_word joining old given }
{
    if joining { old | given } else { given }
}

// The used columns in which a change changes a node that has these words.
pub(crate) fn differing(used: u64, change: WordChange, hi: u64, lo: u64) -> u64
    ensures { (column : ℕ) → is_in_column column result ≡ differs_in used hi lo column change }
{
    ((change.hi ^ hi) | (change.lo ^ lo)) & used
}
