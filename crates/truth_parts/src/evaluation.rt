//! The evaluation of the marked parts: their codes run on the old rails, and what changes is noted.
ghost use Rattle.std.specs.Prelude.{◌≡◌, ℕ, ◌+◌, ◌*◌, ◌<◌, ◌≤◌, List, [], length, map, take, All, vec_len, vec_capacity, IfErr, OnOk};
ghost use Rattle.ternary.specs.declared.tern.Tern.{Tern};
ghost use Rattle.truth_parts.specs.Words.{state_at, code_value, AreKept, HasColumn, Stands, IsMarked, count_marked, marked_sum, members_of};
ghost use Rattle.machine_parts.specs.declared.part.MachinePart.{MachinePart};
ghost use Rattle.truth_parts.specs.Noting.{IsOf, Notes};
ghost use Rattle.truth_parts.specs.Evaluating.{rooms, AreTaken, Evaluated, IsWorkspace, IsSeated, Reports};

use crate::noting::note_all;
use crate::workspace::Workspace;
use machine_parts::MachinePart;
use part_lists::Agenda;
use straight_code::Code;
use truth_columns::{Truths, fill, run_steps, write_outputs};

/// Evaluates all marked parts, and clears their marks. No rail of a state is written.
///
/// If the maker runs out, it tells why, and the parts that were taken are those that are done, so that they can be marked
/// again.
pub fn evaluate_all<T: Truths>(
    joining: bool,
    truths: &mut T,
    parts: &[MachinePart],
    hi: &[T::Truth],
    lo: &[T::Truth],
    agenda: &mut Agenda,
    workspace: &mut Workspace<T::Truth>,
) -> Result<(), T::Fault>
    requires counted { length agenda.old ≡ length parts.now }
    requires rails { length lo.now ≡ length hi.now }
    requires highs { All (T.has truths.old) hi.now }
    requires lows { All (T.has truths.old) lo.now }
    requires seated { All (IsSeated (length hi.now) (rooms workspace.old)) parts.now }
    requires workspace { IsWorkspace (T.has truths.old) workspace.old }
    requires changes { workspace.old.changes.items ≡ [] }
    requires done { workspace.old.done.items ≡ [] }
    requires changes_room { marked_sum members_of parts.now agenda.old ≤ vec_capacity workspace.old.changes }
    requires done_room { count_marked agenda.old ≤ vec_capacity workspace.old.done }
    ensures kept { AreKept (T.columns truths.old) (T.has truths.old) (T.holds truths.old) (T.columns truths.new) (T.has truths.new) (T.holds truths.new) }
    ensures bound { T.bound truths.new ≡ T.bound truths.old }
    ensures spent { IfErr result (T.spent truths.new) }
    ensures taken { AreTaken agenda.old agenda.new workspace.new.done.items }
    ensures evaluated { OnOk result (Evaluated joining parts.now (T.columns truths.new) (T.holds truths.new) hi.now lo.now workspace.new.changes.items workspace.new.done.items) }
    ensures own { All (IsOf (T.has truths.new)) workspace.new.changes.items }
    ensures rest { OnOk result ((k : ℕ) → ¬ IsMarked agenda.new k) }
    ensures rooms { rooms workspace.new ≡ rooms workspace.old }
    ensures workspace { IsWorkspace (T.has truths.new) workspace.new }
{
    while let Some(k) = agenda.pop() {
        workspace.done.push_reserved(k);
        evaluate(joining, truths, &parts[k], hi, lo, workspace)?;
    }
    Ok(())
}

// Runs the code of a part, if it has one, and notes its members that change in some column.
fn evaluate<T: Truths>(
    joining: bool,
    truths: &mut T,
    part: &MachinePart,
    hi: &[T::Truth],
    lo: &[T::Truth],
    workspace: &mut Workspace<T::Truth>,
) -> Result<(), T::Fault>
    requires rails { length lo.now ≡ length hi.now }
    requires highs { All (T.has truths.old) hi.now }
    requires lows { All (T.has truths.old) lo.now }
    requires seated { IsSeated (length hi.now) (rooms workspace.old) part.now }
    requires workspace { IsWorkspace (T.has truths.old) workspace.old }
    requires own { All (IsOf (T.has truths.old)) workspace.old.changes.items }
    requires room { vec_len workspace.old.changes + part.now.members ≤ vec_capacity workspace.old.changes }
    ensures kept { AreKept (T.columns truths.old) (T.has truths.old) (T.holds truths.old) (T.columns truths.new) (T.has truths.new) (T.holds truths.new) }
    ensures bound { T.bound truths.new ≡ T.bound truths.old }
    ensures spent { IfErr result (T.spent truths.new) }
    ensures changes { OnOk result ((parts : List MachinePart) (k : ℕ) → Stands parts k part.now
        → Reports joining parts (T.columns truths.new) (T.holds truths.new) hi.now lo.now k workspace.old.changes.items workspace.new.changes.items) }
    ensures own { All (IsOf (T.has truths.new)) workspace.new.changes.items }
    ensures few { vec_len workspace.new.changes ≤ vec_len workspace.old.changes + part.now.members }
    ensures done { workspace.new.done ≡ workspace.old.done }
    ensures rooms { rooms workspace.new ≡ rooms workspace.old }
    ensures workspace { IsWorkspace (T.has truths.new) workspace.new }
{
    match &part.code {
        Some(code) => {
            run_part(truths, code, &part.map, hi, lo, workspace)?;
            note_outputs(joining, truths, part, hi, lo, workspace)?;
            Ok(())
        }
        None => Ok(()),
    }
}

// Runs code on the rails of the nodes of a map.
fn run_part<T: Truths>(
    truths: &mut T,
    code: &Code,
    nodes: &[usize],
    hi: &[T::Truth],
    lo: &[T::Truth],
    workspace: &mut Workspace<T::Truth>,
) -> Result<(), T::Fault>
    requires rails { length lo.now ≡ length hi.now }
    requires nodes { length nodes.now ≡ code.now.inputs }
    requires below { All (λ node. node < length hi.now) nodes.now }
    requires values { 2 + 2 * code.now.inputs + length code.now.instructions ≤ length workspace.old.values.items }
    requires outs { length code.now.outputs ≤ length workspace.old.out_hi.items }
    requires highs { All (T.has truths.old) hi.now }
    requires lows { All (T.has truths.old) lo.now }
    requires workspace { IsWorkspace (T.has truths.old) workspace.old }
    ensures kept { AreKept (T.columns truths.old) (T.has truths.old) (T.holds truths.old) (T.columns truths.new) (T.has truths.new) (T.holds truths.new) }
    ensures bound { T.bound truths.new ≡ T.bound truths.old }
    ensures spent { IfErr result (T.spent truths.new) }
    ensures value { OnOk result ((column : ℕ) (state : List Tern) → column < T.columns truths.old → HasColumn (T.holds truths.old) column hi.now lo.now state
        → HasColumn (T.holds truths.new) column (take (length code.now.outputs) workspace.new.out_hi.items) (take (length code.now.outputs) workspace.new.out_lo.items)
        (code_value code.now (map (state_at state) nodes.now))) }
    ensures changes { workspace.new.changes ≡ workspace.old.changes }
    ensures done { workspace.new.done ≡ workspace.old.done }
    ensures rooms { rooms workspace.new ≡ rooms workspace.old }
    ensures workspace { IsWorkspace (T.has truths.new) workspace.new }
{
    run_front(
        truths,
        code,
        nodes,
        hi,
        lo,
        &mut workspace.values,
        &mut workspace.out_hi,
        &mut workspace.out_lo,
    )
}

// Runs code on the rails of the nodes of a map, and writes those of its outputs to the front.
fn run_front<T: Truths>(
    truths: &mut T,
    code: &Code,
    nodes: &[usize],
    hi: &[T::Truth],
    lo: &[T::Truth],
    values: &mut [T::Truth],
    out_hi: &mut [T::Truth],
    out_lo: &mut [T::Truth],
) -> Result<(), T::Fault>
    requires rails { length lo.now ≡ length hi.now }
    requires nodes { length nodes.now ≡ code.now.inputs }
    requires below { All (λ node. node < length hi.now) nodes.now }
    requires values { 2 + 2 * code.now.inputs + length code.now.instructions ≤ length values.old }
    requires high_outs { length code.now.outputs ≤ length out_hi.old }
    requires low_outs { length code.now.outputs ≤ length out_lo.old }
    requires highs { All (T.has truths.old) hi.now }
    requires lows { All (T.has truths.old) lo.now }
    requires values_has { All (T.has truths.old) values.old }
    requires high_has { All (T.has truths.old) out_hi.old }
    requires low_has { All (T.has truths.old) out_lo.old }
    ensures kept { AreKept (T.columns truths.old) (T.has truths.old) (T.holds truths.old) (T.columns truths.new) (T.has truths.new) (T.holds truths.new) }
    ensures bound { T.bound truths.new ≡ T.bound truths.old }
    ensures spent { IfErr result (T.spent truths.new) }
    ensures values_has { All (T.has truths.new) values.new }
    ensures high_has { All (T.has truths.new) out_hi.new }
    ensures low_has { All (T.has truths.new) out_lo.new }
    ensures value { OnOk result ((column : ℕ) (state : List Tern) → column < T.columns truths.old → HasColumn (T.holds truths.old) column hi.now lo.now state
        → HasColumn (T.holds truths.new) column (take (length code.now.outputs) out_hi.new) (take (length code.now.outputs) out_lo.new)
        (code_value code.now (map (state_at state) nodes.now))) }
{
    fill(truths, hi, lo, nodes, values);
    run_steps(truths, code, values)?;
    write_outputs(truths, code, values, out_hi, out_lo)?;
    Ok(())
}

// Notes the members of a part that change, in some column, by the outputs of its code that ran.
fn note_outputs<T: Truths>(
    joining: bool,
    truths: &mut T,
    part: &MachinePart,
    hi: &[T::Truth],
    lo: &[T::Truth],
    workspace: &mut Workspace<T::Truth>,
) -> Result<(), T::Fault>
    requires rails { length lo.now ≡ length hi.now }
    requires highs { All (T.has truths.old) hi.now }
    requires lows { All (T.has truths.old) lo.now }
    requires below { All (λ node. node < length hi.now) part.now.map.items }
    requires front { part.now.members ≤ length part.now.map.items }
    requires outs { part.now.members ≤ length workspace.old.out_hi.items }
    requires workspace { IsWorkspace (T.has truths.old) workspace.old }
    requires own { All (IsOf (T.has truths.old)) workspace.old.changes.items }
    requires room { vec_len workspace.old.changes + part.now.members ≤ vec_capacity workspace.old.changes }
    ensures kept { AreKept (T.columns truths.old) (T.has truths.old) (T.holds truths.old) (T.columns truths.new) (T.has truths.new) (T.holds truths.new) }
    ensures bound { T.bound truths.new ≡ T.bound truths.old }
    ensures spent { IfErr result (T.spent truths.new) }
    ensures changes { OnOk result (Notes joining (T.columns truths.new) (T.holds truths.new) part.now.map.items hi.now lo.now
        (take part.now.members workspace.old.out_hi.items) (take part.now.members workspace.old.out_lo.items) part.now.members
        workspace.old.changes.items workspace.new.changes.items) }
    ensures own { All (IsOf (T.has truths.new)) workspace.new.changes.items }
    ensures few { vec_len workspace.new.changes ≤ vec_len workspace.old.changes + part.now.members }
    ensures done { workspace.new.done ≡ workspace.old.done }
    ensures rooms { rooms workspace.new ≡ rooms workspace.old }
    ensures workspace { IsWorkspace (T.has truths.new) workspace.new }
{
    let ones = &workspace.out_hi[..part.members];
    let others = &workspace.out_lo[..part.members];
    note_all(
        joining,
        truths,
        &part.map,
        hi,
        lo,
        ones,
        others,
        &mut workspace.changes,
    )
}
