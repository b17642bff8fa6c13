//! What a machine is made of: its parts, who owns and who reads a node, and room for its steps.
ghost use Rattle.std.specs.Prelude.{◌≡◌, ◌+◌, ◌-◌, ◌*◌, ◌^◌, ◌<◌, ◌≤◌, length, vec_capacity, map, zip, count_by, All, Some, IfOk, IfSome, IfNone, OnOk};
ghost use Rattle.std.specs.List.{sum_by};
ghost use Rattle.machine_parts.specs.Words.{AreApart, has_members, members_of, AreOwners, held, Owns, HasRoomFor, IsCodeRoom, NeedTooMuch};
ghost use Rattle.part_steps.specs.Workspaces.{rooms};

use crate::bundles::Bundles;
use crate::evaluation::Workspace;
use machine_parts::MachinePart;
use std::alloc::{AllocError, Global};
use straight_code::{Code, Part};
use ternary::NoMemory;

/// The parts, each with the nodes that it reads.
pub fn parts_with_reads(
    alloc: Global,
    parts: Vec<Part>,
    reads: Vec<Vec<usize>>,
) -> Result<Vec<MachinePart>, AllocError>
    requires { length reads.items ≡ length parts.items }
    ensures { IfOk result (λ made. made.items ≡ map held (zip parts.items reads.items)) }
{
    let mut made = Vec::new(alloc);
    for (part, nodes) in parts.into_iter().zip(reads) {
        made.push(held(part, nodes))?;
    }
    Ok(made)
}

// A part that reads these nodes.
fn held(part: Part, reads: Vec<usize>) -> MachinePart
    ensures { result ≡ held (part, reads) }
{
    MachinePart {
        code: Some(part.code),
        map: part.map,
        members: part.members,
        reads,
    }
}

/// How many parts have a member.
pub fn count_held(parts: &[MachinePart]) -> usize
    ensures { result ≡ count_by has_members parts.now }
{
    let mut count = 0;
    for part in parts {
        if part.members > 0 {
            count += 1;
        }
    }
    count
}

/// For each of so many nodes the part that it is a member of, if there is one.
pub fn all_owners(
    alloc: Global,
    parts: &[MachinePart],
    nodes: usize,
) -> Result<Vec<Option<usize>>, AllocError>
    requires below { All (λ part. All (λ node. node < nodes) part.map.items) parts.now }
    requires members { All (λ part. part.members ≤ length part.map.items) parts.now }
    requires apart { AreApart parts.now }
    ensures { IfOk result (λ owners. AreOwners parts.now nodes owners.items) }
{
    let mut owners = vec![in alloc; None; nodes]?;
    for (k, part) in parts.iter().enumerate() {
        own(k, &part.map[..part.members], &mut owners);
    }
    Ok(owners)
}

/// Makes a part the owner of these nodes.
pub fn own(k: usize, members: &[usize], owners: &mut [Option<usize>])
    requires { All (λ node. node < length owners.old) members.now }
    ensures { Owns k members.now owners.old owners.new }
{
    for node in members {
        owners[*node] = Some(k);
    }
}

/// How much room the steps of these parts take.
#[derive(Clone, Copy)]
pub struct Needs {
    /// The most that a code reads.
    pub values: usize,
    /// The members of all parts.
    pub changes: usize,
}

/// Room for the steps of these parts.
pub fn workspace_for(alloc: Global, parts: &[MachinePart]) -> Result<Workspace, NoMemory>
    ensures { IfOk result (λ workspace. HasRoomFor parts.now (rooms workspace)) }
{
    match needs_of(parts) {
        Some(needs) => Ok(workspace_of(alloc, needs, parts.len())?),
        None => Err(NoMemory),
    }
}

/// How much room these parts need; None only if it is more than the machine's numbers count.
pub fn needs_of(parts: &[MachinePart]) -> Option<Needs>
    ensures values { IfSome result (λ needs. All (IsCodeRoom needs.values) parts.now) }
    ensures changes { IfSome result (λ needs. sum_by members_of parts.now ≤ needs.changes) }
    ensures none { IfNone result (NeedTooMuch parts.now) }
{
    let mut needs = Needs {
        values: 0,
        changes: 0,
    };
    for part in parts {
        needs.values = needs.values.max(values_of(part)?);
        needs.changes = needs.changes.checked_add(part.members)?;
    }
    Some(needs)
}

// How many values the code of a part reads.
fn values_of(part: &MachinePart) -> Option<usize>
    ensures some { IfSome result (λ count. IsCodeRoom count part.now) }
    ensures none { IfNone result (¬ IsCodeRoom (2 ^ 64 - 1) part.now) }
{
    match &part.code {
        Some(code) => count_values(code),
        None => Some(0),
    }
}

// How many values code reads: both constants, both rails of each input, and the results.
pub(crate) fn count_values(code: &Code) -> Option<usize>
    ensures some { IfSome result (λ count. 2 + 2 * code.now.inputs + length code.now.instructions ≡ count) }
    ensures none { IfNone result (2 ^ 64 ≤ 2 + 2 * code.now.inputs + length code.now.instructions) }
{
    let rails = code.inputs().checked_mul(2)?;
    rails.checked_add(2)?.checked_add(code.len())
}

// Room for so much, and so many parts.
fn workspace_of(alloc: Global, needs: Needs, parts: usize) -> Result<Workspace, AllocError>
    ensures values { IfOk result (λ workspace. length workspace.values.items ≡ needs.values) }
    ensures changes { IfOk result (λ workspace. needs.changes ≤ vec_capacity workspace.changes) }
    ensures parts { IfOk result (λ workspace. parts ≤ vec_capacity workspace.done) }
{
    Ok(Workspace {
        values: vec![in alloc; 0; needs.values]?,
        bundles: Bundles::new(alloc)?,
        changes: Vec::with_capacity(alloc, needs.changes)?,
        done: Vec::with_capacity(alloc, parts)?,
    })
}

/// Takes room for so many changes and so many parts, beside what there is.
pub fn widen_for_parts(
    workspace: &mut Workspace,
    changes: usize,
    parts: usize,
) -> Result<(), AllocError>
    ensures values { (rooms workspace.new).values ≡ (rooms workspace.old).values }
    ensures changes { (rooms workspace.old).changes ≤ (rooms workspace.new).changes }
    ensures parts { (rooms workspace.old).parts ≤ (rooms workspace.new).parts }
    ensures more_changes { OnOk result (changes ≤ (rooms workspace.new).changes) }
    ensures more_parts { OnOk result (parts ≤ (rooms workspace.new).parts) }
{
    workspace.changes.clear();
    workspace.done.clear();
    workspace.changes.reserve(changes)?;
    workspace.done.reserve(parts)?;
    Ok(())
}

/// Takes room for so many values, beside what there is.
pub fn widen_for_codes(workspace: &mut Workspace, values: usize) -> Result<(), AllocError>
    ensures values { OnOk result (values ≤ length workspace.new.values.items) }
    ensures more_values { length workspace.old.values.items ≤ length workspace.new.values.items }
    ensures changes { vec_capacity workspace.new.changes ≡ vec_capacity workspace.old.changes }
    ensures done { vec_capacity workspace.new.done ≡ vec_capacity workspace.old.done }
    ensures changes_are { workspace.new.changes ≡ workspace.old.changes }
    ensures done_are { workspace.new.done ≡ workspace.old.done }
{
    if workspace.values.len() < values {
        workspace.values.resize(values, 0)?;
    }
    Ok(())
}
