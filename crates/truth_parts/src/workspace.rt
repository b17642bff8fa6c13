//! Where a step works, in room that is taken before.
ghost use Rattle.std.specs.Prelude.{◌≡◌, ◌≤◌, length, vec_capacity, All, IfOk};
ghost use Rattle.truth_parts.specs.Evaluating.{rooms, HasRoomFor, IsWorkspace};

use machine_parts::MachinePart;
use part_lists::most_members;
use part_steps::{Needs, needs_of};
use std::alloc::{AllocError, Global};
use ternary::NoMemory;
use truth_columns::Truths;

/// A node that takes other rails.
#[derive(Clone, Copy)]
pub struct TruthChange<A> {
    /// The node.
    pub node: usize,
    /// Where it may be 1.
    pub hi: A,
    /// Where it may be 0.
    pub lo: A,
}

/// Where a step works.
#[derive(Drop)]
pub struct Workspace<A> {
    // all that a code's instructions read, and both rails of its outputs
    pub(crate) values: Vec<A>,
    pub(crate) out_hi: Vec<A>,
    pub(crate) out_lo: Vec<A>,
    // the nodes that change in this step
    pub(crate) changes: Vec<TruthChange<A>>,
    // the parts that were taken in this step
    pub(crate) done: Vec<usize>,
}

/// Room for the steps of these parts.
pub fn workspace_for<T: Truths>(
    alloc: Global,
    truths: &T,
    parts: &[MachinePart],
) -> Result<Workspace<T::Truth>, NoMemory>
    ensures room { IfOk result (λ workspace. HasRoomFor parts.now (rooms workspace)) }
    ensures workspace { IfOk result (λ workspace. IsWorkspace (T.has truths.now) workspace) }
{
    match needs_of(parts) {
        Some(needs) => Ok(workspace_of(alloc, truths, needs, most_members(parts), parts.len())?),
        None => Err(NoMemory),
    }
}

// Room for so much, for so many outputs, and for so many parts.
fn workspace_of<T: Truths>(
    alloc: Global,
    truths: &T,
    needs: Needs,
    outs: usize,
    parts: usize,
) -> Result<Workspace<T::Truth>, AllocError>
    ensures workspace { IfOk result (λ workspace. IsWorkspace (T.has truths.now) workspace) }
    ensures values { IfOk result (λ workspace. length workspace.values.items ≡ needs.values) }
    ensures highs { IfOk result (λ workspace. length workspace.out_hi.items ≡ outs) }
    ensures changes { IfOk result (λ workspace. needs.changes ≤ vec_capacity workspace.changes) }
    ensures parts { IfOk result (λ workspace. parts ≤ vec_capacity workspace.done) }
{
    Ok(Workspace {
        values: all_never(alloc, truths, needs.values)?,
        out_hi: all_never(alloc, truths, outs)?,
        out_lo: all_never(alloc, truths, outs)?,
        changes: Vec::with_capacity(alloc, needs.changes)?,
        done: Vec::with_capacity(alloc, parts)?,
    })
}

// So many truths that hold in no column.
fn all_never<T: Truths>(
    alloc: Global,
    truths: &T,
    count: usize,
) -> Result<Vec<T::Truth>, AllocError>
    ensures count { IfOk result (λ list. length list.items ≡ count) }
    ensures has { IfOk result (λ list. All (T.has truths.now) list.items) }
{
    let never = truths.constant(false);
    let mut list = Vec::with_capacity(alloc, count)?;
    for _ in 0..count {
        list.push_reserved(never);
    }
    Ok(list)
}
