//! What a machine of columns is made of: its columns, and room for its steps.
ghost use Rattle.std.specs.Prelude.{◌≡◌, ◌≤◌, length, vec_capacity, IfOk, OnOk};
ghost use Rattle.column_machines.specs.Evaluating.{IsEven};

use crate::evaluation::Workspace;
use std::alloc::{AllocError, Global};

// Room for the steps of so many parts, which have at most so many members.
pub(crate) fn workspace_for(
    alloc: Global,
    members: usize,
    parts: usize,
) -> Result<Workspace, AllocError>
    ensures highs { IfOk result (λ workspace. length workspace.out_hi.items ≡ members) }
    ensures lows { IfOk result (λ workspace. length workspace.out_lo.items ≡ members) }
    ensures changes { IfOk result (λ workspace. members ≤ vec_capacity workspace.changes) }
    ensures parts { IfOk result (λ workspace. parts ≤ vec_capacity workspace.done) }
{
    Ok(Workspace {
        out_hi: vec![in alloc; 0; members]?,
        out_lo: vec![in alloc; 0; members]?,
        changes: Vec::with_capacity(alloc, members)?,
        done: Vec::with_capacity(alloc, parts)?,
    })
}

// Takes room for so many parts, which have at most so many members, beside what there is.
pub(crate) fn widen(
    members: usize,
    parts: usize,
    workspace: &mut Workspace,
) -> Result<(), AllocError>
    requires { IsEven workspace.old }
    ensures outs { OnOk result (members ≤ length workspace.new.out_hi.items) }
    ensures changes { OnOk result (members ≤ vec_capacity workspace.new.changes) }
    ensures parts { OnOk result (parts ≤ vec_capacity workspace.new.done) }
    ensures rails { OnOk result (IsEven workspace.new) }
{
    widen_outputs(members, workspace)?;
    workspace.changes.clear();
    workspace.done.clear();
    workspace.changes.reserve(members)?;
    workspace.done.reserve(parts)?;
    Ok(())
}

// Takes room for so many outputs.
fn widen_outputs(members: usize, workspace: &mut Workspace) -> Result<(), AllocError>
    requires { IsEven workspace.old }
    ensures outs { OnOk result (members ≤ length workspace.new.out_hi.items) }
    ensures rails { OnOk result (IsEven workspace.new) }
{
    if workspace.out_hi.len() < members {
        workspace.out_hi.resize(members, 0)?;
        workspace.out_lo.resize(members, 0)?;
    }
    Ok(())
}
