//! The list of the nodes that a step changed, for who looks.
ghost use Rattle.std.specs.Prelude.{◌≡◌, ◌++◌, None, IfSome, OnOk};
ghost use Rattle.part_steps.specs.Workspaces.{nodes_noted};

use part_words::Change;
use std::alloc::AllocError;

/// Lists the nodes of these changes, in the place of those that were listed. Out of memory none is listed any more.
pub(crate) fn list(noted: &[Change], more: &[Change], changed: &mut Option<Vec<usize>>)
    ensures listed { IfSome changed.new (λ nodes. nodes.items ≡ nodes_noted (noted.now ++ more.now)) }
    ensures none { changed.old ≡ None → changed.new ≡ None }
{
    if let Some(nodes) = changed.take() {
        *changed = listed(noted, more, nodes);
    }
}

// The nodes of these changes, in the room of this list, if there is memory for them.
fn listed(noted: &[Change], more: &[Change], mut nodes: Vec<usize>) -> Option<Vec<usize>>
    ensures { IfSome result (λ nodes. nodes.items ≡ nodes_noted (noted.now ++ more.now)) }
{
    nodes.clear();
    add(noted, &mut nodes).ok()?;
    add(more, &mut nodes).ok()?;
    Some(nodes)
}

// Puts the nodes of these changes behind those that are listed.
fn add(changes: &[Change], nodes: &mut Vec<usize>) -> Result<(), AllocError>
    ensures { OnOk result (nodes.new.items ≡ nodes.old.items ++ nodes_noted changes.now) }
{
    for change in changes {
        nodes.push(change.node)?;
    }
    Ok(())
}
