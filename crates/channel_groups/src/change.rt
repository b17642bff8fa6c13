//! How a graph was before one edit.

ghost use Rattle.std.specs.Prelude.{◌≡◌, ◌++◌, IfOk, OnOk};
ghost use Rattle.channel_groups.specs.Changes.{changed_place, nodes_before, nodes_after, ends_before, ends_after, ends_of, levelled};

use std::alloc::{AllocError, Global};
use switch_paths::{Graph, Switch};

/// How a graph was before one edit: how many nodes it had, what the named place held, and which
/// level the named node had.
#[derive(Clone, Copy, PartialEq, Eq)]
pub struct Change {
    pub nodes: usize,
    pub place: Option<(usize, Option<Switch>)>,
    pub level: Option<(usize, u8)>,
}

/// The place that is changed.
pub(crate) fn changed_place(change: &Change) -> Option<usize>
    ensures { result ≡ changed_place change.now }
{
    let (place, _) = change.place?;
    Some(place)
}

/// The nodes that the edit changed, as the graph was before it.
pub fn nodes_before(alloc: Global, change: &Change) -> Result<Vec<usize>, AllocError>
    ensures { IfOk result (λ found. found.items ≡ nodes_before change.now) }
{
    let mut found = Vec::new(alloc);
    add_ends_before(change.place, &mut found)?;
    add_levelled(change.level, &mut found)?;
    Ok(found)
}

/// The nodes that the edit changed, as the graph is now.
pub fn nodes_after(alloc: Global, graph: &Graph, change: &Change) -> Result<Vec<usize>, AllocError>
    ensures { IfOk result (λ found. found.items ≡ nodes_after graph.now change.now) }
{
    let mut found = Vec::new(alloc);
    add_ends_after(graph, change.place, &mut found)?;
    add_levelled(change.level, &mut found)?;
    for node in change.nodes..graph.nodes().max(change.nodes) {
        found.push(node)?;
    }
    Ok(found)
}

fn add_ends_before(
    place: Option<(usize, Option<Switch>)>,
    found: &mut Vec<usize>,
) -> Result<(), AllocError>
    ensures { OnOk result (found.new.items ≡ found.old.items ++ ends_before place) }
{
    match place {
        Some((_, old)) => add_ends(old, found),
        None => Ok(()),
    }
}

fn add_ends_after(
    graph: &Graph,
    place: Option<(usize, Option<Switch>)>,
    found: &mut Vec<usize>,
) -> Result<(), AllocError>
    ensures { OnOk result (found.new.items ≡ found.old.items ++ ends_after graph.now place) }
{
    match place {
        Some((place, _)) => add_ends(graph.switch_there(place), found),
        None => Ok(()),
    }
}

fn add_ends(switch: Option<Switch>, found: &mut Vec<usize>) -> Result<(), AllocError>
    ensures { OnOk result (found.new.items ≡ found.old.items ++ ends_of switch) }
{
    let Some(switch) = switch else {
        return Ok(());
    };
    found.push(switch.a)?;
    found.push(switch.b)?;
    Ok(())
}

fn add_levelled(level: Option<(usize, u8)>, found: &mut Vec<usize>) -> Result<(), AllocError>
    ensures { OnOk result (found.new.items ≡ found.old.items ++ levelled level) }
{
    let Some((node, _)) = level else {
        return Ok(());
    };
    found.push(node)?;
    Ok(())
}
