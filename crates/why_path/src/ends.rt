//! For each node the places of the switches that end at it.

ghost use Rattle.std.specs.Prelude.{◌≡◌, ℕ, ◌<◌, length, Some, IfOk, OnOk, Contains};
ghost use Rattle.why_path.specs.Words.{list_at, nodes, FitsPlace, HaveSwitches};
ghost use Rattle.switch_paths.specs.declared.switching.Switch.{Switch};

use std::alloc::{AllocError, Global};
use switch_paths::{Graph, Switch, graphs_are_wired};
use ternary::NoMemory;

/// For each node the places of the switches that have an end there.
pub(crate) fn ends_of(alloc: Global, graph: &Graph) -> Result<Vec<Vec<usize>>, NoMemory>
    ensures count { IfOk result (λ ends. length ends.items ≡ nodes graph.now) }
    ensures switches { IfOk result (λ ends. HaveSwitches graph.now ends.items) }
{
    graphs_are_wired(graph);
    let mut ends = empty_lists(alloc, graph.nodes())?;
    for place in 0..graph.places() {
        note_ends(&mut ends, graph.switch_at(place), place)?;
    }
    Ok(ends)
}

// So many empty lists.
fn empty_lists(alloc: Global, count: usize) -> Result<Vec<Vec<usize>>, NoMemory>
    ensures { IfOk result (λ lists. length lists.items ≡ count) }
{
    let mut lists = Vec::new(alloc);
    for _node in 0..count {
        lists.push(Vec::new(alloc)).map_err(AllocError::from)?;
    }
    Ok(lists)
}

// Puts a place into the lists of both ends of what stands there.
fn note_ends(
    ends: &mut Vec<Vec<usize>>,
    switch: Option<Switch>,
    place: usize,
) -> Result<(), NoMemory>
    requires { FitsPlace (length ends.old.items) switch }
    ensures count { length ends.new.items ≡ length ends.old.items }
    ensures kept { OnOk result ((other mark : ℕ) → Contains (list_at ends.old.items other) mark → Contains (list_at ends.new.items other) mark) }
    ensures noted { OnOk result ((here : Switch) → switch ≡ Some here →
        Contains (list_at ends.new.items here.a) place × Contains (list_at ends.new.items here.b) place) }
{
    let Some(switch) = switch else {
        return Ok(());
    };
    note(ends, switch.a, place)?;
    note(ends, switch.b, place)?;
    Ok(())
}

// Puts a place into the list of a node.
fn note(ends: &mut Vec<Vec<usize>>, node: usize, place: usize) -> Result<(), NoMemory>
    requires { node < length ends.old.items }
    ensures count { length ends.new.items ≡ length ends.old.items }
    ensures kept { OnOk result ((other mark : ℕ) → Contains (list_at ends.old.items other) mark → Contains (list_at ends.new.items other) mark) }
    ensures noted { OnOk result (Contains (list_at ends.new.items node) place) }
{
    ends[node].push(place).map_err(AllocError::from)?;
    Ok(())
}
