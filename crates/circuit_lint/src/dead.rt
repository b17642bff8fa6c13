//! Switches that do nothing, alike ones together.

ghost use Rattle.std.specs.Prelude.{◌≡◌, ◌+◌, ◌^◌, ◌<◌, take, length, IfOk, OnOk};
ghost use Rattle.circuit_lint.specs.Dead as spec;
ghost use Rattle.circuit_lint.specs.Tallies as tallies;

use crate::conducting::is_never_closed;
use crate::counted::Counted;
use crate::lists::push_some;
use indexmap::IndexMap;
use std::alloc::{AllocError, Global};
use strength_order::LEAST_SWITCH_LEVEL;
use switch_paths::{Graph, Switch};
use table_keys::TableKeys;

// Of each likeness of dead switches how many there are.
type Tally = IndexMap<Switch, usize, TableKeys>;

/// Each set of dead switches that are alike, by the place of its first and with their number.
pub(crate) fn dead_switches(
    alloc: Global,
    graph: &Graph,
    keys: TableKeys,
) -> Result<Vec<Counted>, AllocError>
    ensures { IfOk result (λ found. found.items ≡ spec.dead_of graph.now) }
{
    let mut tally = tally_of(alloc, graph, keys)?;
    let mut found = Vec::new(alloc);
    for place in 0..graph.places() {
        let count = taken(graph.switch_at(place), &mut tally);
        push_some(&mut found, counted_at(place, count))?;
    }
    Ok(found)
}

// A place, with a number if there is one.
fn counted_at(place: usize, count: Option<usize>) -> Option<Counted>
    ensures { result ≡ tallies.counted_at place count }
{
    match count {
        Some(count) => Some(Counted {
            number: place,
            count,
        }),
        None => None,
    }
}

// How many dead switches there are of each likeness.
fn tally_of(alloc: Global, graph: &Graph, keys: TableKeys) -> Result<Tally, AllocError>
    ensures { IfOk result (λ tally. tallies.AreTallied graph.now.places tally) }
{
    let mut tally = IndexMap::with_hasher(alloc, keys);
    for place in 0..graph.places() {
        note_place(graph, place, &mut tally)?;
    }
    Ok(tally)
}

// Counts the switch at a place with those before it, if it is dead.
fn note_place(graph: &Graph, place: usize, tally: &mut Tally) -> Result<(), AllocError>
    requires place { place < length graph.now.places }
    requires fits { place + 1 < 2 ^ 64 }
    requires before { tallies.AreTallied (take place graph.now.places) tally.old }
    ensures { OnOk result (tallies.AreTallied (take (place + 1) graph.now.places) tally.new) }
{
    let Some(switch) = graph.switch_at(place) else {
        return Ok(());
    };
    if !is_dead(switch) {
        return Ok(());
    }
    let alike = likeness(switch);
    let count = tally.get(&alike).copied().unwrap_or(0);
    tally.insert(alike, count + 1)?;
    Ok(())
}

// The number of the dead switch at a place with those that are alike, which are taken out. If they were
// taken out, or no dead switch stands there, there is none.
fn taken(switch: Option<Switch>, tally: &mut Tally) -> Option<usize>
    ensures value { result ≡ tallies.taken_of switch tally.old }
    ensures others { tallies.LeavesOthers switch tally.old tally.new }
{
    match switch {
        Some(switch) if is_dead(switch) => tally.swap_remove(&likeness(switch)),
        _ => None,
    }
}

// Whether a switch does nothing.
fn is_dead(switch: Switch) -> bool
    ensures { result ≡ spec.is_dead switch }
{
    is_never_closed(switch) || switch.a == switch.b
}

// The switch without its strength and the order of its ends.
fn likeness(switch: Switch) -> Switch
    ensures { result ≡ spec.likeness switch }
{
    Switch {
        kind: switch.kind,
        level: LEAST_SWITCH_LEVEL,
        gate: switch.gate,
        a: switch.a.min(switch.b),
        b: switch.a.max(switch.b),
    }
}
