//! The groups that are stepped by vicinities, if they are known.
ghost use Rattle.std.specs.Prelude.{◌≡◌, ◌≤◌, ◌<◌, length, slice_set, vec_capacity, IfSome};
ghost use Rattle.wide_groups.specs.Moving.{PlacesIn};
ghost use Rattle.wide_groups.specs.Awake.{IsListedIn, NotesIn, LooksIn, CalmsIn, TurnedIn, ListsIn};

use part_words::Change;
use std::sync::ledger::Ledger;
use ternary::{Steps, Tern};
use vicinity::Wide;

/// Finds the steady states of the nodes that are awake, and notes those that change by it. No state is written.
pub fn evaluate_awake<L: Ledger>(
    joining: bool,
    wide: &mut Option<Wide>,
    state: &[Tern],
    noted: &mut Vec<Change>,
    steps: &mut Steps<L>,
)
    requires listed { IsListedIn state.now wide.old }
    requires room { IfSome wide.old (λ _. length state.now ≤ vec_capacity noted.old) }
    ensures same { wide.new ≡ wide.old }
    ensures notes { NotesIn joining wide.old state.now noted.new.items }
    ensures capacity { vec_capacity noted.new ≡ vec_capacity noted.old }
    ensures looks { LooksIn wide.old state.now steps.old steps.new }
{
    noted.clear();
    if let Some(wide) = wide {
        wide.evaluate(joining, state, noted, steps);
    }
}

/// After a plain step no node is touched but by what changes.
pub fn calm(joining: bool, wide: &mut Option<Wide>)
    ensures { CalmsIn joining wide.old wide.new }
{
    if let Some(wide) = wide {
        wide.calm(joining);
    }
}

/// Writes a change, and touches what it stirs.
pub fn write(node: usize, value: Tern, state: &mut [Tern], wide: &mut Option<Wide>)
    requires listed { IsListedIn state.old wide.old }
    requires inside { node < length state.old }
    ensures state { state.new ≡ slice_set state.old node value }
    ensures turned { TurnedIn wide.old wide.new state.old state.new }
{
    match wide {
        Some(wide) => wide.take(node, value, state),
        None => state[node] = value,
    }
}

/// Gives a node a state from outside, and touches what that stirs.
pub fn place(node: usize, value: Tern, state: &mut [Tern], wide: &mut Option<Wide>)
    requires listed { IsListedIn state.old wide.old }
    requires inside { node < length state.old }
    ensures state { state.new ≡ slice_set state.old node value }
    ensures places { PlacesIn node wide.old wide.new state.old state.new }
{
    match wide {
        Some(wide) => wide.place(node, value, state),
        None => state[node] = value,
    }
}

/// What is touched is listed.
pub fn touched_is_listed(wide: &Option<Wide>)
    ensures { ListsIn wide.now }
{
    if let Some(wide) = wide {
        wide.lists_what_is_touched();
    }
}
