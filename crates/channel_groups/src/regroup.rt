//! The groups after an edit: what is looked for first, and what is written then.

ghost use Rattle.std.specs.Prelude.{◌≡◌, ℕ, ◌≤◌, None, Some, length, option_map, IfOk, OnOk, OnErr, ◌+◌, Contains};
ghost use Rattle.switch_paths.specs.Graphs.{nodes};
ghost use Rattle.std.specs.List.{sum_by};
ghost use Rattle.group_meaning.specs.Groups.{Group, AreGroups};
ghost use Rattle.channel_groups.specs.Listing.{AreListed, places_of, HasRoomAt};
ghost use Rattle.channel_groups.specs.Changes.{undo, switch_after};
ghost use Rattle.channel_groups.specs.Grouping.{held as groups_in, IsHeld};
ghost use Rattle.channel_groups.specs.Search.{search_cost};
ghost use Rattle.channel_groups.specs.Writing.{SameHeld, SameEnds, IsPlan, IsRoomy, before_cost, IsCheap};

use crate::change::{Change, changed_place, nodes_after, nodes_before};
use crate::ends::{Ends, grow_lists, grow_spots, move_place, reserve_place};
use crate::held::{Held, clear, grow_held, put_all};
use crate::search::{Found, each_once, members_touched, try_roots};
use indexmap::IndexSet;
use std::alloc::{AllocError, Global};
use std::sync::ledger::Ledger;
use switch_paths::{Graph, Switch};
use ternary::Steps;

/// What is to be taken out and put in.
#[derive(Drop)]
pub(crate) struct Plan {
    pub gone: IndexSet<usize>,
    pub found: Found,
}

/// Takes all room, and finds what is to be taken out and put in. The groups and the lists of places
/// stay, whatever the answer.
pub(crate) fn prepare<L: Ledger>(
    held: &mut Held,
    ends: &mut Ends,
    graph: &Graph,
    change: &Change,
    steps: &mut Steps<L>,
) -> Result<Plan, AllocError>
    requires held { IsHeld held.old.classes.items held.old.slots.items }
    requires counted { length held.old.classes.items ≤ length held.old.slots.items }
    requires firsts { AreListed (λ switch. switch.a) (undo graph.now change.now) None (places_of ends.old.firsts.items) }
    requires seconds { AreListed (λ switch. switch.b) (undo graph.now change.now) None (places_of ends.old.seconds.items) }
    ensures held { SameHeld held.old.classes.items held.new.classes.items held.old.slots.items held.new.slots.items }
    ensures ends { SameEnds ends.old.firsts.items ends.new.firsts.items ends.old.seconds.items ends.new.seconds.items }
    ensures plan { IfOk result (λ plan. IsPlan graph.now change.now held.new.classes.items held.new.slots.items
        plan.gone.keys plan.found.seen.keys plan.found.fresh.items) }
    ensures room { OnOk result (IsRoomy graph.now change.now held.new.classes.items ends.new.firsts.items ends.new.seconds.items) }
    ensures steps { IfOk result (λ plan. steps.new ≤ steps.old + before_cost change.now held.new.classes.items held.new.slots.items
        + length plan.gone.keys + length plan.found.seen.keys + search_cost plan.found.fresh.items) }
    ensures err { OnErr result (IsCheap graph.now change.now (groups_in held.new.slots.items) steps.old steps.new) }
{
    let alloc = *held.slots.allocator();
    make_room(alloc, held, ends, graph, change)?;
    let plan = search(alloc, held, ends, graph, change, steps)?;
    Ok(plan)
}

/// Takes room for the new nodes, and for the place at the ends of its present switch.
fn make_room(
    alloc: Global,
    held: &mut Held,
    ends: &mut Ends,
    graph: &Graph,
    change: &Change,
) -> Result<(), AllocError>
    requires { length held.old.classes.items ≤ length held.old.slots.items }
    ensures held { SameHeld held.old.classes.items held.new.classes.items held.old.slots.items held.new.slots.items }
    ensures ends { SameEnds ends.old.firsts.items ends.new.firsts.items ends.old.seconds.items ends.new.seconds.items }
    ensures room { OnOk result (IsRoomy graph.now change.now held.new.classes.items ends.new.firsts.items ends.new.seconds.items) }
{
    grow_held(held, graph.nodes())?;
    grow_lists(alloc, &mut ends.firsts, graph.nodes())?;
    grow_lists(alloc, &mut ends.seconds, graph.nodes())?;
    grow_spots(&mut ends.first_spots, graph.places())?;
    grow_spots(&mut ends.second_spots, graph.places())?;
    reserve_ends(ends, graph, change)?;
    Ok(())
}

/// Takes room for the changed place at the ends of its present switch.
fn reserve_ends(ends: &mut Ends, graph: &Graph, change: &Change) -> Result<(), AllocError>
    requires firsts { nodes graph.now ≤ length ends.old.firsts.items }
    requires seconds { nodes graph.now ≤ length ends.old.seconds.items }
    ensures ends { SameEnds ends.old.firsts.items ends.new.firsts.items ends.old.seconds.items ends.new.seconds.items }
    ensures first { OnOk result ((n : ℕ) → option_map (λ switch. switch.a) (switch_after graph.now change.now.place) ≡ Some n
        → HasRoomAt ends.new.firsts.items n) }
    ensures second { OnOk result ((n : ℕ) → option_map (λ switch. switch.b) (switch_after graph.now change.now.place) ≡ Some n
        → HasRoomAt ends.new.seconds.items n) }
{
    let Some((place, _)) = change.place else {
        return Ok(());
    };
    let Some(switch) = graph.switch_there(place) else {
        return Ok(());
    };
    reserve_place(&mut ends.firsts, switch.a)?;
    reserve_place(&mut ends.seconds, switch.b)?;
    Ok(())
}

/// Finds the groups that the edit touches, in the graph before it and in the graph now.
fn search<L: Ledger>(
    alloc: Global,
    held: &Held,
    ends: &Ends,
    graph: &Graph,
    change: &Change,
    steps: &mut Steps<L>,
) -> Result<Plan, AllocError>
    requires held { IsHeld held.now.classes.items held.now.slots.items }
    requires firsts { AreListed (λ switch. switch.a) (undo graph.now change.now) None (places_of ends.now.firsts.items) }
    requires seconds { AreListed (λ switch. switch.b) (undo graph.now change.now) None (places_of ends.now.seconds.items) }
    ensures plan { IfOk result (λ plan. IsPlan graph.now change.now held.now.classes.items held.now.slots.items
        plan.gone.keys plan.found.seen.keys plan.found.fresh.items) }
    ensures steps { IfOk result (λ plan. steps.new ≤ steps.old + before_cost change.now held.now.classes.items held.now.slots.items
        + length plan.gone.keys + length plan.found.seen.keys + search_cost plan.found.fresh.items) }
    ensures err { OnErr result (IsCheap graph.now change.now (groups_in held.now.slots.items) steps.old steps.new) }
{
    let before = nodes_before(alloc, change)?;
    let gone = members_touched(alloc, held, &before, steps)?;
    let nodes = nodes_after(alloc, graph, change)?;
    let after = each_once(alloc, &nodes)?;
    let changed = changed_place(change);
    let mut found = Found {
        seen: IndexSet::new(alloc),
        fresh: Vec::new(alloc),
    };
    try_roots(
        alloc,
        graph,
        ends,
        changed,
        gone.as_slice(),
        &mut found,
        steps,
    )?;
    try_roots(
        alloc,
        graph,
        ends,
        changed,
        after.as_slice(),
        &mut found,
        steps,
    )?;
    Ok(Plan { gone, found })
}

/// Takes out the members of the touched groups and what was found, and puts the found groups in.
pub(crate) fn write<L: Ledger>(
    held: &mut Held,
    plan: Plan,
    graph: &Graph,
    change: &Change,
    steps: &mut Steps<L>,
)
    requires held { IsHeld held.old.classes.items held.old.slots.items }
    requires groups { AreGroups (undo graph.now change.now) (groups_in held.old.slots.items) }
    requires counted { length held.old.classes.items ≤ length held.old.slots.items }
    requires room { nodes graph.now ≤ length held.old.classes.items }
    requires plan { IsPlan graph.now change.now held.old.classes.items held.old.slots.items
        plan.gone.keys plan.found.seen.keys plan.found.fresh.items }
    ensures held { IsHeld held.new.classes.items held.new.slots.items }
    ensures groups { AreGroups graph.now (groups_in held.new.slots.items) }
    ensures classes { length held.new.classes.items ≡ length held.old.classes.items }
    ensures slots { length held.new.slots.items ≡ length held.old.slots.items }
    ensures fresh { (group : Group) → Contains plan.found.fresh.items group → Contains (groups_in held.new.slots.items) group }
    ensures steps { steps.new ≡ steps.old + length plan.gone.keys + length plan.found.seen.keys
        + sum_by (λ group. length group.members) plan.found.fresh.items }
{
    let Plan { gone, found } = plan;
    let Found { seen, fresh } = found;
    clear(held, gone.as_slice(), steps);
    clear(held, seen.as_slice(), steps);
    put_all(held, fresh, steps);
}

/// Lists the changed place at the ends of its present switch.
pub(crate) fn relist(ends: &mut Ends, graph: &Graph, change: &Change)
    requires firsts { AreListed (λ switch. switch.a) (undo graph.now change.now) None (places_of ends.old.firsts.items) }
    requires seconds { AreListed (λ switch. switch.b) (undo graph.now change.now) None (places_of ends.old.seconds.items) }
    requires first { (n : ℕ) → option_map (λ switch. switch.a) (switch_after graph.now change.now.place) ≡ Some n
        → HasRoomAt ends.old.firsts.items n }
    requires second { (n : ℕ) → option_map (λ switch. switch.b) (switch_after graph.now change.now.place) ≡ Some n
        → HasRoomAt ends.old.seconds.items n }
    ensures firsts { AreListed (λ switch. switch.a) graph.now None (places_of ends.new.firsts.items) }
    ensures seconds { AreListed (λ switch. switch.b) graph.now None (places_of ends.new.seconds.items) }
    ensures firsts_count { length ends.new.firsts.items ≡ length ends.old.firsts.items }
    ensures seconds_count { length ends.new.seconds.items ≡ length ends.old.seconds.items }
{
    let Some((place, old)) = change.place else {
        return;
    };
    let new = graph.switch_there(place);
    move_place(
        &mut ends.firsts,
        &mut ends.first_spots,
        place,
        first_end(old),
        first_end(new),
    );
    move_place(
        &mut ends.seconds,
        &mut ends.second_spots,
        place,
        second_end(old),
        second_end(new),
    );
}

fn first_end(switch: Option<Switch>) -> Option<usize>
    ensures { result ≡ option_map (λ switch. switch.a) switch }
{
    Some(switch?.a)
}

fn second_end(switch: Option<Switch>) -> Option<usize>
    ensures { result ≡ option_map (λ switch. switch.b) switch }
{
    Some(switch?.b)
}
