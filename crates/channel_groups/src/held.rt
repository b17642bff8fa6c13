//! Groups as they are held: at each node its class, and at each least node its group.

ghost use Rattle.std.specs.Prelude.{◌≡◌, ℕ, ◌+◌, ◌<◌, ◌≤◌, ◌∷◌, [], length, slice_set, All, None, option_map, IfOk, OnOk};
ghost use Rattle.std.specs.List.{sum_by};
ghost use Rattle.group_meaning.specs.Groups.{Group};
ghost use Rattle.channel_groups.specs.Grouping.{class_at, slot_at, group_at_node};
ghost use Rattle.channel_groups.specs.Writing.{Clears, AreApart, Puts, AreInside, Marks, SameHeld};

use crate::group::Group;
use std::alloc::{AllocError, Global};
use std::sync::ledger::Ledger;
use ternary::Steps;

/// The groups of a graph, by their nodes.
#[derive(Drop)]
pub(crate) struct Held {
    /// At each node the least node of its group; `None` at an input node.
    pub classes: Vec<Option<usize>>,
    /// At each least node of a group that group.
    pub slots: Vec<Option<Group>>,
}

/// The group that has this node as a member, if there is one.
pub(crate) fn group_of<'a>(held: &'a Held, node: usize) -> Option<&'a Group>
    ensures { option_map (λ group. group.now) result ≡ group_at_node held.now.classes.items held.now.slots.items node }
{
    if node >= held.classes.len() {
        return None;
    }
    let id = held.classes[node]?;
    if id >= held.slots.len() {
        return None;
    }
    held.slots[id].as_ref()
}

/// The group whose least node this is, if it is one.
pub(crate) fn slot<'a>(held: &'a Held, node: usize) -> Option<&'a Group>
    ensures { option_map (λ group. group.now) result ≡ slot_at held.now.slots.items node }
{
    if node >= held.slots.len() {
        return None;
    }
    held.slots[node].as_ref()
}

/// Takes out what stands at these nodes.
pub(crate) fn clear<L: Ledger>(held: &mut Held, nodes: &[usize], steps: &mut Steps<L>)
    requires classes { All (λ node. node < length held.old.classes.items) nodes.now }
    requires counted { length held.old.classes.items ≤ length held.old.slots.items }
    ensures classes { Clears ℕ nodes.now (class_at held.old.classes.items) (class_at held.new.classes.items) }
    ensures slots { Clears Group nodes.now (slot_at held.old.slots.items) (slot_at held.new.slots.items) }
    ensures classes_count { length held.new.classes.items ≡ length held.old.classes.items }
    ensures slots_count { length held.new.slots.items ≡ length held.old.slots.items }
    ensures steps { steps.new ≡ steps.old + length nodes.now }
{
    for &node in nodes {
        steps.tick();
        held.classes[node] = None;
        set_slot(&mut held.slots, node, None);
    }
}

/// Writes what stands at a node.
fn set_slot(slots: &mut Vec<Option<Group>>, node: usize, value: Option<Group>)
    requires { node < length slots.old.items }
    ensures { slots.new.items ≡ slice_set slots.old.items node value }
{
    slots[node] = value;
}

/// Puts these groups in, over what stands at their members.
pub(crate) fn put_all<L: Ledger>(held: &mut Held, fresh: Vec<Group>, steps: &mut Steps<L>)
    requires apart { AreApart fresh.items }
    requires inside { All (AreInside (length held.old.classes.items)) fresh.items }
    requires counted { length held.old.classes.items ≤ length held.old.slots.items }
    ensures puts { Puts fresh.items held.old.classes.items held.new.classes.items held.old.slots.items held.new.slots.items }
    ensures steps { steps.new ≡ steps.old + sum_by (λ group. length group.members) fresh.items }
{
    for group in fresh {
        put(held, group, steps);
    }
}

/// Puts a group in, over what stands at its members.
fn put<L: Ledger>(held: &mut Held, group: Group, steps: &mut Steps<L>)
    requires inside { AreInside (length held.old.classes.items) group }
    requires counted { length held.old.classes.items ≤ length held.old.slots.items }
    ensures puts { Puts (group ∷ []) held.old.classes.items held.new.classes.items held.old.slots.items held.new.slots.items }
    ensures steps { steps.new ≡ steps.old + length group.members }
{
    let id = group.id().node();
    mark(&mut held.classes, group.members(), id, steps);
    set_slot(&mut held.slots, id, Some(group));
}

/// Gives these nodes this class.
fn mark<L: Ledger>(
    classes: &mut Vec<Option<usize>>,
    members: &[usize],
    id: usize,
    steps: &mut Steps<L>,
)
    requires { All (λ node. node < length classes.old.items) members.now }
    ensures marks { Marks members.now id classes.old.items classes.new.items }
    ensures steps { steps.new ≡ steps.old + length members.now }
{
    for &member in members {
        steps.tick();
        classes[member] = Some(id);
    }
}

/// No groups, with room for so many nodes.
pub(crate) fn no_groups(alloc: Global, count: usize) -> Result<Held, AllocError>
    ensures classes { IfOk result (λ held. (n : ℕ) → class_at held.classes.items n ≡ None) }
    ensures slots { IfOk result (λ held. (n : ℕ) → slot_at held.slots.items n ≡ None) }
    ensures classes_count { IfOk result (λ held. count ≤ length held.classes.items) }
    ensures counted { IfOk result (λ held. length held.classes.items ≤ length held.slots.items) }
{
    let mut held = Held {
        classes: Vec::new(alloc),
        slots: Vec::new(alloc),
    };
    grow_held(&mut held, count)?;
    Ok(held)
}

/// Makes room for so many nodes; the groups stay, whatever the answer.
pub(crate) fn grow_held(held: &mut Held, count: usize) -> Result<(), AllocError>
    requires { length held.old.classes.items ≤ length held.old.slots.items }
    ensures same { SameHeld held.old.classes.items held.new.classes.items held.old.slots.items held.new.slots.items }
    ensures ok { OnOk result (count ≤ length held.new.classes.items) }
{
    while held.classes.len() < count {
        held.slots.push(None)?;
        held.classes.push(None)?;
    }
    Ok(())
}
