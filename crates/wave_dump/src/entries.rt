//! The entries of a dump: with their values, and listed by their nodes.
ghost use Rattle.std.specs.Prelude.{◌≡◌, ◌≢◌, ◌<◌, [], ◌∷◌, ◌++◌, All, IsTrue, length, map, slice_set, IfOk, OnOk};
ghost use Rattle.std.specs.Bool.{OnTrue, OnFalse};
ghost use Rattle.switch_paths.specs.Switching.{state_at};
ghost use Rattle.wave_dump.specs.Entries.{AreListed, IsInside, ListsEntry, MarksNode, entries_of};
ghost use Rattle.wave_dump.specs.Values.{value_in};

use std::alloc::{AllocError, Global};
use std::marker::Model;
use ternary::Tern;

/// An entry, with its value that was written last.
#[derive(Drop)]
pub(crate) struct Entry {
    name: Vec<u8>,
    nodes: Vec<usize>,
    shown: Vec<Tern>,
}

impl Model for Entry {
    ghost use Rattle.std.specs.Prelude.{◌≡◌, length};
    ghost use Rattle.wave_dump.specs.Entries.{ShownEntry};

    ghost Value = { ShownEntry };

    ghost view = { λ held. record { entry = record { name = held.name.items; nodes = held.nodes.items }; shown = held.shown.items } };

    ghost invariant = { λ held. length held.shown.items ≡ length held.nodes.items };
}

impl Entry {
    // The entry of this name and these nodes.
    pub(crate) fn new(alloc: Global, name: &[u8], nodes: &[usize]) -> Result<Entry, AllocError>
        ensures { IfOk result (λ held. held.entry ≡ record { name = name.now; nodes = nodes.now }) }
    {
        let mut shown = Vec::new(alloc);
        shown.resize(nodes.len(), Tern::Unk)?;
        Ok(Entry {
            name: Vec::from_slice(alloc, name)?,
            nodes: Vec::from_slice(alloc, nodes)?,
            shown,
        })
    }

    pub(crate) fn name(&self) -> &[u8]
        ensures { result.now ≡ self.now.entry.name }
    {
        &self.name
    }

    pub(crate) fn nodes(&self) -> &[usize]
        ensures { result.now ≡ self.now.entry.nodes }
    {
        &self.nodes
    }

    pub(crate) fn shown(&self) -> &[Tern]
        ensures { result.now ≡ self.now.shown }
    {
        &self.shown
    }

    // Takes the value in this state, and answers whether it is another one.
    pub(crate) fn refresh(&mut self, states: &[Tern]) -> bool
        requires { IsInside (length states.now) self.old.entry }
        ensures entry { self.new.entry ≡ self.old.entry }
        ensures shown { self.new.shown ≡ value_in states.now self.old.entry }
        ensures changed { OnTrue result (self.new.shown ≢ self.old.shown) }
        ensures same { OnFalse result (self.new.shown ≡ self.old.shown) }
    {
        take_values(&self.nodes, states, &mut self.shown)
    }
}

// Takes the states of these nodes, and answers whether one is another than before.
fn take_values(nodes: &[usize], states: &[Tern], shown: &mut [Tern]) -> bool
    requires inside { All (λ node. node < length states.now) nodes.now }
    requires count { length shown.old ≡ length nodes.now }
    ensures shown { shown.new ≡ map (state_at states.now) nodes.now }
    ensures changed { OnTrue result (shown.new ≢ shown.old) }
    ensures same { OnFalse result (shown.new ≡ shown.old) }
{
    let mut changed = false;
    for at in 0..nodes.len() {
        let node = nodes[at];
        let other = put_state(shown, at, states[node]);
        changed |= other;
    }
    changed
}

// Puts a state at a place, and answers whether it is another than before.
fn put_state(shown: &mut [Tern], at: usize, state: Tern) -> bool
    requires { at < length shown.old }
    ensures shown { shown.new ≡ slice_set shown.old at state }
    ensures changed { OnTrue result (state ≢ state_at shown.old at) }
    ensures same { OnFalse result (state ≡ state_at shown.old at) }
{
    let other = shown[at] != state;
    shown[at] = state;
    other
}

/// The numbers of the entries that have a node.
#[derive(Drop)]
pub(crate) struct Numbers {
    numbers: Vec<usize>,
}

impl Model for Numbers {
    ghost use Rattle.std.specs.Prelude.{ℕ, List};

    ghost Value = { List ℕ };

    ghost view = { λ numbers. numbers.numbers.items };
}

impl Numbers {
    // None.
    fn new(alloc: Global) -> Numbers
        ensures { result ≡ [] }
    {
        Numbers {
            numbers: Vec::new(alloc),
        }
    }

    // One number more.
    fn push(&mut self, number: usize) -> Result<(), AllocError>
        ensures { OnOk result (self.new ≡ self.old ++ number ∷ []) }
    {
        self.numbers.extend_from_slice(&[number])
    }

    // All of them.
    fn all(&self) -> &[usize]
        ensures { result.now ≡ self.now }
    {
        &self.numbers
    }
}

// For each of so many nodes the numbers of the entries that have it.
fn lists_of(alloc: Global, entries: &[Entry], count: usize) -> Result<Vec<Numbers>, AllocError>
    requires { All (IsInside count) (entries_of entries.now) }
    ensures { IfOk result (λ lists. AreListed (entries_of entries.now) lists.items) }
{
    let mut lists = no_lists(alloc, count)?;
    for number in 0..entries.len() {
        list_entry(&mut lists, entries[number].nodes(), number)?;
    }
    Ok(lists)
}

// The same, and whether there was memory for it.
pub(crate) fn lists_if_room(alloc: Global, entries: &[Entry], count: usize) -> (Vec<Numbers>, bool)
    requires { All (IsInside count) (entries_of entries.now) }
    ensures { IsTrue result.1 → AreListed (entries_of entries.now) result.0.items }
{
    match lists_of(alloc, entries, count) {
        Ok(lists) => (lists, true),
        Err(_) => (Vec::new(alloc), false),
    }
}

// No number at each of so many nodes.
fn no_lists(alloc: Global, count: usize) -> Result<Vec<Numbers>, AllocError>
    ensures { IfOk result (λ lists. length lists.items ≡ count) }
{
    let mut lists = Vec::new(alloc);
    for _ in 0..count {
        lists.push(Numbers::new(alloc))?;
    }
    Ok(lists)
}

// Lists an entry at its nodes.
fn list_entry(lists: &mut [Numbers], nodes: &[usize], number: usize) -> Result<(), AllocError>
    requires { All (λ node. node < length lists.old) nodes.now }
    ensures { OnOk result (ListsEntry nodes.now number lists.old lists.new) }
{
    for &node in nodes {
        lists[node].push(number)?;
    }
    Ok(())
}

// Marks the entries that are listed at a node.
pub(crate) fn mark(
    lists: &[Numbers],
    node: usize,
    marked: &mut Vec<usize>,
) -> Result<(), AllocError>
    ensures { OnOk result (MarksNode lists.now node marked.old.items marked.new.items) }
{
    if node >= lists.len() {
        return Ok(());
    }
    marked.extend_from_slice(lists[node].all())?;
    Ok(())
}
