//! The recorder.
ghost use Rattle.std.specs.Prelude.{◌≡◌, ◌≢◌, ◌+◌, ◌++◌, ◌<◌, ◌≤◌, ◌⊎◌, ◌&&◌, true, false, [], ◌∷◌, length, map, Contains, slice_index_or, vec_len, vec_capacity, if◌then◌else◌, IfOk, OnOk, OnErr};
ghost use Rattle.std.specs.Bool.{OnTrue, OnFalse};
ghost use Rattle.switch_paths.specs.Switching.{state_at};
ghost use Rattle.part_words.specs.declared.change.Change.{Change};
ghost use Rattle.machine_parts.specs.Words.{AreAgreed, IsTaken};
ghost use Rattle.settling.specs.Moved.{ListsChanges};
ghost use Rattle.good_run.specs.Words.{RunData, count_apart, look_at, without_look, state_before, begins_at, rest_in, IsEmpty, NotesChanges, TakesNode};
ghost use Rattle.good_run.specs.Looks.{between, from_of, HasMore};
ghost use Rattle.good_run.specs.Keeping.{KeepsRecord};

use crate::look::Look;
use part_words::Change;
use settling::{Moved, Never, Observer, Onlooker};
use std::alloc::{AllocError, Global};
use std::marker::Model;
use ternary::{NoMemory, Tern};

/// The record of a run, in room that was taken before.
#[derive(Drop)]
pub struct Recorder {
    start: Vec<Tern>,
    known: Vec<Tern>,
    changes: Vec<Change>,
    looks: Vec<Look>,
    whole: bool,
}

impl Model for Recorder {
    ghost use Rattle.std.specs.Prelude.{◌-◌, length, vec_capacity, if◌then◌else◌};
    ghost use Rattle.good_run.specs.Recording.{RunData};
    ghost use Rattle.good_run.specs.Looks.{shown_in, IsRecord};

    ghost Value = { RunData };

    ghost view = { λ r. record { start = r.start.items; known = r.known.items; shown = shown_in r.start.items r.changes.items r.looks.items; left = if r.whole then vec_capacity r.changes - length r.changes.items else 0; places = if r.whole then vec_capacity r.looks - length r.looks.items else 0; whole = r.whole } };

    ghost invariant = { λ r. IsRecord r.start.items r.known.items r.changes.items r.looks.items r.whole };
}

impl Recorder {
    /// A record of nothing yet, from this state on, with room for so many changes of nodes and for so many states.
    pub fn new(
        alloc: Global,
        state: &[Tern],
        changes: usize,
        states: usize,
    ) -> Result<Recorder, AllocError>
        ensures { IfOk result (IsEmpty state.now changes states) }
    {
        Ok(Recorder {
            start: Vec::from_slice(alloc, state)?,
            known: Vec::from_slice(alloc, state)?,
            changes: Vec::with_capacity(alloc, changes)?,
            looks: Vec::with_capacity(alloc, states)?,
            whole: true,
        })
    }

    /// Whether nothing was left out.
    pub fn is_whole(&self) -> bool
        ensures { result ≡ self.now.whole }
    {
        self.whole
    }

    /// How many states were noted.
    pub fn len(&self) -> usize
        ensures { result ≡ length self.now.shown }
    {
        self.looks.len()
    }

    /// The state from which it was recorded.
    pub fn start(&self) -> &[Tern]
        ensures { result.now ≡ self.now.start }
    {
        &self.start
    }

    /// Whether a step or a phase begins with this state.
    pub fn does_begin(&self, at: usize) -> bool
        requires { at < length self.now.shown }
        ensures { result ≡ begins_at self.now at }
    {
        begins_of(&self.looks, at)
    }

    /// The changes that lead from the state before to this one.
    pub fn changes_at(&self, at: usize) -> &[Change]
        requires { at < length self.now.shown }
        ensures taken { IsTaken result.now (state_before self.now at) (state_before self.now (at + 1)) }
        ensures agreed { AreAgreed result.now }
        ensures inside { (change : Change) → Contains result.now change → change.node < length (state_before self.now (at + 1)) }
    {
        let from = end_before(&self.looks, at);
        let end = end_of(&self.looks, at);
        part_of(&self.changes, from, end)
    }

    /// How many changes were noted.
    pub fn change_count(&self) -> usize {
        self.changes.len()
    }

    /// Takes room for so many changes more. What was noted stays, out of memory too.
    pub fn reserve_changes(&mut self, count: usize) -> Result<(), AllocError>
        ensures { KeepsRecord self.old self.new }
    {
        self.changes.reserve(count)
    }

    /// Takes room for so many states more. What was noted stays, out of memory too.
    pub fn reserve_states(&mut self, count: usize) -> Result<(), AllocError>
        ensures { KeepsRecord self.old self.new }
    {
        self.looks.reserve(count)
    }

    // Notes a state, if there is room.
    fn note<M: Moved>(&mut self, begins: bool, moved: &M)
        requires { ListsChanges (M.changed moved.now) self.old.known (M.state moved.now) }
        ensures { self.new ≡ look_at begins self.old (M.state moved.now) }
    {
        let place = has_place(self.whole, &self.looks);
        let enough = take_over(moved, &mut self.known, &mut self.changes);
        self.whole = is_both(place, enough);
        end_look(self.whole, begins, self.changes.len(), &mut self.looks);
    }

    // Leaves out a state with new nodes, and so all that follow.
    fn leave_out(&mut self, state: &[Tern]) -> Result<(), AllocError>
        ensures ok { OnOk result (self.new ≡ without_look self.old state.now) }
        ensures err { OnErr result (self.new ≡ self.old) }
    {
        let known = Vec::from_slice(*self.known.allocator(), state)?;
        self.known = known;
        self.whole = false;
        Ok(())
    }

    // Of how many nodes the known state is.
    fn known_nodes(&self) -> usize
        ensures { result ≡ length self.now.known }
    {
        self.known.len()
    }
}

// Where the changes of a look begin.
fn end_before(looks: &[Look], at: usize) -> usize
    requires { at < length looks.now }
    ensures { result ≡ from_of looks.now at }
{
    if at == 0 {
        return 0;
    }
    end_of(looks, at - 1)
}

// Whether a step or a phase begins with a look.
fn begins_of(looks: &[Look], at: usize) -> bool
    requires { at < length looks.now }
    ensures { result ≡ slice_index_or (map (λ look. look.begins) looks.now) at false }
{
    looks[at].begins
}

// Where the changes of a look end.
fn end_of(looks: &[Look], at: usize) -> usize
    requires { at < length looks.now }
    ensures { result ≡ slice_index_or (map (λ look. look.end) looks.now) at 0 }
{
    looks[at].end
}

// The changes from one place up to another.
fn part_of(changes: &[Change], from: usize, end: usize) -> &[Change]
    requires ordered { from ≤ end }
    requires within { end ≤ length changes.now }
    ensures { result.now ≡ between from end changes.now }
{
    &changes[from..end]
}

// Whether there is room to note a state, if nothing was left out.
fn has_place(whole: bool, looks: &Vec<Look>) -> bool
    ensures yes { OnTrue result ((whole ≡ true) × (vec_len looks.now < vec_capacity looks.now)) }
    ensures no { OnFalse result ((whole ≡ false) ⊎ (vec_capacity looks.now ≤ vec_len looks.now)) }
{
    whole && looks.len() < looks.capacity()
}

// Ends a look, if it is to be noted.
fn end_look(noted: bool, begins: bool, end: usize, looks: &mut Vec<Look>)
    requires { noted ≡ true → vec_len looks.old < vec_capacity looks.old }
    ensures items { looks.new.items ≡ looks.old.items ++ (if noted then record { begins = begins; end = end } ∷ [] else []) }
    ensures capacity { vec_capacity looks.new ≡ vec_capacity looks.old }
{
    if noted {
        looks.push_reserved(Look { begins, end });
    }
}

// Takes over a state that moved into the one that is known, and notes the changes; answers whether there was room for all.
fn take_over<M: Moved>(moved: &M, known: &mut [Tern], changes: &mut Vec<Change>) -> bool
    requires { ListsChanges (M.changed moved.now) known.old (M.state moved.now) }
    ensures known { known.new ≡ M.state moved.now }
    ensures notes { OnTrue result (NotesChanges known.old (M.state moved.now) changes.old.items changes.new.items) }
    ensures room { OnTrue result (length changes.old.items + count_apart known.old (M.state moved.now) ≤ vec_capacity changes.old) }
    ensures over { OnFalse result (vec_capacity changes.old < length changes.old.items + count_apart known.old (M.state moved.now)) }
    ensures more { HasMore changes.old.items changes.new.items }
    ensures capacity { vec_capacity changes.new ≡ vec_capacity changes.old }
{
    let mut enough = true;
    for at in 0..moved.change_count() {
        let node = moved.changed_node(at);
        let noted = take_one(moved, node, known, changes);
        enough = is_both(enough, noted);
    }
    enough
}

// Gives a node the state that it has in a state that moved; answers whether there was room to note that.
fn take_one<M: Moved>(moved: &M, node: usize, known: &mut [Tern], changes: &mut Vec<Change>) -> bool
    requires inside { node < length known.old }
    requires there { node < length (M.state moved.now) }
    ensures takes { TakesNode node (state_at (M.state moved.now) node) known.old known.new changes.old.items changes.new.items (vec_capacity changes.old) result }
    ensures capacity { vec_capacity changes.new ≡ vec_capacity changes.old }
{
    let value = moved.states()[node];
    take_node(node, value, known, changes)
}

// Whether both hold.
fn is_both(one: bool, two: bool) -> bool
    ensures { result ≡ (one && two) }
{
    one && two
}

// Gives a node its new value, and notes that if it had another; answers whether there was room.
fn take_node(node: usize, value: Tern, known: &mut [Tern], changes: &mut Vec<Change>) -> bool
    requires { node < length known.old }
    ensures takes { TakesNode node value known.old known.new changes.old.items changes.new.items (vec_capacity changes.old) result }
    ensures capacity { vec_capacity changes.new ≡ vec_capacity changes.old }
{
    if has_state(known, node, value) {
        return true;
    }
    known[node] = value;
    push_if_room(Change { node, value }, changes)
}

// Whether a node has this state.
fn has_state(states: &[Tern], node: usize, value: Tern) -> bool
    requires { node < length states.now }
    ensures yes { OnTrue result (state_at states.now node ≡ value) }
    ensures no { OnFalse result (state_at states.now node ≢ value) }
{
    states[node] == value
}

// Puts a change behind the others, if there is room.
fn push_if_room(change: Change, changes: &mut Vec<Change>) -> bool
    ensures pushed { OnTrue result (changes.new.items ≡ changes.old.items ++ change ∷ []) }
    ensures same { OnFalse result (changes.new.items ≡ changes.old.items) }
    ensures full { OnFalse result (vec_capacity changes.old ≤ length changes.old.items) }
    ensures capacity { vec_capacity changes.new ≡ vec_capacity changes.old }
{
    if changes.len() >= changes.capacity() {
        return false;
    }
    changes.push_reserved(change);
    true
}

// Whether a state has so many nodes.
fn has_nodes(state: &[Tern], count: usize) -> bool
    ensures yes { OnTrue result (length state.now ≡ count) }
    ensures no { OnFalse result (length state.now ≢ count) }
{
    state.len() == count
}

// A state, and a list of nodes that has each that moved.
#[derive(Clone, Copy)]
struct Still<'a> {
    state: &'a [Tern],
    nodes: &'a [usize],
}

impl Moved for Still<'_> {
    ghost state = { λ still. still.state.now };

    ghost changed = { λ still. still.nodes.now };

    fn states(&self) -> &[Tern] {
        self.state
    }

    fn change_count(&self) -> usize {
        self.nodes.len()
    }

    fn changed_node(&self, at: usize) -> usize {
        self.nodes[at]
    }
}

impl Observer for Recorder {
    type Fault = Never;

    ghost Seen = { RunData };

    ghost seen = { λ run. run };

    ghost see = { look_at false };

    ghost begin = { look_at true };

    ghost rest = { rest_in };

    ghost knows = { λ run state. run.known ≡ state };

    ghost fixed = { λ _. tt };

    ghost part = { λ _ _ _ _. ⊥ };

    fn see<M: Moved>(&mut self, moved: &M) -> Result<(), Never> {
        self.note(false, moved);
        Ok(())
    }
}

impl Onlooker for Recorder {
    ghost looks = { true };

    ghost blind = { λ is _ _. absurd (Prim.cc) };

    ghost sure = { λ is _ _. absurd (Prim.cc) };

    #[inline]
    fn is_looking(&self) -> bool {
        true
    }

    fn begin<M: Moved>(&mut self, moved: &M) {
        self.note(true, moved);
    }

    fn rest(&mut self, _steps: u64) {}

    fn grow(&mut self, state: &[Tern]) -> Result<(), NoMemory> {
        if has_nodes(state, self.known_nodes()) {
            let still = Still { state, nodes: &[] };
            self.note(false, &still);
            return Ok(());
        }
        self.leave_out(state)?;
        Ok(())
    }
}
