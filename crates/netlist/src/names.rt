//! The names of a circuit, beside its graph.
ghost use Rattle.std.specs.Prelude.{◌≡◌, ◌<◌, [], ◌∷◌, ◌++◌, length, slice_get, IfOk, IfSome, None, OnErr, OnOk, Some};
ghost use Rattle.std.specs.Bool.{OnTrue};
ghost use Rattle.netlist.specs.Names.{held, name_at, node_of, rail_of, StandOnce};
ghost use Rattle.netlist.specs.Naming.{cut, entries_of, node_count, with_first, with_more, with_name, with_name_of, with_names, AreTerminals, Extends, HasNode, IsNaming};

use crate::{GND, RAILS, VDD};
use indexmap::IndexMap;
use std::alloc::{AllocError, Global};
use std::marker::Model;
use table_keys::TableKeys;
use ternary::NoMemory;

// How many guesses there are at least, a power of two, and how many bytes of a name each goes by.
const LEAST_GUESSES: usize = 16;

const MOST_GUESSED: usize = 8;

/// How many names are in use and how many nodes but the rails there are, to cut back to.
#[derive(Clone, Copy)]
pub(crate) struct Mark {
    names: usize,
    nodes: usize,
}

/// The nodes of the names at a transistor's terminals.
#[derive(Clone, Copy)]
pub(crate) struct Terminals {
    pub gate: usize,
    pub source: usize,
    pub drain: usize,
}

/// The names in use, each with its node.
///
/// Beside each node but the rails stands the place of its first name, so that a look-up by name or
/// by node never goes through all names. A spelling of a rail is never among the names.
#[derive(Drop)]
pub(crate) struct Names {
    table: IndexMap<Vec<u8>, usize, TableKeys>,
    // of node k + 2 the place of its first name in the table
    firsts: Vec<usize>,
    // where in the table a name may stand, by a few of its bytes, in one slot or the next; the name that stands there decides
    guesses: Vec<u32>,
}

impl Model for Names {
    ghost use Rattle.netlist.specs.Naming.{NamesData, IsNaming, entries_of};

    ghost Value = { NamesData };

    ghost view = { λ names. record { entries = entries_of names.table.entries; firsts = names.firsts.items } };

    ghost invariant = { λ names. IsNaming (record { entries = entries_of names.table.entries; firsts = names.firsts.items }) };
}

impl Names {
    /// The rails alone: no names. Those to come are hashed from these keys.
    pub(crate) fn new(alloc: Global, keys: TableKeys) -> Names
        ensures { result ≡ record { entries = []; firsts = [] } }
    {
        Names {
            table: IndexMap::with_hasher(alloc, keys),
            firsts: Vec::new(alloc),
            guesses: Vec::new(alloc),
        }
    }

    /// Equal names, hashed from the same keys.
    pub(crate) fn copy(&self, alloc: Global) -> Result<Names, NoMemory>
        ensures { IfOk result (λ names. names ≡ self.now) }
    {
        let table = copy_table(alloc, &self.table)?;
        let firsts = Vec::from_slice(alloc, &self.firsts)?;
        let guesses = Vec::from_slice(alloc, &self.guesses)?;
        Ok(Names {
            table,
            firsts,
            guesses,
        })
    }

    /// The keys from which names are hashed.
    pub(crate) fn keys(&self) -> TableKeys {
        *self.table.hasher()
    }

    /// The names are well formed. The call is for proofs alone.
    pub(crate) fn are_well_formed(&self)
        ensures { IsNaming self.now }
    {
        let _ = &self.table;
    }

    /// How many nodes there are, the rails included.
    pub(crate) fn nodes(&self) -> usize
        ensures { result ≡ node_count self.now }
    {
        self.firsts.len() + RAILS
    }

    /// How many names are in use.
    pub(crate) fn len(&self) -> usize
        ensures { result ≡ length self.now.entries }
    {
        self.table.len()
    }

    /// The node of a name, or None if the name isn't in use.
    pub(crate) fn find(&self, name: &[u8]) -> Option<usize>
        ensures value { result ≡ node_of self.now.entries name.now }
        ensures within { IfSome result (λ node. node < node_count self.now) }
    {
        if let Some(node) = self.guessed(name) {
            return Some(node);
        }
        match rail_named(name) {
            Some(rail) => Some(rail),
            None => self.look_up(name),
        }
    }

    // The node of a name, if the name stands in one of the two places where it is guessed.
    fn guessed(&self, name: &[u8]) -> Option<usize>
        ensures value { IfSome result (λ node. node_of self.now.entries name.now ≡ Some node) }
        ensures within { IfSome result (λ node. node < node_count self.now) }
    {
        let slot = slot_in(&self.guesses, name);
        if let Some(node) = self.node_at(guess_at(&self.guesses, slot), name) {
            return Some(node);
        }
        self.node_at(guess_behind(&self.guesses, slot), name)
    }

    // The node of a name, if the name stands at this place.
    fn node_at(&self, place: usize, name: &[u8]) -> Option<usize>
        ensures value { IfSome result (λ node. node_of self.now.entries name.now ≡ Some node) }
        ensures within { IfSome result (λ node. node < node_count self.now) }
    {
        let Some((found, node)) = self.table.get_index(place) else {
            return None;
        };
        if is_same(found, name) {
            Some(*node)
        } else {
            None
        }
    }

    /// What a node is called.
    pub(crate) fn name_of(&self, node: usize) -> &[u8]
        requires { node < node_count self.now }
        ensures name { name_at self.now.entries node ≡ Some result.now }
        ensures found { node_of self.now.entries result.now ≡ Some node }
    {
        if node == GND {
            return b"Gnd";
        }
        if node == VDD {
            return b"Vdd";
        }
        match self.table.get_index(self.firsts[node - RAILS]) {
            Some((name, _)) => name,
            None => unreachable!(),
        }
    }

    /// The name at this place among those in use, in the order in which they came into use, with its
    /// node.
    pub(crate) fn entry_at(&self, place: usize) -> (&[u8], usize)
        requires { place < length self.now.entries }
        ensures { slice_get self.now.entries place ≡ Some (result.0.now, result.1) }
    {
        match self.table.get_index(place) {
            Some((name, node)) => (name, *node),
            None => unreachable!(),
        }
    }

    /// The node of a name, which becomes the first name of a new node if it isn't in use.
    pub(crate) fn node_or_new(&mut self, name: &[u8]) -> Result<usize, NoMemory>
        ensures ok { OnOk result (self.new ≡ with_name self.old name.now) }
        ensures node { IfOk result (λ node. HasNode self.new name.now node) }
        ensures grown { Extends self.old self.new }
        ensures err { OnErr result (self.new ≡ self.old) }
    {
        match self.find(name) {
            Some(node) => Ok(node),
            None => self.add_first(name),
        }
    }

    /// Makes a name that isn't in use the first name of a new node, and answers the node.
    pub(crate) fn add_first(&mut self, name: &[u8]) -> Result<usize, NoMemory>
        requires { node_of self.old.entries name.now ≡ None }
        ensures ok { OnOk result (self.new ≡ with_first self.old name.now) }
        ensures number { IfOk result (λ node. node ≡ node_count self.old) }
        ensures err { OnErr result (self.new ≡ self.old) }
    {
        let node = self.nodes();
        let place = self.table.len();
        let word = name.to_vec(*self.table.allocator())?;
        self.firsts.reserve(1)?;
        put_new(&mut self.table, word, node)?;
        self.firsts.push_reserved(place);
        note_guess(&mut self.guesses, &self.table, place);
        Ok(node)
    }

    /// Makes a name one more name of a node, unless it is in use already.
    pub(crate) fn add_name_of(&mut self, name: &[u8], node: usize) -> Result<(), NoMemory>
        requires { node < node_count self.old }
        ensures ok { OnOk result (self.new ≡ with_name_of self.old name.now node) }
        ensures grown { Extends self.old self.new }
        ensures err { OnErr result (self.new ≡ self.old) }
    {
        match self.find(name) {
            Some(_) => Ok(()),
            None => self.add_more(name, node),
        }
    }

    // Makes a name that isn't in use one more name of a node.
    fn add_more(&mut self, name: &[u8], node: usize) -> Result<(), NoMemory>
        requires unused { node_of self.old.entries name.now ≡ None }
        requires in_range { node < node_count self.old }
        ensures ok { OnOk result (self.new ≡ with_more self.old name.now node) }
        ensures err { OnErr result (self.new ≡ self.old) }
    {
        let place = self.table.len();
        let word = name.to_vec(*self.table.allocator())?;
        let told = put_new(&mut self.table, word, node);
        note_guess(&mut self.guesses, &self.table, place);
        told
    }

    /// The nodes of the names at a transistor's terminals; those that aren't in use become the
    /// first names of new nodes, in the order gate, source, drain.
    pub(crate) fn terminals(
        &mut self,
        gate: &[u8],
        source: &[u8],
        drain: &[u8],
    ) -> Result<Terminals, NoMemory>
        ensures ok { OnOk result
            (self.new ≡ with_names self.old (gate.now ∷ source.now ∷ drain.now ∷ [])) }
        ensures nodes { IfOk result
            (λ nodes. AreTerminals self.new gate.now source.now drain.now nodes) }
        ensures grown { OnOk result (Extends self.old self.new) }
        ensures err { OnErr result (self.new ≡ self.old) }
    {
        let mark = self.mark();
        match self.try_terminals(gate, source, drain) {
            Ok(terminals) => Ok(terminals),
            Err(want) => {
                self.cut(mark);
                Err(want)
            }
        }
    }

    /// How many names and nodes there are.
    pub(crate) fn mark(&self) -> Mark
        ensures names { result.names ≡ length self.now.entries }
        ensures nodes { result.nodes ≡ length self.now.firsts }
        ensures well_formed { IsNaming self.now }
    {
        Mark {
            names: self.table.len(),
            nodes: self.firsts.len(),
        }
    }

    /// Takes back the names and nodes that were added after the mark.
    pub(crate) fn cut(&mut self, mark: Mark)
        requires { IsNaming (cut self.old mark.names mark.nodes) }
        ensures { self.new ≡ cut self.old mark.names mark.nodes }
    {
        self.table.truncate(mark.names);
        self.firsts.truncate(mark.nodes);
    }

    // As `terminals`, but out of memory some names may have been added.
    fn try_terminals(
        &mut self,
        gate: &[u8],
        source: &[u8],
        drain: &[u8],
    ) -> Result<Terminals, NoMemory>
        ensures ok { OnOk result
            (self.new ≡ with_names self.old (gate.now ∷ source.now ∷ drain.now ∷ [])) }
        ensures nodes { IfOk result
            (λ nodes. AreTerminals self.new gate.now source.now drain.now nodes) }
        ensures grown { Extends self.old self.new }
    {
        let gate = self.node_or_new(gate)?;
        let source = self.node_or_new(source)?;
        let drain = self.node_or_new(drain)?;
        Ok(Terminals {
            gate,
            source,
            drain,
        })
    }

    // The node under which the name is held.
    fn look_up(&self, name: &[u8]) -> Option<usize>
        ensures value { result ≡ held self.now.entries name.now }
        ensures within { IfSome result (λ node. node < node_count self.now) }
    {
        self.table.get(name).copied()
    }
}

/// Whether the same names are in use for the same nodes, of which there are as many.
pub(crate) fn are_alike(one: &Names, other: &Names) -> bool
    ensures names { OnTrue result (one.now.entries ≡ other.now.entries) }
    ensures nodes { OnTrue result (node_count one.now ≡ node_count other.now) }
{
    if one.nodes() != other.nodes() {
        return false;
    }
    have_same_names(one, other)
}

// Whether the same names are in use for the same nodes.
fn have_same_names(one: &Names, other: &Names) -> bool
    ensures { OnTrue result (one.now.entries ≡ other.now.entries) }
{
    if one.len() != other.len() {
        return false;
    }
    for place in 0..one.len() {
        if !stands_alike(one, other, place) {
            return false;
        }
    }
    true
}

// Whether the same name stands at this place for the same node.
fn stands_alike(one: &Names, other: &Names, place: usize) -> bool
    requires one { place < length one.now.entries }
    requires other { place < length other.now.entries }
    ensures { OnTrue result (slice_get one.now.entries place ≡ slice_get other.now.entries place) }
{
    let (name, node) = one.entry_at(place);
    is_entry(other, place, name, node)
}

// Whether this name stands at a place, for this node.
fn is_entry(names: &Names, place: usize, name: &[u8], node: usize) -> bool
    requires { place < length names.now.entries }
    ensures { OnTrue result (Some (name.now, node) ≡ slice_get names.now.entries place) }
{
    let (found, there) = names.entry_at(place);
    if there != node {
        return false;
    }
    is_same(found, name)
}

// A table of the same names with the same nodes, in the same order.
fn copy_table(
    alloc: Global,
    table: &IndexMap<Vec<u8>, usize, TableKeys>,
) -> Result<IndexMap<Vec<u8>, usize, TableKeys>, NoMemory>
    requires { StandOnce (entries_of table.now.entries) }
    ensures { IfOk result (λ copy. entries_of copy.entries ≡ entries_of table.now.entries) }
{
    let mut copy = IndexMap::with_capacity_and_hasher(alloc, table.len(), *table.hasher())?;
    for place in 0..table.len() {
        let Some((name, node)) = table.get_index(place) else {
            unreachable!()
        };
        let word = name.to_vec(alloc)?;
        put_new(&mut copy, word, *node)?;
    }
    Ok(copy)
}

// Puts a name that isn't held behind the others.
fn put_new(
    table: &mut IndexMap<Vec<u8>, usize, TableKeys>,
    name: Vec<u8>,
    node: usize,
) -> Result<(), NoMemory>
    requires { held (entries_of table.old.entries) name.items ≡ None }
    ensures ok { OnOk result
        (entries_of table.new.entries ≡ entries_of table.old.entries ++ (name.items, node) ∷ []) }
    ensures err { OnErr result (entries_of table.new.entries ≡ entries_of table.old.entries) }
{
    match table.insert(name, node) {
        Ok(_) => Ok(()),
        Err(_) => Err(NoMemory),
    }
}

// Whether two names are one: a name is short, and a comparison of slices takes longer to begin than these few bytes take.
fn is_same(one: &[u8], other: &[u8]) -> bool
    ensures { OnTrue result (one.now ≡ other.now) }
{
    if one.len() != other.len() {
        return false;
    }
    for place in 0..one.len() {
        if one[place] != other[place] {
            return false;
        }
    }
    true
}

// The slot among the guesses that a name goes by; the first one if there are none.
fn slot_in(guesses: &[u32], name: &[u8]) -> usize {
    if guesses.is_empty() {
        return 0;
    }
    slot_of(guesses.len(), name)
}

// The guess in a slot; past the last one it is the first place.
fn guess_at(guesses: &[u32], slot: usize) -> usize {
    if slot < guesses.len() {
        return guesses[slot] as usize;
    }
    0
}

// The guess in the slot behind this one, after the last of which comes the first.
fn guess_behind(guesses: &[u32], slot: usize) -> usize {
    guess_at(guesses, slot_behind(guesses, slot))
}

// The slot behind this one, after the last of which comes the first.
fn slot_behind(guesses: &[u32], slot: usize) -> usize {
    if slot < guesses.len() && slot + 1 < guesses.len() {
        return slot + 1;
    }
    0
}

// Notes where the name at this place stands; for lack of memory for that it may not be.
fn note_guess(guesses: &mut Vec<u32>, table: &IndexMap<Vec<u8>, usize, TableKeys>, place: usize) {
    if guesses.len() / 2 < table.len() {
        renew_guesses(guesses, table);
    }
    put_guess(guesses, table, place);
}

// Takes twice as many guesses, if there is memory for them.
fn renew_guesses(guesses: &mut Vec<u32>, table: &IndexMap<Vec<u8>, usize, TableKeys>) {
    let count = guesses.len().saturating_mul(2).max(LEAST_GUESSES);
    let alloc = *table.allocator();
    let Ok(mut fresh) = vec![in alloc; 0u32; count] else {
        return;
    };
    for place in 0..table.len() {
        put_guess(&mut fresh, table, place);
    }
    *guesses = fresh;
}

// Puts the place of a name among the guesses, unless both slots are those of names that came earlier: an input is named early, and
// asked for often.
fn put_guess(guesses: &mut [u32], table: &IndexMap<Vec<u8>, usize, TableKeys>, place: usize) {
    if guesses.is_empty() {
        return;
    }
    let Ok(short) = u32::try_from(place) else {
        return;
    };
    if let Some((name, _)) = table.get_index(place) {
        let first = slot_of(guesses.len(), name);
        let second = slot_behind(guesses, first);
        if is_free(guesses, table, first, place) {
            set_guess(guesses, first, short);
        } else if is_free(guesses, table, second, place) {
            set_guess(guesses, second, short);
        }
    }
}

// Whether a slot may have the place of a name: none that came earlier has it, but for the name at the first place, which is guessed
// where nothing is.
fn is_free(
    guesses: &[u32],
    table: &IndexMap<Vec<u8>, usize, TableKeys>,
    slot: usize,
    place: usize,
) -> bool {
    let there = guess_at(guesses, slot);
    there == 0 || there == place || there >= table.len()
}

// Sets the guess in a slot, if it is there.
fn set_guess(guesses: &mut [u32], slot: usize, place: u32) {
    if slot < guesses.len() {
        guesses[slot] = place;
    }
}

// Which of so many guesses, a power of two, is that of a name: by its last bytes, which differ most among names.
#[tactic(auto, using(std::proofs::lemmas::Nat::and_le_r))]
fn slot_of(count: usize, name: &[u8]) -> usize
    requires { 0 < count }
    ensures { result < count }
{
    let mut sum: u32 = 0;
    let first = name.len().saturating_sub(MOST_GUESSED);
    for byte in &name[first..] {
        sum = sum.wrapping_mul(31).wrapping_add(*byte as u32);
    }
    sum as usize & (count - 1)
}

// The rail that a name spells, in any ASCII case.
fn rail_named(name: &[u8]) -> Option<usize>
    ensures value { result ≡ rail_of name.now }
    ensures within { IfSome result (λ rail. rail < RAILS) }
{
    if name.eq_ignore_ascii_case(b"gnd") || name.eq_ignore_ascii_case(b"gnd!") {
        Some(GND)
    } else if name.eq_ignore_ascii_case(b"vdd") || name.eq_ignore_ascii_case(b"vdd!") {
        Some(VDD)
    } else {
        None
    }
}
