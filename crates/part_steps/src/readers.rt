//! Who reads each node: lists of parts, which a part enters at the end and leaves without a search.
ghost use Rattle.std.specs.Prelude.{◌≡◌, ◌↔◌, ℕ, ◌+◌, ◌-◌, ◌<◌, ◌≤◌, length, vec_capacity, All, Contains, nat_eq, slice_index, IfOk, IfSome, IfNone, IsTrue, OnOk, OnErr};
ghost use Rattle.std.specs.List.{IsDistinct};
ghost use Rattle.list_facts.specs.Taking.{TakesOut};
ghost use Rattle.machine_parts.specs.Words.{AreOnce, ReadsAt, readers_of, AreEachOnce, IsLastIf, Adds, ListsSome, Unlists, ListsAll, HaveSameReaders, AreListed, AreOffTo};

use machine_parts::MachinePart;
use smallvec::SmallVec;
use std::alloc::{AllocError, Global};
use std::marker::Model;
use ternary::NoMemory;

// The parts that read a node: most nodes have few.
type Readers = SmallVec<usize, 4>;

// For each node that a part reads, in the order of its reads, where it stands in the node's list.
type Spots = SmallVec<u32, 4>;

/// For each node the parts that read it, each once.
///
/// A part leaves a list from where it stands, and the last one of the list moves there. Its spot is looked
/// at first, and nothing rests on it: if the part doesn't stand there the list is searched.
#[derive(Drop)]
pub struct ReaderLists {
    lists: Vec<Readers>,
    spots: Vec<Spots>,
}

impl Model for ReaderLists {
    ghost use Rattle.std.specs.Prelude.{ℕ, List};
    ghost use Rattle.smallvec.specs.SmallVec.{SmallVec};
    ghost use Rattle.machine_parts.specs.Readers.{AreEachOnce};

    ghost Value = { List (SmallVec ℕ) };

    ghost view = { λ readers. readers.lists.items };

    ghost invariant = { λ readers. AreEachOnce readers.lists.items };
}

impl ReaderLists {
    /// The readers of each of so many nodes.
    pub fn of_parts(
        alloc: Global,
        parts: &[MachinePart],
        nodes: usize,
    ) -> Result<ReaderLists, NoMemory>
        requires { All (λ part. All (λ node. node < nodes) part.reads.items) parts.now }
        ensures count { IfOk result (λ readers. length readers ≡ nodes) }
        ensures readers { IfOk result (λ readers. (node k : ℕ) → ReadsAt parts.now k node → Contains (readers_of readers node) k) }
        ensures reads { IfOk result (λ readers. (node k : ℕ) → Contains (readers_of readers node) k → ReadsAt parts.now k node) }
    {
        let mut lists = no_readers(alloc, nodes)?;
        let mut spots = Vec::new(alloc);
        grow_spots(alloc, &mut spots, parts.len())?;
        list_parts(alloc, parts, &mut lists, &mut spots)?;
        Ok(ReaderLists { lists, spots })
    }

    /// The parts that read a node.
    pub fn of(&self, node: usize) -> &[usize]
        requires { node < length self.now }
        ensures { result.now ≡ readers_of self.now node }
    {
        self.lists[node].as_slice()
    }

    /// Adds nodes without readers, up to so many.
    pub fn grow(&mut self, nodes: usize) -> Result<(), AllocError>
        ensures count { OnOk result (length self.new ≡ length self.old + (nodes - length self.old)) }
        ensures same { (node : ℕ) → readers_of self.new node ≡ readers_of self.old node }
        ensures err { OnErr result (self.new ≡ self.old) }
    {
        let more = nodes.saturating_sub(self.lists.len());
        self.lists.reserve(more)?;
        let alloc = *self.lists.allocator();
        grow_readers(alloc, &mut self.lists, nodes);
        Ok(())
    }

    /// Lists these parts as readers of what they read. If that fails, none of them is listed. All parts
    /// are handed in, as they are before these have reads.
    pub fn list_all(
        &mut self,
        slots: &[usize],
        fresh: &[MachinePart],
        parts: &[MachinePart],
    ) -> Result<(), NoMemory>
        requires counted { length fresh.now ≡ length slots.now }
        requires below { All (λ part. All (λ node. node < length self.old) part.reads.items) fresh.now }
        requires once { AreOnce slots.now }
        requires unlisted { (node k : ℕ) → Contains slots.now k → ¬ Contains (readers_of self.old node) k }
        ensures ok { OnOk result (ListsAll slots.now fresh.now self.old self.new) }
        ensures err { OnErr result (HaveSameReaders self.old self.new) }
    {
        let alloc = *self.lists.allocator();
        grow_spots(alloc, &mut self.spots, parts.len())?;
        list_all(alloc, slots, fresh, parts, &mut self.lists, &mut self.spots)
    }

    /// Takes a part out of the readers of these nodes, which it read. The work is that of the nodes.
    pub fn unlist(&mut self, k: usize, nodes: &[usize], parts: &[MachinePart])
        requires { All (λ node. node < length self.old) nodes.now }
        ensures { Unlists k nodes.now self.old self.new }
    {
        unlist(k, nodes, parts, &mut self.lists, &mut self.spots);
        forget(k, &mut self.spots);
    }
}

// No readers for each of so many nodes.
fn no_readers(alloc: Global, nodes: usize) -> Result<Vec<Readers>, AllocError>
    ensures count { IfOk result (λ lists. length lists.items ≡ nodes) }
    ensures none { IfOk result (λ lists. (node k : ℕ) → ¬ Contains (readers_of lists.items node) k) }
    ensures each { IfOk result (λ lists. AreEachOnce lists.items) }
{
    let mut readers = Vec::new(alloc);
    for _ in 0..nodes {
        readers.push(SmallVec::new(alloc))?;
    }
    Ok(readers)
}

// Adds nodes without readers, up to so many, in room that is there.
fn grow_readers(alloc: Global, readers: &mut Vec<Readers>, nodes: usize)
    requires { nodes ≤ vec_capacity readers.old }
    ensures count { length readers.new.items ≡ length readers.old.items + (nodes - length readers.old.items) }
    ensures same { (node : ℕ) → readers_of readers.new.items node ≡ readers_of readers.old.items node }
{
    for _node in readers.len()..nodes {
        readers.push_reserved(SmallVec::new(alloc));
    }
}

// Lists all parts as readers of what they read, if none is listed.
fn list_parts(
    alloc: Global,
    parts: &[MachinePart],
    lists: &mut [Readers],
    spots: &mut [Spots],
) -> Result<(), NoMemory>
    requires below { All (λ part. All (λ node. node < length lists.old) part.reads.items) parts.now }
    requires none { (node k : ℕ) → ¬ Contains (readers_of lists.old node) k }
    requires each { AreEachOnce lists.old }
    ensures { OnOk result (AreListed parts.now (length lists.old) (length parts.now) lists.new) }
{
    for (k, part) in parts.iter().enumerate() {
        list_part(alloc, k, &part.reads, lists, spots)?;
    }
    Ok(())
}

// Lists these parts as readers of what they read. If that fails, none of them is listed.
fn list_all(
    alloc: Global,
    slots: &[usize],
    fresh: &[MachinePart],
    parts: &[MachinePart],
    lists: &mut [Readers],
    spots: &mut [Spots],
) -> Result<(), NoMemory>
    requires counted { length fresh.now ≡ length slots.now }
    requires below { All (λ part. All (λ node. node < length lists.old) part.reads.items) fresh.now }
    requires once { AreOnce slots.now }
    requires unlisted { (node k : ℕ) → Contains slots.now k → ¬ Contains (readers_of lists.old node) k }
    requires each { AreEachOnce lists.old }
    ensures ok { OnOk result (ListsAll slots.now fresh.now lists.old lists.new) }
    ensures err { OnErr result (HaveSameReaders lists.old lists.new) }
    ensures each { AreEachOnce lists.new }
{
    for (place, part) in fresh.iter().enumerate() {
        if list_part(alloc, slots[place], &part.reads, lists, spots).is_err() {
            unlist_all(slots, fresh, parts, lists, spots);
            return Err(NoMemory);
        }
    }
    Ok(())
}

// Takes these parts off the lists of the readers of what they read.
fn unlist_all(
    slots: &[usize],
    fresh: &[MachinePart],
    parts: &[MachinePart],
    lists: &mut [Readers],
    spots: &mut [Spots],
)
    requires counted { length fresh.now ≡ length slots.now }
    requires below { All (λ part. All (λ node. node < length lists.old) part.reads.items) fresh.now }
    requires each { AreEachOnce lists.old }
    ensures { AreOffTo slots.now fresh.now (length fresh.now) lists.old lists.new }
{
    for (place, part) in fresh.iter().enumerate() {
        unlist(slots[place], &part.reads, parts, lists, spots);
    }
}

// Lists a part as a reader of these nodes, if it isn't listed. If that fails it may be listed at
// some of them.
fn list_part(
    alloc: Global,
    k: usize,
    nodes: &[usize],
    lists: &mut [Readers],
    spots: &mut [Spots],
) -> Result<(), NoMemory>
    requires below { All (λ node. node < length lists.old) nodes.now }
    requires none { (node : ℕ) → ¬ Contains (readers_of lists.old node) k }
    requires each { AreEachOnce lists.old }
    ensures some { ListsSome k nodes.now lists.old lists.new }
    ensures ok { OnOk result ((node : ℕ) → Contains nodes.now node → Contains (readers_of lists.new node) k) }
{
    list_at(k, nodes, lists)?;
    let last = last_spots(alloc, nodes, lists)?;
    set_spots(k, last, spots);
    Ok(())
}

// Lists a part as the last reader of these nodes, if it isn't listed. If that fails it may be listed
// at some of them.
fn list_at(k: usize, nodes: &[usize], lists: &mut [Readers]) -> Result<(), NoMemory>
    requires below { All (λ node. node < length lists.old) nodes.now }
    requires none { (node : ℕ) → ¬ Contains (readers_of lists.old node) k }
    requires each { AreEachOnce lists.old }
    ensures some { ListsSome k nodes.now lists.old lists.new }
    ensures ok { OnOk result ((node : ℕ) → Contains nodes.now node → Contains (readers_of lists.new node) k) }
{
    for node in nodes {
        if add(k, &mut lists[*node]).is_err() {
            return Err(NoMemory);
        }
    }
    Ok(())
}

// Adds a part at the end of a list, unless it stands there.
fn add(k: usize, list: &mut Readers) -> Result<(), NoMemory>
    requires once { IsDistinct nat_eq list.old.items }
    requires last { IsLastIf k list.old.items }
    ensures ok { OnOk result (Adds k list.old.items list.new.items) }
    ensures err { OnErr result (list.new.items ≡ list.old.items) }
{
    if is_last(k, list.as_slice()) {
        return Ok(());
    }
    if list.push(k).is_err() {
        return Err(NoMemory);
    }
    Ok(())
}

// Whether a part is the last of a list.
fn is_last(k: usize, list: &[usize]) -> bool
    ensures { IsTrue result ↔ ((0 < length list.now) × (slice_index list.now (length list.now - 1) ≡ k)) }
{
    let count = list.len();
    if count == 0 {
        return false;
    }
    list[count - 1] == k
}

// Takes a part off the lists of these nodes.
fn unlist(
    k: usize,
    nodes: &[usize],
    parts: &[MachinePart],
    lists: &mut [Readers],
    spots: &mut [Spots],
)
    requires below { All (λ node. node < length lists.old) nodes.now }
    requires each { AreEachOnce lists.old }
    ensures { Unlists k nodes.now lists.old lists.new }
{
    for (read, node) in nodes.iter().enumerate() {
        let spot = take_off(k, spot_at(k, read, spots), &mut lists[*node]);
        moved(spot, *node, lists[*node].as_slice(), parts, spots);
    }
}

// Takes a part off a list, and tells the spot where the last one stands now, or one past the list. This
// spot is looked at first.
fn take_off(k: usize, guess: usize, list: &mut Readers) -> usize
    requires { IsDistinct nat_eq list.old.items }
    ensures { TakesOut k list.old.items list.new.items }
{
    match spot_in(k, guess, list.as_slice()) {
        Some(spot) => {
            list.swap_remove(spot);
            spot
        }
        None => list.len(),
    }
}

// Where a part stands in a list, if it does. This spot is looked at first.
fn spot_in(k: usize, guess: usize, list: &[usize]) -> Option<usize>
    ensures within { IfSome result (λ spot. spot < length list.now) }
    ensures value { IfSome result (λ spot. slice_index list.now spot ≡ k) }
    ensures none { IfNone result (¬ Contains list.now k) }
{
    if guess < list.len() && list[guess] == k {
        return Some(guess);
    }
    for (spot, one) in list.iter().enumerate() {
        if *one == k {
            return Some(spot);
        }
    }
    None
}

// Makes spots for so many parts.
fn grow_spots(alloc: Global, spots: &mut Vec<Spots>, parts: usize) -> Result<(), AllocError> {
    for _part in spots.len()..parts {
        spots.push(SmallVec::new(alloc))?;
    }
    Ok(())
}

// The spots of a part that stands last in the lists of these nodes.
fn last_spots(alloc: Global, nodes: &[usize], lists: &[Readers]) -> Result<Spots, AllocError>
    requires { All (λ node. node < length lists.now) nodes.now }
{
    let mut spots = SmallVec::new(alloc);
    for node in nodes {
        let last = lists[*node].len().saturating_sub(1);
        spots.push(noted(last))?;
    }
    Ok(spots)
}

// A spot as it is noted. One that is too large isn't: the list is searched then.
fn noted(spot: usize) -> u32 {
    u32::try_from(spot).unwrap_or(u32::MAX)
}

// The spot that is noted for a part and a node that it reads, or one past all lists.
fn spot_at(k: usize, read: usize, spots: &[Spots]) -> usize {
    if k < spots.len() {
        let of_part = spots[k].as_slice();
        if read < of_part.len() {
            return of_part[read] as usize;
        }
    }
    usize::MAX
}

// Notes the spots of a part.
fn set_spots(k: usize, fresh: Spots, spots: &mut [Spots]) {
    if k < spots.len() {
        spots[k] = fresh;
    }
}

// Notes that the part at this spot of a node's list came there, if one stands there.
fn moved(spot: usize, node: usize, list: &[usize], parts: &[MachinePart], spots: &mut [Spots]) {
    if spot >= list.len() {
        return;
    }
    let k = list[spot];
    if k >= parts.len() || k >= spots.len() {
        return;
    }
    if let Ok(read) = parts[k].reads.binary_search(&node) {
        set_spot(read, spot, &mut spots[k]);
    }
}

// Notes where a part stands in the list of one of the nodes that it reads.
fn set_spot(read: usize, spot: usize, spots: &mut Spots) {
    if read < spots.len() {
        spots[read] = noted(spot);
    }
}

// Notes nothing of a part any more.
fn forget(k: usize, spots: &mut [Spots]) {
    if k < spots.len() {
        spots[k].clear();
    }
}
