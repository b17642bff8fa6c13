//! The places at a node, with those in front whose switches aren't open.
ghost use Rattle.std.specs.Prelude.{◌≡◌, ℕ, ◌<◌, ◌++◌, [], length, replicate, Contains, IfOk, OnOk};
ghost use Rattle.machine_parts.specs.Marking.{AreOnce};
ghost use Rattle.vicinity.specs.Words.{all_at, no_places, TurnsIn, AddsIn, AddsAt};

use crate::arms::Places;
use crate::turning::{spot_of, turn};
use smallvec::SmallVec;
use std::alloc::{AllocError, Global};
use std::marker::Model;

/// The places at a node. Those in front are live: a place that turns is swapped with one at the border.
#[derive(Drop)]
pub struct LiveList {
    places: Places,
    border: usize,
}

impl Model for LiveList {
    ghost use Rattle.std.specs.Prelude.{◌≤◌, length, take};
    ghost use Rattle.machine_parts.specs.Marking.{AreOnce};
    ghost use Rattle.vicinity.specs.Lists.{LiveListData};

    ghost Value = { LiveListData };

    ghost view = { λ list. record { items = take list.border list.places.items; all = list.places.items } };

    ghost invariant = { λ list. (list.border ≤ length list.places.items) × AreOnce list.places.items };
}

impl LiveList {
    /// A list without places.
    pub fn new(alloc: Global) -> LiveList
        ensures { result ≡ record { items = []; all = [] } }
    {
        LiveList {
            places: SmallVec::new(alloc),
            border: 0,
        }
    }

    /// The places in front, each once.
    pub fn live(&self) -> &[usize]
        ensures value { result.now ≡ self.now.items }
        ensures once { AreOnce result.now }
    {
        &self.places.as_slice()[..self.border]
    }

    /// All places: those in front, and then those behind.
    pub fn all(&self) -> &[usize]
        ensures { result.now ≡ self.now.all }
    {
        self.places.as_slice()
    }

    /// A new place stands in the list, in front if it is live.
    pub fn add(&mut self, place: usize, live: bool) -> Result<(), AllocError>
        requires { ¬ Contains self.old.all place }
        ensures { OnOk result (AddsIn live place self.old self.new) }
    {
        let last = self.places.len();
        self.places.push(place)?;
        self.turn(last, place, live);
        Ok(())
    }

    /// A place comes to the front, or leaves it. This spot is looked at first, and nothing rests on it: if the place
    /// doesn't stand there, the list is searched. Answers where it stood.
    pub fn turn(&mut self, hint: usize, place: usize, live: bool) -> Option<usize>
        ensures turns { TurnsIn live place self.old self.new }
    {
        let Some(spot) = spot_of(self.places.as_slice(), hint, place) else {
            return None;
        };
        self.border = turn(self.places.as_mut_slice(), self.border, spot, live);
        Some(spot)
    }
}

/// Lists without places, so many of them.
pub(crate) fn empty_lists(alloc: Global, count: usize) -> Result<Vec<LiveList>, AllocError>
    ensures count { IfOk result (λ lists. length lists.items ≡ count) }
    ensures none { IfOk result (λ lists. lists.items ≡ replicate count (record { items = []; all = [] })) }
{
    let mut lists = Vec::new(alloc);
    add_empty(&mut lists, count)?;
    Ok(lists)
}

/// So many lists more, without places.
pub(crate) fn add_empty(lists: &mut Vec<LiveList>, more: usize) -> Result<(), AllocError>
    ensures ok { OnOk result (lists.new.items ≡ lists.old.items ++ replicate more no_places) }
    ensures some { (count : ℕ) × (lists.new.items ≡ lists.old.items ++ replicate count no_places) }
{
    let alloc = *lists.allocator();
    for _node in 0..more {
        lists.push(LiveList::new(alloc))?;
    }
    Ok(())
}

/// A new place stands in the list of one node, in front if it is live.
pub(crate) fn add_at(
    lists: &mut [LiveList],
    node: usize,
    place: usize,
    live: bool,
) -> Result<(), AllocError>
    requires inside { node < length lists.old }
    requires new { ¬ Contains (all_at lists.old node) place }
    ensures { OnOk result (AddsAt live place node lists.old lists.new) }
{
    lists[node].add(place, live)
}
