//! At which places, and at which nodes, two graphs differ.
ghost use Rattle.std.specs.Prelude.{◌≡◌, ◌⊎◌, ℕ, ◌<◌, Contains, length, slice_index_or, true, OnOk};
ghost use Rattle.std.specs.Bool.{OnTrue};
ghost use Rattle.switch_paths.specs.Graphs.{GraphData, level_of, nodes, place_at};
ghost use Rattle.edits_between.specs.Leading.{DifferAt, IsAsLarge};

use crate::comparing::{are_same, are_same_levels};
use std::alloc::{AllocError, Global};
use switch_paths::Graph;

/// Where two graphs may differ: at a place, by what stands there, or at a node, by its level.
#[derive(Clone, Copy)]
pub enum Spot {
    Place(usize),
    Node(usize),
}

/// The places at which not the same stands in two graphs, and the nodes whose levels aren't the same: all else is.
#[derive(Drop)]
pub struct Differences {
    pub spots: Vec<Spot>,
}

impl Differences {
    /// Those between a graph and itself: none.
    pub fn none(alloc: Global) -> Differences
        ensures { (g : GraphData) → DifferAt g g result }
    {
        Differences {
            spots: Vec::new(alloc),
        }
    }

    /// How many these are.
    pub(crate) fn count(&self) -> usize
        ensures { result ≡ length self.now.spots.items }
    {
        self.spots.len()
    }

    /// The one with this number among these.
    pub(crate) fn spot(&self, number: usize) -> Spot
        requires { number < length self.now.spots.items }
        ensures { slice_index_or self.now.spots.items number result ≡ result }
    {
        self.spots[number]
    }

    /// Becomes those between two graphs of as many nodes and places, if there is memory for them.
    pub(crate) fn find(&mut self, one: &Graph, other: &Graph) -> Result<(), AllocError>
        requires { IsAsLarge one.now other.now }
        ensures { OnOk result (DifferAt one.now other.now self.new) }
    {
        self.spots.clear();
        note_places(one, other, &mut self.spots)?;
        note_nodes(one, other, &mut self.spots)?;
        Ok(())
    }
}

// Puts each place into a list at which not the same stands in both graphs.
fn note_places(one: &Graph, other: &Graph, spots: &mut Vec<Spot>) -> Result<(), AllocError>
    requires { IsAsLarge one.now other.now }
    ensures { OnOk result ((place : ℕ) → place < length one.now.places
        → Contains spots.new.items (Spot.Place place) ⊎ (place_at one.now.places place ≡ place_at other.now.places place)) }
{
    for place in 0..one.places() {
        let alike = stand_alike(one, other, place);
        note(Spot::Place(place), alike, spots)?;
    }
    Ok(())
}

// Whether the same stands at a place in both graphs.
fn stand_alike(one: &Graph, other: &Graph, place: usize) -> bool
    requires one { place < length one.now.places }
    requires other { place < length other.now.places }
    ensures { OnTrue result (place_at one.now.places place ≡ place_at other.now.places place) }
{
    let stands = one.switch_at(place);
    let stood = other.switch_at(place);
    are_same(stands, stood)
}

// Puts each node into a list whose levels aren't the same in both graphs; what stood there stays.
fn note_nodes(one: &Graph, other: &Graph, spots: &mut Vec<Spot>) -> Result<(), AllocError>
    requires { IsAsLarge one.now other.now }
    ensures kept { OnOk result ((spot : Spot) → Contains spots.old.items spot → Contains spots.new.items spot) }
    ensures noted { OnOk result ((node : ℕ) → node < nodes one.now
        → Contains spots.new.items (Spot.Node node) ⊎ (level_of one.now node ≡ level_of other.now node)) }
{
    for node in 0..one.nodes() {
        let alike = are_levelled_alike(one, other, node);
        note(Spot::Node(node), alike, spots)?;
    }
    Ok(())
}

// Whether a node has the same level in both graphs.
fn are_levelled_alike(one: &Graph, other: &Graph, node: usize) -> bool
    requires one { node < nodes one.now }
    requires other { node < nodes other.now }
    ensures { OnTrue result (level_of one.now node ≡ level_of other.now node) }
{
    let has = one.level(node);
    let had = other.level(node);
    are_same_levels(has, had)
}

// Puts a spot into a list, unless both graphs are alike there; what stood there stays.
fn note(spot: Spot, alike: bool, spots: &mut Vec<Spot>) -> Result<(), AllocError>
    ensures kept { OnOk result ((other : Spot) → Contains spots.old.items other → Contains spots.new.items other) }
    ensures noted { OnOk result (Contains spots.new.items spot ⊎ (alike ≡ true)) }
{
    if alike {
        return Ok(());
    }
    spots.push(spot)?;
    Ok(())
}
