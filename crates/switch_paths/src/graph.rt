ghost use Rattle.std.specs.Prelude.{◌≡◌, ◌+◌, ◌<◌, [], ◌∷◌, ◌++◌, length, replicate, Some, IfOk, OnOk, OnErr, slice_set};
ghost use Rattle.strength_order.specs.Levels.{IsLevel};
ghost use Rattle.switch_paths.specs.Graphs.{nodes, level_of, place_at, Fits, FitsPlace, IsWired};

use crate::switching::Switch;
use std::alloc::{AllocError, Global};
use std::marker::Model;
use ternary::NoMemory;

/// A graph of nodes and switches.
///
/// Each node has a level from 1 to 16: a storage node has the level of its size, an input node 16.
/// Each place holds a switch or nothing; a switch that is removed leaves its place empty, so that
/// the other switches keep their places. Every switch has a level from 9 to 15, and its gate and
/// its ends are nodes of the graph.
///
/// Bryant, "A Switch-Level Model and Simulator for MOS Digital Systems", 1984.
#[derive(Drop)]
pub struct Graph {
    levels: Vec<u8>,
    places: Vec<Option<Switch>>,
}

impl Model for Graph {
    ghost use Rattle.switch_paths.specs.Graphs.{GraphData, IsWired};

    ghost Value = { GraphData };

    ghost view = { λ graph. record { levels = graph.levels.items; places = graph.places.items } };

    ghost invariant = { λ graph. IsWired (record { levels = graph.levels.items; places = graph.places.items }) };
}

impl Graph {
    /// A graph without nodes and places.
    pub fn new(alloc: Global) -> Graph
        ensures { result ≡ record { levels = []; places = [] } }
    {
        Graph {
            levels: Vec::new(alloc),
            places: Vec::new(alloc),
        }
    }

    /// An equal graph, its empty places included.
    pub fn copy(&self, alloc: Global) -> Result<Graph, NoMemory>
        ensures { IfOk result (λ graph. graph ≡ self.now) }
    {
        Ok(Graph {
            levels: Vec::from_slice(alloc, &self.levels)?,
            places: Vec::from_slice(alloc, &self.places)?,
        })
    }

    /// The number of nodes.
    pub fn nodes(&self) -> usize
        ensures { result ≡ nodes self.now }
    {
        self.levels.len()
    }

    /// The number of places, the empty ones included.
    pub fn places(&self) -> usize
        ensures { result ≡ length self.now.places }
    {
        self.places.len()
    }

    /// The level of each node.
    pub(crate) fn levels(&self) -> &[u8]
        ensures { result.now ≡ self.now.levels }
    {
        &self.levels
    }

    /// What stands at each place.
    pub(crate) fn switches(&self) -> &[Option<Switch>]
        ensures value { result.now ≡ self.now.places }
        ensures wired { IsWired self.now }
    {
        &self.places
    }

    /// The level of a node, from 1 to 16.
    pub fn level(&self, node: usize) -> u8
        requires { node < nodes self.now }
        ensures value { result ≡ level_of self.now node }
        ensures level { IsLevel result }
    {
        self.levels[node]
    }

    /// Gives a node this level, from 1 to 16; all else stays.
    pub fn set_level(&mut self, node: usize, level: u8)
        requires in_range { node < nodes self.old }
        requires level { IsLevel level }
        ensures { self.new ≡ record self.old { levels = slice_set self.old.levels node level } }
    {
        self.levels[node] = level;
    }

    /// The switch at a place, or None exactly if the place is empty.
    pub fn switch_at(&self, place: usize) -> Option<Switch>
        requires { place < length self.now.places }
        ensures value { result ≡ place_at self.now.places place }
        ensures fits { FitsPlace (nodes self.now) result }
    {
        self.places[place]
    }

    /// What stands at a place; past the last place nothing does.
    pub fn switch_there(&self, place: usize) -> Option<Switch>
        ensures value { result ≡ place_at self.now.places place }
        ensures fits { FitsPlace (nodes self.now) result }
    {
        if place < self.places() {
            self.switch_at(place)
        } else {
            None
        }
    }

    /// Adds a node of this level, from 1 to 16, and answers its number, which is the old count of
    /// nodes.
    pub fn add_node(&mut self, level: u8) -> Result<usize, NoMemory>
        requires { IsLevel level }
        ensures number { IfOk result (λ node. node ≡ nodes self.old) }
        ensures ok { IfOk result (λ _. self.new ≡ record self.old { levels = self.old.levels ++ level ∷ [] }) }
        ensures err { OnErr result (self.new ≡ self.old) }
    {
        let node = self.levels.len();
        self.levels.push(level).map_err(AllocError::from)?;
        Ok(node)
    }

    /// Adds a place with this switch, and answers the place, which is the old count of places.
    pub fn add_switch(&mut self, switch: Switch) -> Result<usize, NoMemory>
        requires { Fits (nodes self.old) switch }
        ensures number { IfOk result (λ place. place ≡ length self.old.places) }
        ensures ok { IfOk result (λ _. self.new ≡ record self.old { places = self.old.places ++ Some switch ∷ [] }) }
        ensures err { OnErr result (self.new ≡ self.old) }
    {
        let place = self.places.len();
        self.places.push(Some(switch)).map_err(AllocError::from)?;
        Ok(place)
    }

    /// Adds so many nodes of this level, from 1 to 16, and then a place with this switch, whose
    /// gate and ends may be new nodes, and answers the place, which is the old count of places. At
    /// lack of memory it adds nothing.
    pub fn add_wired(&mut self, count: usize, level: u8, switch: Switch) -> Result<usize, NoMemory>
        requires level { IsLevel level }
        requires fits { Fits (nodes self.old + count) switch }
        ensures number { IfOk result (λ place. place ≡ length self.old.places) }
        ensures ok { IfOk result (λ _. self.new ≡ record {
          levels = self.old.levels ++ replicate count level;
          places = self.old.places ++ Some switch ∷ [];
        }) }
        ensures err { OnErr result (self.new ≡ self.old) }
    {
        let place = self.places.len();
        self.places.reserve(1)?;
        push_levels(&mut self.levels, count, level)?;
        self.places.push_reserved(Some(switch));
        Ok(place)
    }

    /// Adds so many nodes of this level, from 1 to 16. Out of memory it adds nothing.
    pub fn add_nodes(&mut self, count: usize, level: u8) -> Result<(), NoMemory>
        requires { IsLevel level }
        ensures ok { OnOk result
            (self.new ≡ record self.old { levels = self.old.levels ++ replicate count level }) }
        ensures err { OnErr result (self.new ≡ self.old) }
    {
        push_levels(&mut self.levels, count, level)
    }

    /// Puts a switch, or nothing, at a place; all else stays.
    pub fn put_switch(&mut self, place: usize, switch: Option<Switch>)
        requires in_range { place < length self.old.places }
        requires fits { FitsPlace (nodes self.old) switch }
        ensures { self.new ≡ record self.old { places = slice_set self.old.places place switch } }
    {
        self.places[place] = switch;
    }
}

// Puts this level behind the others so many times, or not at all.
fn push_levels(levels: &mut Vec<u8>, count: usize, level: u8) -> Result<(), NoMemory>
    ensures ok { OnOk result (levels.new.items ≡ levels.old.items ++ replicate count level) }
    ensures err { OnErr result (levels.new.items ≡ levels.old.items) }
{
    levels.reserve(count)?;
    for _ in 0..count {
        levels.push_reserved(level);
    }
    Ok(())
}
