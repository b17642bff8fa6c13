//! The circuit, and its edits.
ghost use Rattle.std.specs.Prelude.{◌≡◌, ◌-◌, ◌<◌, ◌≤◌, ◌⊎◌, [], ◌∷◌, ◌++◌, length, replicate, slice_get, slice_set, IfOk, IfErr, IfSome, OnOk, OnErr, None, Some};
ghost use Rattle.switch_paths.specs.Graphs.{nodes, Fits};
ghost use Rattle.netlist.specs.Names.{name_at, node_of};
ghost use Rattle.netlist.specs.Naming.{node_count, with_first, with_name_of, Extends};
ghost use Rattle.netlist.specs.Circuits.{IsCircuit, rails_alone};
ghost use Rattle.netlist.specs.Faults.{IsAnswered};
ghost use Rattle.netlist.specs.Edits.{add_fault, alias_fault, answer_of, count_fault, full_fault, limit_fault, node_fault, number_fault, rail_fault, store_fault, strength_fault, switch_numbered, wire_fault, with_alias, with_alias_by, with_input, with_kind, with_node, with_store, with_strength, with_transistor, with_wires, without_switch};

use crate::fault::EditFault;
use crate::names::{Names, are_alike};
use crate::{MOST_NODES, MOST_SWITCHES, RAILS};
use std::alloc::Global;
use std::marker::Model;
use strength_order::{INPUT_LEVEL, LEAST_SIZE_LEVEL, Profile, size_level, switch_level};
use switch_paths::{Graph, Switch, SwitchKind, graphs_are_wired};
use table_keys::TableKeys;
use ternary::NoMemory;

/// A switch graph whose nodes have names.
///
/// Node 0 is Gnd and node 1 is Vdd, both input nodes; the other nodes are numbered from 2 in the
/// order in which they were made. Transistor number k is the switch at place k - 1. A name stands
/// for one node, and a node may have several names.
#[derive(Drop)]
pub struct Circuit {
    graph: Graph,
    names: Names,
    profile: Profile,
}

impl Model for Circuit {
    ghost use Rattle.netlist.specs.Naming.{IsNamedBy};
    ghost use Rattle.netlist.specs.Circuits.{CircuitData};

    ghost Value = { CircuitData };

    ghost view = { λ circuit. record { graph = circuit.graph; names = circuit.names.entries; profile = circuit.profile } };

    ghost invariant = { λ circuit. IsNamedBy circuit.graph circuit.names };
}

impl Circuit {
    /// The circuit of the two rails alone, for names that the caller makes himself.
    pub fn new(alloc: Global, profile: Profile) -> Result<Circuit, NoMemory>
        ensures { IfOk result (λ circuit. circuit ≡ rails_alone profile) }
    {
        Circuit::with_keys(alloc, profile, TableKeys::fixed())
    }

    /// The circuit of the two rails alone, whose names are hashed from these keys. Where the names
    /// come from a text, the text's author must not know the keys: else he can choose names that
    /// all fall into one place of a table.
    pub fn with_keys(alloc: Global, profile: Profile, keys: TableKeys) -> Result<Circuit, NoMemory>
        ensures { IfOk result (λ circuit. circuit ≡ rails_alone profile) }
    {
        let mut graph = Graph::new(alloc);
        graph.add_node(INPUT_LEVEL)?;
        graph.add_node(INPUT_LEVEL)?;
        Ok(Circuit {
            graph,
            names: Names::new(alloc, keys),
            profile,
        })
    }

    /// An equal circuit, whose removed transistors' numbers stay free. It takes time and memory by the
    /// nodes, transistors and names alone.
    pub fn copy(&self, alloc: Global) -> Result<Circuit, NoMemory>
        ensures { IfOk result (λ circuit. circuit ≡ self.now) }
    {
        let graph = self.graph.copy(alloc)?;
        let names = self.names.copy(alloc)?;
        Ok(Circuit {
            graph,
            names,
            profile: self.profile,
        })
    }

    /// An equal circuit, as `copy` makes one. If another circuit has the same names for its nodes, as one has that was a copy of this one
    /// and got no name since, they are taken from it: then no name is copied.
    pub fn copy_over(&self, alloc: Global, old: Circuit) -> Result<Circuit, NoMemory>
        ensures { IfOk result (λ circuit. circuit ≡ self.now) }
    {
        let Circuit { names, .. } = old;
        if !are_alike(&names, &self.names) {
            return self.copy(alloc);
        }
        let graph = self.graph.copy(alloc)?;
        Ok(Circuit {
            graph,
            names,
            profile: self.profile,
        })
    }

    /// The keys from which names are hashed, for further tables of what the same text holds.
    pub fn keys(&self) -> TableKeys {
        self.names.keys()
    }

    /// The graph.
    pub fn graph(&self) -> &Graph
        ensures value { result.now ≡ self.now.graph }
        ensures netlist { IsCircuit self.now }
    {
        // Two calls for the proof alone: a graph and names keep themselves well formed.
        graphs_are_wired(&self.graph);
        self.names.are_well_formed();
        &self.graph
    }

    /// The profile, which says what sizes and strengths there are.
    pub fn profile(&self) -> Profile
        ensures { result ≡ self.now.profile }
    {
        self.profile
    }

    /// How many names are in use, the spellings of the rails not counted.
    pub fn names(&self) -> usize
        ensures { result ≡ length self.now.names }
    {
        self.names.len()
    }

    /// The node of a name, or None exactly if the name isn't in use.
    ///
    /// `Vdd`, `Vdd!`, `Gnd` and `Gnd!` in any ASCII case are the rails; other names are compared
    /// byte by byte.
    pub fn find(&self, name: &[u8]) -> Option<usize>
        ensures value { result ≡ node_of self.now.names name.now }
        ensures within { IfSome result (λ node. node < nodes self.now.graph) }
    {
        self.names.find(name)
    }

    /// The first name that a node got; `Gnd` and `Vdd` for the rails.
    pub fn name_of(&self, node: usize) -> &[u8]
        requires { node < nodes self.now.graph }
        ensures name { name_at self.now.names node ≡ Some result.now }
        ensures found { node_of self.now.names result.now ≡ Some node }
    {
        self.names.name_of(node)
    }

    /// The name at this place among those in use, spellings of the rails not counted, in the order
    /// in which they came into use, with its node.
    pub fn name_at(&self, place: usize) -> (&[u8], usize)
        requires { place < length self.now.names }
        ensures { slice_get self.now.names place ≡ Some (result.0.now, result.1) }
    {
        self.names.entry_at(place)
    }

    /// The node of a name, which becomes that of a new storage node of size 1 if it isn't in use.
    ///
    /// `TooManyNodes` exactly if the name is new and there are `MOST_NODES` nodes. A refusal
    /// changes nothing.
    pub fn node_or_new(&mut self, name: &[u8]) -> Result<usize, EditFault>
        ensures ok { OnOk result (self.new ≡ with_node self.old name.now) }
        ensures node { IfOk result (λ node. node_of self.new.names name.now ≡ Some node) }
        ensures within { IfOk result (λ node. node < nodes self.new.graph) }

        // A new node is no rail.
        ensures rail { IfOk result (λ node. node < RAILS → node_of self.old.names name.now ≡ Some node) }
        ensures profile { self.new.profile ≡ self.old.profile }
        ensures allowed { OnOk result (node_fault self.old name.now ≡ None) }
        ensures refused { IfErr result (IsAnswered (node_fault self.old name.now)) }
        ensures err { OnErr result (self.new ≡ self.old) }
    {
        if let Some(node) = self.names.find(name) {
            return Ok(node);
        }
        if self.graph.nodes() >= MOST_NODES {
            return Err(EditFault::TooManyNodes);
        }
        let mark = self.names.mark();
        let node = self.names.add_first(name)?;
        match self.graph.add_node(LEAST_SIZE_LEVEL) {
            Ok(_) => Ok(node),
            Err(want) => {
                self.names.cut(mark);
                Err(EditFault::from(want))
            }
        }
    }

    /// Adds a transistor, and answers its number. Its names that are new become storage nodes of
    /// size 1, in the order gate, source, drain.
    ///
    /// In this order: `BadStrength` exactly if the profile doesn't accept the strength;
    /// `TooManyNodes` exactly if the new names would make more than `MOST_NODES` nodes;
    /// `TooManySwitches` exactly if there are `MOST_SWITCHES` transistors. A refusal changes
    /// nothing.
    pub fn add_switch(
        &mut self,
        kind: SwitchKind,
        strength: u64,
        gate: &[u8],
        source: &[u8],
        drain: &[u8],
    ) -> Result<u64, EditFault>
        ensures ok { OnOk result
            (self.new ≡ with_transistor self.old kind strength gate.now source.now drain.now) }
        ensures number { IfOk result (λ number. number ≡ length self.new.graph.places) }
        ensures allowed { OnOk result
            (add_fault self.old strength gate.now source.now drain.now ≡ None) }
        ensures refused { IfErr result
            (IsAnswered (add_fault self.old strength gate.now source.now drain.now)) }
        ensures err { OnErr result (self.new ≡ self.old) }
    {
        let Some(level) = switch_level(self.profile, strength) else {
            return Err(EditFault::BadStrength);
        };
        let mark = self.names.mark();
        let terminals = self.names.terminals(gate, source, drain)?;
        let switch = Switch {
            kind,
            level,
            gate: terminals.gate,
            a: terminals.source,
            b: terminals.drain,
        };
        match wire(&mut self.graph, self.names.nodes(), switch) {
            Ok(number) => Ok(number),
            Err(fault) => {
                self.names.cut(mark);
                Err(fault)
            }
        }
    }

    /// Removes the transistor with this number, which no transistor gets again; all others keep
    /// theirs.
    ///
    /// `NoSuchSwitch` exactly if no transistor has the number.
    pub fn del(&mut self, number: u64) -> Result<(), EditFault>
        ensures answer { result ≡ answer_of (number_fault self.old number) }
        ensures ok { OnOk result (self.new ≡ without_switch self.old number) }
        ensures err { OnErr result (self.new ≡ self.old) }
    {
        if self.numbered(number).is_none() {
            return Err(EditFault::NoSuchSwitch);
        }
        self.graph.put_switch(number as usize - 1, None);
        Ok(())
    }

    /// Sets the strength of the transistor with this number; its kind and terminals stay.
    ///
    /// `NoSuchSwitch` exactly if no transistor has the number; else `BadStrength` exactly if
    /// the profile doesn't accept the strength.
    pub fn set_strength(&mut self, number: u64, strength: u64) -> Result<(), EditFault>
        ensures answer { result ≡ answer_of (strength_fault self.old number strength) }
        ensures ok { OnOk result (self.new ≡ with_strength self.old number strength) }
        ensures err { OnErr result (self.new ≡ self.old) }
    {
        let Some(switch) = self.numbered(number) else {
            return Err(EditFault::NoSuchSwitch);
        };
        match switch_level(self.profile, strength) {
            Some(level) => {
                let place = number as usize - 1;
                self.graph
                    .put_switch(place, Some(Switch { level, ..switch }));
                Ok(())
            }
            None => Err(EditFault::BadStrength),
        }
    }

    /// Sets the kind of the transistor with this number; its strength and terminals stay.
    ///
    /// `NoSuchSwitch` exactly if no transistor has the number.
    pub fn set_kind(&mut self, number: u64, kind: SwitchKind) -> Result<(), EditFault>
        ensures answer { result ≡ answer_of (number_fault self.old number) }
        ensures ok { OnOk result (self.new ≡ with_kind self.old number kind) }
        ensures err { OnErr result (self.new ≡ self.old) }
    {
        let Some(switch) = self.numbered(number) else {
            return Err(EditFault::NoSuchSwitch);
        };
        let place = number as usize - 1;
        self.graph
            .put_switch(place, Some(Switch { kind, ..switch }));
        Ok(())
    }

    /// Sets the gate, source and drain of the transistor with this number; its kind and strength
    /// stay. Names that are new become storage nodes of size 1, in the order gate, source, drain.
    ///
    /// `NoSuchSwitch` exactly if no transistor has the number; else `TooManyNodes` exactly if
    /// the new names would make more than `MOST_NODES` nodes. A refusal changes nothing.
    pub fn rewire(
        &mut self,
        number: u64,
        gate: &[u8],
        source: &[u8],
        drain: &[u8],
    ) -> Result<(), EditFault>
        ensures ok { OnOk result
            (self.new ≡ with_wires self.old number gate.now source.now drain.now) }
        ensures allowed { OnOk result
            (wire_fault self.old number gate.now source.now drain.now ≡ None) }
        ensures refused { IfErr result (λ fault. (fault ≡ EditFault.NoMemory)
            ⊎ (wire_fault self.old number gate.now source.now drain.now ≡ Some fault)) }
        ensures err { OnErr result (self.new ≡ self.old) }
    {
        let Some(switch) = self.numbered(number) else {
            return Err(EditFault::NoSuchSwitch);
        };
        let mark = self.names.mark();
        let nodes = self.names.terminals(gate, source, drain)?;
        let switch = Switch {
            gate: nodes.gate,
            a: nodes.source,
            b: nodes.drain,
            ..switch
        };
        match put_wired(
            &mut self.graph,
            self.names.nodes(),
            number as usize - 1,
            switch,
        ) {
            Ok(()) => Ok(()),
            Err(fault) => {
                self.names.cut(mark);
                Err(fault)
            }
        }
    }

    // The switch of the transistor with this number, if there is one.
    fn numbered(&self, number: u64) -> Option<Switch>
        ensures value { result ≡ switch_numbered self.now number }
        ensures first { IfSome result (λ _. 1 ≤ number) }
        ensures inside { IfSome result (λ _. number - 1 < length self.now.graph.places) }
        ensures fits { IfSome result (Fits (nodes self.now.graph)) }
    {
        if number == 0 || number > self.graph.places() as u64 {
            return None;
        }
        self.graph.switch_at(number as usize - 1)
    }

    /// Makes two names names of one node.
    ///
    /// If only one is in use, the other becomes a name of its node. If neither is, the first gets
    /// a new storage node of size 1, and the second becomes a name of it. `AliasTaken` exactly
    /// if both are in use for different nodes; `TooManyNodes` exactly if neither is in use
    /// and there are `MOST_NODES` nodes. A refusal changes nothing.
    pub fn alias(&mut self, first: &[u8], second: &[u8]) -> Result<(), EditFault>
        ensures ok { OnOk result (self.new ≡ with_alias self.old first.now second.now) }
        ensures allowed { OnOk result (alias_fault self.old first.now second.now ≡ None) }
        ensures refused { IfErr result (IsAnswered (alias_fault self.old first.now second.now)) }
        ensures err { OnErr result (self.new ≡ self.old) }
    {
        match (self.names.find(first), self.names.find(second)) {
            (None, None) => self.add_pair(first, second),
            (None, Some(node)) => Ok(self.names.add_name_of(first, node)?),
            (Some(node), None) => Ok(self.names.add_name_of(second, node)?),
            (Some(one), Some(other)) => {
                if one == other {
                    Ok(())
                } else {
                    Err(EditFault::AliasTaken)
                }
            }
        }
    }

    // Gives two names that aren't in use to a new storage node of size 1.
    fn add_pair(&mut self, first: &[u8], second: &[u8]) -> Result<(), EditFault>
        requires first { node_of self.old.names first.now ≡ None }
        ensures ok { OnOk result (self.new ≡ with_alias_by self.old first.now second.now None None) }
        ensures allowed { OnOk result (full_fault self.old ≡ None) }
        ensures refused { IfErr result (IsAnswered (full_fault self.old)) }
        ensures err { OnErr result (self.new ≡ self.old) }
    {
        if self.graph.nodes() >= MOST_NODES {
            return Err(EditFault::TooManyNodes);
        }
        let mark = self.names.mark();
        match name_pair(&mut self.graph, &mut self.names, first, second) {
            Ok(()) => Ok(()),
            Err(want) => {
                self.names.cut(mark);
                Err(EditFault::from(want))
            }
        }
    }

    /// Makes a node an input node. `Rail` exactly if it is Gnd or Vdd.
    pub fn make_input(&mut self, node: usize) -> Result<(), EditFault>
        requires { node < nodes self.old.graph }
        ensures answer { result ≡ answer_of (rail_fault node) }
        ensures ok { OnOk result (self.new ≡ with_input self.old node) }
        ensures err { OnErr result (self.new ≡ self.old) }
    {
        if node < RAILS {
            return Err(EditFault::Rail);
        }
        self.graph.set_level(node, INPUT_LEVEL);
        Ok(())
    }

    /// Makes a node a storage node of this size. `Rail` exactly if it is Gnd or Vdd; else
    /// `BadSize` exactly if the profile doesn't accept the size.
    pub fn make_store(&mut self, node: usize, size: u64) -> Result<(), EditFault>
        requires { node < nodes self.old.graph }
        ensures answer { result ≡ answer_of (store_fault self.old.profile node size) }
        ensures ok { OnOk result (self.new ≡ with_store self.old node size) }
        ensures err { OnErr result (self.new ≡ self.old) }
    {
        match size_level(self.profile, size) {
            _ if node < RAILS => Err(EditFault::Rail),
            None => Err(EditFault::BadSize),
            Some(level) => {
                self.graph.set_level(node, level);
                Ok(())
            }
        }
    }
}

// Adds the nodes that are missing up to this count and then the switch, and answers its number; or
// nothing.
fn wire(graph: &mut Graph, count: usize, switch: Switch) -> Result<u64, EditFault>
    requires grows { nodes graph.old ≤ count }
    requires fits { Fits count switch }
    ensures ok { OnOk result (graph.new ≡ record {
      levels = graph.old.levels ++ replicate (count - nodes graph.old) LEAST_SIZE_LEVEL;
      places = graph.old.places ++ Some switch ∷ [];
    }) }
    ensures number { IfOk result (λ number. number ≡ length graph.new.places) }
    ensures allowed { OnOk result (limit_fault count (length graph.old.places) ≡ None) }
    ensures refused { IfErr result (IsAnswered (limit_fault count (length graph.old.places))) }
    ensures err { OnErr result (graph.new ≡ graph.old) }
{
    if count > MOST_NODES {
        return Err(EditFault::TooManyNodes);
    }
    if graph.places() >= MOST_SWITCHES {
        return Err(EditFault::TooManySwitches);
    }
    let place = graph.add_wired(count - graph.nodes(), LEAST_SIZE_LEVEL, switch)?;
    Ok(place as u64 + 1)
}

// Adds the nodes that are missing up to this count, and then puts the switch at the place; or
// changes nothing.
fn put_wired(graph: &mut Graph, count: usize, place: usize, switch: Switch) -> Result<(), EditFault>
    requires grows { nodes graph.old ≤ count }
    requires there { place < length graph.old.places }
    requires fits { Fits count switch }
    ensures ok { OnOk result (graph.new ≡ record {
      levels = graph.old.levels ++ replicate (count - nodes graph.old) LEAST_SIZE_LEVEL;
      places = slice_set graph.old.places place (Some switch);
    }) }
    ensures allowed { OnOk result (count_fault count ≡ None) }
    ensures refused { IfErr result (λ fault.
        (fault ≡ EditFault.NoMemory) ⊎ (count_fault count ≡ Some fault)) }
    ensures err { OnErr result (graph.new ≡ graph.old) }
{
    if MOST_NODES < count {
        return Err(EditFault::TooManyNodes);
    }
    graph.add_nodes(count - graph.nodes(), LEAST_SIZE_LEVEL)?;
    graph.put_switch(place, Some(switch));
    Ok(())
}

// Gives a new storage node of size 1 a name that isn't in use and, unless it is the same, another.
// Out of memory the graph is as before, but some names may have been added.
fn name_pair(
    graph: &mut Graph,
    names: &mut Names,
    first: &[u8],
    second: &[u8],
) -> Result<(), NoMemory>
    requires { node_of names.old.entries first.now ≡ None }
    ensures graph { OnOk result
        (graph.new ≡ record graph.old { levels = graph.old.levels ++ LEAST_SIZE_LEVEL ∷ [] }) }
    ensures names { OnOk result (names.new
        ≡ with_name_of (with_first names.old first.now) second.now (node_count names.old)) }
    ensures grown { Extends names.old names.new }
    ensures err { OnErr result (graph.new ≡ graph.old) }
{
    let node = names.add_first(first)?;
    names.add_name_of(second, node)?;
    graph.add_node(LEAST_SIZE_LEVEL)?;
    Ok(())
}
