//! The vectors that names stand for.
ghost use Rattle.std.specs.Prelude.{◌≡◌, ◌⊎◌, [], None, Some, Ok, Err, IfErr, IfOk, OnErr, OnOk, option_map};
ghost use Rattle.node_words.specs.Vectors as spec;
ghost use Rattle.node_words.specs.Words.{list_of, with_parts};

use crate::fault::VectorFault;
use crate::words::read_word;
use crate::{MOST_DEPTH, MOST_IN_ALL};
use indexmap::IndexMap;
use netlist::Circuit;
use script_lang::Name;
use std::alloc::Global;
use std::marker::Model;
use table_keys::TableKeys;
use ternary::NoMemory;

/// What a name stands for.
#[derive(Clone, Copy)]
pub enum Named<'a> {
    /// A node: the name is that of a node in use.
    Node(usize),
    /// The nodes of a vector, whose name it is, and no node's.
    Vector(&'a [usize]),
    /// Nothing.
    Nothing,
}

/// Vectors: names, each with a list of nodes.
#[derive(Drop)]
pub struct Vectors {
    table: IndexMap<Vec<u8>, Vec<usize>, TableKeys>,
    // how many entries all lists have
    count: usize,
}

impl Model for Vectors {
    ghost use Rattle.std.specs.Prelude.{List, ℕ};
    ghost use Rattle.node_words.specs.Vectors.{IsCounted, lists_of};

    ghost Value = { List (List ℕ × List ℕ) };

    ghost view = { λ vectors. lists_of vectors.table.entries };

    ghost invariant = { λ vectors. IsCounted vectors.count (lists_of vectors.table.entries) };
}

impl Vectors {
    /// No vectors. Their names, which a text's author chooses, are hashed from these keys.
    pub fn new(alloc: Global, keys: TableKeys) -> Vectors
        ensures { result ≡ [] }
    {
        Vectors {
            table: IndexMap::with_hasher(alloc, keys),
            count: 0,
        }
    }

    /// The nodes of a vector's name, or None exactly if it is none.
    pub fn nodes(&self, name: &[u8]) -> Option<&[usize]>
        ensures { option_map (λ nodes. nodes.now) result ≡ list_of self.now name.now }
    {
        let nodes = self.table.get(name)?;
        Some(nodes)
    }

    /// What a name stands for: a node in use, or else a vector, or else nothing.
    pub fn named<'a>(&'a self, circuit: &Circuit, name: &[u8]) -> Named<'a>
        ensures { spec.IsNamed circuit.now self.now name.now result }
    {
        match circuit.find(name) {
            Some(node) => Named::Node(node),
            None => match self.nodes(name) {
                Some(nodes) => Named::Vector(nodes),
                None => Named::Nothing,
            },
        }
    }

    /// Gives a name to the nodes that these words stand for, in place of the list that the name had,
    /// which the words may still mean.
    ///
    /// In this order: `NameTaken` exactly if the name is that of a node in use; `UnknownNode` or
    /// `TooMany` by the first word, from left to right, that stands for nothing, brings the list past
    /// `MOST_ENTRIES` entries, or has a range in more than `MOST_DEPTH` others; `TooMany` exactly if
    /// all vectors would have more than `MOST_IN_ALL` entries. A refusal changes nothing.
    pub fn define(
        &mut self,
        alloc: Global,
        circuit: &Circuit,
        name: &[u8],
        words: &[Name],
    ) -> Result<(), VectorFault>
        ensures ok { OnOk result (self.new ≡ spec.with_vector circuit.now self.old name.now words.now) }
        ensures allowed { OnOk result (spec.vector_fault circuit.now self.old name.now words.now ≡ None) }
        ensures refused { IfErr result (λ fault. (fault ≡ VectorFault.NoMemory)
            ⊎ (spec.vector_fault circuit.now self.old name.now words.now ≡ Some fault)) }
        ensures err { OnErr result (self.new ≡ self.old) }
    {
        if circuit.find(name).is_some() {
            return Err(VectorFault::NameTaken);
        }
        let list = self.read_words(alloc, circuit, words)?;
        self.put(alloc, name, list)
    }

    // The nodes that these words stand for, in order.
    fn read_words(
        &self,
        alloc: Global,
        circuit: &Circuit,
        words: &[Name],
    ) -> Result<Vec<usize>, VectorFault>
        ensures ok { IfOk result (λ list.
            with_parts [] (spec.all_parts circuit.now self.now words.now) ≡ Ok list.items) }
        ensures refused { IfErr result (λ fault. (fault ≡ VectorFault.NoMemory)
            ⊎ (with_parts [] (spec.all_parts circuit.now self.now words.now) ≡ Err fault)) }
    {
        let mut list = Vec::new(alloc);
        for word in words {
            read_word(alloc, circuit, self, MOST_DEPTH, word.items(), &mut list)?;
        }
        Ok(list)
    }

    // How many entries the name's vector has, 0 if there is none.
    fn length_of(&self, name: &[u8]) -> usize
        ensures { result ≡ spec.length_at self.now name.now }
    {
        match self.nodes(name) {
            Some(nodes) => nodes.len(),
            None => 0,
        }
    }

    // Gives a name to these nodes, unless all vectors would then have too many entries.
    fn put(&mut self, alloc: Global, name: &[u8], list: Vec<usize>) -> Result<(), VectorFault>
        ensures ok { OnOk result (self.new ≡ spec.with_list self.old name.now list.items) }
        ensures allowed { OnOk result (spec.total_fault (spec.with_list self.old name.now list.items) ≡ None) }
        ensures refused { IfErr result (λ fault. (fault ≡ VectorFault.NoMemory)
            ⊎ (spec.total_fault (spec.with_list self.old name.now list.items) ≡ Some fault)) }
        ensures err { OnErr result (self.new ≡ self.old) }
    {
        let was = self.length_of(name);
        let count = self.count - was + list.len();
        if count > MOST_IN_ALL {
            return Err(VectorFault::TooMany);
        }
        let name = copied(alloc, name)?;
        put_list(&mut self.table, name, list)?;
        self.count = count;
        Ok(())
    }
}

// The bytes of a name.
fn copied(alloc: Global, name: &[u8]) -> Result<Vec<u8>, NoMemory>
    ensures { IfOk result (λ word. word.items ≡ name.now) }
{
    Ok(Vec::from_slice(alloc, name)?)
}

// Puts a list under a name, in place of the one that is there.
fn put_list(
    table: &mut IndexMap<Vec<u8>, Vec<usize>, TableKeys>,
    name: Vec<u8>,
    list: Vec<usize>,
) -> Result<(), NoMemory>
    ensures ok { OnOk result
        (spec.lists_of table.new.entries ≡ spec.with_list (spec.lists_of table.old.entries) name.items list.items) }
    ensures err { OnErr result (spec.lists_of table.new.entries ≡ spec.lists_of table.old.entries) }
{
    match table.insert(name, list) {
        Ok(_) => Ok(()),
        Err(_) => Err(NoMemory),
    }
}
