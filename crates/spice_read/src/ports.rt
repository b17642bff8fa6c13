//! The ports of a call, by their names.

ghost use Rattle.std.specs.Prelude.{◌≡◌, [], None, length, option_map, zip, IfOk, OnOk};
ghost use Rattle.spice_read.specs.Expansions.{last_named};
ghost use Rattle.spice_read.specs.Ports.{entries_of};
ghost use Rattle.spice_read.specs.Scopes.{with_each, with_last};

use indexmap::IndexMap;
use spice_cards::Words;
use std::alloc::Global;
use std::marker::Model;
use table_keys::TableKeys;
use ternary::NoMemory;

// Up to so many ports are compared one after the other; of more there is a table.
const FEW_PORTS: usize = 8;

/// The ports of a subcircuit that is called, with the words at the same places of the call's card.
#[derive(Drop)]
pub(crate) struct Ports<'d> {
    ports: Words<'d>,
    words: Words<'d>,
    // Of many ports the words by the names. Names and words are parts of what the deck keeps.
    table: Option<IndexMap<&'d [u8], &'d [u8], TableKeys>>,
}

impl<'d> Model for Ports<'d> {
    ghost use Rattle.spice_read.specs.Ports.{IsPorts, PortsData};

    ghost Value = { PortsData };

    ghost view = { λ p. record { ports = p.ports; words = p.words } };

    ghost invariant = { λ p. IsPorts p.ports p.words p.table };
}

impl<'d> Ports<'d> {
    /// These ports, with these words.
    pub(crate) fn new(
        alloc: Global,
        keys: TableKeys,
        ports: Words<'d>,
        words: Words<'d>,
    ) -> Result<Ports<'d>, NoMemory>
        requires { length ports ≡ length words }
        ensures { IfOk result (λ made. made ≡ record { ports = ports.entry; words = words.entry }) }
    {
        if ports.len() <= FEW_PORTS {
            return Ok(Ports {
                ports,
                words,
                table: None,
            });
        }
        let table = table_of(alloc, keys, &ports, &words)?;
        Ok(Ports {
            ports,
            words,
            table: Some(table),
        })
    }

    /// The word for the port of this name: of two like ones that for the last.
    pub(crate) fn find(&self, name: &[u8]) -> Option<&'d [u8]>
        ensures { option_map (λ word. word.now) result
            ≡ last_named None (zip self.now.ports self.now.words) name.now }
    {
        match &self.table {
            Some(table) => table.get(name).copied(),
            None => last_word(&self.ports, &self.words, name),
        }
    }
}

// The word for the last port of this name.
fn last_word<'d>(ports: &Words<'d>, words: &Words<'d>, name: &[u8]) -> Option<&'d [u8]>
    requires { length ports.now ≡ length words.now }
    ensures { option_map (λ word. word.now) result
        ≡ last_named None (zip ports.now words.now) name.now }
{
    let mut found = None;
    for place in 0..ports.len() {
        if name == ports.at(place) {
            found = Some(words.at(place));
        }
    }
    found
}

// The table of the words for ports, by the ports' names.
fn table_of<'d>(
    alloc: Global,
    keys: TableKeys,
    ports: &Words<'d>,
    words: &Words<'d>,
) -> Result<IndexMap<&'d [u8], &'d [u8], TableKeys>, NoMemory>
    requires { length ports.now ≡ length words.now }
    ensures { IfOk result (λ table. entries_of table.entries ≡ with_each [] (zip ports.now words.now)) }
{
    let mut table = IndexMap::with_hasher(alloc, keys);
    for place in 0..ports.len() {
        insert(&mut table, ports.at(place), words.at(place))?;
    }
    Ok(table)
}

// Makes a name stand for a word, whatever it stood for.
fn insert<'d>(
    table: &mut IndexMap<&'d [u8], &'d [u8], TableKeys>,
    name: &'d [u8],
    word: &'d [u8],
) -> Result<(), NoMemory>
    ensures { OnOk result
        (entries_of table.new.entries ≡ with_last (entries_of table.old.entries) name.now word.now) }
{
    match table.insert(name, word) {
        Ok(_) => Ok(()),
        Err(_) => Err(NoMemory),
    }
}
