//! A table of what names stand for.

ghost use Rattle.std.specs.Prelude.{◌≡◌, ◌∷◌, ◌++◌, [], None, OnOk, OnErr};
ghost use Rattle.spice_cards.specs.Entries.{entries_of};
ghost use Rattle.spice_cards.specs.Tables.{named, with_first};

use indexmap::IndexMap;
use std::alloc::Global;
use std::marker::Model;
use table_keys::TableKeys;
use ternary::NoMemory;

/// What names stand for. Contracts see it as the list of the names with what they stand for.
#[derive(Drop)]
pub(crate) struct Table<T: Copy> {
    entries: IndexMap<Vec<u8>, T, TableKeys>,
}

impl<T: Copy> Model for Table<T> {
    ghost use Rattle.std.specs.Prelude.{List, ℕ};
    ghost use Rattle.spice_cards.specs.Entries.{entries_of};

    ghost Value = { List (List ℕ × T) };

    ghost view = { λ table. entries_of table.entries.entries };
}

impl<T: Copy> Table<T> {
    /// No names. Those to come are hashed from these keys.
    pub(crate) fn new(alloc: Global, keys: TableKeys) -> Table<T>
        ensures { result ≡ [] }
    {
        Table {
            entries: IndexMap::with_hasher(alloc, keys),
        }
    }

    /// What a name stands for.
    pub(crate) fn find(&self, name: &[u8]) -> Option<T>
        ensures { result ≡ named self.now name.now }
    {
        self.entries.get(name).copied()
    }

    /// Makes a name stand for this, unless it stands for something already.
    pub(crate) fn put_first(&mut self, name: &[u8], value: T) -> Result<(), NoMemory>
        ensures ok { OnOk result (self.new ≡ with_first self.old name.now value) }
        ensures err { OnErr result (self.new ≡ self.old) }
    {
        if self.find(name).is_some() {
            return Ok(());
        }
        self.put_new(name, value)
    }

    // Makes a name that stands for nothing stand for this.
    fn put_new(&mut self, name: &[u8], value: T) -> Result<(), NoMemory>
        requires { named self.old name.now ≡ None }
        ensures ok { OnOk result (self.new ≡ self.old ++ (name.now, value) ∷ []) }
        ensures err { OnErr result (self.new ≡ self.old) }
    {
        let word = name.to_vec(*self.entries.allocator())?;
        put(&mut self.entries, word, value)
    }
}

// Puts a name that isn't held behind the others.
fn put<T: Copy>(
    entries: &mut IndexMap<Vec<u8>, T, TableKeys>,
    name: Vec<u8>,
    value: T,
) -> Result<(), NoMemory>
    requires { named (entries_of entries.old.entries) name.items ≡ None }
    ensures ok { OnOk result
        (entries_of entries.new.entries ≡ entries_of entries.old.entries ++ (name.items, value) ∷ []) }
    ensures err { OnErr result (entries_of entries.new.entries ≡ entries_of entries.old.entries) }
{
    match entries.insert(name, value) {
        Ok(_) => Ok(()),
        Err(_) => Err(NoMemory),
    }
}
