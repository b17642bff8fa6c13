//! The lists of which commands are made.
ghost use Rattle.std.specs.Prelude.{◌≡◌, [], ◌∷◌, ◌++◌, IfOk, OnOk, OnErr};

use crate::value::Value;
use std::alloc::{AllocError, Global};
use std::marker::Model;
use ternary::{NoMemory, Tern};

/// Items in order, which contracts see as a list.
#[derive(Drop)]
pub struct ItemList<T> {
    items: Vec<T>,
}

impl<T> Model for ItemList<T> {
    ghost use Rattle.std.specs.Prelude.{List};

    ghost Value = { List T };

    ghost view = { λ list. list.items.items };
}

/// The bytes of a node's name.
pub type Name = ItemList<u8>;

/// Names.
pub type NameList = ItemList<Name>;

/// Names, each with the value that its nodes are given.
pub type ValueList = ItemList<(Name, Value)>;

/// States.
pub type StateList = ItemList<Tern>;

/// Names, each with the states that a clock gives its node, one after another.
pub type ClockList = ItemList<(Name, StateList)>;

impl<T> ItemList<T> {
    /// No items.
    pub fn new(alloc: Global) -> ItemList<T>
        ensures { result ≡ [] }
    {
        ItemList {
            items: Vec::new(alloc),
        }
    }

    /// All items, in order.
    pub fn items(&self) -> &[T]
        ensures { result.now ≡ self.now }
    {
        &self.items
    }
}

impl<T: Drop> ItemList<T> {
    /// Puts an item after the others. Out of memory, the item is dropped.
    pub fn push(&mut self, item: T) -> Result<(), NoMemory>
        ensures ok { OnOk result (self.new ≡ self.old ++ item ∷ []) }
        ensures err { OnErr result (self.new ≡ self.old) }
    {
        self.items.push(item).map_err(AllocError::from)?;
        Ok(())
    }
}

impl<T: Copy> ItemList<T> {
    /// These items.
    pub fn from_slice(alloc: Global, items: &[T]) -> Result<ItemList<T>, NoMemory>
        ensures { IfOk result (λ list. list ≡ items.now) }
    {
        Ok(ItemList {
            items: Vec::from_slice(alloc, items)?,
        })
    }
}
