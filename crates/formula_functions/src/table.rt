//! Names that stand for functions.
ghost use Rattle.std.specs.Prelude.{◌≡◌, ℕ, ◌<◌, ◌++◌, ◌∷◌, [], Bool, false, length, map, slice_index_or, IfOk, IfSome, OnErr, OnOk};
ghost use Rattle.std.specs.Option.{option_map_or};
ghost use Rattle.decision_graph.specs.declared.vertex.Function.{Function};
ghost use Rattle.symbol_lines.specs.Names.{has_name, keys_of};
ghost use Rattle.formula_functions.specs.Tables.{no_table, value_named, with_named};

use decision_graph::Function;
use indexmap::IndexSet;
use std::alloc::Global;
use std::marker::Model;
use table_keys::TableKeys;
use ternary::NoMemory;

/// The names that stand for functions, in the order in which they came.
#[derive(Drop)]
pub struct NamedFunctions {
    names: IndexSet<Vec<u8>, TableKeys>,
    functions: Vec<Function>,
}

impl Model for NamedFunctions {
    ghost use Rattle.std.specs.Prelude.{◌≡◌, length};
    ghost use Rattle.symbol_lines.specs.Names.{keys_of};
    ghost use Rattle.formula_functions.specs.Tables.{TableData};

    ghost Value = { TableData };

    ghost view = { λ table. record { names = keys_of table.names.keys; functions = table.functions.items } };

    ghost invariant = { λ table. length table.functions.items ≡ length table.names.keys };
}

impl NamedFunctions {
    /// No names. Those of a script, which its author chooses, are hashed from these keys.
    pub fn new(alloc: Global, keys: TableKeys) -> NamedFunctions
        ensures { result ≡ no_table }
    {
        NamedFunctions {
            names: IndexSet::with_hasher(alloc, keys),
            functions: Vec::new(alloc),
        }
    }

    /// The function that a name stands for, if it is one of these names.
    pub fn function(&self, name: &[u8]) -> Option<Function>
        ensures value { (truth : Function → Bool) →
            value_named self.now.names (map truth self.now.functions) name.now ≡ option_map_or truth result false }
        ensures among { IfSome result (λ function.
            (k : ℕ) × (k < length self.now.functions) × (slice_index_or self.now.functions k function ≡ function)) }
    {
        match self.names.get_index_of(name) {
            Some(place) => Some(self.functions[place]),
            None => None,
        }
    }

    /// All functions, in the order of their names.
    pub fn functions(&self) -> &[Function]
        ensures all { result.now ≡ self.now.functions }
        ensures counted { length self.now.functions ≡ length self.now.names }
    {
        &self.functions
    }

    /// Lets a new name stand for a function. Out of memory all is as before.
    pub fn add(&mut self, alloc: Global, name: &[u8], function: Function) -> Result<(), NoMemory>
        requires { has_name self.old.names name.now ≡ false }
        ensures ok { OnOk result (self.new ≡ with_named self.old name.now function) }
        ensures err { OnErr result (self.new ≡ self.old) }
    {
        let key = copied(alloc, name)?;
        self.functions.reserve(1)?;
        put(&mut self.names, key)?;
        self.functions.push_reserved(function);
        Ok(())
    }

    /// Lets the names stand for these functions, in order, in the place of those that they stood for.
    pub fn stand_for(&mut self, functions: Vec<Function>)
        requires { length functions.items ≡ length self.old.functions }
        ensures { self.new ≡ record self.old { functions = functions.items } }
    {
        self.functions = functions;
    }
}

// The bytes of a name.
fn copied(alloc: Global, name: &[u8]) -> Result<Vec<u8>, NoMemory>
    ensures { IfOk result (λ key. key.items ≡ name.now) }
{
    Ok(Vec::from_slice(alloc, name)?)
}

// Puts a name that a table doesn't have behind the others.
fn put(table: &mut IndexSet<Vec<u8>, TableKeys>, key: Vec<u8>) -> Result<(), NoMemory>
    requires { has_name (keys_of table.old.keys) key.items ≡ false }
    ensures ok { OnOk result (table.new.keys ≡ table.old.keys ++ key ∷ []) }
    ensures err { OnErr result (table.new.keys ≡ table.old.keys) }
{
    match table.insert(key) {
        Ok(_) => Ok(()),
        Err(_) => Err(NoMemory),
    }
}
