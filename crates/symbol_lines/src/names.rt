//! The names of a script.
ghost use Rattle.std.specs.Prelude.{◌≡◌, ◌⊎◌, ◌≤◌, ◌||◌, ◌++◌, ◌∷◌, [], false, length, take, Some, None, IfErr, IfOk, OnErr, OnOk};
ghost use Rattle.std.specs.Option.{option_copied};
ghost use Rattle.symbol_lines.specs.declared.TheConstants.{MOST_VARIABLES};
ghost use Rattle.symbol_lines.specs.Names as spec;

use crate::MOST_VARIABLES;
use indexmap::IndexSet;
use script_lang::{Name, NameList};
use std::alloc::Global;
use std::marker::Model;
use table_keys::TableKeys;
use ternary::NoMemory;
use thiserror::Error;

/// Why a line isn't taken for its names. If both causes hold, the first is told.
#[derive(Clone, Copy, Debug, Drop, Error, PartialEq, Eq)]
pub enum NameFault {
    /// The line's new variables would bring the variables past `MOST_VARIABLES`.
    #[error("too many variables")]
    TooManyVariables,
    /// The name that the line defines is defined, or is a variable.
    #[error("the name is defined")]
    NameDefined,
    /// Memory ran out.
    #[error("out of memory")]
    NoMemory,
}

impl From<NoMemory> for NameFault {
    ghost use Rattle.std.specs.Prelude.{◌≡◌};
    ghost use Rattle.symbol_lines.specs.declared.names.NameFault.TheVariants.{NoMemory};

    ghost from_gives = { λ _ fault. fault ≡ NoMemory };

    fn from(_want: NoMemory) -> NameFault {
        NameFault::NoMemory
    }
}

/// The variables of a script, in the order of their first appearance, and the names that are defined.
#[derive(Drop)]
pub struct ScriptNames {
    variables: IndexSet<Vec<u8>, TableKeys>,
    defined: IndexSet<Vec<u8>, TableKeys>,
}

impl Model for ScriptNames {
    ghost use Rattle.symbol_lines.specs.Names.{NamesData, keys_of};

    ghost Value = { NamesData };

    ghost view = { λ names. record { variables = keys_of names.variables.keys; defined = keys_of names.defined.keys } };
}

impl ScriptNames {
    /// No names. Those of a script, which its author chooses, are hashed from these keys.
    pub fn new(alloc: Global, keys: TableKeys) -> ScriptNames
        ensures { result ≡ spec.no_names }
    {
        ScriptNames {
            variables: IndexSet::with_hasher(alloc, keys),
            defined: IndexSet::with_hasher(alloc, keys),
        }
    }

    /// How many variables there are.
    #[tactic(auto, using(crate::proofs::NameLemmas::length_keys))]
    pub fn variables(&self) -> usize
        ensures { result ≡ length self.now.variables }
    {
        self.variables.len()
    }

    /// The names of the variables, in order.
    pub fn variable_names(&self, alloc: Global) -> Result<NameList, NoMemory>
        ensures { IfOk result (λ list. list ≡ self.now.variables) }
    {
        names_in(alloc, &self.variables)
    }

    /// Takes a line that uses these names, from left to right, and perhaps defines one.
    ///
    /// It is refused exactly by `names_fault`. A refusal changes nothing.
    #[tactic(auto, using(crate::proofs::NameLemmas::keys_of_take, crate::proofs::NameLemmas::length_keys))]
    pub fn enter(
        &mut self,
        alloc: Global,
        used: &[Name],
        defines: Option<&Name>,
    ) -> Result<(), NameFault>
        ensures ok { OnOk result (self.new ≡ spec.with_line self.old (spec.line_of used.now (option_copied defines.entry))) }
        ensures allowed { OnOk result (spec.names_fault self.old (spec.line_of used.now (option_copied defines.entry)) ≡ None) }
        ensures refused { IfErr result (λ fault. (fault ≡ NameFault.NoMemory)
            ⊎ (spec.names_fault self.old (spec.line_of used.now (option_copied defines.entry)) ≡ Some fault)) }
        ensures err { OnErr result (self.new ≡ self.old) }
    {
        let count = self.variables.len();
        match self.take(alloc, used, defines) {
            Ok(()) => Ok(()),
            Err(fault) => {
                self.variables.truncate(count);
                Err(fault)
            }
        }
    }

    // The same, but at a refusal some of the line's new variables may stand behind the others.
    #[tactic(auto, using(crate::proofs::NameLemmas::names_fault_many, crate::proofs::NameLemmas::names_fault_few, crate::proofs::NameLemmas::length_keys))]
    fn take(
        &mut self,
        alloc: Global,
        used: &[Name],
        defines: Option<&Name>,
    ) -> Result<(), NameFault>
        ensures ok { OnOk result (self.new ≡ spec.with_line self.old (spec.line_of used.now (option_copied defines.entry))) }
        ensures allowed { OnOk result (spec.names_fault self.old (spec.line_of used.now (option_copied defines.entry)) ≡ None) }
        ensures refused { IfErr result (λ fault. (fault ≡ NameFault.NoMemory)
            ⊎ (spec.names_fault self.old (spec.line_of used.now (option_copied defines.entry)) ≡ Some fault)) }
        ensures front { OnErr result (take (length self.old.variables) self.new.variables ≡ self.old.variables) }
        ensures defined { OnErr result (self.new.defined ≡ self.old.defined) }
    {
        self.use_all(alloc, used)?;
        if self.variables.len() > MOST_VARIABLES {
            return Err(NameFault::TooManyVariables);
        }
        match defines {
            Some(name) => self.define(alloc, name.items()),
            None => Ok(()),
        }
    }

    // Takes the names that a line uses.
    #[tactic(auto, using(crate::proofs::NameLemmas::front_twice))]
    fn use_all(&mut self, alloc: Global, used: &[Name]) -> Result<(), NoMemory>
        ensures ok { OnOk result (self.new ≡ spec.with_names used.now self.old) }
        ensures front { take (length self.old.variables) self.new.variables ≡ self.old.variables }
        ensures defined { self.new.defined ≡ self.old.defined }
    {
        for name in used {
            self.use_name(alloc, name.items())?;
        }
        Ok(())
    }

    // Takes a name that a line uses: a new variable, unless it is one or is defined.
    #[tactic(auto, using(crate::proofs::NameLemmas::with_name_there, crate::proofs::NameLemmas::with_name_new, crate::proofs::NameLemmas::with_name_front, crate::proofs::NameLemmas::neither))]
    fn use_name(&mut self, alloc: Global, name: &[u8]) -> Result<(), NoMemory>
        ensures ok { OnOk result (self.new ≡ spec.with_name self.old name.now) }
        ensures front { take (length self.old.variables) self.new.variables ≡ self.old.variables }
        ensures longer { length self.old.variables ≤ length self.new.variables }
        ensures defined { self.new.defined ≡ self.old.defined }
    {
        if self.has(name) {
            return Ok(());
        }
        let name = copied(alloc, name)?;
        self.add_variable(name)
    }

    // Puts a new variable behind the others.
    fn add_variable(&mut self, name: Vec<u8>) -> Result<(), NoMemory>
        requires { spec.has_name self.old.variables name.items ≡ false }
        ensures ok { OnOk result (self.new ≡ record self.old { variables = self.old.variables ++ name.items ∷ [] }) }
        ensures err { OnErr result (self.new ≡ self.old) }
    {
        put(&mut self.variables, name)
    }

    // Puts a new definition behind the others.
    fn add_definition(&mut self, name: Vec<u8>) -> Result<(), NoMemory>
        requires { spec.has_name self.old.defined name.items ≡ false }
        ensures ok { OnOk result (self.new ≡ record self.old { defined = self.old.defined ++ name.items ∷ [] }) }
        ensures err { OnErr result (self.new ≡ self.old) }
    {
        put(&mut self.defined, name)
    }

    // Defines a name, unless it is a variable or is defined.
    #[tactic(auto, using(crate::proofs::NameLemmas::neither))]
    fn define(&mut self, alloc: Global, name: &[u8]) -> Result<(), NameFault>
        ensures ok { OnOk result (self.new ≡ spec.with_definition self.old (Some name.now)) }
        ensures allowed { OnOk result (spec.definition_fault self.old (Some name.now) ≡ None) }
        ensures refused { IfErr result (λ fault. (fault ≡ NameFault.NoMemory)
            ⊎ (spec.definition_fault self.old (Some name.now) ≡ Some fault)) }
        ensures err { OnErr result (self.new ≡ self.old) }
    {
        if self.has(name) {
            return Err(NameFault::NameDefined);
        }
        let name = copied(alloc, name)?;
        self.add_definition(name)?;
        Ok(())
    }

    // Whether a name is defined or is a variable.
    fn has(&self, name: &[u8]) -> bool
        ensures { result ≡ (spec.has_name self.now.defined name.now || spec.has_name self.now.variables name.now) }
    {
        has_key(&self.defined, name) || has_key(&self.variables, name)
    }
}

// The names of a table, in order.
#[tactic(auto, using(crate::proofs::NameLemmas::length_keys))]
fn names_in(alloc: Global, table: &IndexSet<Vec<u8>, TableKeys>) -> Result<NameList, NoMemory>
    ensures { IfOk result (λ list. list ≡ spec.keys_of table.now.keys) }
{
    let mut list = NameList::new(alloc);
    for place in 0..table.len() {
        let Some(key) = table.get_index(place) else {
            unreachable!()
        };
        let name = Name::from_slice(alloc, key)?;
        list.push(name)?;
    }
    Ok(list)
}

// Whether a table has a name.
fn has_key(table: &IndexSet<Vec<u8>, TableKeys>, name: &[u8]) -> bool
    ensures { result ≡ spec.has_name (spec.keys_of table.now.keys) name.now }
{
    table.contains(name)
}

// The bytes of a name.
fn copied(alloc: Global, name: &[u8]) -> Result<Vec<u8>, NoMemory>
    ensures { IfOk result (λ word. word.items ≡ name.now) }
{
    Ok(Vec::from_slice(alloc, name)?)
}

// Puts a name that a table doesn't have behind the others.
fn put(table: &mut IndexSet<Vec<u8>, TableKeys>, name: Vec<u8>) -> Result<(), NoMemory>
    requires { spec.has_name (spec.keys_of table.old.keys) name.items ≡ false }
    ensures ok { OnOk result (spec.keys_of table.new.keys ≡ spec.keys_of table.old.keys ++ name.items ∷ []) }
    ensures err { OnErr result (spec.keys_of table.new.keys ≡ spec.keys_of table.old.keys) }
{
    match table.insert(name) {
        Ok(_) => Ok(()),
        Err(_) => Err(NoMemory),
    }
}
