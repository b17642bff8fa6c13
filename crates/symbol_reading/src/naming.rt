//! The names that a line uses, and the one that it defines.
ghost use Rattle.std.specs.Prelude.{◌≡◌, ◌∷◌, [], ◌++◌, flat_map, map, IfOk, OnOk};
ghost use Rattle.std.specs.Option.{option_copied};
ghost use Rattle.symbol_lines.specs.Names.{line_of_command, names_in_item, names_in_part, names_in_parts, names_in_value};
ghost use Rattle.symbol_script.specs.declared.line.Assignment.{Assignment};
ghost use Rattle.symbol_script.specs.Lines.{names_of_asked, names_of_line};
ghost use Rattle.symbol_reading.specs.Reading.{names_in_assignment};

use formulas::Part;
use script_lang::{Name, NameList};
use std::alloc::Global;
use symbol_lines::{Item, SymbolCommand, SymbolValue};
use symbol_script::{Assignment, SymbolLine};
use ternary::NoMemory;

/// The names that a line uses which asks for this, from left to right.
pub fn used_names(alloc: Global, asked: &Option<SymbolLine>) -> Result<NameList, NoMemory>
    ensures { IfOk result (λ names. names ≡ (names_of_line asked.now).used) }
{
    let mut names = NameList::new(alloc);
    put_used(alloc, asked, &mut names)?;
    Ok(names)
}

// Puts these names behind the others.
fn put_used(alloc: Global, asked: &Option<SymbolLine>, names: &mut NameList) -> Result<(), NoMemory>
    ensures { OnOk result (names.new ≡ names.old ++ (names_of_line asked.now).used) }
{
    match asked {
        Some(asked) => put_asked(alloc, asked, names),
        None => Ok(()),
    }
}

// Puts the names that what is asked for uses behind the others.
fn put_asked(alloc: Global, asked: &SymbolLine, names: &mut NameList) -> Result<(), NoMemory>
    ensures { OnOk result (names.new ≡ names.old ++ (names_of_asked asked.now).used) }
{
    match asked {
        SymbolLine::Values(_, list) => put_values(alloc, list.items(), names),
        SymbolLine::Names(command) => put_command(alloc, command, names),
        SymbolLine::Plain(_) => Ok(()),
    }
}

// Puts the names that a command uses which says of names.
fn put_command(alloc: Global, command: &SymbolCommand, names: &mut NameList) -> Result<(), NoMemory>
    ensures { OnOk result (names.new ≡ names.old ++ (line_of_command command.now).used) }
{
    match command {
        SymbolCommand::Variables(list) => put_names(alloc, list.items(), names),
        SymbolCommand::Let(_, formula) => put_parts(alloc, formula.parts(), names),
        SymbolCommand::Vertices(_) => Ok(()),
    }
}

/// The name that a line defines which asks for this, if it is a `let`.
pub fn defined_name(asked: &Option<SymbolLine>) -> Option<&Name>
    ensures { option_copied result ≡ (names_of_line asked.now).defines }
{
    match asked {
        Some(SymbolLine::Names(command)) => name_of_let(command),
        Some(SymbolLine::Values(..)) | Some(SymbolLine::Plain(_)) | None => None,
    }
}

// The name of a `let`.
fn name_of_let(command: &SymbolCommand) -> Option<&Name>
    ensures { option_copied result ≡ (line_of_command command.now).defines }
{
    match command {
        SymbolCommand::Let(name, _) => Some(name),
        SymbolCommand::Variables(_) | SymbolCommand::Vertices(_) => None,
    }
}

// Puts the names of the values of assignments behind the others.
#[tactic(auto, using(crate::proofs::ReadingLemmas::names_of_values))]
fn put_values(alloc: Global, list: &[Assignment], names: &mut NameList) -> Result<(), NoMemory>
    ensures { OnOk result (names.new ≡ names.old ++ flat_map names_in_value (map (λ (own : Assignment). own.value) list.now)) }
{
    put_assignments(alloc, list, names)
}

// Puts the names of assignments behind the others.
fn put_assignments(alloc: Global, list: &[Assignment], names: &mut NameList) -> Result<(), NoMemory>
    ensures { OnOk result (names.new ≡ names.old ++ flat_map names_in_assignment list.now) }
{
    for own in list {
        put_value(alloc, &own.value, names)?;
    }
    Ok(())
}

// Puts the names of a value behind the others.
fn put_value(alloc: Global, value: &SymbolValue, names: &mut NameList) -> Result<(), NoMemory>
    ensures { OnOk result (names.new ≡ names.old ++ names_in_value value.now) }
{
    match value {
        SymbolValue::Plain(_) => Ok(()),
        SymbolValue::List(items) => put_items(alloc, items.items(), names),
    }
}

// Puts the names of items behind the others.
fn put_items(alloc: Global, items: &[Item], names: &mut NameList) -> Result<(), NoMemory>
    ensures { OnOk result (names.new ≡ names.old ++ flat_map names_in_item items.now) }
{
    for item in items {
        put_item(alloc, item, names)?;
    }
    Ok(())
}

// Puts the names of an item behind the others.
fn put_item(alloc: Global, item: &Item, names: &mut NameList) -> Result<(), NoMemory>
    ensures { OnOk result (names.new ≡ names.old ++ names_in_item item.now) }
{
    match item {
        Item::Letter(_) => Ok(()),
        Item::Formula(formula) => put_parts(alloc, formula.parts(), names),
    }
}

// Puts the names of a formula's parts behind the others.
fn put_parts(alloc: Global, parts: &[Part], names: &mut NameList) -> Result<(), NoMemory>
    ensures { OnOk result (names.new ≡ names.old ++ names_in_parts parts.now) }
{
    for part in parts {
        put_part(alloc, part, names)?;
    }
    Ok(())
}

// Puts the name of a part behind the others, if it is one.
fn put_part(alloc: Global, part: &Part, names: &mut NameList) -> Result<(), NoMemory>
    ensures { OnOk result (names.new ≡ names.old ++ names_in_part part.now) }
{
    match part {
        Part::Name(name) => put_name(alloc, name, names),
        Part::Not | Part::Join(_) => Ok(()),
    }
}

// Puts names behind the others.
fn put_names(alloc: Global, list: &[Name], names: &mut NameList) -> Result<(), NoMemory>
    ensures { OnOk result (names.new ≡ names.old ++ list.now) }
{
    for name in list {
        put_name(alloc, name, names)?;
    }
    Ok(())
}

// Puts a name behind the others.
fn put_name(alloc: Global, name: &Name, names: &mut NameList) -> Result<(), NoMemory>
    ensures { OnOk result (names.new ≡ names.old ++ name.now ∷ []) }
{
    let copy = Name::from_slice(alloc, name.items())?;
    names.push(copy)
}
