//! Values as they are written.
ghost use Rattle.std.specs.Prelude.{◌≡◌, IfOk};
ghost use Rattle.symbol_lines.specs.Items as spec;

use crate::items::{Item, read_items};
use script_lang::ItemList;
use std::alloc::Global;
use ternary::NoMemory;
use vector_values::{VectorValue, read_value};

/// A value of `set`, `charge` or `expect`.
#[derive(Drop)]
pub enum SymbolValue {
    /// Letters or a number, the same under all valuations.
    Plain(VectorValue),
    /// A list, with an item for each node.
    List(ItemList<Item>),
}

/// Reads a value from its text: letters or a number, or else a list; None exactly if it is neither.
pub fn read_symbol_value(
    alloc: Global,
    text: &[u8],
    dashes: bool,
) -> Result<Option<SymbolValue>, NoMemory>
    ensures { IfOk result (λ found. found ≡ spec.symbol_value_of dashes text.now) }
{
    if let Some(value) = read_value(alloc, text, dashes)? {
        return Ok(Some(SymbolValue::Plain(value)));
    }
    match read_items(alloc, text, dashes)? {
        Some(items) => Ok(Some(SymbolValue::List(items))),
        None => Ok(None),
    }
}
