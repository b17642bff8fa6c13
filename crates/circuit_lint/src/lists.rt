//! Lists that grow if there is something to tell.

ghost use Rattle.std.specs.Prelude.{◌≡◌, ◌++◌, replicate, None, IfOk, OnOk};
ghost use Rattle.std.specs.Option.{option_to_list};

use std::alloc::{AllocError, Global};

/// Adds what there is.
pub(crate) fn push_some<T: Copy>(list: &mut Vec<T>, item: Option<T>) -> Result<(), AllocError>
    ensures { OnOk result (list.new.items ≡ list.old.items ++ option_to_list item) }
{
    if let Some(item) = item {
        list.push(item)?;
    }
    Ok(())
}

/// A table of so many places that have no number.
pub(crate) fn no_numbers(alloc: Global, count: usize) -> Result<Vec<Option<usize>>, AllocError>
    ensures { IfOk result (λ table. table.items ≡ replicate count None) }
{
    let table = vec![in alloc; None; count]?;
    Ok(table)
}
