//! Formulas that are held under the texts of groups.
ghost use Rattle.std.specs.Prelude.{◌≡◌, ℕ, ◌<◌, List, [], length, map, slice_index_or, IfOk};
ghost use Rattle.std.specs.Map.{keys_of};
ghost use Rattle.bool_pool.specs.declared.gate.Id.{Id};
ghost use Rattle.node_elimination.specs.Words.{ids_of, joined, lists_of, shown};

use bool_pool::{Id, Rails};
use group_text::GroupText;
use indexmap::IndexMap;
use std::alloc::{AllocError, Global};
use table_keys::TableKeys;

/// The formulas of texts: of each member the one for "may be 1", and then the one for "may be 0".
pub(crate) type Formulas = IndexMap<GroupText, Vec<Id>, TableKeys>;

/// The formulas of pairs, in order.
pub(crate) fn ids_of_pairs(alloc: Global, pairs: &[Rails]) -> Result<Vec<Id>, AllocError>
    ensures { IfOk result (λ ids. ids.items ≡ ids_of pairs.now) }
{
    let mut ids = Vec::new(alloc);
    for rails in pairs {
        ids.push(rails.hi)?;
        ids.push(rails.lo)?;
    }
    Ok(ids)
}

/// All formulas, text by text.
pub(crate) fn all_formulas(alloc: Global, held: &Formulas) -> Result<Vec<Id>, AllocError>
    ensures { IfOk result (λ ids. ids.items ≡ joined (lists_of (shown held.now.entries))) }
{
    let mut ids = Vec::new(alloc);
    for place in 0..held.len() {
        ids.extend_from_slice(formulas_at(held, place))?;
    }
    Ok(ids)
}

/// For each text its part of these formulas, which stand text by text.
pub(crate) fn split_formulas(
    alloc: Global,
    held: &Formulas,
    found: &[Id],
) -> Result<Vec<Vec<Id>>, AllocError>
    requires { length found.now ≡ length (joined (lists_of (shown held.now.entries))) }
    ensures { IfOk result (λ split. (moved : Id → Id) → found.now ≡ map moved (joined (lists_of (shown held.now.entries)))
        → map (λ ids. ids.items) split.items ≡ map (map moved) (lists_of (shown held.now.entries))) }
{
    let mut split = Vec::new(alloc);
    let mut at = 0;
    for place in 0..held.len() {
        let end = at + formulas_at(held, place).len();
        split.push(Vec::from_slice(alloc, &found[at..end])?)?;
        at = end;
    }
    Ok(split)
}

/// Puts other formulas in place of those that are held, text by text. It takes no memory.
pub(crate) fn put_formulas(held: &mut Formulas, mut split: Vec<Vec<Id>>)
    requires { length split.items ≡ length held.old.entries }
    ensures texts { keys_of held.new.entries ≡ keys_of held.old.entries }
    ensures formulas { lists_of (shown held.new.entries) ≡ map (λ ids. ids.items) split.items }
{
    while let Some(ids) = split.pop() {
        held[split.len()] = ids;
    }
}

// The formulas of the text at a place.
fn formulas_at(held: &Formulas, place: usize) -> &[Id]
    requires { place < length held.now.entries }
    ensures { result.now ≡ slice_index_or (lists_of (shown held.now.entries)) place [] }
{
    match held.get_index(place) {
        Some((_, ids)) => ids,
        None => unreachable!(),
    }
}
