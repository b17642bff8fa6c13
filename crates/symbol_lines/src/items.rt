//! Lists of letters and formulas.
ghost use Rattle.std.specs.Prelude.{◌≡◌, ◌∷◌, [], ◌<◌, length, position, IfOk, IfSome, MatchOption};
ghost use Rattle.std.specs.List.{slice_split};
ghost use Rattle.node_words.specs.Ranges.{words_in};
ghost use Rattle.symbol_lines.specs.Items as spec;

use crate::MOST_ITEMS;
use formulas::{Formula, read_formula};
use node_words::{Range, first_range};
use script_lang::ItemList;
use std::alloc::Global;
use ternary::NoMemory;
use vector_values::{Letter, letter_of};

/// An item of a list: what one node is given, or expected to have.
#[derive(Drop)]
pub enum Item {
    /// This letter.
    Letter(Letter),
    /// Under each valuation the letter of the formula's truth value.
    Formula(Formula),
}

/// Reads a list, or None exactly if the text is none: if an item is neither a letter nor a formula, or there are more
/// than `MOST_ITEMS`.
///
/// Between two commas there may be one range, which stands for the items with each number in its place. No more than
/// one item past the most is read.
#[tactic(auto, using(crate::proofs::ItemLemmas::list_cut, crate::proofs::ItemLemmas::list_whole, crate::proofs::ItemLemmas::with_words_list))]
pub fn read_items(
    alloc: Global,
    text: &[u8],
    dashes: bool,
) -> Result<Option<ItemList<Item>>, NoMemory>
    ensures { IfOk result (λ found. found ≡ spec.items_of dashes text.now) }
{
    let mut items = ItemList::new(alloc);
    let mut rest = text;
    while let Some((part, behind)) = cut_at_comma(rest) {
        if !read_part(alloc, part, dashes, &mut items)? {
            return Ok(None);
        }
        rest = behind;
    }
    if read_part(alloc, rest, dashes, &mut items)? {
        Ok(Some(items))
    } else {
        Ok(None)
    }
}

// What stands before the first comma and behind it, if there is one.
fn cut_at_comma(text: &[u8]) -> Option<(&[u8], &[u8])>
    ensures parts { MatchOption result (slice_split spec.is_comma text.now ≡ text.now ∷ [])
        (λ cut. slice_split spec.is_comma text.now ≡ cut.0.now ∷ slice_split spec.is_comma cut.1.now) }
    ensures shorter { IfSome result (λ cut. length cut.1.now < length text.now) }
{
    match first_comma(text) {
        Some(at) => Some((&text[..at], &text[at + 1..])),
        None => None,
    }
}

// The place of the first comma.
fn first_comma(text: &[u8]) -> Option<usize>
    ensures { result ≡ position spec.is_comma text.now }
{
    text.iter().position(|&byte| byte == b',')
}

// Puts the items of what stands between two commas behind the others, if it has items and there is room.
#[tactic(auto, using(crate::proofs::ItemLemmas::part_with_range, crate::proofs::ItemLemmas::part_alone))]
fn read_part(
    alloc: Global,
    part: &[u8],
    dashes: bool,
    items: &mut ItemList<Item>,
) -> Result<bool, NoMemory>
    ensures { IfOk result (λ read.
        spec.if_read read items.new ≡ spec.with_words dashes (spec.words_of_part part.now) items.old) }
{
    match first_range(part) {
        Some(range) => read_range(alloc, &range, dashes, items),
        None => read_word(alloc, part, dashes, items),
    }
}

// Puts the items of the words of a range behind the others.
#[tactic(auto, using(crate::proofs::ItemLemmas::range_begins, crate::proofs::ItemLemmas::range_goes_on, crate::proofs::ItemLemmas::range_ends))]
fn read_range(
    alloc: Global,
    range: &Range<'_>,
    dashes: bool,
    items: &mut ItemList<Item>,
) -> Result<bool, NoMemory>
    ensures { IfOk result (λ read.
        spec.if_read read items.new ≡ spec.with_words dashes (words_in range.now) items.old) }
{
    for place in 0..range.len() {
        let word = range.word(alloc, place)?;
        if !read_word(alloc, &word, dashes, items)? {
            return Ok(false);
        }
    }
    Ok(true)
}

// Puts the item of a word behind the others.
#[tactic(auto, using(crate::proofs::ItemLemmas::with_words_single))]
fn read_word(
    alloc: Global,
    word: &[u8],
    dashes: bool,
    items: &mut ItemList<Item>,
) -> Result<bool, NoMemory>
    ensures item { IfOk result (λ read.
        spec.if_read read items.new ≡ spec.with_word dashes items.old word.now) }
    ensures one { IfOk result (λ read.
        spec.if_read read items.new ≡ spec.with_words dashes (word.now ∷ []) items.old) }
{
    if items.items().len() >= MOST_ITEMS {
        return Ok(false);
    }
    match read_item(alloc, word, dashes)? {
        Some(item) => {
            items.push(item)?;
            Ok(true)
        }
        None => Ok(false),
    }
}

// The item that a text writes.
fn read_item(alloc: Global, text: &[u8], dashes: bool) -> Result<Option<Item>, NoMemory>
    ensures { IfOk result (λ found. found ≡ spec.item_of dashes text.now) }
{
    if let Some(letter) = letter_alone(text, dashes) {
        return Ok(Some(Item::Letter(letter)));
    }
    match read_formula(alloc, text)? {
        Some(formula) => Ok(Some(Item::Formula(formula))),
        None => Ok(None),
    }
}

// The letter that a text is.
fn letter_alone(text: &[u8], dashes: bool) -> Option<Letter>
    ensures { result ≡ spec.letter_alone dashes text.now }
{
    match text {
        [byte] => letter_of(*byte, dashes),
        _ => None,
    }
}
