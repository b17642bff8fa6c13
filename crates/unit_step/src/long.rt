//! The groups with long code: a step of theirs by vicinities costs less, so they get none.
ghost use Rattle.std.specs.Prelude.{◌≡◌, ℕ, ◌<◌, ◌≤◌, ◌⊎◌, ◌↔◌, ◌++◌, ◌∷◌, [], None, true, if◌then◌else◌, length, slice_index, All, Contains, IfOk, OnOk};
ghost use Rattle.machine_laws.specs.Finishing.{IsLoosened, Loosens, LoosensHeld, HasCodeIn};
ghost use Rattle.wide_groups.specs.Staying.{HoldsNode};

use group_text::GroupText;
use kept_parts::TextUses;
use machine_parts::MachinePart;
use std::alloc::{AllocError, Global};
use table_keys::TableKeys;
use ternary::NoMemory;
use vicinity::Wide;
use wide_groups::holds_node;

// Code is long if it has more instructions than this for each member of its group.
const MOST_INSTRUCTIONS: usize = 64;

// So many groups with one text are run together, by its code, however long it is.
const MANY: usize = 8;

/// Which of the groups that have a text get its code.
#[derive(Clone, Copy)]
pub enum Codes {
    /// All of them.
    All,
    /// Those whose code isn't long or is that of many groups. The others are stepped by vicinities.
    Short,
}

// Whether the code of a part is long for its group.
fn is_long(part: &MachinePart) -> bool {
    match &part.code {
        Some(code) => code.len() > part.members.saturating_mul(MOST_INSTRUCTIONS),
        None => false,
    }
}

// Takes their code from the parts of a new machine whose code is long and isn't that of many, unless all are to have theirs.
pub(crate) fn loosen_new(alloc: Global, codes: Codes, uses: &TextUses, parts: &mut [MachinePart])
    requires numbered { length parts.old ≤ length uses.now.numbers }
    ensures loosens { Loosens parts.old parts.new }
    ensures all { codes ≡ Codes.All → parts.new ≡ parts.old }
{
    match codes {
        Codes::All => {}
        Codes::Short => loosen_few(alloc, uses, parts),
    }
}

// Takes their code from the parts whose code is long and isn't that of many.
fn loosen_few(alloc: Global, uses: &TextUses, parts: &mut [MachinePart])
    requires { length parts.old ≤ length uses.now.numbers }
    ensures { Loosens parts.old parts.new }
{
    for place in 0..parts.len() {
        let long = is_long(&parts[place]) && has_few(place, uses);
        loosen_if(alloc, long, &mut parts[place]);
    }
}

// Whether few parts have the text of this part, if it has one.
fn has_few(k: usize, uses: &TextUses) -> bool
    requires { k < length uses.now.numbers }
{
    match uses.number_of(k) {
        Some(number) => uses.parts_with(&uses.known()[number]) < MANY,
        None => false,
    }
}

// The texts of those of these parts whose code is long and whose slots have no text yet, each as often as it is theirs.
pub(crate) fn long_texts(
    alloc: Global,
    keys: TableKeys,
    uses: &TextUses,
    slots: &[usize],
    texts: &[GroupText],
    parts: &[MachinePart],
) -> Result<TextUses, NoMemory>
    requires slots { length slots.now ≡ length parts.now }
    requires texts { length texts.now ≡ length parts.now }
    requires inside { All (λ k. k < length uses.now.numbers) slots.now }
{
    let mut fresh = TextUses::new(alloc, keys, 0)?;
    for (place, part) in parts.iter().enumerate() {
        if is_long(part) && uses.number_of(slots[place]).is_none() {
            fresh.push_text(alloc, &texts[place])?;
        }
    }
    Ok(fresh)
}

// Takes their code from these parts, which have these texts, if it is long and isn't that of many, or if the part that
// stands in the slot is stepped by vicinities already; but from none if all are to have theirs and no group is stepped by
// vicinities. With them come the texts of `fresh`.
pub(crate) fn loosen_unless_all(
    alloc: Global,
    codes: Codes,
    wide: &Option<Wide>,
    uses: &TextUses,
    fresh: &TextUses,
    texts: &[GroupText],
    parts: &mut [MachinePart],
)
    requires texts { length texts.now ≡ length parts.old }
    requires some { All (λ part. 0 < length part.map.items) parts.old }
    ensures loosens { Loosens parts.old parts.new }
    ensures held { LoosensHeld wide.now parts.new }
    ensures all { codes ≡ Codes.All → wide.now ≡ None → parts.new ≡ parts.old }
{
    if have_all(codes, wide) {
        return;
    }
    for place in 0..parts.len() {
        let loose = goes_without(&parts[place], &texts[place], wide, uses, fresh);
        loosen_if(alloc, loose, &mut parts[place]);
    }
}

// Whether all parts are to have their codes and no group is stepped by vicinities.
fn have_all(codes: Codes, wide: &Option<Wide>) -> bool
    ensures { (result ≡ true) ↔ ((codes ≡ Codes.All) × (wide.now ≡ None)) }
{
    match wide {
        Some(_wide) => false,
        None => are_all(codes),
    }
}

// Whether all parts are to have their codes.
fn are_all(codes: Codes) -> bool
    ensures { (result ≡ true) ↔ (codes ≡ Codes.All) }
{
    match codes {
        Codes::All => true,
        Codes::Short => false,
    }
}

// Whether a part with this text goes without its code.
fn goes_without(
    part: &MachinePart,
    text: &GroupText,
    wide: &Option<Wide>,
    uses: &TextUses,
    fresh: &TextUses,
) -> bool
    requires { 0 < length part.now.map.items }
    ensures { HoldsNode wide.now (slice_index part.now.map.items 0) → result ≡ true }
{
    if holds_node(wide, part.map[0]) {
        return true;
    }
    is_long(part) && will_have_few(text, uses, fresh)
}

// Whether few parts have this text, once the texts of `fresh` have come.
fn will_have_few(text: &GroupText, uses: &TextUses, fresh: &TextUses) -> bool {
    uses.parts_with(text).saturating_add(fresh.parts_with(text)) < MANY
}

// Takes its code from a part, if it is to lose it.
fn loosen_if(alloc: Global, loose: bool, part: &mut MachinePart)
    ensures loosens { (part.new ≡ part.old) ⊎ IsLoosened part.old part.new }
    ensures code { loose ≡ true → part.new.code ≡ None }
{
    if loose {
        loosen(alloc, part);
    }
}

// Takes its code from a part. It reads nothing any more.
fn loosen(alloc: Global, part: &mut MachinePart)
    ensures { IsLoosened part.old part.new }
{
    part.code = None;
    part.reads = Vec::new(alloc);
}

// Those of these slots whose parts have code.
pub(crate) fn coded_of(
    alloc: Global,
    slots: &[usize],
    parts: &[MachinePart],
) -> Result<Vec<usize>, AllocError>
    requires { length slots.now ≡ length parts.now }
    ensures { IfOk result (λ coded. (k : ℕ) → Contains coded.items k ↔ HasCodeIn slots.now parts.now k) }
{
    let mut coded = Vec::new(alloc);
    for (place, part) in parts.iter().enumerate() {
        add_if(part.code.is_some(), slots[place], &mut coded)?;
    }
    Ok(coded)
}

// Adds a number to a list, if it is to be there.
pub(crate) fn add_if(add: bool, k: usize, list: &mut Vec<usize>) -> Result<(), AllocError>
    ensures { OnOk result (list.new.items ≡ list.old.items ++ (if add then k ∷ [] else [])) }
{
    if add {
        list.push(k)?;
    }
    Ok(())
}
