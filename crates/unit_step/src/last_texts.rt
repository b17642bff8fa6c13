//! The texts that a machine's groups had at its last build.
ghost use Rattle.std.specs.Prelude.{◌≡◌, ℕ, ◌<◌, ◌≤◌, ◌++◌, ◌∷◌, Bool, List, [], Option, None, Some, length, All, Contains, ◌⊎◌, IfOk, IsTrue, IfSome, OnOk, OnErr, slice_index_or, slice_get};
ghost use Rattle.group_text.specs.Words.{is_among, GroupTextData};
ghost use Rattle.group_analysis.specs.Words.{used_texts, set_of};
ghost use Rattle.analysis_cache.specs.Keeping.{texts_of};
ghost use Rattle.machine_parts.specs.Words.{AreApart, AreOwners};
ghost use Rattle.unit_step.specs.LastTexts.{AreFirsts, AreLastTexts, UsesLeavers, UsesLeaver, starts_of, text_in, texts_numbered, texts_of_last, with_beginning};
ghost use Rattle.machine_laws.specs.Beginnings.{Begins, BeginsAt};

use crate::seating::owner_of;
use analysis_cache::Kept;
use kept_parts::TextUses;
use machine_parts::MachinePart;
use std::alloc::{AllocError, Global};

// For each node the number of the text of the part that began there at the last build, if one did that has a
// text.
//
// What is kept is ordered by use, and a build uses the texts that are present: so these stand first, wherever
// they are in the table, and a build moves those alone that are gone since. An edit notes the nodes at which a
// part began that it dissolves, so a build looks at no other.
#[derive(Drop)]
pub(crate) struct LastTexts {
    pub(crate) numbers: Vec<Option<usize>>,
    // the nodes at which that may be another one by now
    pub(crate) changed: Vec<usize>,
}

impl LastTexts {
    // That of parts over so many nodes, with their texts.
    pub(crate) fn of_parts(
        alloc: Global,
        parts: &[MachinePart],
        uses: &TextUses,
        nodes: usize,
    ) -> Result<LastTexts, AllocError>
        requires below { All (λ part. All (λ node. node < nodes) part.map.items) parts.now }
        requires members { All (λ part. part.members ≤ length part.map.items) parts.now }
        requires apart { AreApart parts.now }
        requires numbered { length uses.now.numbers ≡ length parts.now }
        ensures last_texts { IfOk result (AreLastTexts parts.now uses.now.numbers nodes (length uses.now.known)) }
        ensures none { IfOk result (λ last_texts. last_texts.changed.items ≡ []) }
    {
        let mut numbers = vec![in alloc; None; nodes]?;
        for (k, part) in parts.iter().enumerate() {
            begin(part, uses.number_of(k), &mut numbers);
        }
        Ok(LastTexts {
            numbers,
            changed: Vec::new(alloc),
        })
    }

    // Notes the node at which a part begins, if it has members.
    pub(crate) fn note(&mut self, part: &MachinePart) -> Result<(), AllocError>
        requires { part.now.members ≤ length part.now.map.items }
        ensures numbers { self.new.numbers ≡ self.old.numbers }
        ensures ok { OnOk result (self.new.changed.items ≡ self.old.changed.items ++ starts_of part.now) }
        ensures err { OnErr result (self.new.changed.items ≡ self.old.changed.items) }
    {
        if part.members > 0 {
            self.changed.push(part.map[0])?;
        }
        Ok(())
    }

    // Notes the nodes at which the parts with these numbers begin.
    pub(crate) fn note_all(
        &mut self,
        slots: &[usize],
        parts: &[MachinePart],
    ) -> Result<(), AllocError>
        requires inside { All (λ k. k < length parts.now) slots.now }
        requires members { All (λ part. part.members ≤ length part.map.items) parts.now }
        ensures numbers { self.new.numbers ≡ self.old.numbers }
        ensures stays { (node : ℕ) → Contains self.old.changed.items node → Contains self.new.changed.items node }
        ensures only { (node : ℕ) → Contains self.new.changed.items node → Contains self.old.changed.items node ⊎ ((k : ℕ) × Contains slots.now k × BeginsAt parts.now k node) }
        ensures all { OnOk result ((k node : ℕ) → Contains slots.now k → BeginsAt parts.now k node → Contains self.new.changed.items node) }
    {
        for &k in slots {
            self.note(&parts[k])?;
        }
        Ok(())
    }

    // Moves the texts to the front of what is kept, where they stand, that no part has any more.
    pub(crate) fn use_leavers(&mut self, parts: &[MachinePart], uses: &TextUses, kept: &mut Kept)
        requires last_texts { AreLastTexts parts.now uses.now.numbers (length self.old.numbers.items) (length uses.now.known) self.old }
        requires kept { All (λ text. IsTrue (is_among (texts_of kept.old) text)) (texts_of_last uses.now.known self.old) }
        ensures last_texts { AreLastTexts parts.now uses.now.numbers (length self.old.numbers.items) (length uses.now.known) self.new }
        ensures numbers { self.new.numbers ≡ self.old.numbers }
        ensures uses { UsesLeavers uses.now self.old (texts_of kept.old) (texts_of kept.new) }
        ensures set { set_of (texts_of kept.new) ≡ set_of (texts_of kept.old) }
        ensures bound { kept.new.bound ≡ kept.old.bound }
    {
        if self.changed.is_empty() {
            return;
        }
        self.changed.sort_unstable();
        self.changed.dedup();
        let mut place = self.changed.len();
        while place > 0 {
            place -= 1;
            use_leaver(self.numbers[self.changed[place]], uses, kept);
        }
    }

    // The texts that the parts have now are those of the last build from now on.
    pub(crate) fn renew(&mut self, parts: &[MachinePart], uses: &TextUses, owners: &[Option<usize>])
        requires last_texts { AreLastTexts parts.now uses.now.numbers (length owners.now) (length uses.now.known) self.old }
        requires numbered { length parts.now ≤ length uses.now.numbers }
        requires apart { AreApart parts.now }
        requires owners { AreOwners parts.now (length owners.now) owners.now }
        ensures last_texts { AreLastTexts parts.now uses.now.numbers (length owners.now) (length uses.now.known) self.new }
        ensures none { self.new.changed.items ≡ [] }
    {
        while let Some(node) = self.changed.pop() {
            self.numbers[node] = number_at(node, parts, uses, owners);
        }
    }

    // Moves all of these texts to the front of what is kept, in their order: each once, or if there is too little memory
    // to note which were moved, as often as it stands here, which comes to the same.
    pub(crate) fn use_all(&self, uses: &TextUses, kept: &mut Kept)
        requires inside { (node number : ℕ) → slice_index_or self.now.numbers.items node None ≡ Some number → number < length uses.now.known }
        requires kept { All (λ text. IsTrue (is_among (texts_of kept.old) text)) (texts_of_last uses.now.known self.now) }
        ensures texts { texts_of kept.new ≡ used_texts (texts_of_last uses.now.known self.now) (texts_of kept.old) }
        ensures bound { kept.new.bound ≡ kept.old.bound }
    {
        let alloc = *self.numbers.allocator();
        match firsts_of(alloc, &self.numbers, uses.known().len()) {
            Ok(firsts) => use_each(&firsts, uses, kept),
            Err(_) => use_each(&self.numbers, uses, kept),
        }
    }
}

// Each of these numbers once, in the order of their first appearances. The numbers are below `count`.
#[tactic(auto, using(crate::proofs::FirstNumbers::firsts_none))]
fn firsts_of(
    alloc: Global,
    numbers: &[Option<usize>],
    count: usize,
) -> Result<Vec<Option<usize>>, AllocError>
    requires { (node number : ℕ) → slice_index_or numbers.now node None ≡ Some number → number < count }
    ensures { IfOk result (λ firsts. (seen : List Bool) × (length seen ≡ count) × AreFirsts numbers.now firsts.items seen) }
{
    let mut seen = vec![in alloc; false; count]?;
    let mut firsts = Vec::new(alloc);
    for number in numbers {
        note_first(*number, &mut seen, &mut firsts)?;
    }
    Ok(firsts)
}

// Puts a number, if there is one, behind the first ones, unless it was seen.
#[tactic(auto, using(crate::proofs::FirstNumbers::firsts_no_number, crate::proofs::FirstNumbers::firsts_seen, crate::proofs::FirstNumbers::firsts_new))]
fn note_first(
    number: Option<usize>,
    seen: &mut [bool],
    firsts: &mut Vec<Option<usize>>,
) -> Result<(), AllocError>
    requires { IfSome number (λ one. one < length seen.old) }
    ensures { OnOk result ((numbers : List (Option ℕ)) → AreFirsts numbers firsts.old.items seen.old
        → AreFirsts (numbers ++ number ∷ []) firsts.new.items seen.new) }
{
    let Some(one) = number else {
        return Ok(());
    };
    if seen[one] {
        return Ok(());
    }
    firsts.push(Some(one))?;
    seen[one] = true;
    Ok(())
}

// Moves the texts with these numbers to the front of what is kept, in their order.
fn use_each(numbers: &[Option<usize>], uses: &TextUses, kept: &mut Kept)
    requires inside { (node number : ℕ) → slice_index_or numbers.now node None ≡ Some number → number < length uses.now.known }
    requires kept { All (λ text. IsTrue (is_among (texts_of kept.old) text)) (texts_numbered uses.now.known numbers.now) }
    ensures texts { texts_of kept.new ≡ used_texts (texts_numbered uses.now.known numbers.now) (texts_of kept.old) }
    ensures bound { kept.new.bound ≡ kept.old.bound }
{
    let mut place = numbers.len();
    while place > 0 {
        place -= 1;
        use_numbered(numbers[place], uses, kept);
    }
}

// Puts the number of a part's text where the part begins, if it has members.
fn begin(part: &MachinePart, number: Option<usize>, numbers: &mut [Option<usize>])
    requires members { part.now.members ≤ length part.now.map.items }
    requires inside { All (λ node. node < length numbers.old) part.now.map.items }
    ensures { numbers.new ≡ with_beginning part.now number numbers.old }
{
    if part.members > 0 {
        numbers[part.map[0]] = number;
    }
}

// Moves the text with this number, if there is one, to the front of what is kept.
fn use_numbered(number: Option<usize>, uses: &TextUses, kept: &mut Kept)
    requires inside { IfSome number (λ one. one < length uses.now.known) }
    requires kept { IfSome number (λ one. (text : GroupTextData) → slice_get uses.now.known one ≡ Some text → IsTrue (is_among (texts_of kept.old) text)) }
    ensures texts { texts_of kept.new ≡ used_texts (text_in uses.now number) (texts_of kept.old) }
    ensures bound { kept.new.bound ≡ kept.old.bound }
{
    if let Some(number) = number {
        kept.use_text(&uses.known()[number]);
    }
}

// Moves the text with this number, if there is one, to the front of what is kept, unless a part has it.
fn use_leaver(number: Option<usize>, uses: &TextUses, kept: &mut Kept)
    requires inside { IfSome number (λ one. one < length uses.now.known) }
    requires kept { IfSome number (λ one. (text : GroupTextData) → slice_get uses.now.known one ≡ Some text → IsTrue (is_among (texts_of kept.old) text)) }
    ensures uses { UsesLeaver uses.now number (texts_of kept.old) (texts_of kept.new) }
    ensures set { set_of (texts_of kept.new) ≡ set_of (texts_of kept.old) }
    ensures bound { kept.new.bound ≡ kept.old.bound }
{
    if let Some(number) = number {
        if !uses.is_used(number) {
            kept.use_text(&uses.known()[number]);
        }
    }
}

// The number of the text of the part that begins at a node, if one does that has a text.
fn number_at(
    node: usize,
    parts: &[MachinePart],
    uses: &TextUses,
    owners: &[Option<usize>],
) -> Option<usize>
    requires numbered { length parts.now ≤ length uses.now.numbers }
    requires apart { AreApart parts.now }
    requires owners { AreOwners parts.now (length owners.now) owners.now }
    ensures begins { IfSome result (Begins parts.now uses.now.numbers node) }
    ensures known { IfSome result (λ number. number < length uses.now.known) }
    ensures all { (number : ℕ) → Begins parts.now uses.now.numbers node number → result ≡ Some number }
{
    let k = owner_of(owners, node)?;
    if parts[k].map[0] == node {
        uses.number_of(k)
    } else {
        None
    }
}
