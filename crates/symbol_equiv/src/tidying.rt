//! Letting functions go that neither a session nor the notes of two runs need.

ghost use Rattle.std.specs.Prelude.{◌≡◌, ◌+◌, ◌<◌, ◌≤◌, ◌++◌, ℕ, List, Option, drop, length, take, IfErr, IfOk};
ghost use Rattle.truth_makers.specs.Makers.{columns_in};
ghost use Rattle.symbol_equiv.specs.Ends.{LeavesUnwritten};
ghost use Rattle.symbol_equiv.specs.Notes.{rails_left, with_rails, AreNotes, StillShow};

use crate::fault::EqualFault;
use crate::sharing::SharesMaker;
use decision_graph::Function;
use std::alloc::Global;
use symbol_told::Notes;
use ternary::NoMemory;
use truth_makers::Symbols;

/// Lets functions go that neither a session nor these notes need, if there are many. Out of memory all is as before.
#[tactic(auto, using(crate::proofs::KeptLemmas::still_same))]
pub(crate) fn tidy<M: SharesMaker>(
    alloc: Global,
    session: &mut M,
    kept: &mut Notes,
    notes: &mut Notes,
)
    requires kept { AreNotes (M.maker session.old) kept.old }
    requires noted { AreNotes (M.maker session.old) notes.old }
    ensures quiet { M.quiet session.new ≡ M.quiet session.old }
    ensures valuations { M.valuations session.new ≡ M.valuations session.old }
    ensures sessions { (column : ℕ) → column < (M.valuations session.old).columns → M.sessions session.new column ≡ M.sessions session.old column }
    ensures serves { (cut : Option ℕ) (lines : List (ℕ × List ℕ)) → M.serves session.old cut lines → M.serves session.new cut lines }
    ensures columns { columns_in (M.maker session.new) ≡ columns_in (M.maker session.old) }
    ensures kept { StillShow (M.maker session.old) (M.maker session.new) kept.old kept.new }
    ensures noted { StillShow (M.maker session.old) (M.maker session.new) notes.old notes.new }
{
    if !session.has_grown() {
        return;
    }
    let Ok((mut all, first, second)) = all_rails(alloc, kept, notes) else {
        return;
    };
    session.tidy(&mut all);
    put_both(&all, first, second, kept, notes);
}

/// A maker with the functions of these notes, for who goes on when a session is done.
pub(crate) fn leave<M: SharesMaker>(
    alloc: Global,
    session: &M,
    kept: &mut Notes,
    notes: &mut Notes,
) -> Result<Symbols, EqualFault>
    requires kept { AreNotes (M.maker session.now) kept.old }
    requires noted { AreNotes (M.maker session.now) notes.old }
    ensures columns { IfOk result (λ symbols. columns_in symbols ≡ columns_in (M.maker session.now)) }
    ensures kept { IfOk result (λ symbols. StillShow (M.maker session.now) symbols kept.old kept.new) }
    ensures noted { IfOk result (λ symbols. StillShow (M.maker session.now) symbols notes.old notes.new) }
    ensures unwritten { IfErr result LeavesUnwritten }
{
    let (mut all, first, second) = all_rails(alloc, kept, notes)?;
    let symbols = session.leave(&mut all)?;
    put_both(&all, first, second, kept, notes);
    Ok(symbols)
}

// The rails of notes, as lists of their own.
#[derive(Drop)]
struct Copies {
    highs: Vec<Function>,
    lows: Vec<Function>,
}

// Copies of the rails of notes.
fn rails_of(alloc: Global, notes: &Notes) -> Result<Copies, NoMemory>
    ensures highs { IfOk result (λ copies. copies.highs.items ≡ notes.now.highs) }
    ensures lows { IfOk result (λ copies. copies.lows.items ≡ notes.now.lows) }
{
    let highs = Vec::from_slice(alloc, notes.highs())?;
    let lows = Vec::from_slice(alloc, notes.lows())?;
    Ok(Copies { highs, lows })
}

// The rails of both, one list behind the other, and those of each.
fn all_rails(
    alloc: Global,
    kept: &Notes,
    notes: &Notes,
) -> Result<(Vec<Function>, Copies, Copies), NoMemory>
    ensures all { IfOk result (λ own. own.0.items ≡ ((kept.now.highs ++ kept.now.lows) ++ notes.now.highs) ++ notes.now.lows) }
    ensures first_highs { IfOk result (λ own. own.1.highs.items ≡ kept.now.highs) }
    ensures first_lows { IfOk result (λ own. own.1.lows.items ≡ kept.now.lows) }
    ensures second_highs { IfOk result (λ own. own.2.highs.items ≡ notes.now.highs) }
    ensures second_lows { IfOk result (λ own. own.2.lows.items ≡ notes.now.lows) }
{
    let mut all = Vec::from_slice(alloc, kept.highs())?;
    all.extend_from_slice(kept.lows())?;
    all.extend_from_slice(notes.highs())?;
    all.extend_from_slice(notes.lows())?;
    let first = rails_of(alloc, kept)?;
    let second = rails_of(alloc, notes)?;
    Ok((all, first, second))
}

// Lets both notes have these functions, in order, in the place of their rails.
fn put_both(all: &[Function], first: Copies, second: Copies, kept: &mut Notes, notes: &mut Notes)
    requires first_highs { length first.highs.items ≡ length kept.old.highs }
    requires first_lows { length first.lows.items ≡ length kept.old.lows }
    requires second_highs { length second.highs.items ≡ length notes.old.highs }
    requires second_lows { length second.lows.items ≡ length notes.old.lows }
    requires enough { (length kept.old.highs + length kept.old.lows) + (length notes.old.highs + length notes.old.lows) ≤ length all.now }
    ensures kept { kept.new ≡ with_rails kept.old all.now }
    ensures notes { notes.new ≡ with_rails notes.old (rails_left kept.old all.now) }
{
    let rest = put_back(all, first, kept);
    put_back(rest, second, notes);
}

// Lets notes have the first of these functions in the place of their rails, and answers the others.
fn put_back<'a>(all: &'a [Function], copies: Copies, notes: &mut Notes) -> &'a [Function]
    requires highs { length copies.highs.items ≡ length notes.old.highs }
    requires lows { length copies.lows.items ≡ length notes.old.lows }
    requires enough { length notes.old.highs + length notes.old.lows ≤ length all.now }
    ensures notes { notes.new ≡ with_rails notes.old all.now }
    ensures rest { result.now ≡ rails_left notes.old all.now }
{
    notes.highs();
    let Copies {
        mut highs,
        mut lows,
    } = copies;
    let others = put_front(all, &mut highs);
    let rest = put_front(others, &mut lows);
    notes.stand_for(highs, lows);
    rest
}

// Puts the first of these functions into a list, as many as it has, and answers the others.
fn put_front<'a>(all: &'a [Function], list: &mut [Function]) -> &'a [Function]
    requires { length list.old ≤ length all.now }
    ensures list { list.new ≡ take (length list.old) all.now }
    ensures rest { result.now ≡ drop (length list.old) all.now }
{
    let count = list.len();
    list.copy_from_slice(&all[..count]);
    &all[count..]
}
