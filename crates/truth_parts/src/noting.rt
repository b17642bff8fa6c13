//! What is noted of the next rails of nodes.
ghost use Rattle.std.specs.Prelude.{◌≡◌, ℕ, ◌+◌, ◌<◌, ◌≤◌, false, length, All, vec_len, vec_capacity, IfErr, IfOk, OnOk, IfSome, IfNone};
ghost use Rattle.std.specs.Bool.{OnTrue};
ghost use Rattle.truth_columns.specs.Columns.{AreKept};
ghost use Rattle.truth_parts.specs.Noting.{after_rail, with_found, AreAlike, AreUnlike, IsNextFrom, IsOf, Notes, StaysBy};

use crate::workspace::TruthChange;
use straight_code::StepKind;
use truth_columns::Truths;

// Notes each node at the front of a map whose next rails differ from its rails in some column.
pub(crate) fn note_all<T: Truths>(
    joining: bool,
    truths: &mut T,
    nodes: &[usize],
    hi: &[T::Truth],
    lo: &[T::Truth],
    ones: &[T::Truth],
    others: &[T::Truth],
    changes: &mut Vec<TruthChange<T::Truth>>,
) -> Result<(), T::Fault>
    requires rails { length lo.now ≡ length hi.now }
    requires below { All (λ node. node < length hi.now) nodes.now }
    requires front { length ones.now ≤ length nodes.now }
    requires even { length others.now ≡ length ones.now }
    requires room { vec_len changes.old + length ones.now ≤ vec_capacity changes.old }
    requires highs { All (T.has truths.old) hi.now }
    requires lows { All (T.has truths.old) lo.now }
    requires ones { All (T.has truths.old) ones.now }
    requires others { All (T.has truths.old) others.now }
    requires own { All (IsOf (T.has truths.old)) changes.old.items }
    ensures kept { AreKept (T.columns truths.old) (T.has truths.old) (T.holds truths.old) (T.columns truths.new) (T.has truths.new) (T.holds truths.new) }
    ensures bound { T.bound truths.new ≡ T.bound truths.old }
    ensures spent { IfErr result (T.spent truths.new) }
    ensures changes { OnOk result (Notes joining (T.columns truths.new) (T.holds truths.new) nodes.now hi.now lo.now ones.now others.now (length ones.now)
        changes.old.items changes.new.items) }
    ensures own { All (IsOf (T.has truths.new)) changes.new.items }
    ensures few { vec_len changes.new ≤ vec_len changes.old + length ones.now }
    ensures capacity { vec_capacity changes.new ≡ vec_capacity changes.old }
{
    for place in 0..ones.len() {
        let node = nodes[place];
        let (high, low) = (hi[node], lo[node]);
        let (one, other) = (ones[place], others[place]);
        let found = next_of(joining, truths, node, high, low, one, other)?;
        note_found(found, changes);
    }
    Ok(())
}

// Puts a change that was found behind the others.
fn note_found<A: Copy>(found: Option<TruthChange<A>>, changes: &mut Vec<TruthChange<A>>)
    requires { vec_len changes.old < vec_capacity changes.old }
    ensures items { changes.new.items ≡ with_found found changes.old.items }
    ensures few { vec_len changes.new ≤ vec_len changes.old + 1 }
    ensures capacity { vec_capacity changes.new ≡ vec_capacity changes.old }
{
    if let Some(change) = found {
        changes.push_reserved(change);
    }
}

// The change of a node with these rails that is given those, if it changes it in some column.
fn next_of<T: Truths>(
    joining: bool,
    truths: &mut T,
    node: usize,
    hi: T::Truth,
    lo: T::Truth,
    one: T::Truth,
    other: T::Truth,
) -> Result<Option<TruthChange<T::Truth>>, T::Fault>
    requires hi { T.has truths.old hi }
    requires lo { T.has truths.old lo }
    requires one { T.has truths.old one }
    requires other { T.has truths.old other }
    ensures kept { AreKept (T.columns truths.old) (T.has truths.old) (T.holds truths.old) (T.columns truths.new) (T.has truths.new) (T.holds truths.new) }
    ensures bound { T.bound truths.new ≡ T.bound truths.old }
    ensures spent { IfErr result (T.spent truths.new) }
    ensures changes { IfOk result (λ found. IfSome found (IsNextFrom joining (T.columns truths.new) (T.has truths.new) (T.holds truths.new) node hi lo one other)) }
    ensures stays { IfOk result (λ found. IfNone found (StaysBy joining (T.columns truths.new) (T.holds truths.new) hi lo one other)) }
{
    let next_hi = after(joining, truths, hi, one)?;
    let next_lo = after(joining, truths, lo, other)?;
    if are_alike(truths, next_hi, next_lo, hi, lo) {
        return Ok(None);
    }
    Ok(Some(TruthChange {
        node,
        hi: next_hi,
        lo: next_lo,
    }))
}

// A rail of a node that is given one: a joining step joins both.
fn after<T: Truths>(
    joining: bool,
    truths: &mut T,
    old: T::Truth,
    given: T::Truth,
) -> Result<T::Truth, T::Fault>
    requires old { T.has truths.old old }
    requires given { T.has truths.old given }
    ensures kept { AreKept (T.columns truths.old) (T.has truths.old) (T.holds truths.old) (T.columns truths.new) (T.has truths.new) (T.holds truths.new) }
    ensures bound { T.bound truths.new ≡ T.bound truths.old }
    ensures spent { IfErr result (T.spent truths.new) }
    ensures has { IfOk result (T.has truths.new) }
    ensures value { IfOk result (λ made. (column : ℕ) → column < T.columns truths.old
        → T.holds truths.new made column ≡ after_rail joining (T.holds truths.old old column) (T.holds truths.old given column)) }
{
    if !joining {
        return Ok(given);
    }
    let made = truths.perform(StepKind::Or, old, given)?;
    Ok(made)
}

// Whether two rails are those that they were, in all columns.
fn are_alike<T: Truths>(
    truths: &T,
    hi: T::Truth,
    lo: T::Truth,
    old_hi: T::Truth,
    old_lo: T::Truth,
) -> bool
    requires hi { T.has truths.now hi }
    requires lo { T.has truths.now lo }
    requires old_hi { T.has truths.now old_hi }
    requires old_lo { T.has truths.now old_lo }
    ensures alike { OnTrue result (AreAlike (T.columns truths.now) (T.holds truths.now) hi lo old_hi old_lo) }
    ensures unlike { result ≡ false → AreUnlike (T.columns truths.now) (T.holds truths.now) hi lo old_hi old_lo }
{
    if !truths.same(hi, old_hi) {
        return false;
    }
    truths.same(lo, old_lo)
}
