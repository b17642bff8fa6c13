//! Parts that are put apart, and parts that go back.
ghost use Rattle.std.specs.Prelude.{◌≡◌, ℕ, ◌<◌, Some, length, Contains};
ghost use Rattle.std.specs.Bool.{OnFalse};
ghost use Rattle.machine_parts.specs.Marking.{MarksAll};
ghost use Rattle.beside.specs.Laws.{GoBack, PutsApart};
ghost use Rattle.beside.specs.Returning.{GoesBack, MayGoBack};

use std::mem::swap;
use ternary::Tern;
use unit_step::Machine;
use vicinity::NodeSet;

/// Puts the parts apart that a node concerns.
pub fn put_apart(machine: &Machine, node: usize, apart: &mut NodeSet)
    requires inside { node < length machine.now.state }
    requires counted { length apart.old.inside ≡ length machine.now.parts }
    ensures { PutsApart machine.now node apart.old.inside apart.new.inside }
{
    put_owner(machine.owner_at(node), apart);
    put_all(machine.readers_at(node), apart);
}

// Puts a part in, if there is one.
fn put_owner(owner: Option<usize>, apart: &mut NodeSet)
    requires { (k : ℕ) → owner ≡ Some k → k < length apart.old.inside }
    ensures { MarksAll (λ k. owner ≡ Some k) apart.old.inside apart.new.inside }
{
    if let Some(k) = owner {
        apart.insert(k);
    }
}

/// Puts all of these parts in.
pub fn put_all(parts: &[usize], apart: &mut NodeSet)
    requires { (k : ℕ) → Contains parts.now k → k < length apart.old.inside }
    ensures { MarksAll (Contains parts.now) apart.old.inside apart.new.inside }
{
    for &k in parts {
        apart.insert(k);
    }
}

/// Of the parts that are apart those go back that aren't among the touched ones, aren't marked, and that no node concerns which
/// differs. Its work is that of the parts that are apart; it takes no memory, but works in a set that is handed in.
pub fn go_back(
    machine: &Machine,
    touched: &NodeSet,
    good: &[Tern],
    apart: &mut NodeSet,
    room: &mut NodeSet,
)
    requires counted { length apart.old.inside ≡ length machine.now.parts }
    requires touched { length touched.now.inside ≡ length machine.now.parts }
    requires room { length room.old.inside ≡ length machine.now.parts }
    requires good { length good.now ≡ length machine.now.state }
    ensures back { GoBack touched.now.inside machine.now good.now apart.old.inside apart.new.inside }
    ensures room { length room.new.inside ≡ length room.old.inside }
{
    room.clear();
    let count = apart.len();
    for place in 0..count {
        keep_apart(machine, touched, good, apart.at(place), room);
    }
    swap(apart, room);
}

// Keeps a part apart, unless it goes back.
fn keep_apart(machine: &Machine, touched: &NodeSet, good: &[Tern], k: usize, kept: &mut NodeSet)
    requires part { k < length machine.now.parts }
    requires touched { length touched.now.inside ≡ length machine.now.parts }
    requires kept { length kept.old.inside ≡ length machine.now.parts }
    requires good { length good.now ≡ length machine.now.state }
    ensures { GoesBack touched.now.inside machine.now good.now k kept.old.inside kept.new.inside }
{
    if !stays_apart(machine, touched, good, k) {
        return;
    }
    kept.insert(k);
}

// Whether a part stays apart.
fn stays_apart(machine: &Machine, touched: &NodeSet, good: &[Tern], k: usize) -> bool
    requires part { k < length machine.now.parts }
    requires touched { length touched.now.inside ≡ length machine.now.parts }
    requires good { length good.now ≡ length machine.now.state }
    ensures { OnFalse result (MayGoBack touched.now.inside machine.now good.now k) }
{
    if touched.contains(k) {
        return true;
    }
    if machine.is_marked(k) {
        return true;
    }
    !machine.agrees_at(k, good)
}
