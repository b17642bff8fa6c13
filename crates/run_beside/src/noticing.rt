//! Which parts are apart after some changes, and which of them may move in the next step.
ghost use Rattle.std.specs.Prelude.{◌≡◌, ◌≢◌, ℕ, ◌<◌, Contains, Some, length};
ghost use Rattle.std.specs.Bool.{OnTrue, OnFalse};
ghost use Rattle.switch_paths.specs.Switching.{state_at};
ghost use Rattle.part_words.specs.declared.change.Change.{Change};
ghost use Rattle.machine_parts.specs.Words.{IsMarked, readers_of};
ghost use Rattle.run_beside.specs.Words.{HasNear, IsConcerned, ConcernsDiffering, IsOut, Notices, NoticesChanges, NoticesGood, ReadsAgreeing};

use crate::near::{NearSpan, is_out};
use part_steps::{Agenda, ReaderLists};
use part_words::Change;
use ternary::Tern;
use vicinity::NodeSet;

/// Of these changes' nodes each that differs puts the parts apart that it concerns. A part that wasn't apart is marked,
/// and so is each that is apart and reads one of the nodes.
pub fn notice(
    changes: &[Change],
    owners: &[Option<usize>],
    readers: &ReaderLists,
    good: &[Tern],
    bad: &[Tern],
    apart: &mut NodeSet,
    agenda: &mut Agenda,
)
    requires inside { (change : Change) → Contains changes.now change → change.node < length good.now }
    requires counted { length bad.now ≡ length good.now }
    requires owned { length owners.now ≡ length good.now }
    requires read { length readers.now ≡ length good.now }
    requires parts { (node k : ℕ) → IsConcerned owners.now readers.now node k → k < length apart.old.inside }
    requires marks { length agenda.old.marks ≡ length apart.old.inside }
    ensures notices { NoticesChanges changes.now owners.now readers.now good.now bad.now apart.old.inside apart.new.inside agenda.old.marks agenda.new.marks }
    ensures waiting { agenda.new.waiting ≡ agenda.old.waiting }
{
    for change in changes {
        notice_node(change.node, owners, readers, good, bad, apart, agenda);
    }
}

/// Of these changes' nodes, which the good run changed, each that differs puts the parts apart that it concerns, and marks those that
/// weren't: it didn't follow, so to those that were apart it is new only if the run under a fault changed it, which `notice` is told of.
/// Each that agrees marks the parts that are apart and read it. Nodes whose flag is unset aren't looked at: these agree, and no part
/// that is apart reads them. All changes outside the span are such, and are passed at once.
pub fn notice_near(
    changes: &[Change],
    span: NearSpan,
    owners: &[Option<usize>],
    readers: &ReaderLists,
    near: &[bool],
    good: &[Tern],
    bad: &[Tern],
    apart: &mut NodeSet,
    agenda: &mut Agenda,
)
    requires span { HasNear near.now changes.now span }
    requires inside { (change : Change) → Contains changes.now change → change.node < length good.now }
    requires counted { length bad.now ≡ length good.now }
    requires owned { length owners.now ≡ length good.now }
    requires read { length readers.now ≡ length good.now }
    requires parts { (node k : ℕ) → IsConcerned owners.now readers.now node k → k < length apart.old.inside }
    requires marks { length agenda.old.marks ≡ length apart.old.inside }
    requires agrees { (change : Change) → Contains changes.now change → IsOut near.now change.node → state_at bad.now change.node ≡ state_at good.now change.node }
    requires unread { (change : Change) → Contains changes.now change → IsOut near.now change.node →
        (k : ℕ) → Contains (readers_of readers.now change.node) k → ¬ IsMarked apart.old.inside k }
    ensures notices { NoticesGood changes.now owners.now readers.now good.now bad.now apart.old.inside apart.new.inside agenda.old.marks agenda.new.marks }
    ensures waiting { agenda.new.waiting ≡ agenda.old.waiting }
{
    notice_those(
        &changes[span.first..span.end],
        owners,
        readers,
        near,
        good,
        bad,
        apart,
        agenda,
    );
}

// The same of all of these changes.
fn notice_those(
    changes: &[Change],
    owners: &[Option<usize>],
    readers: &ReaderLists,
    near: &[bool],
    good: &[Tern],
    bad: &[Tern],
    apart: &mut NodeSet,
    agenda: &mut Agenda,
)
    requires inside { (change : Change) → Contains changes.now change → change.node < length good.now }
    requires counted { length bad.now ≡ length good.now }
    requires owned { length owners.now ≡ length good.now }
    requires read { length readers.now ≡ length good.now }
    requires parts { (node k : ℕ) → IsConcerned owners.now readers.now node k → k < length apart.old.inside }
    requires marks { length agenda.old.marks ≡ length apart.old.inside }
    requires agrees { (change : Change) → Contains changes.now change → IsOut near.now change.node → state_at bad.now change.node ≡ state_at good.now change.node }
    requires unread { (change : Change) → Contains changes.now change → IsOut near.now change.node →
        (k : ℕ) → Contains (readers_of readers.now change.node) k → ¬ IsMarked apart.old.inside k }
    ensures notices { NoticesGood changes.now owners.now readers.now good.now bad.now apart.old.inside apart.new.inside agenda.old.marks agenda.new.marks }
    ensures waiting { agenda.new.waiting ≡ agenda.old.waiting }
{
    for change in changes {
        notice_unless_far(change.node, owners, readers, near, good, bad, apart, agenda);
    }
}

// Puts the parts apart that a node concerns, if it differs; if it agrees, marks those of its readers that are apart. One whose flag is
// unset is passed: it agrees, and its readers that are apart are marked.
fn notice_unless_far(
    node: usize,
    owners: &[Option<usize>],
    readers: &ReaderLists,
    near: &[bool],
    good: &[Tern],
    bad: &[Tern],
    apart: &mut NodeSet,
    agenda: &mut Agenda,
)
    requires inside { node < length good.now }
    requires counted { length bad.now ≡ length good.now }
    requires owned { length owners.now ≡ length good.now }
    requires read { length readers.now ≡ length good.now }
    requires parts { (k : ℕ) → IsConcerned owners.now readers.now node k → k < length apart.old.inside }
    requires marks { length agenda.old.marks ≡ length apart.old.inside }
    requires agrees { IsOut near.now node → state_at bad.now node ≡ state_at good.now node }
    requires marked { IsOut near.now node → (k : ℕ) → Contains (readers_of readers.now node) k → IsMarked apart.old.inside k → IsMarked agenda.old.marks k }
    ensures notices { Notices (ConcernsDiffering owners.now readers.now good.now bad.now node) (ReadsAgreeing readers.now good.now bad.now node)
        apart.old.inside apart.new.inside agenda.old.marks agenda.new.marks }
    ensures waiting { agenda.new.waiting ≡ agenda.old.waiting }
{
    if is_out(near, node) {
        return;
    }
    notice_good(node, owners, readers, good, bad, apart, agenda);
}

// Puts the parts apart that a node concerns, if it differs; if it agrees, marks those of its readers that are apart.
fn notice_good(
    node: usize,
    owners: &[Option<usize>],
    readers: &ReaderLists,
    good: &[Tern],
    bad: &[Tern],
    apart: &mut NodeSet,
    agenda: &mut Agenda,
)
    requires inside { node < length good.now }
    requires counted { length bad.now ≡ length good.now }
    requires owned { length owners.now ≡ length good.now }
    requires read { length readers.now ≡ length good.now }
    requires parts { (k : ℕ) → IsConcerned owners.now readers.now node k → k < length apart.old.inside }
    requires marks { length agenda.old.marks ≡ length apart.old.inside }
    ensures notices { Notices (ConcernsDiffering owners.now readers.now good.now bad.now node) (ReadsAgreeing readers.now good.now bad.now node)
        apart.old.inside apart.new.inside agenda.old.marks agenda.new.marks }
    ensures waiting { agenda.new.waiting ≡ agenda.old.waiting }
{
    if differ_at(good, bad, node) {
        enter_concerned(node, owners, readers, apart, agenda);
    } else {
        wake_all(readers.of(node), apart, agenda);
    }
}

// Puts the parts apart that a node concerns, if it differs, and marks those of its readers that are apart.
fn notice_node(
    node: usize,
    owners: &[Option<usize>],
    readers: &ReaderLists,
    good: &[Tern],
    bad: &[Tern],
    apart: &mut NodeSet,
    agenda: &mut Agenda,
)
    requires inside { node < length good.now }
    requires counted { length bad.now ≡ length good.now }
    requires owned { length owners.now ≡ length good.now }
    requires read { length readers.now ≡ length good.now }
    requires parts { (k : ℕ) → IsConcerned owners.now readers.now node k → k < length apart.old.inside }
    requires marks { length agenda.old.marks ≡ length apart.old.inside }
    ensures notices { Notices (ConcernsDiffering owners.now readers.now good.now bad.now node) (Contains (readers_of readers.now node))
        apart.old.inside apart.new.inside agenda.old.marks agenda.new.marks }
    ensures waiting { agenda.new.waiting ≡ agenda.old.waiting }
{
    if differ_at(good, bad, node) {
        separate(node, owners, readers, apart, agenda);
    } else {
        wake_all(readers.of(node), apart, agenda);
    }
}

// Whether a node has another state under the fault than in the good run.
fn differ_at(good: &[Tern], bad: &[Tern], node: usize) -> bool
    requires inside { node < length good.now }
    requires also { node < length bad.now }
    ensures differs { OnTrue result (state_at bad.now node ≢ state_at good.now node) }
    ensures same { OnFalse result (state_at bad.now node ≡ state_at good.now node) }
{
    bad[node] != good[node]
}

// Puts the parts apart that a node concerns, and marks those that weren't and those that read it.
fn separate(
    node: usize,
    owners: &[Option<usize>],
    readers: &ReaderLists,
    apart: &mut NodeSet,
    agenda: &mut Agenda,
)
    requires owned { node < length owners.now }
    requires read { node < length readers.now }
    requires parts { (k : ℕ) → IsConcerned owners.now readers.now node k → k < length apart.old.inside }
    requires marks { length agenda.old.marks ≡ length apart.old.inside }
    ensures notices { Notices (IsConcerned owners.now readers.now node) (Contains (readers_of readers.now node))
        apart.old.inside apart.new.inside agenda.old.marks agenda.new.marks }
    ensures waiting { agenda.new.waiting ≡ agenda.old.waiting }
{
    enter_owner(owners[node], apart, agenda);
    enter_all(readers.of(node), apart, agenda);
}

// Puts the parts apart that a node concerns, and marks those that weren't.
fn enter_concerned(
    node: usize,
    owners: &[Option<usize>],
    readers: &ReaderLists,
    apart: &mut NodeSet,
    agenda: &mut Agenda,
)
    requires owned { node < length owners.now }
    requires read { node < length readers.now }
    requires parts { (k : ℕ) → IsConcerned owners.now readers.now node k → k < length apart.old.inside }
    requires marks { length agenda.old.marks ≡ length apart.old.inside }
    ensures notices { Notices (IsConcerned owners.now readers.now node) (λ k. ⊥) apart.old.inside apart.new.inside agenda.old.marks agenda.new.marks }
    ensures waiting { agenda.new.waiting ≡ agenda.old.waiting }
{
    enter_owner(owners[node], apart, agenda);
    enter_readers(readers.of(node), apart, agenda);
}

// Puts the part apart that owns a node, if one does, and marks it if it wasn't.
fn enter_owner(owner: Option<usize>, apart: &mut NodeSet, agenda: &mut Agenda)
    requires parts { (k : ℕ) → owner ≡ Some k → k < length apart.old.inside }
    requires marks { length agenda.old.marks ≡ length apart.old.inside }
    ensures notices { Notices (λ k. owner ≡ Some k) (λ k. ⊥) apart.old.inside apart.new.inside agenda.old.marks agenda.new.marks }
    ensures waiting { agenda.new.waiting ≡ agenda.old.waiting }
{
    if let Some(k) = owner {
        enter_new(k, apart, agenda);
    }
}

// Puts a part apart, and marks it if it wasn't.
fn enter_new(k: usize, apart: &mut NodeSet, agenda: &mut Agenda)
    requires parts { k < length apart.old.inside }
    requires marks { length agenda.old.marks ≡ length apart.old.inside }
    ensures notices { Notices (λ j. j ≡ k) (λ j. ⊥) apart.old.inside apart.new.inside agenda.old.marks agenda.new.marks }
    ensures waiting { agenda.new.waiting ≡ agenda.old.waiting }
{
    if apart.insert(k) {
        agenda.mark(k);
    }
}

// Puts these parts apart, and marks those that weren't.
fn enter_readers(parts: &[usize], apart: &mut NodeSet, agenda: &mut Agenda)
    requires parts { (k : ℕ) → Contains parts.now k → k < length apart.old.inside }
    requires marks { length agenda.old.marks ≡ length apart.old.inside }
    ensures notices { Notices (Contains parts.now) (λ k. ⊥) apart.old.inside apart.new.inside agenda.old.marks agenda.new.marks }
    ensures waiting { agenda.new.waiting ≡ agenda.old.waiting }
{
    for &k in parts {
        enter_new(k, apart, agenda);
    }
}

// Puts these parts apart, and marks them.
fn enter_all(parts: &[usize], apart: &mut NodeSet, agenda: &mut Agenda)
    requires parts { (k : ℕ) → Contains parts.now k → k < length apart.old.inside }
    requires marks { length agenda.old.marks ≡ length apart.old.inside }
    ensures notices { Notices (Contains parts.now) (Contains parts.now) apart.old.inside apart.new.inside agenda.old.marks agenda.new.marks }
    ensures waiting { agenda.new.waiting ≡ agenda.old.waiting }
{
    for &k in parts {
        apart.insert(k);
        agenda.mark(k);
    }
}

// Marks those of these parts that are apart.
fn wake_all(parts: &[usize], apart: &NodeSet, agenda: &mut Agenda)
    requires parts { (k : ℕ) → Contains parts.now k → k < length apart.now.inside }
    requires marks { length agenda.old.marks ≡ length apart.now.inside }
    ensures notices { Notices (λ k. ⊥) (Contains parts.now) apart.now.inside apart.now.inside agenda.old.marks agenda.new.marks }
    ensures waiting { agenda.new.waiting ≡ agenda.old.waiting }
{
    for &k in parts {
        wake(k, apart, agenda);
    }
}

// Marks a part if it is apart.
fn wake(k: usize, apart: &NodeSet, agenda: &mut Agenda)
    requires parts { k < length apart.now.inside }
    requires marks { length agenda.old.marks ≡ length apart.now.inside }
    ensures notices { Notices (λ j. ⊥) (λ j. j ≡ k) apart.now.inside apart.now.inside agenda.old.marks agenda.new.marks }
    ensures waiting { agenda.new.waiting ≡ agenda.old.waiting }
{
    if apart.contains(k) {
        agenda.mark(k);
    }
}
