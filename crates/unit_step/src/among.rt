//! A node that is placed while some parts alone may be marked.
ghost use Rattle.std.specs.Prelude.{◌≡◌, ℕ, ◌<◌, false, None, Some, IfSome, length, Contains};
ghost use Rattle.machine_parts.specs.declared.part.MachinePart.{MachinePart};
ghost use Rattle.machine_parts.specs.Words.{IsMarked, MarksAll, Stands};
ghost use Rattle.unit_step.specs.Among.{PlacesAmong};

use crate::machine::Machine;
use machine_parts::MachinePart;
use part_steps::Agenda;
use ternary::Tern;
use vicinity::NodeSet;
use wide_groups::place;

impl Machine {
    /// Gives a node this state as `set_node` does, but of the parts that it concerns marks those alone that are among these, and counts
    /// nothing. It takes no memory.
    pub fn set_node_among(&mut self, node: usize, value: Tern, among: &NodeSet)
        requires inside { node < length self.old.state }
        requires counted { length among.now.inside ≡ length self.old.parts }
        ensures { PlacesAmong node value among.now.inside self.old self.new }
    {
        place(node, value, &mut self.body.state, &mut self.body.wide);
        let owner = self.body.owners[node];
        mark_owner_among(owner, among, &mut self.body.agenda);
        mark_among(self.body.readers.of(node), among, &mut self.body.agenda);
    }

    /// Whether a part has code.
    pub fn is_coded(&self, k: usize) -> bool
        requires { k < length self.now.parts }
        ensures { (part : MachinePart) → Stands self.now.parts k part → part.code ≡ None → result ≡ false }
    {
        is_coded_in(&self.body.parts, k)
    }

    /// Each part has a mark: a call of this is for its contract alone.
    pub fn has_a_mark_for_each_part(&self)
        ensures { length self.now.marks ≡ length self.now.parts }
    {
        let _ = &self.body;
    }
}

// Whether a part of these has code.
fn is_coded_in(parts: &[MachinePart], k: usize) -> bool
    requires { k < length parts.now }
    ensures { (part : MachinePart) → Stands parts.now k part → part.code ≡ None → result ≡ false }
{
    has_code(&parts[k])
}

// Whether a part has code.
fn has_code(part: &MachinePart) -> bool
    ensures { part.now.code ≡ None → result ≡ false }
{
    part.code.is_some()
}

// Marks the part that owns a node, if one does that is among these.
fn mark_owner_among(owner: Option<usize>, among: &NodeSet, agenda: &mut Agenda)
    requires inside { IfSome owner (λ k. k < length agenda.old.marks) }
    requires counted { length among.now.inside ≡ length agenda.old.marks }
    ensures marks { MarksAll (λ k. (owner ≡ Some k) × IsMarked among.now.inside k) agenda.old.marks agenda.new.marks }
    ensures waiting { agenda.new.waiting ≡ agenda.old.waiting }
{
    if let Some(k) = owner {
        mark_one_among(k, among, agenda);
    }
}

// Marks those of the parts that are among these.
fn mark_among(parts: &[usize], among: &NodeSet, agenda: &mut Agenda)
    requires inside { (k : ℕ) → Contains parts.now k → k < length agenda.old.marks }
    requires counted { length among.now.inside ≡ length agenda.old.marks }
    ensures marks { MarksAll (λ k. Contains parts.now k × IsMarked among.now.inside k) agenda.old.marks agenda.new.marks }
    ensures waiting { agenda.new.waiting ≡ agenda.old.waiting }
{
    for &k in parts {
        mark_one_among(k, among, agenda);
    }
}

// Marks a part, if it is among these.
fn mark_one_among(k: usize, among: &NodeSet, agenda: &mut Agenda)
    requires inside { k < length agenda.old.marks }
    requires counted { length among.now.inside ≡ length agenda.old.marks }
    ensures marks { MarksAll (λ j. (j ≡ k) × IsMarked among.now.inside j) agenda.old.marks agenda.new.marks }
    ensures waiting { agenda.new.waiting ≡ agenda.old.waiting }
{
    if !among.contains(k) {
        return;
    }
    agenda.mark(k);
}
