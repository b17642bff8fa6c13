//! Which parts are marked where a machine begins beside a good run.
ghost use Rattle.std.specs.Prelude.{◌≡◌, ℕ, ◌<◌, length, All, Contains};
ghost use Rattle.machine_parts.specs.Words.{IsMarked, IsStale, MarksAll};
ghost use Rattle.unit_step.specs.Remarking.{MarksJust};

use crate::machine::Machine;
use part_steps::{Agenda, mark_all};
use vicinity::NodeSet;

impl Machine {
    /// Marks these parts, and of all others those alone that are stale. It takes no memory.
    pub fn mark_just(&mut self, these: &[usize])
        requires { (k : ℕ) → Contains these.now k → k < length self.old.parts }
        ensures { MarksJust these.now self.old self.new }
    {
        self.body.agenda.clear();
        mark_all(these, &mut self.body.agenda);
    }

    /// Puts the stale parts into a set of parts. It takes no memory.
    pub fn put_stale(&self, set: &mut NodeSet)
        requires { length set.old.inside ≡ length self.now.parts }
        ensures { MarksAll (IsStale self.now.parts) set.old.inside set.new.inside }
    {
        put_waiting(self.body.agenda.waiters(), &self.body.agenda, set);
    }
}

// Puts those of these parts into a set that wait.
fn put_waiting(parts: &[usize], agenda: &Agenda, set: &mut NodeSet)
    requires inside { All (λ k. k < length agenda.now.marks) parts.now }
    requires counted { length set.old.inside ≡ length agenda.now.marks }
    ensures { MarksAll (λ k. Contains parts.now k × IsMarked agenda.now.waiting k) set.old.inside set.new.inside }
{
    for &k in parts {
        put_if_waiting(k, agenda, set);
    }
}

// Puts a part into a set if it waits.
fn put_if_waiting(k: usize, agenda: &Agenda, set: &mut NodeSet)
    requires inside { k < length agenda.now.marks }
    requires counted { length set.old.inside ≡ length agenda.now.marks }
    ensures { MarksAll (λ j. (j ≡ k) × IsMarked agenda.now.waiting j) set.old.inside set.new.inside }
{
    if !agenda.does_wait(k) {
        return;
    }
    set.insert(k);
}
