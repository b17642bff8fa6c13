//! The parts that a fault touches.
ghost use Rattle.std.specs.Prelude.{◌≡◌, ℕ, length, IfOk};
ghost use Rattle.vicinity.specs.NodeSets.{IsIn};
ghost use Rattle.beside_run.specs.Running.{HasLater};

use std::alloc::{AllocError, Global};
use unit_step::Machine;
use vicinity::NodeSet;

/// The parts of a machine behind the first so many: in one that had so many where it was led to the good graph, and was led on to the fault's, all of
/// those that may stand otherwise.
pub fn later_parts(alloc: Global, machine: &Machine, count: usize) -> Result<NodeSet, AllocError>
    ensures { IfOk result (HasLater count machine.now) }
{
    let mut set = NodeSet::new(alloc, machine.parts())?;
    put_later(machine, count, &mut set);
    Ok(set)
}

// Puts the parts behind the first so many into an empty set.
fn put_later(machine: &Machine, count: usize, set: &mut NodeSet)
    requires counted { length set.old.inside ≡ length machine.now.parts }
    requires empty { (k : ℕ) → ¬ IsIn set.old.inside k }
    ensures { HasLater count machine.now set.new }
{
    for k in count..machine.parts() {
        set.insert(k);
    }
}
