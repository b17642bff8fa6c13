//! Which parts are apart where a run begins beside a good one.
ghost use Rattle.std.specs.Prelude.{◌≡◌, ◌≢◌, ◌<◌, length, IfOk};
ghost use Rattle.std.specs.Bool.{OnTrue, OnFalse};
ghost use Rattle.switch_paths.specs.Switching.{state_at};
ghost use Rattle.machine_parts.specs.Stepping.{Concerns};
ghost use Rattle.machine_parts.specs.Words.{MarksAll};
ghost use Rattle.beside_run.specs.Differing.{AreFirstApart, IsConcerned};

use beside::{put_all, put_apart};
use std::alloc::{AllocError, Global};
use ternary::Tern;
use unit_step::Machine;
use vicinity::NodeSet;

/// The parts that are touched or stale, and those that a node concerns which has another state than in the good run.
pub(crate) fn first_apart(
    alloc: Global,
    machine: &Machine,
    touched: &NodeSet,
    good: &[Tern],
) -> Result<NodeSet, AllocError>
    requires touched { length touched.now.inside ≡ length machine.now.parts }
    requires counted { length good.now ≡ length machine.now.state }
    ensures { IfOk result (λ set. AreFirstApart machine.now touched.now.inside good.now set.inside) }
{
    let mut apart = NodeSet::new(alloc, machine.parts())?;
    touched.lists_what_is_in_it();
    put_all(touched.nodes_in(), &mut apart);
    machine.put_stale(&mut apart);
    put_differing(machine, good, &mut apart);
    Ok(apart)
}

// Puts in the parts that a node concerns which differs.
fn put_differing(machine: &Machine, good: &[Tern], apart: &mut NodeSet)
    requires counted { length good.now ≡ length machine.now.state }
    requires apart { length apart.old.inside ≡ length machine.now.parts }
    ensures { MarksAll (IsConcerned machine.now good.now (length good.now)) apart.old.inside apart.new.inside }
{
    for node in 0..good.len() {
        put_if_differs(machine, good, node, apart);
    }
}

// Puts in the parts that a node concerns, if it differs.
fn put_if_differs(machine: &Machine, good: &[Tern], node: usize, apart: &mut NodeSet)
    requires inside { node < length good.now }
    requires counted { length good.now ≡ length machine.now.state }
    requires apart { length apart.old.inside ≡ length machine.now.parts }
    ensures { MarksAll (λ k. (state_at machine.now.state node ≢ state_at good.now node) × Concerns machine.now.parts k node) apart.old.inside apart.new.inside }
{
    if !differs_at(machine.state(), good, node) {
        return;
    }
    put_apart(machine, node, apart);
}

// Whether a node has another state than in the good run.
fn differs_at(states: &[Tern], good: &[Tern], node: usize) -> bool
    requires inside { node < length states.now }
    requires also { node < length good.now }
    ensures yes { OnTrue result (state_at states.now node ≢ state_at good.now node) }
    ensures no { OnFalse result (state_at states.now node ≡ state_at good.now node) }
{
    states[node] != good[node]
}
