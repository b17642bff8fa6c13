//! A step of a machine beside a good run's.
ghost use Rattle.std.specs.Prelude.{◌≡◌, ◌≢◌, ◌↔◌, ◌⊎◌, ℕ, ◌<◌, ◌≤◌, Some, true, length, take, Contains};
ghost use Rattle.std.specs.Bool.{OnTrue, OnFalse};
ghost use Rattle.switch_paths.specs.Switching.{state_at};
ghost use Rattle.part_words.specs.declared.change.Change.{Change};
ghost use Rattle.machine_parts.specs.Words.{AreAgreed, HasMember, IsMarked, IsTaken, ReadsAt, Stands, instructions_of, marked_sum};
ghost use Rattle.machine_parts.specs.Stepping.{Concerns};
ghost use Rattle.machine_parts.specs.declared.part.MachinePart.{MachinePart};
ghost use Rattle.wide_groups.specs.Awake.{IsWorked};
ghost use Rattle.run_beside.specs.Words.{IsWritten};
ghost use Rattle.unit_step.specs.Beside.{AdvancesBeside, FollowsByPart, KeepsPartsApart};

use crate::machine::Machine;
use machine_parts::MachinePart;
use part_words::Change;
use run_beside::{advance_beside, know_near};
use std::sync::ledger::Ledger;
use ternary::{Steps, Tern};
use vicinity::NodeSet;

impl Machine {
    /// Takes a step beside the good run's, of which these are the changes, and answers whether a part that is apart changed a
    /// node. Only parts that are apart are marked.
    ///
    /// The good state takes over the changes, and so do the nodes that are members of parts that aren't apart. What differs
    /// afterwards is apart. It isn't counted as a move. It takes memory once behind an edit, to know of each node whether it is
    /// far from all parts that are apart, and does without if there is none.
    ///
    /// After Bryant and Schuster, "Performance Evaluation of FMOSSIM, a Concurrent Switch-Level Fault
    /// Simulator", 1985.
    pub fn step_beside<L: Ledger>(
        &mut self,
        joining: bool,
        changes: &[Change],
        good: &mut [Tern],
        apart: &mut NodeSet,
        steps: &mut Steps<L>,
    ) -> bool
        requires counted { length good.old ≡ length self.old.state }
        requires inside { (change : Change) → Contains changes.now change → change.node < length good.old }
        requires agreed { AreAgreed changes.now }
        requires apart { length apart.old.inside ≡ length self.old.parts }
        requires marked { (k : ℕ) → IsMarked self.old.marks k → IsMarked apart.old.inside k }
        requires kept { KeepsPartsApart self.old.parts apart.old.inside good.old self.old.state }
        ensures good { IsTaken changes.now good.old good.new }
        ensures advances { AdvancesBeside joining changes.now apart.old.inside apart.new.inside self.old self.new }
        ensures kept { KeepsPartsApart self.new.parts apart.new.inside good.new self.new.state }
        ensures ticks { IsWorked (marked_sum instructions_of self.old.parts self.old.marks) self.old.wide self.old.state steps.old steps.new }
        ensures changed { OnTrue result (self.new.state ≢ self.old.state) }
        ensures same { OnFalse result (IsWritten (FollowsByPart self.old.parts apart.old.inside) changes.now self.old.state self.new.state) }
    {
        know_near(
            *self.body.state.allocator(),
            &self.body.owners,
            self.body.parts.len(),
            &mut self.body.near,
        );
        advance_beside(
            joining,
            changes,
            &self.body.parts,
            &mut self.body.dense,
            &self.body.owners,
            &self.body.readers,
            good,
            &mut self.body.state,
            apart,
            &mut self.body.agenda,
            &mut self.body.workspace,
            &mut self.body.wide,
            &mut self.body.noted,
            &mut self.body.near,
            steps,
        )
    }

    /// The part that has a node as a member, if there is one.
    pub fn owner_at(&self, node: usize) -> Option<usize>
        requires { node < length self.now.state }
        ensures { (k : ℕ) → (result ≡ Some k) ↔ HasMember self.now.parts k node }
    {
        self.body.owners[node]
    }

    /// The parts that read a node.
    pub fn readers_at(&self, node: usize) -> &[usize]
        requires { node < length self.now.state }
        ensures { (k : ℕ) → Contains result.now k ↔ ReadsAt self.now.parts k node }
    {
        self.body.readers.of(node)
    }

    /// Whether a part is marked.
    pub fn is_marked(&self, k: usize) -> bool
        requires { k < length self.now.parts }
        ensures { (result ≡ true) ↔ IsMarked self.now.marks k }
    {
        self.body.agenda.is_marked(k)
    }

    /// Whether no node that concerns a part differs from the good run's.
    pub fn agrees_at(&self, k: usize, good: &[Tern]) -> bool
        requires part { k < length self.now.parts }
        requires counted { length good.now ≡ length self.now.state }
        ensures { OnTrue result ((node : ℕ) → Concerns self.now.parts k node → state_at self.now.state node ≡ state_at good.now node) }
    {
        agrees_in(&self.body.parts, k, good, &self.body.state)
    }
}

// Whether no node that concerns a part differs.
fn agrees_in(parts: &[MachinePart], k: usize, good: &[Tern], bad: &[Tern]) -> bool
    requires part { k < length parts.now }
    requires seated { (part : MachinePart) → Stands parts.now k part → part.members ≤ length part.map.items }
    requires inside { (node : ℕ) → Concerns parts.now k node → node < length bad.now }
    requires counted { length good.now ≡ length bad.now }
    ensures { OnTrue result ((node : ℕ) → Concerns parts.now k node → state_at bad.now node ≡ state_at good.now node) }
{
    agrees(&parts[k], good, bad)
}

// Whether a part's members and what it reads have the same states in both runs.
fn agrees(part: &MachinePart, good: &[Tern], bad: &[Tern]) -> bool
    requires members { part.now.members ≤ length part.now.map.items }
    requires inside { (node : ℕ) → Contains (take part.now.members part.now.map.items) node → node < length bad.now }
    requires reads { (node : ℕ) → Contains part.now.reads.items node → node < length bad.now }
    requires counted { length good.now ≡ length bad.now }
    ensures { OnTrue result ((node : ℕ) → Contains (take part.now.members part.now.map.items) node ⊎ Contains part.now.reads.items node →
        state_at bad.now node ≡ state_at good.now node) }
{
    if agree_on(&part.map[..part.members], good, bad) {
        return agree_on(&part.reads, good, bad);
    }
    false
}

// Whether these nodes have the same states in both runs.
fn agree_on(nodes: &[usize], good: &[Tern], bad: &[Tern]) -> bool
    requires inside { (node : ℕ) → Contains nodes.now node → node < length bad.now }
    requires counted { length good.now ≡ length bad.now }
    ensures { OnTrue result ((node : ℕ) → Contains nodes.now node → state_at bad.now node ≡ state_at good.now node) }
{
    for &node in nodes {
        if differ_at(good, bad, node) {
            return false;
        }
    }
    true
}

// Whether a node has another state under the fault than in the good run.
fn differ_at(good: &[Tern], bad: &[Tern], node: usize) -> bool
    requires inside { node < length good.now }
    requires also { node < length bad.now }
    ensures { OnFalse result (state_at bad.now node ≡ state_at good.now node) }
{
    bad[node] != good[node]
}
