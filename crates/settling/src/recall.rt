//! What remembers a state of a phase, to tell when it comes back.
ghost use Rattle.std.specs.Prelude.{◌≡◌, ◌≢◌, ℕ, ◌+◌, ◌*◌, ◌/◌, ◌<◌, ◌≤◌, None, length, IfSome, IfNone};
ghost use Rattle.std.specs.Bool.{OnTrue, OnFalse};
ghost use Rattle.switch_paths.specs.Words.{state_at};
ghost use Rattle.settling.specs.Recurring.{IsBack, Recalls, RemembersOne};

use std::alloc::Global;
use std::marker::Model;
use ternary::Tern;

// After how many steps of a phase the first state is remembered.
const FIRST: u64 = 16;

// A state is remembered only if there were a step for each so many nodes.
const NODES_A_STEP: u64 = 256;

/// What remembers one state of a phase.
///
/// A state depends on the one before it alone, so if unit steps come back to a state, they go on in rounds from it to it.
/// What is left of the phase's limit is then a number of whole rounds, which needn't be taken, and less than a round.
///
/// The state is remembered that there is after 16 steps, then the one after 32, 64 and so on, as long as none came back.
/// So rounds of any length are found. If copying a state would cost more than the steps did so far it isn't
/// remembered, nor is it if there is no memory for it.
#[derive(Drop)]
pub struct Recall {
    // the state, and after how many steps it was there, if one is remembered
    kept: Vec<Tern>,
    since: Option<u64>,
    // after how many steps the next state is due
    due: u64,
    // a node at which a state differed that was looked at
    differed: usize,
}

impl Model for Recall {
    ghost use Rattle.settling.specs.Recurring.{RecallData};

    ghost Value = { RecallData };

    ghost view = { λ recall. record { since = recall.since; state = recall.kept.items } };
}

impl Recall {
    /// Nothing is remembered. It takes no memory.
    pub fn new(alloc: Global) -> Recall
        ensures { result.since ≡ None }
    {
        Recall {
            kept: Vec::new(alloc),
            since: None,
            due: FIRST,
            differed: 0,
        }
    }

    // A phase begins: no state of it is remembered.
    pub(crate) fn forget(&mut self)
        ensures { self.new.since ≡ None }
    {
        self.since = None;
        self.due = FIRST;
    }

    // How many steps needn't be taken, of those that are left of the limit: so many as are whole rounds, if this state,
    // which there is after so many steps, is the one that is remembered. Once one came back none is remembered any more;
    // until then this one is, if it is due.
    pub(crate) fn rounds_ahead(&mut self, state: &[Tern], count: u64, limit: u64) -> u64
        requires { count ≤ limit }
        ensures left { count + result ≤ limit }
        ensures recalls { Recalls self.old self.new state.now count result }
    {
        match self.round_behind(state, count) {
            Some(round) => {
                self.stop();
                whole_rounds(limit - count, round)
            }
            None => {
                self.remember_if_due(state, count);
                0
            }
        }
    }

    // How many steps ago this state, which there is after so many steps, was there, if it is the one that is remembered.
    #[tactic(auto, using(crate::proofs::RecallLemmas::is_back))]
    fn round_behind(&mut self, state: &[Tern], count: u64) -> Option<u64>
        ensures same { self.new ≡ self.old }
        ensures back { IfSome result (λ round. IsBack self.old state.now count round) }
    {
        let Some(since) = self.since else {
            return None;
        };
        if count <= since {
            return None;
        }
        match self.difference(state) {
            Some(node) => {
                self.differed = node;
                None
            }
            None => Some(count - since),
        }
    }

    // A state came back: none is remembered any more in this phase.
    fn stop(&mut self)
        ensures { self.new.since ≡ None }
    {
        self.since = None;
        self.due = u64::MAX;
    }

    // A node at which this state isn't the one that is remembered, if there is one. The place at which the
    // last one differed is looked at first: mostly it differs there still.
    #[tactic(auto, using(crate::proofs::RecallLemmas::lengths_differ, crate::proofs::RecallLemmas::states_differ, crate::proofs::RecallLemmas::none_differs))]
    fn difference(&self, state: &[Tern]) -> Option<usize>
        ensures none { IfNone result (state.now ≡ self.now.state) }
        ensures some { IfSome result (λ _. state.now ≢ self.now.state) }
    {
        if state.len() != self.kept.len() {
            return Some(0);
        }
        if differ_inside(state, &self.kept, self.differed) {
            return Some(self.differed);
        }
        first_difference(state, &self.kept)
    }

    // Remembers this state in place of another one, if it is due.
    fn remember_if_due(&mut self, state: &[Tern], count: u64)
        ensures { RemembersOne self.old self.new state.now count }
    {
        if self.is_due(state.len(), count) {
            self.remember(state, count);
        }
    }

    // Whether a state of so many nodes is due after so many steps. The next one is then due after twice as many.
    fn is_due(&mut self, nodes: usize, count: u64) -> bool
        ensures { self.new ≡ self.old }
    {
        if count < self.due {
            return false;
        }
        self.due = self.due.saturating_mul(2);
        nodes as u64 / NODES_A_STEP <= count
    }

    // Remembers this state, which there is after so many steps, in place of another one, if there is memory for it.
    #[tactic(auto, using(crate::proofs::RecallLemmas::now_is_remembered, crate::proofs::RecallLemmas::none_is_remembered))]
    fn remember(&mut self, state: &[Tern], count: u64)
        ensures { RemembersOne self.old self.new state.now count }
    {
        self.since = None;
        self.kept.clear();
        match self.kept.extend_from_slice(state) {
            Ok(()) => self.since = Some(count),
            Err(_) => {}
        }
    }
}

// How many steps the whole rounds have that fit, if a round has so many.
fn whole_rounds(left: u64, round: u64) -> u64
    requires { 0 < round }
    ensures fits { result ≤ left }
    ensures whole { result ≡ left / round * round }
{
    left / round * round
}

// The first node at which two states of as many nodes differ, if there is one.
fn first_difference(one: &[Tern], other: &[Tern]) -> Option<usize>
    requires { length one.now ≡ length other.now }
    ensures none { IfNone result ((node : ℕ) → node < length one.now → state_at one.now node ≡ state_at other.now node) }
    ensures some { IfSome result (λ node. state_at one.now node ≢ state_at other.now node) }
{
    for node in 0..one.len() {
        if differ_at(one, other, node) {
            return Some(node);
        }
    }
    None
}

// Whether two states of as many nodes have this node and differ there.
fn differ_inside(one: &[Tern], other: &[Tern], node: usize) -> bool
    requires { length one.now ≡ length other.now }
    ensures { OnTrue result (state_at one.now node ≢ state_at other.now node) }
{
    if node >= one.len() {
        return false;
    }
    differ_at(one, other, node)
}

// Whether two states differ at a node.
fn differ_at(one: &[Tern], other: &[Tern], node: usize) -> bool
    requires inside { node < length one.now }
    requires also { node < length other.now }
    ensures differs { OnTrue result (state_at one.now node ≢ state_at other.now node) }
    ensures same { OnFalse result (state_at one.now node ≡ state_at other.now node) }
{
    one[node] != other[node]
}
