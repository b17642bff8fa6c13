//! Settling over any stepper.
ghost use Rattle.std.specs.Prelude.{◌≡◌, ℕ, ◌+◌, ◌^◌, ◌<◌, ◌≤◌, ◌↔◌, length, IsTrue};
ghost use Rattle.switch_paths.specs.Graphs.{GraphData, IsWired};
ghost use Rattle.settling.specs.Settling.{Stepping, Joining, Settles, Moving, Fading, Shifts, storage_nodes};
ghost use Rattle.settling.specs.Recurring.{Recalls};
ghost use Rattle.ternary.specs.Counts.{raised};

use crate::recall::Recall;
use crate::stepping::Stepper;
use std::sync::ledger::Ledger;
use switch_paths::{Graph, graphs_are_wired};
use ternary::Steps;

/// The greatest limit.
pub const MOST_LIMIT: u64 = 1_000_000;

/// How a state settled: the number of steps of both kinds that changed something, and whether a
/// joining step was among them.
#[derive(Clone, Copy, PartialEq, Eq)]
pub struct Settled {
    pub steps: u64,
    pub joined: bool,
}

/// Settles a state: takes unit steps while they change something, at most `limit` that do, and
/// after that joining steps while they change something.
///
/// `limit` is from 1 to [`MOST_LIMIT`]. Where fewer unit steps changed something, the last one left
/// a steady state, and no joining step is computed. The graph is meant that is handed in; on a
/// stepper that doesn't fit it the call ends all the same, within the bound by the number of nodes.
/// A joining step that changes something makes some storage node X that wasn't, so no more of them
/// change something than the graph has storage nodes.
///
/// Unit steps that come back to the state that `recall` remembers go on in rounds, and those that fit below the limit are
/// counted and not taken. So a phase that oscillates takes the steps up to where it is seen to come back, less than a round
/// more, and the joining ones. What is remembered takes memory; without that each step is taken. There is no refusal.
///
/// In the manner of MOSSIM II: Bryant, "A Switch-Level Model and Simulator for MOS Digital
/// Systems", 1984; that a node which moves past the limit is joined with its steady state, and its
/// readers run again, is this project's choice of how to get X.
pub fn settle<M: Stepper, L: Ledger>(
    m: &mut M,
    graph: &Graph,
    limit: u64,
    steps: &mut Steps<L>,
    recall: &mut Recall,
) -> Settled
    requires low { 1 ≤ limit }
    requires high { limit ≤ MOST_LIMIT }
    ensures settles { M.fits m.old graph.now
        → Settles graph.now (M.state m.old) limit (M.state m.new) result.steps result.joined }
    ensures fits { M.fits m.old graph.now → M.fits m.new graph.now }
    ensures shifts { Shifts (M.state m.old) limit (M.state m.new) result.steps result.joined }
    ensures nodes { length (M.state m.new) ≡ length (M.state m.old) }
    ensures storage { M.fits m.old graph.now → result.steps ≤ limit + storage_nodes graph.now }
    ensures bound { result.steps ≤ limit + length (M.state m.old) }
    ensures moves { M.moves m.new ≡ raised (M.moves m.old) result.steps }
    ensures placed { M.placed m.new ≡ M.placed m.old }
    ensures fixed { M.fixed m.new ≡ M.fixed m.old }
{
    graphs_are_wired(graph);
    let first = step_while_changing(m, graph, limit, steps, recall);
    if first < limit {
        return Settled {
            steps: first,
            joined: false,
        };
    }
    let second = join_while_changing(m, graph, steps);
    Settled {
        steps: first + second,
        joined: second > 0,
    }
}

// Takes unit steps while they change something, at most `limit` that do, and answers how many did, with those of whole
// rounds that are passed over.
fn step_while_changing<M: Stepper, L: Ledger>(
    m: &mut M,
    graph: &Graph,
    limit: u64,
    steps: &mut Steps<L>,
    recall: &mut Recall,
) -> u64
    ensures stepping { M.fits m.old graph.now
        → Stepping graph.now limit (M.state m.old) result (M.state m.new) }
    ensures fits { M.fits m.old graph.now → M.fits m.new graph.now }
    ensures nodes { length (M.state m.new) ≡ length (M.state m.old) }
    ensures moving { Moving limit (M.state m.old) result (M.state m.new) }
    ensures moves { M.moves m.new ≡ raised (M.moves m.old) result }
    ensures placed { M.placed m.new ≡ M.placed m.old }
    ensures fixed { M.fixed m.new ≡ M.fixed m.old }
{
    recall.forget();
    let mut count: u64 = 0;
    while count < limit {
        if !m.step(graph, steps) {
            return count;
        }
        let taken = count + 1;
        let ahead = pass_rounds(m, taken, limit, recall);
        count = taken + ahead;
    }
    count
}

// Passes over the whole rounds that fit below the limit, if the state after so many steps is back, and answers how many
// steps they have.
fn pass_rounds<M: Stepper>(m: &mut M, count: u64, limit: u64, recall: &mut Recall) -> u64
    requires { count ≤ limit }
    ensures left { count + result ≤ limit }
    ensures recalls { Recalls recall.old recall.new (M.state m.old) count result }
    ensures state { M.state m.new ≡ M.state m.old }
    ensures fits { (g : GraphData) → M.fits m.old g → M.fits m.new g }
    ensures moves { M.moves m.new ≡ raised (M.moves m.old) result }
    ensures placed { M.placed m.new ≡ M.placed m.old }
    ensures fixed { M.fixed m.new ≡ M.fixed m.old }
{
    let ahead = recall.rounds_ahead(m.states(), count, limit);
    m.skip(ahead);
    ahead
}

// Takes joining steps while they change something, and answers how many did.
fn join_while_changing<M: Stepper, L: Ledger>(m: &mut M, graph: &Graph, steps: &mut Steps<L>) -> u64
    requires { IsWired graph.now }
    ensures joining { M.fits m.old graph.now
        → Joining graph.now (M.state m.old) result (M.state m.new) }
    ensures fits { M.fits m.old graph.now → M.fits m.new graph.now }
    ensures nodes { length (M.state m.new) ≡ length (M.state m.old) }
    ensures storage { M.fits m.old graph.now → result ≤ storage_nodes graph.now }
    ensures fading { Fading (M.state m.old) result (M.state m.new) }
    ensures bound { result ≤ length (M.state m.old) }
    ensures few { result < 2 ^ 63 }
    ensures moves { M.moves m.new ≡ raised (M.moves m.old) result }
    ensures placed { M.placed m.new ≡ M.placed m.old }
    ensures fixed { M.fixed m.new ≡ M.fixed m.old }
{
    let mut count: u64 = 0;
    while m.join_step(graph, steps) {
        count += 1;
    }
    count
}
