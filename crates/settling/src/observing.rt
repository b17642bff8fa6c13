//! Settling under the eyes of an observer, who is shown each state that it passes through.
ghost use Rattle.std.specs.Prelude.{◌≡◌, ◌+◌, ◌^◌, ◌<◌, ◌≤◌, length, IfOk, IfErr, OnOk};
ghost use Rattle.std.specs.Bool.{OnFalse};
ghost use Rattle.switch_paths.specs.Graphs.{GraphData, IsWired};
ghost use Rattle.settling.specs.Settling.{Settles};
ghost use Rattle.settling.specs.Observing.{IsSeen, IsStopped, StepsSeen, StepsStopped, JoinsSeen, JoinsStopped};
ghost use Rattle.settling.specs.Recurring.{Recalls};
ghost use Rattle.ternary.specs.Counts.{raised};

use crate::observer::Observer;
use crate::recall::Recall;
use crate::seen_stepping::SeenStepper;
use crate::settling::{MOST_LIMIT, Settled};
use std::sync::ledger::Ledger;
use switch_paths::{Graph, graphs_are_wired};
use ternary::Steps;

/// Settles a state as `settle` does, and shows the observer each state that it passes through, in
/// order.
///
/// The stepper fits the graph, and the observer knows its state. If a look fails, the settling stops
/// there: the stepper has the state of that look, which is one of those that it would have passed
/// through, and the observer saw those before it.
///
/// Whole rounds of states that come back are passed over as in `settle`, if it is enough to show the observer a round
/// once.
///
/// In the manner of MOSSIM II: Bryant, "A Switch-Level Model and Simulator for MOS Digital Systems",
/// 1984.
pub fn settle_seen<M: SeenStepper, O: Observer, L: Ledger>(
    m: &mut M,
    graph: &Graph,
    limit: u64,
    steps: &mut Steps<L>,
    observer: &mut O,
    recall: &mut Recall,
) -> Result<Settled, O::Fault>
    requires low { 1 ≤ limit }
    requires high { limit ≤ MOST_LIMIT }
    requires fits { M.fits m.old graph.now }
    requires knows { O.knows observer.old (M.state m.old) }
    ensures settles { IfOk result (λ settled.
        Settles graph.now (M.state m.old) limit (M.state m.new) settled.steps settled.joined) }
    ensures seen { IfOk result (λ settled.
        IsSeen O.see graph.now (M.state m.old) limit (M.state m.new) settled (O.seen observer.old) (O.seen observer.new)) }
    ensures knows { OnOk result (O.knows observer.new (M.state m.new)) }
    ensures observer { OnOk result (O.fixed observer.new ≡ O.fixed observer.old) }
    ensures stopped { IfErr result (λ fault.
        IsStopped O.see O.seen O.fixed (λ mid state. O.part mid state fault observer.new) graph.now (M.state m.old) limit (M.state m.new) observer.old) }
    ensures fits { M.fits m.new graph.now }
    ensures nodes { length (M.state m.new) ≡ length (M.state m.old) }
    ensures moves { IfOk result (λ settled. M.moves m.new ≡ raised (M.moves m.old) settled.steps) }
    ensures placed { M.placed m.new ≡ M.placed m.old }
    ensures fixed { M.fixed m.new ≡ M.fixed m.old }
{
    graphs_are_wired(graph);
    let first = step_while_seen(m, graph, limit, steps, observer, recall)?;
    if first < limit {
        return Ok(Settled {
            steps: first,
            joined: false,
        });
    }
    let second = join_while_seen(m, graph, steps, observer)?;
    Ok(Settled {
        steps: first + second,
        joined: second > 0,
    })
}

// Takes unit steps while they change something, at most `limit` that do, shows each that does, and answers
// how many did, with those of whole rounds that are passed over.
fn step_while_seen<M: SeenStepper, O: Observer, L: Ledger>(
    m: &mut M,
    graph: &Graph,
    limit: u64,
    steps: &mut Steps<L>,
    observer: &mut O,
    recall: &mut Recall,
) -> Result<u64, O::Fault>
    requires fits { M.fits m.old graph.now }
    requires knows { O.knows observer.old (M.state m.old) }
    ensures seen { IfOk result (λ count.
        StepsSeen O.see graph.now limit (M.state m.old) count (M.state m.new) (O.seen observer.old) (O.seen observer.new)) }
    ensures knows { OnOk result (O.knows observer.new (M.state m.new)) }
    ensures observer { OnOk result (O.fixed observer.new ≡ O.fixed observer.old) }
    ensures stopped { IfErr result (λ fault.
        StepsStopped O.see O.seen O.fixed (λ mid state. O.part mid state fault observer.new) graph.now limit (M.state m.old) (M.state m.new) observer.old) }
    ensures limited { IfOk result (λ count. count ≤ limit) }
    ensures fits { M.fits m.new graph.now }
    ensures nodes { length (M.state m.new) ≡ length (M.state m.old) }
    ensures moves { IfOk result (λ count. M.moves m.new ≡ raised (M.moves m.old) count) }
    ensures placed { M.placed m.new ≡ M.placed m.old }
    ensures fixed { M.fixed m.new ≡ M.fixed m.old }
{
    recall.forget();
    let once = observer.is_once_enough();
    let mut count: u64 = 0;
    while count < limit {
        if !m.step(graph, steps) {
            return Ok(count);
        }
        observer.see(m)?;
        let taken = count + 1;
        let ahead = pass_rounds(m, once, taken, limit, recall);
        count = taken + ahead;
    }
    Ok(count)
}

// Passes over the whole rounds that fit below the limit, if it is enough to show a round once and the state after so many
// steps is back, and answers how many steps they have.
fn pass_rounds<M: SeenStepper>(
    m: &mut M,
    once: bool,
    count: u64,
    limit: u64,
    recall: &mut Recall,
) -> u64
    requires { count ≤ limit }
    ensures left { count + result ≤ limit }
    ensures recalls { Recalls recall.old recall.new (M.state m.old) count result }
    ensures each { OnFalse once (result ≡ 0) }
    ensures state { M.state m.new ≡ M.state m.old }
    ensures fits { (g : GraphData) → M.fits m.old g → M.fits m.new g }
    ensures moves { M.moves m.new ≡ raised (M.moves m.old) result }
    ensures placed { M.placed m.new ≡ M.placed m.old }
    ensures fixed { M.fixed m.new ≡ M.fixed m.old }
{
    if !once {
        return 0;
    }
    let ahead = recall.rounds_ahead(m.states(), count, limit);
    m.skip(ahead);
    ahead
}

// Takes joining steps while they change something, shows each that does, and answers how many did.
fn join_while_seen<M: SeenStepper, O: Observer, L: Ledger>(
    m: &mut M,
    graph: &Graph,
    steps: &mut Steps<L>,
    observer: &mut O,
) -> Result<u64, O::Fault>
    requires wired { IsWired graph.now }
    requires fits { M.fits m.old graph.now }
    requires knows { O.knows observer.old (M.state m.old) }
    ensures seen { IfOk result (λ count.
        JoinsSeen O.see graph.now (M.state m.old) count (M.state m.new) (O.seen observer.old) (O.seen observer.new)) }
    ensures knows { OnOk result (O.knows observer.new (M.state m.new)) }
    ensures observer { OnOk result (O.fixed observer.new ≡ O.fixed observer.old) }
    ensures stopped { IfErr result (λ fault.
        JoinsStopped O.see O.seen O.fixed (λ mid state. O.part mid state fault observer.new) graph.now (M.state m.old) (M.state m.new) observer.old) }
    ensures fits { M.fits m.new graph.now }
    ensures nodes { length (M.state m.new) ≡ length (M.state m.old) }
    ensures few { IfOk result (λ count. count < 2 ^ 63) }
    ensures moves { IfOk result (λ count. M.moves m.new ≡ raised (M.moves m.old) count) }
    ensures placed { M.placed m.new ≡ M.placed m.old }
    ensures fixed { M.fixed m.new ≡ M.fixed m.old }
{
    let mut count: u64 = 0;
    while m.join_step(graph, steps) {
        count += 1;
        observer.see(m)?;
    }
    Ok(count)
}
