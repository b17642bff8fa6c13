//! A phase that a machine takes by itself, and those that it took before.
ghost use Rattle.std.specs.Prelude.{◌≡◌, ℕ, ◌<◌, ◌≤◌, [], None, List, length, All, IfOk, IfSome};
ghost use Rattle.std.specs.Bool.{OnTrue};
ghost use Rattle.ternary.specs.declared.tern.Tern.{Tern};
ghost use Rattle.fault_stage.specs.declared.passing.Passed.{Passed};
ghost use Rattle.machine_laws.specs.Fitting.{FitsGraph};
ghost use Rattle.fault_stage.specs.Passing.{GoesAgain, IsPassed, SettlesAlone, StartsAt};
ghost use Rattle.fault_stage.specs.Runs.{GoesAlone};

use beside_run::leave;
use machine_stage::settle_to_rest;
use settling::{MOST_LIMIT, Onlooker, Settled};
use std::alloc::{AllocError, Global};
use switch_paths::Graph;
use ternary::Tern;
use unit_step::Machine;

// So many phases are remembered at most.
const MOST_PASSED: usize = 16;

/// What a phase was that a machine took by itself: from which state it led to which one, under which limit, and what is told of it.
#[derive(Drop)]
pub(crate) struct Passed {
    pub(crate) start: Vec<Tern>,
    pub(crate) end: Vec<Tern>,
    pub(crate) limit: u64,
    pub(crate) told: Settled,
}

/// No phase was taken yet.
pub(crate) fn no_passes(alloc: Global) -> Vec<Passed>
    ensures { result.items ≡ [] }
{
    Vec::new(alloc)
}

/// Settles by itself, and shows each state that it passes through. If nobody looks, a phase that was taken before from the same state, under
/// the same limit, leads where it led: a circuit whose states come back goes round at the cost of a look at its states. Else the phase is
/// remembered.
pub(crate) fn settle_alone<O: Onlooker>(
    machine: &mut Machine,
    graph: &Graph,
    state: &[Tern],
    passes: &mut Vec<Passed>,
    limit: u64,
    onlooker: &mut O,
) -> Settled
    requires goes { GoesAlone graph.now machine.old state.now }
    requires passes { All (IsPassed graph.now) passes.old.items }
    requires low { 1 ≤ limit }
    requires high { limit ≤ MOST_LIMIT }
    requires knows { O.knows onlooker.old state.now }
    ensures settles { SettlesAlone O.see graph.now limit result.steps result.joined state.now machine.old machine.new (O.seen onlooker.old) (O.seen onlooker.new) }
    ensures passes { All (IsPassed graph.now) passes.new.items }
    ensures knows { O.knows onlooker.new machine.new.state }
{
    if onlooker.is_looking() {
        return settle_shown(machine, graph, state, limit, onlooker);
    }
    match go_if_passed(machine, graph, state, passes, limit) {
        Some(told) => told,
        None => {
            let told = settle_shown(machine, graph, state, limit, onlooker);
            keep(graph, state, machine.state(), limit, told, passes);
            told
        }
    }
}

// Settles by itself, and shows each state that it passes through.
fn settle_shown<O: Onlooker>(
    machine: &mut Machine,
    graph: &Graph,
    state: &[Tern],
    limit: u64,
    onlooker: &mut O,
) -> Settled
    requires goes { GoesAlone graph.now machine.old state.now }
    requires low { 1 ≤ limit }
    requires high { limit ≤ MOST_LIMIT }
    requires knows { O.knows onlooker.old state.now }
    ensures settles { SettlesAlone O.see graph.now limit result.steps result.joined state.now machine.old machine.new (O.seen onlooker.old) (O.seen onlooker.new) }
    ensures knows { O.knows onlooker.new machine.new.state }
{
    settle_to_rest(machine, graph, limit, onlooker)
}

// Goes where a phase led that began in this state, under this limit, if there was one, and answers what is told of it.
fn go_if_passed(
    machine: &mut Machine,
    graph: &Graph,
    state: &[Tern],
    passes: &[Passed],
    limit: u64,
) -> Option<Settled>
    requires fits { FitsGraph graph.now machine.old }
    requires passes { All (IsPassed graph.now) passes.now }
    ensures some { IfSome result (λ told. GoesAgain graph.now state.now limit told machine.old machine.new) }
    ensures none { result ≡ None → machine.new ≡ machine.old }
{
    match find_passed(passes, state, limit) {
        Some(place) => Some(go_again(machine, graph, passes, place)),
        None => None,
    }
}

// The place of a phase that began in this state, under this limit, if there is one.
fn find_passed(passes: &[Passed], state: &[Tern], limit: u64) -> Option<usize>
    ensures { IfSome result (λ place. StartsAt passes.now place state.now limit) }
{
    for place in 0..passes.len() {
        if is_start(&passes[place], state, limit) {
            return Some(place);
        }
    }
    None
}

// Whether a phase began in this state, under this limit.
fn is_start(passed: &Passed, state: &[Tern], limit: u64) -> bool
    ensures start { OnTrue result (passed.now.start.items ≡ state.now) }
    ensures limit { OnTrue result (passed.now.limit ≡ limit) }
{
    if passed.limit != limit {
        return false;
    }
    are_same(&passed.start, state)
}

// Whether two states are one.
fn are_same(one: &[Tern], other: &[Tern]) -> bool
    ensures { OnTrue result (one.now ≡ other.now) }
{
    one == other
}

// Goes where the phase led that stands at a place, and answers what is told of it.
fn go_again(machine: &mut Machine, graph: &Graph, passes: &[Passed], place: usize) -> Settled
    requires fits { FitsGraph graph.now machine.old }
    requires passes { All (IsPassed graph.now) passes.now }
    requires inside { place < length passes.now }
    ensures { (state : List Tern) (limit : ℕ) → StartsAt passes.now place state limit → GoesAgain graph.now state limit result machine.old machine.new }
{
    go_to(machine, graph, &passes[place])
}

// Goes where a phase led, and answers what is told of it.
fn go_to(machine: &mut Machine, graph: &Graph, passed: &Passed) -> Settled
    requires fits { FitsGraph graph.now machine.old }
    requires passed { IsPassed graph.now passed.now }
    ensures goes { GoesAlone graph.now machine.new passed.now.end.items }
    ensures last { machine.new.last ≡ machine.old.last }
    ensures told { result ≡ passed.now.told }
{
    leave(machine, graph, &passed.end);
    passed.told
}

// Remembers a phase, if there is memory for it.
fn keep(
    graph: &Graph,
    start: &[Tern],
    end: &[Tern],
    limit: u64,
    told: Settled,
    passes: &mut Vec<Passed>,
)
    requires passed { (p : Passed) → p.start.items ≡ start.now → p.end.items ≡ end.now → p.limit ≡ limit → p.told ≡ told → IsPassed graph.now p }
    requires passes { All (IsPassed graph.now) passes.old.items }
    ensures { All (IsPassed graph.now) passes.new.items }
{
    match passed_of(*passes.allocator(), start, end, limit, told) {
        Ok(passed) => put_passed(graph, passed, passes),
        Err(_) => {}
    }
}

// A phase that led from one state to another.
fn passed_of(
    alloc: Global,
    start: &[Tern],
    end: &[Tern],
    limit: u64,
    told: Settled,
) -> Result<Passed, AllocError>
    ensures { IfOk result (λ p. (p.start.items ≡ start.now) × (p.end.items ≡ end.now) × (p.limit ≡ limit) × (p.told ≡ told)) }
{
    let first = Vec::from_slice(alloc, start)?;
    let last = Vec::from_slice(alloc, end)?;
    Ok(Passed {
        start: first,
        end: last,
        limit,
        told,
    })
}

// Puts a phase behind the others, if there is memory for it.
fn put_passed(graph: &Graph, passed: Passed, passes: &mut Vec<Passed>)
    requires passed { IsPassed graph.now passed }
    requires passes { All (IsPassed graph.now) passes.old.items }
    ensures { All (IsPassed graph.now) passes.new.items }
{
    make_place(graph, passes);
    match passes.push(passed) {
        Ok(()) => {}
        Err(_) => {}
    }
}

// If as many phases are remembered as may be, they are forgotten.
fn make_place(graph: &Graph, passes: &mut Vec<Passed>)
    requires { All (IsPassed graph.now) passes.old.items }
    ensures { All (IsPassed graph.now) passes.new.items }
{
    if passes.len() < MOST_PASSED {
        return;
    }
    passes.clear();
}
