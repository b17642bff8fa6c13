//! The printed line of a reason.

ghost use Rattle.std.specs.Prelude.{◌≡◌, ℕ, ◌+◌, ◌<◌, ◌++◌, List, length, decimal, IfOk, IfSome, OnOk};
ghost use Rattle.std.specs.Option.{MatchOption};
ghost use Rattle.why_path.specs.Words.{at_root, called, hop_text, hops_text, no_reason_line_of, nodes, rail_word, sort_word, AreTold, IsLive, IsReasonLine, Stand};

use itoa::Buffer;
use netlist::Circuit;
use std::alloc::Global;
use switch_paths::{Graph, Walk, WalkFacts};
use ternary::{NoMemory, Tern};

/// The line of a reason, ended by LF: `one <level> <sort> <root>` and ` <number> <node>` for each hop,
/// or `one none` if there is no walk; likewise `zero`.
///
/// The level is the strength of the walk, the sort is `definite` or `possible`, nodes have their first
/// names, and the numbers are those of the transistors. The walk is a live path under this state, which
/// has one state for each node of the circuit.
pub fn reason_line(
    alloc: Global,
    circuit: &Circuit,
    state: &[Tern],
    one: bool,
    walk: Option<&Walk>,
) -> Result<Vec<u8>, NoMemory>
    requires state { length state.now ≡ nodes circuit.now.graph }
    requires live { IfSome walk (λ walk. IsLive circuit.now.graph state.now walk.now) }
    ensures { IfOk result (λ line. MatchOption walk.entry (line.items ≡ no_reason_line_of one)
        (λ walk. IsReasonLine circuit.now state.now one walk.now line.items)) }
{
    match walk {
        Some(walk) => walk_line(alloc, circuit, state, one, walk),
        None => no_reason_line(alloc, one),
    }
}

// The line if there is no reason.
fn no_reason_line(alloc: Global, one: bool) -> Result<Vec<u8>, NoMemory>
    ensures { IfOk result (λ line. line.items ≡ no_reason_line_of one) }
{
    let mut line = Vec::new(alloc);
    line.extend_from_slice(rail_word(one))?;
    line.extend_from_slice(b" none\n")?;
    Ok(line)
}

// The line of a walk that is a live path.
fn walk_line(
    alloc: Global,
    circuit: &Circuit,
    state: &[Tern],
    one: bool,
    walk: &Walk,
) -> Result<Vec<u8>, NoMemory>
    requires state { length state.now ≡ nodes circuit.now.graph }
    requires live { IsLive circuit.now.graph state.now walk.now }
    ensures { IfOk result (λ line. IsReasonLine circuit.now state.now one walk.now line.items) }
{
    let Some(facts) = circuit.graph().walk_facts(state, walk) else {
        unreachable!();
    };
    let mut line = Vec::new(alloc);
    line.extend_from_slice(rail_word(one))?;
    line.extend_from_slice(b" ")?;
    append_number(&mut line, u64::from(facts.strength))?;
    line.extend_from_slice(b" ")?;
    line.extend_from_slice(sort_word(facts.definite))?;
    line.extend_from_slice(b" ")?;
    line.extend_from_slice(circuit.name_of(walk.root))?;
    append_hops(&mut line, circuit, state, walk)?;
    line.extend_from_slice(b"\n")?;
    Ok(line)
}

// Appends the hops of a walk that is a live path.
fn append_hops(
    line: &mut Vec<u8>,
    circuit: &Circuit,
    state: &[Tern],
    walk: &Walk,
) -> Result<(), NoMemory>
    requires state { length state.now ≡ nodes circuit.now.graph }
    requires live { IsLive circuit.now.graph state.now walk.now }
    ensures { OnOk result ((there : Stand) × (told : List (ℕ × List ℕ))
        × AreTold circuit.now state.now (at_root circuit.now.graph walk.now.root) walk.now.hops.items there told
        × (line.new.items ≡ line.old.items ++ hops_text told)) }
{
    let graph = circuit.graph();
    let mut facts = WalkFacts {
        end: walk.root,
        strength: graph.level(walk.root),
        definite: true,
    };
    for &place in &walk.hops {
        let Some(next) = graph.after_hop(state, facts, place) else {
            unreachable!();
        };
        append_hop(line, circuit, place, next.end)?;
        facts = next;
    }
    Ok(())
}

// Appends a hop over the switch at this place to a node.
fn append_hop(
    line: &mut Vec<u8>,
    circuit: &Circuit,
    place: usize,
    node: usize,
) -> Result<(), NoMemory>
    requires place { place < length circuit.now.graph.places }
    requires node { node < nodes circuit.now.graph }
    ensures { OnOk result (line.new.items ≡ line.old.items ++ hop_text (place + 1, called circuit.now node)) }
{
    line.extend_from_slice(b" ")?;
    append_number(line, number_of(circuit.graph(), place))?;
    line.extend_from_slice(b" ")?;
    line.extend_from_slice(circuit.name_of(node))?;
    Ok(())
}

// The number of the transistor whose switch stands at this place.
fn number_of(graph: &Graph, place: usize) -> u64
    requires { place < length graph.now.places }
    ensures { result ≡ place + 1 }
{
    // For the proof alone: there are no more places than can be counted.
    let _count = graph.places();
    place as u64 + 1
}

// The word for a rail.
fn rail_word(one: bool) -> &'static [u8]
    ensures { result.now ≡ rail_word one }
{
    if one { b"one" } else { b"zero" }
}

// The word for a path that is definite, or only possible.
fn sort_word(definite: bool) -> &'static [u8]
    ensures { result.now ≡ sort_word definite }
{
    if definite { b"definite" } else { b"possible" }
}

// Appends a number as a decimal without leading zeros.
fn append_number(line: &mut Vec<u8>, number: u64) -> Result<(), NoMemory>
    ensures { OnOk result (line.new.items ≡ line.old.items ++ decimal number) }
{
    let mut buffer = Buffer::new();
    line.extend_from_slice(buffer.format(number).as_bytes())?;
    Ok(())
}
