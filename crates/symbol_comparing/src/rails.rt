//! Rails of nodes, as functions of one maker.
ghost use Rattle.std.specs.Prelude.{◌≡◌, ℕ, ◌<◌, ◌≤◌, ◌↔◌, Bool, false, length, IfErr, IfOk};
ghost use Rattle.decision_graph.specs.Graphs.{SameShape};
ghost use Rattle.decision_graph.specs.Meaning.{holds};
ghost use Rattle.decision_graph.specs.Vertices.{Extends};
ghost use Rattle.decision_graph.specs.declared.graph.GraphFault.TheVariants as fault;
ghost use Rattle.truth_parts.specs.Columns as spec;
ghost use Rattle.symbol_comparing.specs.Rails.{AreRailsOf, HoldAlike, drop_rails, function_at, letters_in, rails_seen, take_rails};
ghost use Rattle.symbol_comparing.specs.Words.{column_with};

use decision_graph::{DecisionGraph, Function, GraphFault};
use std::alloc::{AllocError, Global};
use ternary::Tern;
use truth_makers::Symbols;

/// The rails of nodes, in order: where each may be 1, and where it may be 0.
#[derive(Clone, Copy)]
pub struct Rails<'a> {
    pub highs: &'a [Function],
    pub lows: &'a [Function],
}

// The first nodes, so many or all that there are, and the others.
#[tactic(auto, using(crate::proofs::StateLemmas::take_least, crate::proofs::StateLemmas::drop_least))]
pub(crate) fn cut(rails: Rails<'_>, count: usize) -> (Rails<'_>, Rails<'_>)
    requires { length rails.lows.now ≡ length rails.highs.now }
    ensures front { rails_seen result.0 ≡ take_rails count (rails_seen rails.entry) }
    ensures rest { rails_seen result.1 ≡ drop_rails count (rails_seen rails.entry) }
{
    let Rails { highs, lows } = rails;
    let count = count.min(highs.len());
    let front = Rails {
        highs: &highs[..count],
        lows: &lows[..count],
    };
    let rest = Rails {
        highs: &highs[count..],
        lows: &lows[count..],
    };
    (front, rest)
}

// The function that doesn't hold exactly where the rails of both hold alike.
pub(crate) fn difference(
    graph: &mut DecisionGraph,
    one: Rails<'_>,
    other: Rails<'_>,
) -> Result<Function, GraphFault>
    requires same { length other.highs.now ≡ length one.highs.now }
    requires lows { length one.lows.now ≡ length one.highs.now }
    requires others { length other.lows.now ≡ length one.highs.now }
    requires one_inside { (k : ℕ) → k < length one.highs.now →
        ((function_at one.highs.now k).place < length graph.old.vertices) × ((function_at one.lows.now k).place < length graph.old.vertices) }
    requires other_inside { (k : ℕ) → k < length one.highs.now →
        ((function_at other.highs.now k).place < length graph.old.vertices) × ((function_at other.lows.now k).place < length graph.old.vertices) }
    ensures shape { SameShape graph.old graph.new }
    ensures extends { Extends graph.old.vertices graph.new.vertices }
    ensures full { IfErr result (λ why. why ≡ fault.Full → graph.new.most ≤ length graph.new.vertices) }
    ensures inside { IfOk result (λ made. made.place < length graph.new.vertices) }
    ensures value { IfOk result (λ made. (vars : ℕ → Bool) → (holds graph.new.vertices vars made.place ≡ false)
        ↔ HoldAlike graph.old.vertices vars (length one.entry.highs.now) (rails_seen one.entry) (rails_seen other.entry)) }
{
    graph.size();
    let mut made = graph.constant(false);
    for k in 0..one.highs.len() {
        let high = at(one.highs, k);
        let other_high = at(other.highs, k);
        let low = at(one.lows, k);
        let other_low = at(other.lows, k);
        let more = with_difference(graph, made, (high, other_high), (low, other_low))?;
        made = more;
    }
    Ok(made)
}

// The function that doesn't hold exactly where this one doesn't and both pairs of functions hold alike.
fn with_difference(
    graph: &mut DecisionGraph,
    made: Function,
    highs: (Function, Function),
    lows: (Function, Function),
) -> Result<Function, GraphFault>
    requires made { made.place < length graph.old.vertices }
    requires highs { (highs.0.place < length graph.old.vertices) × (highs.1.place < length graph.old.vertices) }
    requires lows { (lows.0.place < length graph.old.vertices) × (lows.1.place < length graph.old.vertices) }
    ensures shape { SameShape graph.old graph.new }
    ensures extends { Extends graph.old.vertices graph.new.vertices }
    ensures full { IfErr result (λ why. why ≡ fault.Full → graph.new.most ≤ length graph.new.vertices) }
    ensures inside { IfOk result (λ more. more.place < length graph.new.vertices) }
    ensures value { IfOk result (λ more. (vars : ℕ → Bool) → (holds graph.new.vertices vars more.place ≡ false)
        ↔ ((holds graph.old.vertices vars made.place ≡ false)
        × (holds graph.old.vertices vars highs.0.place ≡ holds graph.old.vertices vars highs.1.place)
        × (holds graph.old.vertices vars lows.0.place ≡ holds graph.old.vertices vars lows.1.place))) }
{
    let high = graph.differ(highs.0, highs.1)?;
    let low = graph.differ(lows.0, lows.1)?;
    let either = graph.or(high, low)?;
    let more = graph.or(made, either)?;
    Ok(more)
}

// The function at a place.
fn at(list: &[Function], k: usize) -> Function
    requires { k < length list.now }
    ensures { result ≡ function_at list.now k }
{
    list[k]
}

// The states of nodes under a valuation of the maker's variables.
pub(crate) fn letters(
    alloc: Global,
    symbols: &Symbols,
    rails: Rails<'_>,
    vars: &[bool],
) -> Result<Vec<Tern>, AllocError>
    requires rails { AreRailsOf symbols.now (rails_seen rails) }
    requires count { length vars.now ≡ symbols.now.graph.variables }
    ensures { IfOk result (λ states. states.items ≡ letters_in symbols.now (rails_seen rails.entry) (column_with symbols.now vars.now)) }
{
    symbols.graph.size();
    let mut states = Vec::new(alloc);
    for k in 0..rails.highs.len() {
        let high = at(rails.highs, k);
        let low = at(rails.lows, k);
        let one = symbols.graph.value(high, vars);
        let other = symbols.graph.value(low, vars);
        states.push(state_with(one, other))?;
    }
    Ok(states)
}

// The state with these rails, "may be 1" first; X if there is none.
fn state_with(one: bool, other: bool) -> Tern
    ensures { result ≡ spec.state_with one other }
{
    match (one, other) {
        (false, true) => Tern::Zero,
        (true, false) => Tern::One,
        (true, true) | (false, false) => Tern::Unk,
    }
}
