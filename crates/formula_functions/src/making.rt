//! Making the function of a formula.
ghost use Rattle.std.specs.Prelude.{◌≡◌, ℕ, ◌<◌, ◌≤◌, Bool, not, ◌∷◌, length, IfErr, IfOk, OnOk};
ghost use Rattle.decision_graph.specs.Vertices.{Extends};
ghost use Rattle.decision_graph.specs.Meaning.{holds};
ghost use Rattle.decision_graph.specs.Graphs.{SameShape};
ghost use Rattle.decision_graph.specs.declared.graph.GraphFault.TheVariants as fault;
ghost use Rattle.formulas.specs.Formulas.{sign_value};
ghost use Rattle.formula_functions.specs.Tables.{AreInside, named_under, values_under};
ghost use Rattle.formula_functions.specs.Truths.{after_part, but_last, last_of, truth_of};

use crate::table::NamedFunctions;
use crate::waiting::Operands;
use decision_graph::{DecisionGraph, Function, GraphFault};
use formulas::{Part, Sign};
use std::alloc::Global;

/// The function of a formula, from the functions that its names stand for.
///
/// Under each valuation it holds exactly if the formula does; a name that stands for no function is false. It is refused
/// if the graph is full, and else lack of memory is the only error.
#[tactic(auto, using(crate::proofs::MakingLemmas::shapes_follow, crate::proofs::MakingLemmas::graphs_follow, crate::proofs::MakingLemmas::all_begins, crate::proofs::MakingLemmas::none_waits))]
pub fn function_of(
    alloc: Global,
    graph: &mut DecisionGraph,
    table: &NamedFunctions,
    formula: &[Part],
) -> Result<Function, GraphFault>
    requires { AreInside graph.old.vertices table.now.functions }
    ensures shape { SameShape graph.old graph.new }
    ensures extends { Extends graph.old.vertices graph.new.vertices }
    ensures full { IfErr result (λ why. why ≡ fault.Full → graph.new.most ≤ length graph.new.vertices) }
    ensures inside { IfOk result (λ made. made.place < length graph.new.vertices) }
    ensures value { IfOk result (λ made. (vars : ℕ → Bool) →
        holds graph.new.vertices vars made.place ≡ truth_of (named_under graph.old.vertices vars table.now) formula.now) }
{
    let mut waiting = Operands::new(alloc);
    for part in formula {
        take(graph, table, part, &mut waiting)?;
    }
    let made = last(graph, &mut waiting);
    Ok(made)
}

// Takes a part: what waits then is what it makes of its operands.
#[tactic(auto, using(crate::proofs::MakingLemmas::shape_stays, crate::proofs::MakingLemmas::graph_stays))]
fn take(
    graph: &mut DecisionGraph,
    table: &NamedFunctions,
    part: &Part,
    waiting: &mut Operands,
) -> Result<(), GraphFault>
    requires table { AreInside graph.old.vertices table.now.functions }
    requires waiting { AreInside graph.old.vertices waiting.old }
    ensures shape { SameShape graph.old graph.new }
    ensures extends { Extends graph.old.vertices graph.new.vertices }
    ensures full { IfErr result (λ why. why ≡ fault.Full → graph.new.most ≤ length graph.new.vertices) }
    ensures inside { OnOk result (AreInside graph.new.vertices waiting.new) }
    ensures values { OnOk result ((vars : ℕ → Bool) →
        values_under graph.new.vertices vars waiting.new
        ≡ after_part (named_under graph.old.vertices vars table.now) (values_under graph.old.vertices vars waiting.old) part.now) }
{
    match part {
        Part::Name(name) => take_name(graph, table, name.items(), waiting),
        Part::Not => negate(graph, waiting),
        Part::Join(sign) => join(graph, *sign, waiting),
    }
}

// The function of a name waits too.
fn take_name(
    graph: &DecisionGraph,
    table: &NamedFunctions,
    name: &[u8],
    waiting: &mut Operands,
) -> Result<(), GraphFault>
    requires table { AreInside graph.now.vertices table.now.functions }
    requires waiting { AreInside graph.now.vertices waiting.old }
    ensures full { IfErr result (λ why. why ≡ fault.Full → graph.now.most ≤ length graph.now.vertices) }
    ensures inside { OnOk result (AreInside graph.now.vertices waiting.new) }
    ensures values { OnOk result ((vars : ℕ → Bool) →
        values_under graph.now.vertices vars waiting.new
        ≡ named_under graph.now.vertices vars table.now name.now ∷ values_under graph.now.vertices vars waiting.old) }
{
    let function = named(graph, table, name);
    waiting.push(function)?;
    Ok(())
}

// What waited last is negated.
fn negate(graph: &mut DecisionGraph, waiting: &mut Operands) -> Result<(), GraphFault>
    requires { AreInside graph.old.vertices waiting.old }
    ensures shape { SameShape graph.old graph.new }
    ensures extends { Extends graph.old.vertices graph.new.vertices }
    ensures full { IfErr result (λ why. why ≡ fault.Full → graph.new.most ≤ length graph.new.vertices) }
    ensures inside { OnOk result (AreInside graph.new.vertices waiting.new) }
    ensures values { OnOk result ((vars : ℕ → Bool) →
        values_under graph.new.vertices vars waiting.new
        ≡ not (last_of (values_under graph.old.vertices vars waiting.old)) ∷ but_last (values_under graph.old.vertices vars waiting.old)) }
{
    let operand = last(graph, waiting);
    let made = graph.not(operand)?;
    waiting.push(made)?;
    Ok(())
}

// The two that waited last are joined: the one that came first stood before the sign.
fn join(graph: &mut DecisionGraph, sign: Sign, waiting: &mut Operands) -> Result<(), GraphFault>
    requires { AreInside graph.old.vertices waiting.old }
    ensures shape { SameShape graph.old graph.new }
    ensures extends { Extends graph.old.vertices graph.new.vertices }
    ensures full { IfErr result (λ why. why ≡ fault.Full → graph.new.most ≤ length graph.new.vertices) }
    ensures inside { OnOk result (AreInside graph.new.vertices waiting.new) }
    ensures values { OnOk result ((vars : ℕ → Bool) →
        values_under graph.new.vertices vars waiting.new
        ≡ sign_value sign (last_of (but_last (values_under graph.old.vertices vars waiting.old))) (last_of (values_under graph.old.vertices vars waiting.old))
        ∷ but_last (but_last (values_under graph.old.vertices vars waiting.old))) }
{
    let second = last(graph, waiting);
    let first = last(graph, waiting);
    let made = joined(graph, sign, first, second)?;
    waiting.push(made)?;
    Ok(())
}

// The function that a sign makes of two.
fn joined(
    graph: &mut DecisionGraph,
    sign: Sign,
    first: Function,
    second: Function,
) -> Result<Function, GraphFault>
    requires first { first.place < length graph.old.vertices }
    requires second { second.place < length graph.old.vertices }
    ensures shape { SameShape graph.old graph.new }
    ensures extends { Extends graph.old.vertices graph.new.vertices }
    ensures full { IfErr result (λ why. why ≡ fault.Full → graph.new.most ≤ length graph.new.vertices) }
    ensures inside { IfOk result (λ made. made.place < length graph.new.vertices) }
    ensures value { IfOk result (λ made. (vars : ℕ → Bool) →
        holds graph.new.vertices vars made.place ≡ sign_value sign (holds graph.old.vertices vars first.place) (holds graph.old.vertices vars second.place)) }
{
    match sign {
        Sign::And => graph.and(first, second),
        Sign::Differ => graph.differ(first, second),
        Sign::Or => graph.or(first, second),
    }
}

// The function that a name stands for; it never holds if the name stands for none.
fn named(graph: &DecisionGraph, table: &NamedFunctions, name: &[u8]) -> Function
    requires { AreInside graph.now.vertices table.now.functions }
    ensures inside { result.place < length graph.now.vertices }
    ensures value { (vars : ℕ → Bool) → holds graph.now.vertices vars result.place ≡ named_under graph.now.vertices vars table.now name.now }
{
    match table.function(name) {
        Some(function) => function,
        None => graph.constant(false),
    }
}

// What waited last; it never holds if nothing waits.
fn last(graph: &DecisionGraph, waiting: &mut Operands) -> Function
    requires { AreInside graph.now.vertices waiting.old }
    ensures inside { result.place < length graph.now.vertices }
    ensures value { (vars : ℕ → Bool) → holds graph.now.vertices vars result.place ≡ last_of (values_under graph.now.vertices vars waiting.old) }
    ensures others_inside { AreInside graph.now.vertices waiting.new }
    ensures others { (vars : ℕ → Bool) → values_under graph.now.vertices vars waiting.new ≡ but_last (values_under graph.now.vertices vars waiting.old) }
{
    let never = graph.constant(false);
    waiting.pop(never)
}
