//! Functions of decision graphs.
ghost use Rattle.std.specs.Prelude.{◌≡◌, ◌<◌, ◌≤◌, length, IfOk};
ghost use Rattle.decision_graph.specs.declared.TheConstants.{MOST_VARIABLES};

use decision_graph::{DecisionGraph, Function, GraphFault, MOST_VARIABLES};
use std::alloc::Global;
use std::test::Fail;
use table_keys::TableKeys;
use ternary::NoMemory;

// A graph of so many variables, with this bound on its vertices.
fn graph_of(alloc: Global, variables: u32, most: u32) -> Result<DecisionGraph, NoMemory>
    requires shallow { variables ≤ MOST_VARIABLES }
    requires both { 2 ≤ most }
    ensures { IfOk result (λ graph. graph.variables ≡ variables) }
{
    DecisionGraph::new(alloc, TableKeys::fixed(), variables, most, 1000)
}

#[test]
fn a_full_graph_refuses_a_new_vertex_alone(rt: HostRuntime) -> Result<(), Fail> {
    let mut graph = graph_of(rt.alloc(), 2, 4)?;
    let (x, y) = (graph.variable(0)?, graph.variable(1)?);
    assert_eq!(rt; graph.size(), 4);
    assert_eq!(rt; graph.variable(1)?, y);
    assert_eq!(rt; graph.and(x, y), Err(GraphFault::Full));
    assert_eq!(rt; graph.variable(0)?, x);
    Ok(())
}

// The function that holds if all variables of a graph are true.
fn all_true(graph: &mut DecisionGraph) -> Result<Function, GraphFault>
    ensures { IfOk result (λ r. r.place < length graph.new.vertices) }
{
    let mut all = graph.constant(true);
    let mut left = graph.variables();
    while left > 0 {
        left -= 1;
        let next = graph.variable(left)?;
        all = graph.and(next, all)?;
    }
    Ok(all)
}

#[test]
fn functions_of_the_most_variables_are_gone_down(rt: HostRuntime) -> Result<(), Fail> {
    let mut graph = graph_of(rt.alloc(), MOST_VARIABLES, 100_000)?;
    let all = all_true(&mut graph)?;
    let some_false = graph.not(all)?;
    let always = graph.or(all, some_false)?;
    assert_eq!(rt; always, graph.constant(true));
    let (small, _moved) = graph.compact(rt.alloc(), &[all, some_false], 10)?;
    assert_eq!(rt; small.size(), 2 + 2 * MOST_VARIABLES);
    let found = graph.witness(rt.alloc(), some_false)?.ok_or("none")?;
    assert!(rt; graph.value(some_false, &found));
    Ok(())
}
