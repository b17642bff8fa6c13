//! Laws of live paths and of the unit step, over all graphs and all states.
//!
//! Each function here does nothing: its contract is the law, and its proof proves it. So a law can
//! be cited like any other contract.

ghost use Rattle.std.specs.Prelude.{◌≡◌};
ghost use Rattle.switch_paths.specs.declared.TheConstants.{GND, VDD, RAILS};
ghost use Rattle.switch_paths.specs.Graphs.{IsWired};
ghost use Rattle.switch_paths.specs.Laws.{EveryNodeIsReached, StrongestIsUnblocked, CyclesCanBeCut, ReachesOn, RootsReachThemselves, InputNodesKeepTheirStates, StepsJoin, StepsRest, StepExists, StepIsUnique};

use crate::graph::Graph;

/// A graph is wired: each of its levels is a level, and each of its switches fits it.
///
/// `Graph` keeps this by itself. The other laws here ask it of a graph's value, and whoever holds a
/// graph has it from this one.
pub fn graphs_are_wired(graph: &Graph)
    ensures { IsWired graph.now }
{
    let _places = graph.switches();
}

/// Every node has an unblocked path, so that its steady state always has a rail.
///
/// `reached`: to each node of a graph, under each state, leads an unblocked path that conducts for
/// certain. `unblocked`: a path no prefix of which ends where a stronger definite path leads isn't
/// blocked.
///
/// After Bryant, "A Switch-Level Model and Simulator for MOS Digital Systems", 1984.
pub fn every_node_is_reached()
    ensures reached { EveryNodeIsReached }
    ensures unblocked { StrongestIsUnblocked }
{}

/// A cycle can be cut out of an unblocked path.
///
/// Where the path stands at one node twice, leaving out what lies between gives an unblocked path
/// from the same root to the same end. So only paths that visit no node twice matter.
///
/// After Bryant, "Boolean Analysis of MOS Circuits", 1987.
pub fn cycles_can_be_cut()
    ensures { CyclesCanBeCut }
{}

/// What a root reaches, reaches on.
///
/// If an unblocked path leads from r to m, and one from m to n, then one leads from r to n.
///
/// After Bryant, "Boolean Analysis of MOS Circuits", 1987.
pub fn reaches_on()
    ensures { ReachesOn }
{}

/// A root that reaches some node reaches itself.
///
/// So a node from which any unblocked path leads has in its steady state each rail of its own state.
///
/// After Bryant, "Boolean Analysis of MOS Circuits", 1987.
pub fn roots_reach_themselves()
    ensures { RootsReachThemselves }
{}

/// An input node keeps its state: its steady state is its own state, whatever switches join it with.
///
/// After Bryant, "A Switch-Level Model and Simulator for MOS Digital Systems", 1984.
pub fn input_nodes_keep_their_states()
    ensures { InputNodesKeepTheirStates }
{}

/// The unit step is additive while the switches stay as they are.
///
/// If every switch has the same state under two states of the nodes, then the step of their join,
/// node by node, is the join of their steps.
///
/// After Bryant, "Boolean Analysis of MOS Circuits", 1987.
pub fn steps_join()
    ensures { StepsJoin }
{}

/// The unit step is idempotent while the switches stay as they are.
///
/// If a step leaves every switch in its state, then it has led to a steady state: one more step
/// changes nothing.
///
/// After Bryant, "Boolean Analysis of MOS Circuits", 1987.
pub fn steps_rest()
    ensures { StepsRest }
{}

/// Every state of a graph has a unit step.
///
/// After Bryant, "Boolean Analysis of MOS Circuits", 1987.
pub fn step_exists()
    ensures { StepExists }
{}

/// A state of a graph has no two unit steps. So the step is a function of the graph and the state,
/// though it is defined as a relation, and any two ways to compute it agree.
///
/// After Bryant, "Boolean Analysis of MOS Circuits", 1987.
pub fn step_is_unique()
    ensures { StepIsUnique }
{}

/// A law: the rails are the nodes 0 and 1, and there are two.
pub fn rails_are_numbered()
    ensures gnd { GND ≡ 0 }
    ensures vdd { VDD ≡ 1 }
    ensures rails { RAILS ≡ 2 }
{}
