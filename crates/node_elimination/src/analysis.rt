//! The formulas of the members of a text.

ghost use Rattle.std.specs.Prelude.{◌≡◌, ℕ, ◌+◌, ◌*◌, ◌≤◌, All, length, IfOk};
ghost use Rattle.switch_paths.specs.Graphs.{nodes};
ghost use Rattle.group_text.specs.Texts.{IsText};
ghost use Rattle.dual_rail.specs.Conduct.{AreInside};
ghost use Rattle.bool_pool.specs.Words.{Extends, ReachAtMost, HasVariablesBelow};
ghost use Rattle.group_analysis.specs.Meaning.{bound_of};
ghost use Rattle.node_elimination.specs.Words.{AreResponses, ArePairs};

use crate::descent::go_down;
use crate::inputs::make_inputs;
use bool_pool::{Id, Pool, Rails};
use dual_rail::TOO_MANY_NODES;
use group_text::GroupText;
use std::alloc::{AllocError, Global};
use std::sync::ledger::Ledger;
use switch_paths::{Graph, graphs_are_wired};
use ternary::{NoMemory, Steps, Tern};

/// The two formulas of each member of a text: "may be 1" and "may be 0" in its steady state.
///
/// The variables 2j and 2j + 1 are these two for the state of local node j; a node that stands for a
/// rail is a constant and has none. In every state of the local nodes the two formulas have the
/// values of the rails of the member's steady state in the local graph.
///
/// It takes at most as many steps as the gate bound of the text, and all formulas together reach
/// at most so many gates. Lack of memory is the only error, after which the pool has a few gates
/// more; a text of 2,147,483,648 local nodes or more, which `text_of` never makes, has it too.
///
/// After Bryant, "Boolean Analysis of MOS Circuits", 1987.
pub fn analyse<L: Ledger>(
    alloc: Global,
    pool: &mut Pool,
    text: &GroupText,
    steps: &mut Steps<L>,
) -> Result<Vec<Rails>, NoMemory>
    ensures extends { Extends pool.old pool.new }
    ensures count { IfOk result (λ answers. length answers.items ≡ text.now.members) }
    ensures formulas { IfOk result (λ answers. All (AreInside pool.new) answers.items) }
    ensures responses { IfOk result (λ answers. AreResponses text.now.graph text.now.constants pool.new answers.items) }
    ensures gates { IfOk result (λ answers. ReachAtMost pool.new answers.items (bound_of text.now.graph text.now.members)) }
    ensures variables { IfOk result (λ answers. HasVariablesBelow pool.new answers.items (2 * nodes text.now.graph)) }
    ensures rises { steps.old ≤ steps.new }
    ensures few { steps.new ≤ steps.old + bound_of text.now.graph text.now.members }
{
    let members = text.members();
    analyse_graph(alloc, pool, text.graph(), members, text.constants(), steps)
}

// The two formulas of each member of a graph, of which some nodes are constants.
fn analyse_graph<L: Ledger>(
    alloc: Global,
    pool: &mut Pool,
    graph: &Graph,
    members: usize,
    constants: &[Option<Tern>],
    steps: &mut Steps<L>,
) -> Result<Vec<Rails>, NoMemory>
    requires { IsText (record { graph = graph.now; members = members; constants = constants.now }) }
    ensures extends { Extends pool.old pool.new }
    ensures count { IfOk result (λ answers. length answers.items ≡ members) }
    ensures formulas { IfOk result (λ answers. All (AreInside pool.new) answers.items) }
    ensures responses { IfOk result (λ answers. AreResponses graph.now constants.now pool.new answers.items) }
    ensures gates { IfOk result (λ answers. ReachAtMost pool.new answers.items (bound_of graph.now members)) }
    ensures variables { IfOk result (λ answers. HasVariablesBelow pool.new answers.items (2 * nodes graph.now)) }
    ensures rises { steps.old ≤ steps.new }
    ensures few { steps.new ≤ steps.old + bound_of graph.now members }
{
    // The inputs are paid for by what a member has to spare.
    if members == 0 {
        return Ok(Vec::new(alloc));
    }
    if graph.nodes() >= TOO_MANY_NODES {
        return Err(NoMemory);
    }
    graphs_are_wired(graph);
    let inputs = make_inputs(alloc, pool, graph, constants, steps)?;
    let drives = go_down(alloc, pool, graph, members, &inputs, steps)?;
    Ok(pairs(alloc, &drives.one, &drives.zero)?)
}

// The pairs of the formulas of each member.
fn pairs(alloc: Global, one: &[Id], zero: &[Id]) -> Result<Vec<Rails>, AllocError>
    requires { length one.now ≡ length zero.now }
    ensures { IfOk result (λ answers. ArePairs one.now zero.now answers.items) }
{
    let mut answers = Vec::new(alloc);
    for k in 0..one.len() {
        answers.push(Rails {
            hi: one[k],
            lo: zero[k],
        })?;
    }
    Ok(answers)
}
