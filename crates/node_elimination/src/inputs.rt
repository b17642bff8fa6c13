//! The formulas that the levels start from.

ghost use Rattle.std.specs.Prelude.{◌≡◌, ℕ, ◌+◌, ◌-◌, ◌*◌, ◌<◌, ◌≤◌, Bool, true, false, List, [], ◌∷◌, ◌++◌, length, Option, is_some, count_by, if◌then◌else◌, IfOk, OnOk};
ghost use Rattle.ternary.specs.Tern.{may_one, may_zero};
ghost use Rattle.switch_paths.specs.Graphs.{nodes, place_at};
ghost use Rattle.bool_pool.specs.Gate.{Extends};
ghost use Rattle.node_elimination.specs.Words.{AreFormulas, AreGrown, IsConstant, IsAssignment, IsRail, AreRails, IsPass, ArePasses, input_formulas, HaveInputs, ShowsState};
ghost use Rattle.group_analysis.specs.Meaning.{switch_count};

use bool_pool::{Id, Pool, Rails};
use dual_rail::{TOO_MANY_NODES, closed, const_rails, may_conduct, var_rails};
use std::alloc::{AllocError, Global};
use std::sync::ledger::Ledger;
use switch_paths::{Graph, graphs_are_wired};
use ternary::{NoMemory, Steps, Tern};

/// The formulas that the levels start from.
#[derive(Drop)]
pub(crate) struct Inputs {
    pub(crate) falsehood: Id,
    pub(crate) truth: Id,
    // for each node: the rails of its state
    pub(crate) hi: Vec<Id>,
    pub(crate) lo: Vec<Id>,
    // for each place: whether its switch is closed, and whether it isn't open
    pub(crate) closed: Vec<Id>,
    pub(crate) live: Vec<Id>,
    // for each node: true
    pub(crate) sure: Vec<Id>,
}

// The rails of all nodes.
#[derive(Drop)]
struct NodeRails {
    hi: Vec<Id>,
    lo: Vec<Id>,
}

/// Makes the formulas that the levels of a graph start from. Each node that has a constant has its
/// rails, and node j of the others has the variables 2j and 2j + 1.
pub(crate) fn make_inputs<L: Ledger>(
    alloc: Global,
    pool: &mut Pool,
    graph: &Graph,
    constants: &[Option<Tern>],
    steps: &mut Steps<L>,
) -> Result<Inputs, NoMemory>
    requires constants { length constants.now ≡ nodes graph.now }
    requires variables { nodes graph.now < TOO_MANY_NODES }
    ensures extends { Extends pool.old pool.new }
    ensures inputs { IfOk result (λ inputs. HaveInputs graph.now pool.new inputs) }
    ensures shows { IfOk result (λ inputs. (state : List Tern) (vars : ℕ → Bool)
        → IsAssignment graph.now constants.now state vars → ShowsState graph.now pool.new inputs state vars) }
    ensures grown { IfOk result (λ inputs. (listed : List ℕ) (bound : ℕ) → 2 * nodes graph.now ≤ bound
        → AreGrown pool.new listed bound (2 * switch_count graph.now) (input_formulas inputs)) }
    ensures rises { steps.old ≤ steps.new }
    ensures few { steps.new ≤ steps.old + (2 + (2 * nodes graph.now + 4 * switch_count graph.now)) }
{
    graphs_are_wired(graph);
    let falsehood = pool.constant(false, steps)?;
    let truth = pool.constant(true, steps)?;
    let rails = rails_of_nodes(alloc, pool, constants, steps)?;
    let closed = passes_of(
        alloc, pool, graph, true, &rails.hi, &rails.lo, falsehood, steps,
    )?;
    let live = passes_of(
        alloc, pool, graph, false, &rails.hi, &rails.lo, falsehood, steps,
    )?;
    let NodeRails { hi, lo } = rails;
    Ok(Inputs {
        falsehood,
        truth,
        hi,
        lo,
        closed,
        live,
        sure: vec![in alloc; truth; graph.nodes()]?,
    })
}

// The rails of each node.
fn rails_of_nodes<L: Ledger>(
    alloc: Global,
    pool: &mut Pool,
    constants: &[Option<Tern>],
    steps: &mut Steps<L>,
) -> Result<NodeRails, NoMemory>
    requires { length constants.now < TOO_MANY_NODES }
    ensures extends { Extends pool.old pool.new }
    ensures hi { IfOk result (λ rails. AreRails may_one (λ node. 2 * node)
        constants.now (length constants.now) pool.new rails.hi.items) }
    ensures lo { IfOk result (λ rails. AreRails may_zero (λ node. 2 * node + 1)
        constants.now (length constants.now) pool.new rails.lo.items) }
    ensures rises { steps.old ≤ steps.new }
    ensures few { steps.new ≤ steps.old + 2 * length constants.now }
{
    let mut hi = Vec::new(alloc);
    let mut lo = Vec::new(alloc);
    for node in 0..constants.len() {
        let rails = node_rails(pool, node, constants[node], steps)?;
        add_to(&mut hi, rails.hi)?;
        add_to(&mut lo, rails.lo)?;
    }
    Ok(NodeRails { hi, lo })
}

// The rails of a node: those of its constant, or its variables.
fn node_rails<L: Ledger>(
    pool: &mut Pool,
    node: usize,
    constant: Option<Tern>,
    steps: &mut Steps<L>,
) -> Result<Rails, NoMemory>
    requires { node < TOO_MANY_NODES }
    ensures extends { Extends pool.old pool.new }
    ensures hi { IfOk result (λ rails. IsRail may_one constant (2 * node) pool.new rails.hi.place) }
    ensures lo { IfOk result (λ rails. IsRail may_zero constant (2 * node + 1) pool.new rails.lo.place) }
    ensures rises { steps.old ≤ steps.new }
    ensures few { steps.new ≤ steps.old + 2 }
{
    match constant {
        Some(state) => const_rails(pool, state, steps),
        None => var_rails(pool, node as u32, steps),
    }
}

// What the switch at each place does: whether it is closed or, if not `sure`, isn't open.
fn passes_of<L: Ledger>(
    alloc: Global,
    pool: &mut Pool,
    graph: &Graph,
    sure: bool,
    hi: &[Id],
    lo: &[Id],
    falsehood: Id,
    steps: &mut Steps<L>,
) -> Result<Vec<Id>, NoMemory>
    requires hi { nodes graph.now ≤ length hi.now }
    requires lo { nodes graph.now ≤ length lo.now }
    requires formulas { AreFormulas pool.old (hi.now ++ lo.now) }
    requires falsehood { IsConstant false pool.old falsehood }
    ensures extends { Extends pool.old pool.new }
    ensures passes { IfOk result (λ passes. ArePasses graph.now sure pool.old hi.now lo.now
        (length graph.now.places) pool.new passes.items) }
    ensures rises { steps.old ≤ steps.new }
    ensures few { steps.new ≤ steps.old + 2 * switch_count graph.now }
{
    graphs_are_wired(graph);
    let mut passes = Vec::new(alloc);
    for place in 0..graph.places() {
        let pass = pass_of(pool, graph, sure, hi, lo, place, falsehood, steps)?;
        add_to(&mut passes, pass)?;
    }
    Ok(passes)
}

// What the switch at one place does; an empty place lets nothing through.
fn pass_of<L: Ledger>(
    pool: &mut Pool,
    graph: &Graph,
    sure: bool,
    hi: &[Id],
    lo: &[Id],
    place: usize,
    falsehood: Id,
    steps: &mut Steps<L>,
) -> Result<Id, NoMemory>
    requires hi { nodes graph.now ≤ length hi.now }
    requires lo { nodes graph.now ≤ length lo.now }
    requires formulas { AreFormulas pool.old (hi.now ++ lo.now) }
    requires falsehood { IsConstant false pool.old falsehood }
    requires in_range { place < length graph.now.places }
    ensures extends { Extends pool.old pool.new }
    ensures pass { IfOk result (λ pass. IsPass graph.now sure pool.old hi.now lo.now place pool.new pass.place) }
    ensures rises { steps.old ≤ steps.new }
    ensures few { steps.new ≤ steps.old + (if is_some (place_at graph.now.places place) then 2 else 0) }
{
    match &graph.switch_at(place) {
        None => Ok(falsehood),
        Some(switch) => {
            let gate = Rails {
                hi: hi[switch.gate],
                lo: lo[switch.gate],
            };
            if sure {
                closed(pool, switch.kind, gate, steps)
            } else {
                may_conduct(pool, switch.kind, gate, steps)
            }
        }
    }
}

/// Adds a formula at the end of the list.
pub(crate) fn add_to(ids: &mut Vec<Id>, id: Id) -> Result<(), NoMemory>
    ensures { OnOk result (ids.new.items ≡ ids.old.items ++ id ∷ []) }
{
    ids.push(id).map_err(AllocError::from)?;
    Ok(())
}
