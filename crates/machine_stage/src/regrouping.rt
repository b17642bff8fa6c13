//! What an edit of the graph does to a stage's state and its machine.

ghost use Rattle.std.specs.Prelude.{◌≡◌, ◌≢◌, ◌↔◌, ◌+◌, ◌≤◌, true, length, IfSome, IfOk, IfErr};
ghost use Rattle.machine_stage.specs.Words.{nodes, IsWired, undo, Covers, used_texts, texts_of, with_new_nodes, Edits, AreAmong};
ghost use Rattle.machine_stage.specs.Machines.{kept_in, last_in};
ghost use Rattle.machine_stage.specs.Stages.{EditsFrom};
ghost use Rattle.machine_stage.specs.Held.{state_held, machine_held, spare_held, IsSparse};

use crate::stage::Held;
use analysis_cache::Kept;
use channel_groups::Change;
use std::marker::Brand;
use std::sync::ledger::{Blank, Ledger};
use switch_paths::Graph;
use ternary::{Steps, Tern};
use unit_step::{EditRefused, Machine, grow};

// How many parts a machine may always have that groups left which are gone.
const MOST_LEFT: usize = 16;

/// The state, or the machine, after an edit of the graph, with X for each new node, in room that is
/// there. Where the machine's edit lacks memory, it is the state that is handed back; so it is where more than
/// half of the machine's parts, and more than 16, were left by groups that are gone, so that a script of very many
/// edits holds no more than its circuit asks for. A machine that is let go leaves the texts of its last build in
/// front of what is kept.
#[tactic(auto, using(crate::proofs::LastLemmas::leaves_last, column_stage::proofs::FrontLemmas::kept_alone, column_stage::proofs::FrontLemmas::none_missing))]
pub(crate) fn regrouped(held: Held, graph: &Graph, change: &Change, kept: &mut Kept) -> Held
    requires covers { IfSome (machine_held held) (Covers (undo graph.now change.now)) }
    requires wired { IsWired (undo graph.now change.now) }
    requires room { nodes graph.now ≤ length (state_held held) + spare_held held }
    requires last { AreAmong (last_in (machine_held held)) (texts_of kept.old) }
    ensures state { state_held result ≡ with_new_nodes (state_held held) (nodes graph.now) }
    ensures machine { IfSome (machine_held result) (EditsFrom graph.now change.now (machine_held held)) }
    ensures kept { kept_in (machine_held result) (texts_of kept.new) ≡ kept_in (machine_held held) (texts_of kept.old) }
    ensures last { AreAmong (last_in (machine_held result)) (texts_of kept.new) }
    ensures bound { kept.new.bound ≡ kept.old.bound }
    ensures dense { IfSome (machine_held result) (λ machine. ¬ IsSparse machine) }
{
    match held {
        Held::Still(mut state) => {
            grow(&mut state, graph.nodes());
            Held::Still(state)
        }
        Held::Built(machine) => {
            match edit_uncounted::<Brand>(machine, graph, change, Blank::new(1)) {
                Ok(machine) => {
                    if is_sparse(&machine) {
                        Held::Still(let_go(machine, graph, kept))
                    } else {
                        Held::Built(machine)
                    }
                }
                Err(refused) => Held::Still(let_go(refused.machine, graph, kept)),
            }
        }
    }
}

// The state of a machine that is let go, with X for each new node, in room that is there. The texts of its last
// build are in front of what is kept.
fn let_go(machine: Machine, graph: &Graph, kept: &mut Kept) -> Vec<Tern>
    requires room { nodes graph.now ≤ length machine.state + machine.spare }
    requires last { AreAmong machine.last (texts_of kept.old) }
    ensures state { result.items ≡ with_new_nodes machine.state (nodes graph.now) }
    ensures kept { texts_of kept.new ≡ used_texts machine.last (texts_of kept.old) }
    ensures bound { kept.new.bound ≡ kept.old.bound }
{
    machine.use_last(kept);
    let mut state = machine.into_state();
    grow(&mut state, graph.nodes());
    state
}

// Whether most of a machine's parts, and more than 16, were left by groups that are gone.
fn is_sparse(machine: &Machine) -> bool
    ensures { (result ≡ true) ↔ IsSparse machine.now }
{
    let left = machine.parts().saturating_sub(machine.groups());
    left > machine.groups() && left > MOST_LEFT
}

// The machine after an edit, without counting the looks at nodes and switches.
fn edit_uncounted<L: Ledger>(
    machine: Machine,
    graph: &Graph,
    change: &Change,
    blank: Blank,
) -> Result<Machine, EditRefused>
    requires name { blank.name ≡ L.name }
    requires parts { blank.parts ≡ L.parts }
    requires some { blank.parts ≢ 0 }
    requires covers { Covers (undo graph.now change.now) machine }
    requires wired { IsWired (undo graph.now change.now) }
    requires room { nodes graph.now ≤ length machine.state + machine.spare }
    ensures edits { IfOk result (Edits graph.now change.now machine) }
    ensures refused { IfErr result (λ refused. with_new_nodes refused.machine.state (nodes graph.now) ≡ with_new_nodes machine.state (nodes graph.now)) }
    ensures room { IfErr result (λ refused. nodes graph.now ≤ length refused.machine.state + refused.machine.spare) }
    ensures last { IfErr result (λ refused. refused.machine.last ≡ machine.last) }
{
    machine.edit(graph, change, &mut Steps::<L>::new(blank))
}
