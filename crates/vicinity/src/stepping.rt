//! A step over the members of large groups.
ghost use Rattle.std.specs.Prelude.{◌≡◌, ◌<◌, ◌≤◌, length, vec_capacity};
ghost use Rattle.std.specs.Bool.{OnTrue};
ghost use Rattle.ternary.specs.declared.tern.Tern.{Tern};
ghost use Rattle.switch_paths.specs.Graphs.{nodes};
ghost use Rattle.vicinity.specs.Words.{IsPaid, AreListsOf, StepsGroup};

use crate::evaluation::{Scratch, evaluate};
use crate::live_lists::LiveLists;
use crate::node_set::NodeSet;
use crate::touching::take_all;
use part_words::Change;
use std::sync::ledger::Ledger;
use switch_paths::{Graph, graphs_are_wired};
use ternary::{Steps, Tern};

/// Takes a step, plain or joining, over the members of groups of which those that no touched node is near rest. It
/// takes no memory.
///
/// A joining step leaves all touched nodes touched, since a joined state need not be a steady one.
pub fn step_awake<L: Ledger>(
    joining: bool,
    graph: &Graph,
    lists: &mut LiveLists,
    state: &mut [Tern],
    touched: &mut NodeSet,
    room: &mut Scratch,
    changes: &mut Vec<Change>,
    steps: &mut Steps<L>,
)
    requires counted { length state.old ≡ nodes graph.now }
    requires lists { AreListsOf graph.now state.old lists.old }
    requires touched { length touched.old.inside ≡ nodes graph.now }
    requires room { room.old.nodes ≡ nodes graph.now }
    requires changes { nodes graph.now ≤ vec_capacity changes.old }
    ensures group { StepsGroup joining graph.now state.old state.new touched.old.list touched.new.list }
    ensures lists { AreListsOf graph.now state.new lists.new }
    ensures count { length state.new ≡ length state.old }
    ensures touched { length touched.new.inside ≡ length touched.old.inside }
    ensures room { room.new ≡ room.old }
    ensures capacity { vec_capacity changes.new ≡ vec_capacity changes.old }
    ensures steps { IsPaid graph.now lists.old.ends state.old touched.old.list steps.old steps.new }
{
    graphs_are_wired(graph);
    touched.lists_what_is_in_it();
    changes.clear();
    evaluate(
        joining,
        graph,
        lists,
        state,
        touched.nodes_in(),
        room,
        changes,
        steps,
    );
    rest(joining, touched);
    take_all(graph, lists, changes, state, touched);
    touched.lists_what_is_in_it();
}

// After a plain step no node is touched but by what changes.
fn rest(joining: bool, touched: &mut NodeSet)
    ensures count { length touched.new.inside ≡ length touched.old.inside }
    ensures joining { OnTrue joining (touched.new ≡ touched.old) }
{
    if !joining {
        touched.clear();
    }
}
