//! The sizing: the nodes that no item set get their sizes by their capacitances.

ghost use Rattle.std.specs.Prelude.{◌≡◌, ◌≤◌, ◌<◌, ◌^◌, ◌&&◌, not, if◌then◌else◌, length, OnOk};
ghost use Rattle.strength_order.specs.declared.Profile.TheVariants.{Two};
ghost use Rattle.switch_paths.specs.Graphs.{is_storage_level, level_of, nodes};
ghost use Rattle.netlist.specs.Edits.{with_store};
ghost use Rattle.sim_read.specs.Words.{all_added, sized_in};
ghost use Rattle.sim_read.specs.Capacitances as spec;
ghost use Rattle.sim_read.specs.Drafts as drafts;

use crate::header::MOST_THRESHOLDS;
use crate::sums::Sums;
use netlist::Circuit;
use std::alloc::Global;
use strength_order::INPUT_LEVEL;
use ternary::NoMemory;

/// Gives each storage node that isn't marked the size 1, and one more for each threshold that its
/// capacitance comes up to.
///
/// It takes time by the names to which something was added and by the nodes alone.
pub(crate) fn size_nodes(
    alloc: Global,
    circuit: &mut Circuit,
    thresholds: &[u64],
    sums: &Sums,
    marks: &[bool],
) -> Result<(), NoMemory>
    requires second { circuit.old.profile ≡ Two }
    requires few { length thresholds.now ≤ MOST_THRESHOLDS }
    requires room { all_added sums.now < 2 ^ 64 }
    ensures { OnOk result (circuit.new ≡ sized_in Two (record {
      circuit = circuit.old;
      thresholds = thresholds.now;
      sums = sums.now;
      marks = marks.now;
    })) }
{
    let capacitances = sums.by_node(alloc, circuit)?;
    for node in 0..circuit.graph().nodes() {
        size_node(circuit, thresholds, marks, node, capacitances[node]);
    }
    Ok(())
}

// Gives a node its size by its capacitance, if it is a storage node that isn't marked.
fn size_node(
    circuit: &mut Circuit,
    thresholds: &[u64],
    marks: &[bool],
    node: usize,
    capacitance: u64,
)
    requires within { node < nodes circuit.old.graph }
    requires second { circuit.old.profile ≡ Two }
    requires few { length thresholds.now ≤ MOST_THRESHOLDS }
    ensures { circuit.new ≡ (if is_storage_level (level_of circuit.old.graph node) && not (drafts.is_marked marks.now node)
        then with_store circuit.old node (spec.size_by thresholds.now capacitance) else circuit.old) }
{
    if circuit.graph().level(node) < INPUT_LEVEL && !is_marked(marks, node) {
        let size = size_by(thresholds, capacitance);
        circuit.make_store(node, size).unwrap();
    }
}

// The size of a node with this capacitance.
fn size_by(thresholds: &[u64], capacitance: u64) -> u64
    requires { length thresholds.now ≤ MOST_THRESHOLDS }
    ensures value { result ≡ spec.size_by thresholds.now capacitance }
    ensures least { 1 ≤ result }
    ensures most { result ≤ 8 }
{
    let reached = thresholds
        .iter()
        .filter(|threshold| **threshold <= capacitance)
        .count();
    1 + reached as u64
}

/// Whether the node is marked; a node past the marks isn't.
pub(crate) fn is_marked(marks: &[bool], node: usize) -> bool
    ensures { result ≡ drafts.is_marked marks.now node }
{
    match marks.get(node) {
        Some(mark) => *mark,
        None => false,
    }
}
