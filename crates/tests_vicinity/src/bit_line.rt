//! A bit line that is precharged, and three cells behind pass transistors.
ghost use Rattle.std.specs.Prelude.{◌≡◌, ◌≢◌, ◌≤◌, length, vec_capacity};
ghost use Rattle.switch_paths.specs.Graphs.{nodes};
ghost use Rattle.vicinity.specs.LiveLists.{AreListsOf};

use part_words::Change;
use std::alloc::Global;
use std::marker::Brand;
use std::process::Abort;
use std::sync::ledger::{Blank, Ledger};
use std::test::Fail;
use switch_paths::SwitchKind::{NChan, PChan};
use switch_paths::{Graph, Switch, SwitchKind};
use ternary::{Steps, Tern};
use vicinity::{LiveLists, NodeSet, Scratch, place_awake, step_awake};

// Gnd, Vdd, the gates of the cells, the gate of the precharge, the line, and the cells
const LEVELS: [u8; 10] = [16, 16, 16, 16, 16, 16, 2, 1, 1, 1];

// a switch: its kind, its gate and its two ends
const SWITCHES: [(SwitchKind, usize, usize, usize); 4] = [
    (PChan, 5, 1, 6),
    (NChan, 2, 6, 7),
    (NChan, 3, 6, 8),
    (NChan, 4, 6, 9),
];

const START: [u8; 10] = *b"010001X010";

// a node, the state that it gets, and all states after a step
type Row = (usize, u8, &'static [u8]);

const ROWS: [Row; 6] = [
    (5, b'0', b"0100001010"),
    // the line keeps what it got
    (5, b'1', b"0100011010"),
    // and shares it with a cell, which is smaller
    (2, b'1', b"0110011110"),
    (2, b'0', b"0100011110"),
    // an unknown gate makes the cell's state unknown, and not that of the line
    (4, b'X', b"0100X1111X"),
    (4, b'0', b"010001111X"),
];

#[test]
fn a_bit_line_is_stepped_by_vicinities(rt: HostRuntime) -> Result<(), Fail> {
    run::<Brand>(&rt, rt.alloc(), Blank::new(1))
}

// Makes the circuit and runs the rows, with steps that nothing else counts.
fn run<L: Ledger>(rt: &impl Abort, alloc: Global, blank: Blank) -> Result<(), Fail>
    requires name { blank.name ≡ L.name }
    requires parts { blank.parts ≡ L.parts }
    requires some { blank.parts ≢ 0 }
{
    let graph = drawn(alloc)?;
    let nodes = graph.nodes();
    let mut state = vec![in alloc; Tern::Unk; nodes]?;
    for (node, letter) in START.iter().enumerate() {
        if node < nodes {
            state[node] = Tern::from_letter(*letter).unwrap_or(Tern::Unk);
        }
    }
    let mut lists = LiveLists::of(alloc, &graph, &state)?;
    let mut touched = NodeSet::new(alloc, nodes)?;
    let mut room = Scratch::new(alloc, nodes)?;
    let mut changes = Vec::with_capacity(alloc, nodes)?;
    run_rows(
        rt,
        &graph,
        &mut lists,
        &mut state,
        &mut touched,
        &mut room,
        &mut changes,
        &mut Steps::<L>::new(blank),
    );
    Ok(())
}

// Runs the rows.
fn run_rows<L: Ledger>(
    rt: &impl Abort,
    graph: &Graph,
    lists: &mut LiveLists,
    state: &mut [Tern],
    touched: &mut NodeSet,
    room: &mut Scratch,
    changes: &mut Vec<Change>,
    steps: &mut Steps<L>,
)
    requires counted { length state.old ≡ nodes graph.now }
    requires lists { AreListsOf graph.now state.old lists.old }
    requires touched { length touched.old.inside ≡ nodes graph.now }
    requires room { room.old.nodes ≡ nodes graph.now }
    requires changes { nodes graph.now ≤ vec_capacity changes.old }
{
    for (node, letter, after) in &ROWS {
        assert!(rt; *node < graph.nodes() && after.len() == graph.nodes());
        let value = Tern::from_letter(*letter).unwrap_or(Tern::Unk);
        place_awake(graph, lists, *node, value, state, touched);
        step_awake(false, graph, lists, state, touched, room, changes, steps);
        for (now, letter) in state.iter().zip(*after) {
            assert!(rt; now.letter() == *letter);
        }
    }
}

// The circuit; what doesn't fit is left out.
fn drawn(alloc: Global) -> Result<Graph, Fail> {
    let mut graph = Graph::new(alloc);
    for level in &LEVELS {
        if (1..=16).contains(level) {
            graph.add_node(*level)?;
        }
    }
    for (kind, gate, a, b) in &SWITCHES {
        let switch = Switch {
            kind: *kind,
            level: 10,
            gate: *gate,
            a: *a,
            b: *b,
        };
        let nodes = graph.nodes();
        if switch.gate < nodes && switch.a < nodes && switch.b < nodes {
            graph.add_switch(switch)?;
        }
    }
    Ok(graph)
}
