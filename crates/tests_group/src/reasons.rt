use std::alloc::Global;
use std::test::Fail;
use switch_paths::{Graph, Switch, SwitchKind, Walk};
use ternary::Tern;
use why_path::unblocked;

// the level of each node, Gnd and Vdd first, and the kind, the level, the gate and the ends of each transistor
type Drawing = (
    &'static [u8],
    &'static [(SwitchKind, u8, usize, usize, usize)],
);

// an inverter: its input is node 2 and its output node 3
const INVERTER: Drawing = (
    &[16, 16, 16, 1],
    &[
        (SwitchKind::PChan, 10, 2, 1, 3),
        (SwitchKind::NChan, 10, 2, 0, 3),
    ],
);

// a gate with a weak load
const RATIOED: Drawing = (
    &[16, 16, 16, 1],
    &[
        (SwitchKind::Always, 9, 3, 3, 1),
        (SwitchKind::NChan, 10, 2, 0, 3),
    ],
);

// a bus of size 2, node 3, and a cell of size 1, node 4, behind a transistor with gate 2
const SHARING: Drawing = (&[16, 16, 16, 2, 1], &[(SwitchKind::NChan, 10, 2, 3, 4)]);

// A circuit, its state, a root and the places of a live path from it, and whether nothing stronger blocks
// the path.
const ROWS: [(Drawing, &[u8], usize, &[usize], bool); 7] = [
    (INVERTER, b"0110", 0, &[1], true),
    (RATIOED, b"0110", 0, &[1], true),
    // the load, at its end
    (RATIOED, b"0110", 1, &[0], false),
    (SHARING, b"01110", 3, &[0], true),
    // the cell's own charge, at its root
    (SHARING, b"01110", 4, &[], false),
    // the cell's charge on its way to the bus
    (SHARING, b"01101", 4, &[0], false),
    // an X at the gate blocks nothing
    (SHARING, b"01X10", 4, &[], true),
];

#[test]
fn a_path_that_something_stronger_meets_is_blocked(rt: HostRuntime) -> Result<(), Fail> {
    for (drawing, letters, root, places, free) in &ROWS {
        let graph = drawn(rt.alloc(), drawing)?;
        let state = states(rt.alloc(), letters)?;
        assert!(rt; state.len() == graph.nodes());
        let hops = Vec::from_slice(rt.alloc(), places)?;
        let walk = Walk { root: *root, hops };
        let is_free = match graph.walk_facts(&state, &walk) {
            Some(_) => unblocked(rt.alloc(), &graph, &state, &walk)?,
            None => !*free,
        };
        assert!(rt; is_free == *free);
    }
    Ok(())
}

// The states of these letters.
fn states(alloc: Global, letters: &[u8]) -> Result<Vec<Tern>, Fail> {
    let mut states = Vec::new(alloc);
    for letter in letters {
        states.push(Tern::from_letter(*letter).unwrap_or(Tern::Unk))?;
    }
    Ok(states)
}

// The graph of a drawing; what doesn't fit is left out.
fn drawn(alloc: Global, drawing: &Drawing) -> Result<Graph, Fail> {
    let mut graph = Graph::new(alloc);
    let (levels, switches) = drawing;
    for level in *levels {
        if (1..=16).contains(level) {
            graph.add_node(*level)?;
        }
    }
    for (kind, level, gate, a, b) in *switches {
        let nodes = graph.nodes();
        if *gate < nodes && *a < nodes && *b < nodes && (9..=12).contains(level) {
            graph.add_switch(Switch {
                kind: *kind,
                level: *level,
                gate: *gate,
                a: *a,
                b: *b,
            })?;
        }
    }
    Ok(graph)
}
