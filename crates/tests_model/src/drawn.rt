//! Graphs for tests.

use std::alloc::Global;
use std::test::Fail;
use switch_paths::{Graph, Switch, SwitchKind};

/// A switch: its kind, its level, its gate and its two ends.
pub(crate) type Drawn = (SwitchKind, u8, usize, usize, usize);

/// A graph with nodes of these levels and with these switches; what doesn't fit is left out.
pub(crate) fn drawn(alloc: Global, levels: &[u8], switches: &[Drawn]) -> Result<Graph, Fail> {
    let mut graph = Graph::new(alloc);
    for level in levels {
        if (1..=16).contains(level) {
            graph.add_node(*level)?;
        }
    }
    for &(kind, level, gate, a, b) in switches {
        let switch = Switch {
            kind,
            level,
            gate,
            a,
            b,
        };
        let nodes = graph.nodes();
        if switch.level >= 9
            && switch.level <= 15
            && switch.gate < nodes
            && switch.a < nodes
            && switch.b < nodes
        {
            graph.add_switch(switch)?;
        }
    }
    Ok(graph)
}
