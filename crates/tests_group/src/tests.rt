use drawn_nets::{GATED_BY_A_MEMBER, GATED_BY_A_RAIL, INVERTER, texts_of};
use sim_read::read_netlist;
use std::test::Fail;
use switch_paths::Switch;
use switch_paths::SwitchKind::{self, NChan, PChan};
use table_keys::TableKeys;
use ternary::Tern;

struct Row {
    net: &'static [u8],
    // of the one group: the node that each local node stands for, how many are members, their levels
    // and those of the other local nodes, and the rails between the local nodes
    nodes: &'static [usize],
    members: usize,
    levels: &'static [u8],
    rails: &'static [Option<Tern>],
    // the kind, the level, the gate and the two ends of each switch
    switches: &'static [(SwitchKind, u8, usize, usize, usize)],
}

const ROWS: [Row; 3] = [
    Row {
        net: INVERTER,
        nodes: &[3, 2, 1, 0],
        members: 1,
        levels: &[1, 16, 16, 16],
        rails: &[None, None, Some(Tern::One), Some(Tern::Zero)],
        switches: &[(PChan, 10, 1, 2, 0), (NChan, 10, 1, 3, 0)],
    },
    Row {
        net: GATED_BY_A_MEMBER,
        nodes: &[2, 3],
        members: 2,
        levels: &[1, 2],
        rails: &[None, None],
        switches: &[(NChan, 9, 0, 0, 1)],
    },
    Row {
        net: GATED_BY_A_RAIL,
        nodes: &[2, 1, 0],
        members: 1,
        levels: &[1, 16, 16],
        rails: &[None, Some(Tern::One), Some(Tern::Zero)],
        switches: &[(NChan, 10, 1, 0, 2)],
    },
];

#[test]
fn a_group_has_the_text_that_is_drawn(rt: HostRuntime) -> Result<(), Fail> {
    for row in &ROWS {
        let circuit = read_netlist(rt.alloc(), TableKeys::fixed(), row.net)?;
        let texts = texts_of(rt.alloc(), circuit.graph())?;
        assert!(rt; texts.len() == 1);
        for (text, nodes) in &texts {
            let graph = text.graph();
            assert!(rt; nodes.as_slice() == row.nodes && text.members() == row.members);
            assert!(rt; text.constants() == row.rails && graph.places() == row.switches.len());
            for (node, level) in row.levels.iter().enumerate() {
                assert!(rt; node < graph.nodes() && graph.level(node) == *level);
            }
            for (place, &(kind, level, gate, a, b)) in row.switches.iter().enumerate() {
                let switch = Switch {
                    kind,
                    level,
                    gate,
                    a,
                    b,
                };
                assert!(rt; place < graph.places() && graph.switch_at(place) == Some(switch));
            }
        }
    }
    Ok(())
}
