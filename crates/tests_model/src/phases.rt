ghost use Rattle.std.specs.Prelude.{◌≡◌, ◌≢◌, ◌≤◌};
ghost use Rattle.settling.specs.declared.settling.TheConstants.{MOST_LIMIT};

use crate::drawn::{Drawn, drawn};
use settling::{MOST_LIMIT, PlainStepper, Recall, Settled, Stepper, settle};
use std::alloc::{AllocError, Global};
use std::marker::Brand;
use std::sync::ledger::{Blank, Ledger};
use std::test::Fail;
use switch_paths::Graph;
use switch_paths::SwitchKind::{NChan, PChan};
use ternary::{Steps, Tern};

// the level of each node, Gnd and Vdd first, and the inverters, each by the node that it reads and the one
// that it drives
type Drawing = (&'static [u8], &'static [(usize, usize)]);

// an inverter that feeds itself
const RING: Drawing = (&[16, 16, 1], &[(2, 2)]);

// two inverters in a row
const ROW: Drawing = (&[16, 16, 16, 1, 1], &[(2, 3), (3, 4)]);

// an inverter that feeds itself, and two in a row that read it
const READ_RING: Drawing = (&[16, 16, 1, 1, 1], &[(2, 2), (2, 3), (3, 4)]);

// three inverters in a ring, and one that reads it
const LONG_RING: Drawing = (&[16, 16, 1, 1, 1, 1], &[(4, 2), (2, 3), (3, 4), (4, 5)]);

// a circuit, its states before, the limit, its states after, the number of steps, whether it joined
type Row = (Drawing, &'static [u8], u64, &'static [u8], u64, bool);

const ROWS: [Row; 9] = [
    // it oscillates until the limit, and becomes X
    (RING, b"010", 4, b"01X", 5, true),
    // X is steady there
    (RING, b"01X", 4, b"01X", 0, false),
    (ROW, b"010XX", 100, b"01010", 2, false),
    // a limit that comes too early leaves an X, which goes the next time
    (ROW, b"01110", 1, b"0110X", 2, true),
    (ROW, b"0110X", 1, b"01101", 1, false),
    // what reads a node that became X becomes X in the next joining step
    (READ_RING, b"01010", 1, b"01XXX", 3, true),
    // a state comes back every two steps: behind a round the limit leaves one more, or one and a half
    (RING, b"010", 20, b"01X", 21, true),
    (RING, b"010", 21, b"01X", 22, true),
    // and every six steps, of which nearly all are passed over; four more are left then
    (LONG_RING, b"010101", 1_000_000, b"01XXXX", 1_000_003, true),
];

#[test]
fn a_state_settles_or_becomes_x(rt: HostRuntime) -> Result<(), Fail> {
    for ((levels, inverters), before, limit, after, steps, joined) in &ROWS {
        let switches = inverters_drawn(rt.alloc(), inverters)?;
        let graph = drawn(rt.alloc(), levels, &switches)?;
        let state = vec![in rt.alloc(); Tern::Unk; graph.nodes()]?;
        let mut stepper = PlainStepper::new(rt.alloc(), &graph, &state)?;
        assert!(rt; before.len() == stepper.state().len() && after.len() == before.len());
        for (node, letter) in before.iter().enumerate() {
            if node < stepper.state().len() {
                stepper.set_node(node, Tern::from_letter(*letter).unwrap_or(Tern::Unk));
            }
        }
        assert!(rt; (1..=MOST_LIMIT).contains(limit));
        let settled = counted::<_, Brand>(rt.alloc(), &mut stepper, &graph, *limit, Blank::new(1));
        assert!(rt; settled.steps == *steps && settled.joined == *joined);
        for (node, letter) in stepper.state().iter().zip(*after) {
            assert!(rt; node.letter() == *letter);
        }
    }
    Ok(())
}

// The switches of inverters: of each one to Vdd and one to Gnd.
fn inverters_drawn(alloc: Global, inverters: &[(usize, usize)]) -> Result<Vec<Drawn>, AllocError> {
    let mut switches = Vec::new(alloc);
    for &(read, driven) in inverters {
        switches.push((PChan, 10, read, 1, driven))?;
        switches.push((NChan, 10, read, 0, driven))?;
    }
    Ok(switches)
}

// What settling gives, with steps that nothing else counts.
fn counted<M: Stepper, L: Ledger>(
    alloc: Global,
    m: &mut M,
    graph: &Graph,
    limit: u64,
    blank: Blank,
) -> Settled
    requires low { 1 ≤ limit }
    requires high { limit ≤ MOST_LIMIT }
    requires name { blank.name ≡ L.name }
    requires parts { blank.parts ≡ L.parts }
    requires some { blank.parts ≢ 0 }
{
    let mut steps = Steps::<L>::new(blank);
    settle(m, graph, limit, &mut steps, &mut Recall::new(alloc))
}
