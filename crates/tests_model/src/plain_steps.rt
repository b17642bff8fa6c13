use crate::drawn::{Drawn, drawn};
use std::test::Fail;
use switch_paths::SwitchKind::{Always, NChan, PChan};
use switch_paths::plain_step;
use ternary::Tern;

// the level of each node, Gnd and Vdd first, and the switches
type Drawing = (&'static [u8], &'static [Drawn]);

// an inverter
const INVERTER: Drawing = (
    &[16, 16, 16, 1],
    &[(PChan, 10, 2, 1, 3), (NChan, 10, 2, 0, 3)],
);

// a weak pull-up against a stronger path to ground
const PULL_UP: Drawing = (
    &[16, 16, 16, 1],
    &[(Always, 9, 3, 3, 1), (NChan, 10, 2, 0, 3)],
);

// a path that is blocked in its middle
const WEAK_THEN_STRONG: Drawing = (
    &[16, 16, 1, 16, 1],
    &[
        (NChan, 9, 1, 1, 2),
        (NChan, 10, 1, 0, 2),
        (NChan, 10, 3, 2, 4),
    ],
);

// a large node shares its charge with a small one
const LARGE_AND_SMALL: Drawing = (&[16, 16, 16, 2, 1], &[(NChan, 10, 2, 3, 4)]);

// nodes of one size share their charges
const TWO_OF_ONE_SIZE: Drawing = (&[16, 16, 16, 1, 1], &[(NChan, 10, 2, 3, 4)]);

// an input node stops a path
const INPUT_BETWEEN: Drawing = (
    &[16, 16, 16, 1, 16, 1],
    &[(NChan, 10, 2, 3, 4), (NChan, 10, 2, 4, 5)],
);

// a circuit, and its states before the step and after it
type Row = (Drawing, &'static [u8], &'static [u8]);

const ROWS: [Row; 8] = [
    (INVERTER, b"010X", b"0101"),
    (PULL_UP, b"011X", b"0110"),
    (WEAK_THEN_STRONG, b"01XX0", b"010X0"),
    (LARGE_AND_SMALL, b"01110", b"01111"),
    (TWO_OF_ONE_SIZE, b"01110", b"011XX"),
    // an unknown switch matters where the charges differ
    (LARGE_AND_SMALL, b"01X10", b"01X1X"),
    (LARGE_AND_SMALL, b"01X11", b"01X11"),
    (INPUT_BETWEEN, b"01X100", b"01XX00"),
];

#[test]
fn a_step_gives_each_node_its_steady_state(rt: HostRuntime) -> Result<(), Fail> {
    for ((levels, switches), before, after) in &ROWS {
        let graph = drawn(rt.alloc(), levels, switches)?;
        let mut state = Vec::new(rt.alloc());
        for letter in *before {
            state.push(Tern::from_letter(*letter).unwrap_or(Tern::Unk))?;
        }
        assert!(rt; state.len() == graph.nodes() && after.len() == state.len());
        let next = plain_step(rt.alloc(), &graph, &state)?;
        for (node, letter) in next.iter().zip(*after) {
            assert!(rt; node.letter() == *letter);
        }
    }
    Ok(())
}
