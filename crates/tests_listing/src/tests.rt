use crate::step_by_text;
use linear_code::{ListingFault, read_listing};
use node_elimination::SymbolicAnalyst;
use sim_read::read_netlist;
use std::test::Fail;
use table_keys::TableKeys;
use ternary::Tern::{self, One, Unk, Zero};

const LISTING: &[u8] = b"node 0 i in\nnode 1 s out\nnode 2 s x|y\n\
    t0 = ! l0\nt1 = t0 & h1\nt2 = t1 | 1\n\
    next 1 t2 0\nnext 2 l2 t0\n";

// Texts that are no listing, each with its first bad line.
const BAD: [(&[u8], u64); 17] = [
    (b"node 1 s a\n", 1),
    (b"node 0 s a", 1),
    (b"node 0 s a\n", 2),
    (b"node 1 i a\n", 1),
    (b"node 0 i Gnd\nt0 = h0 & t0\n", 2),
    (b"node 0 s a\nnext 0 h0 l0", 2),
    (b"node 0 s a\nnext 0 h1 l0\n", 2),
    (b"node 0 i a\nnext 0 h0 l0\n", 2),
    (b"node 0 s a\nt00 = ! h0\n", 2),
    (b"node 0 s a\nt0 = h0 & l0\nt0 = ! h0\n", 3),
    (b"node 0 s a\nnext 0 t99999999999999999999 0\n", 2),
    (b"node 0 s a\nnext 0 h1 0\n", 2),
    (b"node 0 s a\nnext 0 h00 0\n", 2),
    (b"node 0 s a\nt0 = ! t0\nnext 0 h0 0\n", 2),
    (b"node 0 s a\nt0 = ! h0\nnode 1 i b\n", 3),
    (b"node 0 s a\nnext 0 h0 l0\nnext 0 h0 l0\n", 3),
    (
        b"node 0 i in\nnode 1 s out\nnode 2 s x\nt0 = ! l0\nnext 1 t0 0\nnext 2 l10 t0\n",
        6,
    ),
];

#[test]
fn a_text_is_read_and_written_back_or_has_a_first_bad_line(rt: HostRuntime) -> Result<(), Fail> {
    for text in [LISTING, b""] {
        let mut out = Vec::new(rt.alloc());
        match read_listing(rt.alloc(), text) {
            Ok(listing) => listing.write(&mut out)?,
            Err(_) => panic!(rt; "no listing"),
        }
        assert!(rt; out.as_slice() == text);
    }
    for (text, line) in &BAD {
        let told = read_listing(rt.alloc(), text).err();
        assert!(rt;
            told == Some(ListingFault::BadListing { line: *line }),
            "line {line}"
        );
    }
    Ok(())
}

// A ratioed inverter, its input a storage node: the states of its output and of its input before a unit
// step, and after it.
const RATIOED: &[u8] = b"d out out Vdd\ne a Gnd out\n";

const STEPS: [([Tern; 2], [Tern; 2]); 3] = [
    ([Zero, Zero], [One, Zero]),
    ([Unk, One], [Zero, One]),
    ([One, Unk], [Unk, Unk]),
];

#[test]
fn whoever_has_the_text_makes_the_steps(rt: HostRuntime) -> Result<(), Fail> {
    let circuit = read_netlist(rt.alloc(), TableKeys::fixed(), RATIOED)?;
    let mut analyst = SymbolicAnalyst::new(rt.alloc());
    assert!(rt; circuit.graph().nodes() == 4);
    for (before, after) in &STEPS {
        let state = [Zero, One, before[0], before[1]];
        let next = step_by_text(
            rt.alloc(),
            TableKeys::fixed(),
            &circuit,
            &state,
            &mut analyst,
        )?;
        assert!(rt; next.as_slice() == [Zero, One, after[0], after[1]].as_slice());
    }
    Ok(())
}

// A listing of one node for which neither rail may be, if the node is 0: X comes of it.
#[test]
fn neither_rail_gives_x(rt: HostRuntime) -> Result<(), Fail> {
    let text = b"node 0 s a\nt0 = ! 1\nnext 0 h0 t0\n";
    let Ok(listing) = read_listing(rt.alloc(), text) else {
        panic!(rt; "no listing");
    };
    assert!(rt; listing.nodes() == 1);
    for (before, after) in [(One, One), (Zero, Unk), (Unk, One)] {
        let next = listing.step(rt.alloc(), &[before])?;
        assert!(rt; next.as_slice() == [after].as_slice());
    }
    Ok(())
}
