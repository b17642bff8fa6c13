use line_words::words;
use netlist::Circuit;
use node_words::{VectorFault, Vectors};
use script_lang::{Name, NameList};
use sim_read::read_netlist;
use std::alloc::Global;
use std::test::Fail;
use table_keys::TableKeys;
use ternary::NoMemory;

// what is answered to a line: the vector's nodes, or why the name isn't given
#[derive(Clone, Copy)]
enum Answer {
    Nodes(&'static [usize]),
    Fault(VectorFault),
}

// a netlist, and lines of a vector's name and words, one after the other, each with what is answered
type Row = (&'static [u8], &'static [(&'static [u8], Answer)]);

// nodes a and out are 2 and 3
const INVERTER: &[u8] = b"p a Vdd out\nn a Gnd out\n";

// nodes g, d3, q3, d2, q2, d1, q1, d0, q0 are 2 to 10
const PASSES: &[u8] = b"n g d3 q3\nn g d2 q2\nn g d1 q1\nn g d0 q0\n";

// nodes ab, a, cb, b are 2 to 5; one has two names, and a rail has one more
const ALIASES: &[u8] = b"n ab a cb\n= ab alt\n= Vdd vb\nn cb b Gnd\n";

// a node is named by sixteen zeros
const ZEROS: &[u8] = b"n g 0000000000000000 b\n";

const ROWS: [Row; 6] = [
    (
        INVERTER,
        &[
            (b"v a", Answer::Nodes(&[2])),
            (b"v v out v", Answer::Nodes(&[2, 3, 2])),
            (b"v a nope", Answer::Fault(VectorFault::UnknownNode)),
            (b"w v", Answer::Nodes(&[2, 3, 2])),
            (b"out a", Answer::Fault(VectorFault::NameTaken)),
            (b"gND! a", Answer::Fault(VectorFault::NameTaken)),
            (b"r gnd VDD!", Answer::Nodes(&[0, 1])),
            (b"v a{1000001:0}", Answer::Fault(VectorFault::UnknownNode)),
            (b"v a{0:}", Answer::Fault(VectorFault::UnknownNode)),
            (b"v zz*", Answer::Fault(VectorFault::UnknownNode)),
        ],
    ),
    (
        PASSES,
        &[
            (b"d d{3:0}", Answer::Nodes(&[3, 5, 7, 9])),
            (b"q q*", Answer::Nodes(&[4, 6, 8, 10])),
            (
                b"e {d}{1:2} d{002:3}",
                Answer::Fault(VectorFault::UnknownNode),
            ),
            (b"e d{002:3}", Answer::Nodes(&[5, 3])),
            (b"f d{0:4}", Answer::Fault(VectorFault::UnknownNode)),
        ],
    ),
    (
        b"n 1 2 3\n",
        &[(b"u {1:{2:3}}", Answer::Nodes(&[2, 3, 2, 3, 4]))],
    ),
    (
        ALIASES,
        &[
            (b"p *b", Answer::Nodes(&[2, 4, 5])),
            (b"q a*", Answer::Nodes(&[2, 3])),
            (b"r *", Answer::Nodes(&[2, 3, 4, 5])),
            (b"s v*", Answer::Fault(VectorFault::UnknownNode)),
        ],
    ),
    (
        ZEROS,
        &[
            (
                b"u {0:0}{0:0}{0:0}{0:0}{0:0}{0:0}{0:0}{0:0}{0:0}{0:0}{0:0}{0:0}{0:0}{0:0}{0:0}{0:0}",
                Answer::Nodes(&[3]),
            ),
            (
                b"u {0:0}{0:0}{0:0}{0:0}{0:0}{0:0}{0:0}{0:0}{0:0}{0:0}{0:0}{0:0}{0:0}{0:0}{0:0}{0:0}{0:0}",
                Answer::Fault(VectorFault::TooMany),
            ),
        ],
    ),
    (
        b"n a*b a b\n",
        &[
            (b"u a*b", Answer::Nodes(&[2])),
            (b"v a**b", Answer::Nodes(&[2])),
            (b"w **", Answer::Nodes(&[2, 3, 4])),
        ],
    ),
];

#[test]
fn words_stand_for_nodes_or_are_refused(rt: HostRuntime) -> Result<(), Fail> {
    for (net, lines) in &ROWS {
        let circuit = read_netlist(rt.alloc(), TableKeys::fixed(), net)?;
        let mut vectors = Vectors::new(rt.alloc(), TableKeys::fixed());
        for (line, answer) in *lines {
            let made = define(rt.alloc(), &mut vectors, &circuit, line);
            match *answer {
                Answer::Nodes(nodes) => {
                    let Some(name) = words(line).next() else {
                        panic!(rt; "no name");
                    };
                    assert!(rt; made == Ok(()));
                    assert!(rt; vectors.nodes(name).unwrap_or(&[]) == nodes);
                }
                Answer::Fault(fault) => assert!(rt; made == Err(fault)),
            }
        }
    }
    Ok(())
}

#[test]
fn so_many_entries_are_refused(rt: HostRuntime) -> Result<(), Fail> {
    let circuit = read_netlist(rt.alloc(), TableKeys::fixed(), INVERTER)?;
    let mut vectors = Vectors::new(rt.alloc(), TableKeys::fixed());
    // each vector is sixteen times the one before it: the fourth has as many entries as there may be
    for line in [
        b"v1 a a a a a a a a a a a a a a a a".as_slice(),
        b"v2 v1 v1 v1 v1 v1 v1 v1 v1 v1 v1 v1 v1 v1 v1 v1 v1".as_slice(),
        b"v3 v2 v2 v2 v2 v2 v2 v2 v2 v2 v2 v2 v2 v2 v2 v2 v2".as_slice(),
        b"v4 v3 v3 v3 v3 v3 v3 v3 v3 v3 v3 v3 v3 v3 v3 v3 v3".as_slice(),
    ] {
        assert!(rt; define(rt.alloc(), &mut vectors, &circuit, line) == Ok(()));
    }
    assert!(rt; define(rt.alloc(), &mut vectors, &circuit, b"w v4 a") == Err(VectorFault::TooMany));
    assert!(rt;
        define(rt.alloc(), &mut vectors, &circuit, b"w v4 nope") == Err(VectorFault::UnknownNode)
    );
    // 62 more have room beside them; one of these may be given anew, but no other name
    let mut line = Vec::from_slice(rt.alloc(), b"x v4")?;
    for _ in 0..62 {
        line.insert(0, b'x')?;
        assert!(rt; define(rt.alloc(), &mut vectors, &circuit, &line) == Ok(()));
    }
    assert!(rt; define(rt.alloc(), &mut vectors, &circuit, b"xx v4") == Ok(()));
    assert!(rt; define(rt.alloc(), &mut vectors, &circuit, b"y v4") == Err(VectorFault::TooMany));
    Ok(())
}

// Gives the name with which a line begins to the nodes of its other words.
fn define(
    alloc: Global,
    vectors: &mut Vectors,
    circuit: &Circuit,
    line: &[u8],
) -> Result<(), VectorFault> {
    let names = names_of(alloc, line)?;
    match names.items().split_first() {
        Some((name, words)) => vectors.define(alloc, circuit, name.items(), words),
        None => Err(VectorFault::UnknownNode),
    }
}

// The words of a line.
fn names_of(alloc: Global, line: &[u8]) -> Result<NameList, NoMemory> {
    let mut names = NameList::new(alloc);
    for word in words(line) {
        names.push(Name::from_slice(alloc, word)?)?;
    }
    Ok(names)
}
