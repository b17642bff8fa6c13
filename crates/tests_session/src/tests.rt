use cosmos_session::Session;
use line_words::lines;
use machine_stage::MachineStage;
use node_elimination::SymbolicAnalyst;
use script_meaning::Turn;
use script_run::{Plain, run_line};
use sim_read::read_netlist;
use std::alloc::Global;
use std::test::Fail;
use table_keys::TableKeys;
use told_lines::Silence;

// two inverters in a row, a -> b -> c
const PAIR: &[u8] = b"p a Vdd b\nn a Gnd b\np b Vdd c\nn b Gnd c\n";

// an inverter that feeds itself at a, and two in a row that read it, a -> o -> q
const RING: &[u8] = b"p a Vdd a\nn a Gnd a\np a Vdd o\nn a Gnd o\np o Vdd q\nn o Gnd q\n";

// A netlist, and pieces of a script with the numbers of marked groups, of moves and of placed members after
// each.
type Row = (&'static [u8], &'static [(&'static [u8], (usize, u64, u64))]);

const ROWS: [Row; 2] = [
    (
        PAIR,
        &[
            (b"input a\nwatch a b c\nset a=0\nphase\n", (0, 2, 0)),
            // a limit that comes too early leaves an X and a mark, which go the next time
            (b"limit 1\nset a=1\n", (1, 2, 0)),
            (b"phase\n", (1, 4, 0)),
            (b"phase\n", (0, 5, 0)),
            // an edit makes the last inverter stale, and the machine goes on from its moves
            (b"limit 9\ndel 4\n", (1, 5, 0)),
            (b"set a=0\n", (2, 5, 0)),
            (b"phase\n", (0, 6, 0)),
        ],
    ),
    (
        RING,
        &[
            (b"charge a=0 o=1 q=0\nlimit 1\nphase\n", (3, 3, 0)),
            (b"charge a=0\n", (3, 3, 1)),
        ],
    ),
];

#[test]
fn the_machine_lives_through_edits_and_marks_what_may_move(rt: HostRuntime) -> Result<(), Fail> {
    for (net, pieces) in &ROWS {
        let mut analyst = SymbolicAnalyst::new(rt.alloc());
        let mut session = session_of(rt.alloc(), net)?;
        for (script, counts) in *pieces {
            assert!(rt; follow(rt.alloc(), &mut session, script, &mut analyst));
            let Some(machine) = session.stage().machine() else {
                panic!(rt; "no machine");
            };
            assert!(rt; (machine.marked(), machine.moves(), machine.placed()) == *counts);
        }
    }
    Ok(())
}

// A script to a build after which a bound of 1 is passed, and one to the build that cuts.
const GROWING: &[u8] = b"input a b\nkeep 1\nreport\nadd n en Gnd c\ninput en\nreport\n";

const CUTTING: &[u8] = b"del 5\nreport\n";

#[test]
fn a_cut_gives_gates_back(rt: HostRuntime) -> Result<(), Fail> {
    let mut analyst = SymbolicAnalyst::new(rt.alloc());
    let mut session = session_of(rt.alloc(), PAIR)?;
    assert!(rt; follow(rt.alloc(), &mut session, GROWING, &mut analyst));
    let before = analyst.pool_size();
    assert!(rt; follow(rt.alloc(), &mut session, CUTTING, &mut analyst));
    assert!(rt; analyst.pool_size() < before);
    Ok(())
}

// Runs the lines of a script in a session; whether each is accepted.
fn follow(
    alloc: Global,
    session: &mut Session<MachineStage>,
    script: &[u8],
    analyst: &mut SymbolicAnalyst,
) -> bool {
    let mut out = Silence::new();
    for line in lines(script) {
        match run_line(alloc, session, None, line, &Plain, &mut out, analyst) {
            Ok(Turn::Accepted) => {}
            _ => return false,
        }
    }
    true
}

// A session at its start.
fn session_of(alloc: Global, net: &[u8]) -> Result<Session<MachineStage>, Fail> {
    let circuit = read_netlist(alloc, TableKeys::fixed(), net)?;
    Ok(Session::<MachineStage>::new(alloc, circuit)?)
}
