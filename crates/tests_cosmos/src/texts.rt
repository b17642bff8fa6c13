//! Texts that the top call reads, and what it answers and writes of them.
use cosmos_app::Status;

/// The words of a run, its netlist or deck, its script, its status and its text.
pub(super) type Run = (
    &'static [&'static str],
    &'static [u8],
    &'static [u8],
    Status,
    &'static [u8],
);

pub(super) const INVERTER: &[u8] = b"p a Vdd out\nn a Gnd out\n";

pub(super) const SCRIPT: &[u8] = b"input a\nwatch a out\nset a=0\nstep\nset a=1\nstep\n";

/// A list of faults.
pub(super) const LIST: &[u8] = b"open 1\nclosed 2\none out\nzero a\n";

const SIMULATE: &[&str] = &["sim", "net", "script"];

/// Runs of the inverter's script, each with the number of its reads where the files give five bytes at a
/// time.
pub(super) const SENT: [(&[&str], u64, &[u8]); 3] = [
    (SIMULATE, 19, b"1 1 01\n2 1 10\n"),
    (
        &["batch", "net", "2", "script"],
        19,
        b"1 1 1 01\n2 1 1 01\n1 2 1 10\n2 2 1 10\n",
    ),
    (
        &["faults", "net", "script", "list"],
        28,
        b"fault 1 possible 1 out\nfault 2 possible 1 out\nfault 3 detected 2 out\nfault 4 detected 2 a\n\
            faults 4 detected 2 possible 2 undetected 0 refused 0\n",
    ),
];

// Two inverters in a deck.
const DECK: &[u8] = b"two inverters\n.subckt inv a y\nmp y a vdd vdd p\nmn y a 0 0 n\n.ends\n\
    x1 in m inv\nx2 m out inv\n";

/// Each request once, and scripts that between them have each command.
pub(super) const RUNS: [Run; 16] = [
    (
        SIMULATE,
        b"n a Gnd out\np a Vdd out\nn r Gnd r\np r Vdd r\n",
        b"input a\nstore out 2\nwatch a out r\nset a=1\nlimit 4\nphase\ncharge out=1\nexpect out=1 a=1\n\
            expect out=0 a=1 r=1\nstep\nclock a=01\ncycle 2\ncharge r=0\nphase\n",
        Status::Mismatch,
        b"1 1 10X\nexpect out=0 got 1 after 1\nexpect r=1 got X after 1\n2 1 10X\n\
            3 1 01X\n4 1 10X\n5 1 01X\n6 1 10X\n7 5* 10X\n",
    ),
    (
        SIMULATE,
        b"p a Vdd out1\nn a Gnd out1\np b Vdd out2\nn b Gnd out2\n",
        b"input a b\nkeep 9\nreport\nadd n en Gnd out1\ninput en\nreport\ndel 5\nreport\nstrength 1 1\nreport\n\
            wire 3 a Vdd out2\nwatch out2\nset a=1 b=1\nphase\ntype 4 d\nset a=1 b=0\nphase\n",
        Status::Done,
        b"groups 2 texts 1 new 1\ngroups 2 texts 2 new 1\ngroups 2 texts 1 new 0\ngroups 2 texts 2 new 1\n\
            1 1 0\n2 0 0\n",
    ),
    (
        SIMULATE,
        b"| format: MIT profile:2 caps:10,100.5\nn g bus cell\n= bus wire\nC wire Gnd 60.25\nC bus cell 40.25\n",
        b"input g\nset g=1\ncharge bus=1 cell=0\nwatch wire cell\nphase\nset bus=1\n",
        Status::ScriptRefused,
        b"1 1 11\nscript line 6: S6 NotInput\n",
    ),
    (
        SIMULATE,
        b"n a Gnd out\nq a b c\n",
        b"step\n",
        Status::NetRefused,
        b"net line 2: N1 BadRecord\n",
    ),
    (
        &["cover", "net", "script"],
        INVERTER,
        b"input a\nset a=0\nphase\nadd n a q r\n",
        Status::Done,
        b"cover a 1\ncover out 0\ncover q 01\ncover r 01\ncover nodes 4 both 0 one 2 none 2\n",
    ),
    (
        &["check", "net"],
        b"A a input size:2\np a Vdd out\nn a Gnd out\n",
        b"",
        Status::Done,
        b"ok nodes 4 switches 2 names 2\n",
    ),
    (
        &["groups", "net"],
        b"p a Vdd b\nn a Gnd b\np b Vdd c\nn b Gnd c\nA a input\nA d size:2\n",
        b"",
        Status::Done,
        b"group 1 nodes 1 switches 2 text 1: b\ngroup 2 nodes 1 switches 2 text 1: c\n\
            group 3 nodes 1 switches 0 text 3: d\n",
    ),
    (
        &["compile", "net"],
        b"d out out Vdd\ne a Gnd out\n",
        b"",
        Status::Done,
        b"node 0 i Gnd\nnode 1 i Vdd\nnode 2 s out\nnode 3 s a\nt0 = h3 & l3\nt1 = h3 | t0\n\
            next 2 l3 t1\nnext 3 h3 l3\n",
    ),
    (
        &["lint", "net"],
        b"d Vdd m Vdd\nd Vdd Gnd m\nn a Gnd m\n",
        b"",
        Status::Mismatch,
        b"shorted 1 2\nfloating a 1\n\
            lint shorted 1 floating 1 undriven 0 never-one 0 never-zero 0 dead 0 supply 0 wide 0 unused 0\n",
    ),
    (
        &["why", "net", "script", "cell"],
        b"n g bus cell\n",
        b"input g\nstore bus 2\ncharge bus=1 cell=0\nphase\n",
        Status::Done,
        b"one 2 possible bus 1 cell\nzero 1 definite cell\n",
    ),
    (
        &["batch", "net", "3", "script"],
        INVERTER,
        b"input a\nwatch a out\nset a=01X\nphase\nset a=1\nphase\ndel 1\nstore out 2\ncharge out=011\nstep\n",
        Status::Done,
        b"1 1 1 01\n2 1 1 10\n3 1 0 XX\n1 2 1 10\n2 2 0 10\n3 2 1 10\n1 3 1 10\n2 3 1 10\n3 3 1 10\n",
    ),
    (
        &["sim-spice", "net", "script"],
        DECK,
        b"input in\nwatch in m out\nset in=0\nphase\nset in=1\nphase\n",
        Status::Done,
        b"1 2 010\n2 2 101\n",
    ),
    (
        &["sim-spice", "net", "script"],
        b"t\n.subckt s a\nx1 a s\n.ends\nx1 b s\n",
        b"",
        Status::NetRefused,
        b"deck line 3: P7 Recursion\n",
    ),
    (
        &["gen", "script", "inverters", "01", "1"],
        b"",
        b"",
        Status::Done,
        b"input w0\nwatch w0 w1\nlimit 1000000\nset w0=0\nphase\nset w0=0\nphase\nset w0=1\nphase\nset w0=1\nphase\n",
    ),
    (
        &["large", "inverters", "1", "1"],
        b"",
        b"",
        Status::Done,
        b"large nodes 4 switches 2 lines 4 steps 2 marks 0 zeros 4 ones 4 unknown 0\n",
    ),
    (&[], b"", b"", Status::Usage, b"bad command line\n"),
];
