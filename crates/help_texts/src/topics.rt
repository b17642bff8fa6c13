//! What each request and each command of a script does.

ghost use Rattle.std.specs.Prelude.{◌≡◌, option_map};
ghost use Rattle.help_texts.specs.Texts as spec;

use crate::finding::text_of;

/// Each request with its form, what it does, and what it is refused for.
pub const REQUESTS: [(&str, &str); 18] = [
    (
        "sim",
        "cosmos sim NET SCRIPT
Reads the .sim netlist NET, and runs the lines of SCRIPT in order. Each step
and each phase prints a line: its number, how many unit steps changed
something, a * if joining steps did, and the states of the watched nodes. Each
expectation that isn't met prints a line, and the status is then 1.
A refused line of NET is told alone (status 3): N1 BadRecord, N2 FewWords,
N3 Format, N4 TooLong, N5 BadCaps, E4 BadStrength, E5 BadSize, E6 AliasTaken,
E7 TooManyNodes, E8 TooManySwitches, L1 LineTooLong, L2 BadByte.
A refused line of SCRIPT ends the run (status 4), after what was printed:
L1 LineTooLong, L2 BadByte, S1 BadCommand, S11 TooLong, and what its command
is refused for ('cosmos help set' tells it of 'set').
",
    ),
    (
        "sim-spice",
        "cosmos sim-spice DECK SCRIPT
As 'sim', on the MOS transistors of the SPICE deck DECK, whose subcircuits are
expanded. Line 1 is the title. The script writes all names in small letters;
the node n of the call x1 is x1.n. Sources drive nothing: the script does.
A refused line or card of DECK is told alone (status 3): P1 BadCard,
P2 FewWords, P3 BadNesting, P4 Redefined, P5 NoSubckt, P6 PortCount,
P7 Recursion, P8 TooDeep, P9 TooManyCalls, P10 BadModel, E4 BadStrength,
E7 TooManyNodes, E8 TooManySwitches, N4 TooLong, L1 LineTooLong, L2 BadByte.
A line of SCRIPT is refused as in 'sim' (status 4).
",
    ),
    (
        "why",
        "cosmos why NET SCRIPT NODE
Runs SCRIPT without printing its lines, and prints two lines on NODE at its
end: the strongest path that may make it 1, and that may make it 0, or none.
A path is told by its strength (1 to 3 a charge, 9 to 12 a drive, in profile 2
1 to 8 and 9 to 15; 16 an input node itself), 'definite' or 'possible', where
it begins, and for each transistor on it the number and the node behind it. End
the script before the phase that makes an X: an X at rest has itself for a
reason.
Lines of NET and SCRIPT are refused as in 'sim', and told alone. If NODE isn't
in use at the end, E1 UnknownNode is told (status 2).
In a talk 'why NAME' prints the two lines at that point.
Refused there: S2 FewWords, S3 ManyWords; E1 UnknownNode.
",
    ),
    (
        "faults",
        "cosmos faults NET SCRIPT LIST
Runs SCRIPT, and once more under each fault of LIST, and tells of each whether
the watched nodes show it: detected, refused, possible (X in the place of 0 or
1) or undetected. The last line counts them.
A line of LIST is a fault: 'open K' and 'closed K' of transistor K, 'zero NAME'
and 'one NAME' of a node that is stuck. It is refused (status 4) for
F1 BadFault, F2 TooLong, E1 UnknownNode, E2 NoSuchSwitch, E3 Rail,
L1 LineTooLong, L2 BadByte. A line of NET, and of SCRIPT in the run without a
fault, is refused as in 'sim'. Each refusal is told alone.
",
    ),
    (
        "vcd",
        "cosmos vcd NET SCRIPT
As 'sim', but writes a value change dump of the watched words, for a viewer of
waveforms: 'cosmos vcd NET SCRIPT > run.vcd'. Time goes by unit steps, one a
step, and one more between phases: it is an order, and no delay. So a ripple is
seen as it goes through the circuit. Lines of 'expect', 'report', 'show' and
'look' are comments, and that of a refusal is the last.
If the name NET ends in .sp, .spi, .spice, .cir or .ckt, it is a SPICE deck. A
line of NET or SCRIPT is refused as in 'sim', one of a deck as in 'sim-spice';
and a 'watch' behind the first 'step', 'phase' or 'cycle': S17 LateWatch.
",
    ),
    (
        "cover",
        "cosmos cover NET SCRIPT
Runs SCRIPT without printing its lines, and prints a line for each node that is
there at the end, inputs too, and never had 0, or 1: 'cover NAME 0', 'cover NAME
1', or 'cover NAME 01' if it had none. The last line has the numbers of nodes,
and of those that had both, one and none. What a node has behind a line counts,
behind each unit step inside one, and behind the placing of a cycle's letters.
So one sees where a test is blind before 'faults' runs any fault.
If the name NET ends in .sp, .spi, .spice, .cir or .ckt, it is a SPICE deck. A
line of NET or SCRIPT is refused as in 'sim', one of a deck as in 'sim-spice',
and told alone.
",
    ),
    (
        "symbolic",
        "cosmos symbolic NET SCRIPT
Runs SCRIPT once for all values of the bits that it names. In 'set', 'charge'
and 'expect' a value may also be a formula, as $a&!$b, or a list of letters and
formulas with commas between them, one for each node of a vector: 'set
bus=$b{3:0}'. In a formula ! binds tightest, then &, ^ and |. Each name that no
'let' defines is a variable, 0 or 1; the first that appears counts most.
Lines are those of 'sim', with ? where two values differ. An expectation that
isn't met for some values tells the first of these, 'where $a=0 $b=1'; past 64
variables only those that are 1. The status is then 1.
All commands stand but 'report', 'keep' and 'wide' (S1 BadCommand); besides
there are 'variables', 'let' and 'vertices'. If the name NET ends in .sp, .spi,
.spice, .cir or .ckt, it is a SPICE deck. A line of NET or SCRIPT is refused as
in 'sim', one of a deck as in 'sim-spice'; and S18 NameDefined,
S19 TooManyVariables past 4096. Status 8: more vertices were wanted than
'vertices' allows.
",
    ),
    (
        "equiv",
        "cosmos equiv NET1 NET2 SCRIPT
Runs SCRIPT as 'symbolic' does on NET1 and on NET2, and compares what the
watched words show in each line. For each word that differs for some values it
prints 'differ N WORD LETTERS LETTERS where ..', with the first such values,
and last 'equal LINES' or 'different COUNT' (status 1). Numbers of steps don't
count.
'expect', 'show' and 'look' are S1 BadCommand too. A refusal is told alone,
after 'first net: ' or 'second net: ' (status 3 or 4). Each net is a SPICE deck
if its name ends in .sp, .spi, .spice, .cir or .ckt. Status 8 as in 'symbolic'.
",
    ),
    (
        "batch",
        "cosmos batch NET L SCRIPT
Runs SCRIPT in L columns at once, L from 1 to 64. In 'set' and 'charge' a value
is one letter for all columns, or L letters, the first for the first column:
with L = 3 'set a=01X'. Each line has the number of its column before it; the
first lines of all columns come first, then the second ones.
Refused are 'expect', 'show', 'look', 'save', 'back', 'report' and 'keep'
(S1 BadCommand), and a value of another number of letters (S4 BadValue); all
else is as in 'sim'.
",
    ),
    (
        "check",
        "cosmos check NET
Reads the .sim netlist NET, and prints 'ok nodes N switches S names M': the
numbers of nodes, with the two rails, of transistors, and of names, without the
rails' own.
A line of NET is refused as in 'sim' (status 3).
",
    ),
    (
        "groups",
        "cosmos groups NET
Prints a line for each channel-connected group: 'group I nodes N switches S
text T: NAMES'. T is the number of the first group that is alike, or - if the
group has more than 200 nodes or 800 switches, which a script takes after
'wide N' alone. A group so large mostly has a supply that a line '= Vdd NAME'
should join to its rail, or is a long bit line.
A line of NET is refused as in 'sim' (status 3).
",
    ),
    (
        "compile",
        "cosmos compile NET
Writes the circuit as straight-line code, which means its unit step in every
state, X included: a line for each node, the lines of the code, and a line
for the next state of each storage node.
Refused (status 3): a line of NET as in 'sim'; a group of more than 200 nodes
(G1 GroupNodes) or 800 switches (G2 GroupSwitches).
",
    ),
    (
        "lint",
        "cosmos lint NET
Prints a line for each thing that an extracted netlist most often has wrong,
and a last line with their numbers. The status is 1 if there is any:
shorted K..        transistors that always conduct and join Vdd with Gnd
floating NAME N    the gate of N transistors, and the source or drain of none
undriven NAME N    a group of N nodes, joined to no rail and no input node
never-one NAME N   a group that is joined to Gnd alone; never-zero: to Vdd
dead K N           N equal transistors, the first of them K, that do nothing
supply NAME        a node that is called like a supply, and is no rail
wide NAME N S      a group of N nodes and S switches, more than 200 or 800
unused NAME        a node at which there is no transistor
If the name NET ends in .sp, .spi, .spice, .cir or .ckt, it is a SPICE deck.
A line of NET is refused as in 'sim', one of a deck as in 'sim-spice' (status
3).
",
    ),
    (
        "talk",
        "cosmos talk NET
Reads the circuit, and then lines from standard input, each obeyed when it
comes and answered before the next one is read. All commands of scripts, and:
why NAME       why the node may be 1, and why it may be 0, at this point
echo WORD..    prints 'echo' and the words
quit           ends, as the end of the input does
A refused line prints 'line L: ' and its code, changes nothing, and the talk
goes on. The status is 1 if an expectation was not met. If the name NET ends
in .sp, .spi, .spice, .cir or .ckt, it is a SPICE deck. NET is refused as in
'sim', a deck as in 'sim-spice' (status 3).
",
    ),
    (
        "gen",
        "cosmos gen PART KIND SEED N
Writes a generated netlist (PART is 'net') or its script ('script') of N rows,
from 1 to 10000. KIND is 'inverters', 'passes' or 'columns'; SEED is a decimal
from which the states in the script are drawn.
It reads no file and is never refused, but other words are a bad command line.
",
    ),
    (
        "large",
        "cosmos large KIND SEED N
Makes the netlist and the script of 'gen' and runs it, and prints one line:
nodes, transistors, printed lines, their steps, their marks *, and how many
states in them were 0, 1 and X.
Refusals are those of 'sim', told alone.
",
    ),
    (
        "help",
        "cosmos help
cosmos help WORD
Prints a page on all requests and commands; or of the request or the command
WORD its form, what it does, and what it is refused for. In a form a word in
capitals stands for one of yours, NAME.. for one or more, and [NAME] for one or
none.
It reads no file. A WORD that is neither is a bad command line (status 2).
",
    ),
    (
        "version",
        "cosmos version
Prints one line: the program's version, and the toolchain that it is proved
with.
It reads no file and is never refused.
",
    ),
];

/// Each command of a script or a talk, likewise.
pub const COMMANDS: [(&str, &str); 29] = [
    (
        "input",
        "input NAME..
Makes the nodes input nodes. They keep their states, which only 'set' and
'cycle' change from then on. A line 'A NAME input' of a netlist does this too.
Refused: S2 FewWords; E1 UnknownNode, E3 Rail.
",
    ),
    (
        "store",
        "store NAME SIZE
Makes the node a storage node of this size, from 1 to 3, in profile 2 from 1 to
8. It keeps its state. Where charge is shared the larger size wins.
Refused: S2 FewWords, S3 ManyWords, S5 BadNumber for a SIZE that is no decimal;
E1 UnknownNode, E3 Rail, E5 BadSize.
",
    ),
    (
        "set",
        "set NAME=V..
Gives input nodes their states, from left to right; V is 0, 1, X or x. The name
ends at the last =. At a vector's name V is a letter for all of its nodes, or
one for each, or %h and hexadecimal digits, or %d and a decimal, whose highest
bit is the first node's: 'set bus=%h5'. 'batch' sets no vector.
Refused: S2 FewWords, S4 BadValue for a word that is no assignment, or for more
than a letter at a name of no vector; E1 UnknownNode, S14 VectorValue, E3 Rail,
S6 NotInput for a storage node ('input NAME' first).
",
    ),
    (
        "charge",
        "charge NAME=V..
Gives storage nodes their states, from left to right; V is 0, 1, X or x. The
name ends at the last =. At a vector's name V is as in 'set'.
Refused: S2 FewWords, S4 BadValue as for 'set'; E1 UnknownNode,
S14 VectorValue, E3 Rail, S7 NotStore for an input node ('set' is for these).
",
    ),
    (
        "watch",
        "watch NAME..
Appends the nodes to the watch list, whose states each printed line shows in
this order. Where nothing is watched a line has - in their place.
Refused: S2 FewWords; E1 UnknownNode, S10 TooManyWatched past 256 entries.
In 'vcd' behind a step, phase or cycle: S17 LateWatch.
",
    ),
    (
        "limit",
        "limit N
Sets how many unit steps a phase makes before it goes on with joining steps,
which make what still moves X: N from 1 to 1000000. At the start it is 100.
Refused: S2 FewWords, S3 ManyWords, S5 BadNumber.
",
    ),
    (
        "step",
        "step
Makes one unit step: every node takes its steady state at once. It prints a
line: its number, 1, and the states of the watched nodes.
Refused: S3 ManyWords; G1 GroupNodes if a group has more than 200 nodes,
G2 GroupSwitches if one has more than 800 switches, unless 'wide N' allows it.
",
    ),
    (
        "phase",
        "phase
Makes unit steps until nothing changes, and past the limit joining steps, which
make what still moves X. It prints a line: its number, how many steps changed
something, * if a joining step did, and the states of the watched nodes.
Refused: S3 ManyWords; G1 GroupNodes if a group has more than 200 nodes,
G2 GroupSwitches if one has more than 800 switches, unless 'wide N' allows it.
",
    ),
    (
        "clock",
        "clock NAME=LETTERS..
Replaces all clocks. LETTERS are the node's states 0, 1, X or x at the places
of a cycle, as many for each node: 'clock phi1=0100 phi2=0001'. A node that is
named twice has the later letters.
Refused: S2 FewWords, S4 BadValue for a word that isn't of this form;
S8 ClockLength, E1 UnknownNode, E3 Rail, S6 NotInput ('input NAME' first).
",
    ),
    (
        "cycle",
        "cycle N
N times, for each place of the clocks in order, it sets each clock's node to
its letter there and does what 'phase' does, its line included. N is from 1 to
1000000.
Refused: S2 FewWords, S3 ManyWords, S5 BadNumber; S9 NoClock before the first
'clock', S6 NotInput if a clock's node was made a storage node; G1 GroupNodes
and G2 GroupSwitches as for 'phase'.
",
    ),
    (
        "expect",
        "expect NAME=V..
Compares nodes with states; V is 0, 1, X or x, and at a vector's name as in
'set', or with - for any state. Each name that differs prints a line,
'expect out=1 got X after 3': after 3 lines of steps and phases. 'sim' and
'sim-spice' then end with status 1. In 'why', 'faults' and 'large' it counts
for nothing, and 'batch' has no 'expect'.
Refused: S2 FewWords, S4 BadValue as for 'set'; E1 UnknownNode,
S14 VectorValue.
",
    ),
    (
        "vector",
        "vector NAME WORD..
Gives NAME to the nodes of the words, in order, in the place of those that it
had. A word is a node's name; or a vector's; or it has a range, 'd{7:0}', and
stands for the words with each number of it; or it has a *, and stands for all
nodes but the rails with a name that it matches, a * being any bytes.
'input', 'watch', 'show', 'set', 'charge' and 'expect' take NAME. A node that is
called NAME later hides it.
Refused: S2 FewWords; S12 NameTaken if a node is called so; E1 UnknownNode;
S13 TooMany past 65536 nodes, 4194304 in all vectors or 16 ranges in a word.
",
    ),
    (
        "show",
        "show NAME..
Prints a line for each name, 'show out 0': the present states of its nodes. It
builds nothing and changes nothing. In 'why', 'faults' and 'large' its lines
aren't printed, and 'batch' has no 'show'.
Refused: S2 FewWords; E1 UnknownNode.
",
    ),
    (
        "look",
        "look NAME..
Prints what there is at each node: 'look out 0 size:1', with its state and what
it is; 'at 1 p 2 open gate a 1 end Vdd 1' for each transistor with an end at
it, with number, kind, strength, what its switch does, its gate and its other
end; and 'gate 1 p 2 open ends Vdd 1 out 0' for each that it is the gate of. It
builds nothing and changes nothing. In 'why', 'faults' and 'large' its lines
aren't printed, and 'batch' has no 'look'.
Refused: S2 FewWords; E1 UnknownNode.
",
    ),
    (
        "save",
        "save NAME
Keeps the present states of all nodes under NAME, any word, for 'back NAME'. It
takes the place of what NAME kept. 'batch' has no 'save'.
Refused: S2 FewWords, S3 ManyWords; S15 TooManySaves if 64 other names are kept.
",
    ),
    (
        "back",
        "back NAME
Gives every node that was there at 'save NAME', inputs too, the state that was
kept; nodes made since keep theirs, and limits, clocks, the watch list, the
circuit and counts stay. 'batch' has no 'back'.
Refused: S2 FewWords, S3 ManyWords; S16 NoSave if NAME keeps nothing.
",
    ),
    (
        "add",
        "add KIND GATE SOURCE DRAIN [STRENGTH]
Adds a transistor; KIND is n, e, p or d. Its number is one more than that of
the last one made. Its strength is 1 to 4, in profile 2 1 to 7; if none is
written, 1 for d and 2 for the others. New names make storage nodes of size 1,
at X.
Refused: S2 FewWords, S3 ManyWords, S4 BadValue for another KIND, S5 BadNumber
for a STRENGTH that is no decimal; E4 BadStrength, E7 TooManyNodes,
E8 TooManySwitches.
",
    ),
    (
        "del",
        "del K
Removes transistor K. Transistors are numbered from 1 in the order of the
netlist's lines, and 'add' goes on from there; no number is used again.
Refused: S2 FewWords, S3 ManyWords, S5 BadNumber for a K that is no decimal;
E2 NoSuchSwitch.
",
    ),
    (
        "strength",
        "strength K STRENGTH
Sets the strength of transistor K, from 1 to 4, in profile 2 from 1 to 7. Where
two paths meet the weaker one is blocked.
Refused: S2 FewWords, S3 ManyWords, S5 BadNumber for a word that is no decimal;
E2 NoSuchSwitch, E4 BadStrength.
",
    ),
    (
        "type",
        "type K KIND
Sets the kind of transistor K: n or e, p, or d, which always conducts. Its
strength stays.
Refused: S2 FewWords, S3 ManyWords, S5 BadNumber for a K that is no decimal,
S4 BadValue for another KIND; E2 NoSuchSwitch.
",
    ),
    (
        "wire",
        "wire K GATE SOURCE DRAIN
Joins transistor K to these nodes; its kind and strength stay. New names make
storage nodes of size 1, at X.
Refused: S2 FewWords, S3 ManyWords, S5 BadNumber for a K that is no decimal;
E2 NoSuchSwitch, E7 TooManyNodes.
",
    ),
    (
        "report",
        "report
Prints 'groups G texts T new N': the numbers of groups, of their distinct
texts, and of texts that were analysed since the last report. 'batch' has no
'report'.
Refused: S3 ManyWords; G1 GroupNodes if a group has more than 200 nodes,
G2 GroupSwitches if one has more than 800 switches, unless 'wide N' allows it.
",
    ),
    (
        "keep",
        "keep N
Sets how many texts of groups at most have their analyses kept, from the next
build on: N from 1 to 1000000, though all those of the present circuit stay. At
the start there is no bound. No state depends on it. 'batch' has no 'keep'.
Refused: S2 FewWords, S3 ManyWords, S5 BadNumber.
",
    ),
    (
        "wide",
        "wide N
Lets a group have up to N nodes, N from 200 to 1000000, and any number of
switches, from the next build on. One of more than 200 nodes or 800 switches has
no text: 'report' counts it among the groups alone.
Refused: S2 FewWords, S3 ManyWords, S5 BadNumber.
",
    ),
    (
        "variables",
        "variables WORD..
Under 'symbolic' and 'equiv': lets the names be variables, in this order. A
WORD is $name, or has a range: '$a{3:0}' is $a3 $a2 $a1 $a0. It does nothing
when it is obeyed. The order decides how many vertices a run needs: the highest
bit first, operands in turn, addresses before data.
Refused: S2 FewWords, S4 BadValue for a word that is no name;
S19 TooManyVariables past 4096.
",
    ),
    (
        "let",
        "let $NAME FORMULA
Under 'symbolic' and 'equiv': from the next line on $NAME stands for what the
formula is here. It does nothing when it is obeyed.
Refused: S2 FewWords, S3 ManyWords, S4 BadValue for words that are no name and
no formula; S18 NameDefined for a name that is defined, or is a variable by now;
S19 TooManyVariables past 4096.
",
    ),
    (
        "vertices",
        "vertices N
Under 'symbolic' and 'equiv': bounds the number of vertices of the decision
graph in which all states stand, N from 2 to 4294967295. The last one counts,
for the whole script; without it N is 16777216. Where one more is wanted the
run ends with status 8. It does nothing when it is obeyed.
Refused: S2 FewWords, S3 ManyWords, S5 BadNumber.
",
    ),
    (
        "echo",
        "echo WORD..
In a talk: prints 'echo' and the words, with single spaces, so that a program
knows where an answer ends. No script has it.
Refused: S2 FewWords.
",
    ),
    (
        "quit",
        "quit
In a talk: ends it, as the end of the input does. No script has it.
Refused: S3 ManyWords.
",
    ),
];

/// The text of the first topic with this name, if there is one.
#[tactic(auto, using(crate::proofs::TopicLemmas::topic_first, crate::proofs::TopicLemmas::topic_later))]
pub fn topic(word: &str) -> Option<&'static str>
    ensures { option_map (λ text. text.now) result ≡ spec.text_of spec.topics word.now }
{
    match text_of(all_requests(), word.as_bytes()) {
        Some(text) => Some(text),
        None => text_of(all_commands(), word.as_bytes()),
    }
}

// All requests.
fn all_requests() -> &'static [(&'static str, &'static str)]
    ensures { spec.entries_of result.now ≡ spec.requests }
{
    &REQUESTS
}

// All commands.
fn all_commands() -> &'static [(&'static str, &'static str)]
    ensures { spec.entries_of result.now ≡ spec.commands }
{
    &COMMANDS
}
