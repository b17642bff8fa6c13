//! The page of help, the usage, and the version's line.

ghost use Rattle.std.specs.Prelude.{◌≡◌};

/// What the program is, all requests, the script's commands, examples, the exit status and the documents.
pub const PAGE: &str = "\
Cosmos: a proved switch-level simulator for MOS circuits, by Bryant's model.

  cosmos sim NET SCRIPT           run the script on the netlist, a line a phase
  cosmos sim-spice DECK SCRIPT    the same on the transistors of a SPICE deck
  cosmos why NET SCRIPT NODE      the paths that make the node 1, and 0
  cosmos faults NET SCRIPT LIST   run it under each fault; tell if it shows
  cosmos vcd NET SCRIPT           run it, and write waveforms for a viewer
  cosmos cover NET SCRIPT         tell which of 0 and 1 each node never had
  cosmos symbolic NET SCRIPT      run it for all values of its named bits
  cosmos equiv NET1 NET2 SCRIPT   tell where two netlists differ under it
  cosmos batch NET L SCRIPT       run it in L columns at once, L from 1 to 64
  cosmos check NET                count nodes, transistors and names
  cosmos groups NET               list the channel-connected groups
  cosmos compile NET              write the circuit as straight-line code
  cosmos lint NET                 find what a netlist most often has wrong
  cosmos talk NET                 obey lines as they come, from standard input
  cosmos gen PART KIND SEED N     write a generated netlist or its script
  cosmos large KIND SEED N        run such a script, and sum it up in one line
  cosmos help [WORD]              this page, or one request or command in full
  cosmos version                  the program's version

A script has a command on each line; a line that begins with | is a comment.
  input, store     make nodes inputs; make a node a storage node of a size
  set, charge      put 0, 1 or X on inputs; put it on storage nodes
  watch, expect    show nodes in each printed line; compare their states
  vector           give a name to nodes, as a bus
  show, look       print the states of nodes; print what there is at them
  save, back       keep all states under a name; give them back
  step, phase      one unit step; steps until nothing changes
  limit            how long a phase may be before what still moves becomes X
  clock, cycle     the letters of clocks; run through them N times
  add, del, strength, type, wire    change transistors while the script runs
  report, keep     count groups and analyses; bound what is kept of these
  wide             let groups have more than 200 nodes
  variables, let, vertices    under 'symbolic' and 'equiv': named bits

Examples, from the folder of the README:
  ./cosmos sim examples/inverter.sim examples/inverter.cmd
  ./cosmos why examples/unknown-nodes.sim examples/unknown-nodes.cmd cell
  ./cosmos sim-spice examples/two-inverters.sp examples/two-inverters.cmd

Exit status: 0; 1 an expectation isn't met, or findings or differences; 2 a bad
command line or NODE; 3 NET or DECK refused; 4 SCRIPT or LIST refused; 5
reading; 6 writing; 7 no memory; 8 no more vertices. For 3 and 4 standard
error has the refused line's number, its code and a cure.
Documents: README.md, and in docs/ USING.md, FORMATS.md, MODEL.md and others.
";

/// What a bad command line is answered with: the forms of all requests.
pub const USAGE: &str = "\
usage: cosmos sim NET SCRIPT
       cosmos sim-spice DECK SCRIPT
       cosmos why NET SCRIPT NODE
       cosmos faults NET SCRIPT LIST
       cosmos vcd NET SCRIPT
       cosmos cover NET SCRIPT
       cosmos symbolic NET SCRIPT
       cosmos equiv NET1 NET2 SCRIPT
       cosmos batch NET L SCRIPT
       cosmos check NET
       cosmos groups NET
       cosmos compile NET
       cosmos lint NET
       cosmos talk NET
       cosmos gen PART KIND SEED N
       cosmos large KIND SEED N
       cosmos version
'cosmos help' says what each does, and 'cosmos help sim' more of one.
";

/// The line of the program's version, with the toolchain that its proofs are for.
pub const VERSION: &str = "cosmos 1.0.0 (proved with rattle-kit-13f logic dac8208d650f15bf)\n";

/// The page of help.
pub fn page() -> &'static str
    ensures { result.now ≡ PAGE.now }
{
    PAGE
}

/// The usage.
pub fn usage() -> &'static str
    ensures { result.now ≡ USAGE.now }
{
    USAGE
}

/// The version's line.
pub fn version() -> &'static str
    ensures { result.now ≡ VERSION.now }
{
    VERSION
}
